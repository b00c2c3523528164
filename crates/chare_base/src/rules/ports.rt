//! The rule on ports: each is sent to once in an iteration, and received from once, in a later step.

ghost use Rattle.std.specs.Prelude.{◌≡◌, ◌≤◌, ◌+◌, ◌==◌, min, nat_lt, map};
ghost use Rattle.std.specs.List.{list_all};
ghost use Rattle.chare_base.specs.Ports.{ports_hold, port_holds, steps_in, steps_send, steps_take, parts_send, parts_take, block_sends, stmt_sends, takes, same_port, sending_step, taking_step, before, entries_from, reductions_from, array_sends_directly, step_sends_directly, part_sends_directly, sends_directly, is_quiet, all_quiet};
ghost use Rattle.chare_base.specs.PortKeys.{port_of};

use crate::message::{Need, Port};
use crate::plan::{Array, Entry, Part, Reduction, Step, Stmt};

/// A port by its place among the entries or the reductions, however many there are.
#[derive(Clone, Copy)]
pub(crate) enum PortKey {
    Entry(usize),
    Total(usize),
}

/// Whether each entry and each reduction is sent to once, directly in a part's block, and received from once, in a
/// later step.
#[tactic(auto, unfolding(crate::specs::Ports::ports_hold))]
pub(crate) fn ports_hold(arrays: &[Array], entries: &[Entry], reductions: &[Reduction]) -> bool
    ensures { result ≡ ports_hold arrays.now entries.now reductions.now }
{
    arrays_send_directly(arrays)
        && entries_hold(arrays, entries)
        && reductions_hold(arrays, reductions)
}

fn entries_hold(arrays: &[Array], entries: &[Entry]) -> bool
    ensures { result ≡ entries_from arrays.now 0 entries.now }
{
    let mut holds = true;
    for (number, entry) in entries.iter().enumerate() {
        let port = PortKey::Entry(number);
        holds = holds && port_holds(arrays, port, entry.source, entry.owner);
    }
    holds
}

fn reductions_hold(arrays: &[Array], reductions: &[Reduction]) -> bool
    ensures { result ≡ reductions_from arrays.now 0 reductions.now }
{
    let mut holds = true;
    for (number, reduction) in reductions.iter().enumerate() {
        let port = PortKey::Total(number);
        holds = holds && port_holds(arrays, port, reduction.owner, reduction.owner);
    }
    holds
}

fn port_holds(arrays: &[Array], port: PortKey, source: u16, owner: u16) -> bool
    ensures { result ≡ port_holds arrays.now (port_of port) source owner }
{
    let source = steps_in(arrays, source);
    let owner = steps_in(arrays, owner);
    once(steps_send(port, source))
        && once(steps_take(port, owner))
        && before(sending_step(port, source), taking_step(port, owner))
}

// The steps of an array, none where there is no such array.
fn steps_in(arrays: &[Array], number: u16) -> &[Step]
    ensures { result.now ≡ steps_in arrays.now number }
{
    match arrays.get(number as usize) {
        Some(array) => array.steps.as_slice(),
        None => &[],
    }
}

fn before(first: Option<usize>, second: Option<usize>) -> bool
    ensures { result ≡ before first second }
{
    match (first, second) {
        (Some(first), Some(second)) => first < second,
        _ => false,
    }
}

fn same_port(key: PortKey, port: Port) -> bool
    ensures { result ≡ same_port (port_of key) port }
{
    match (key, port) {
        (PortKey::Entry(number), Port::Entry(entry)) => entry.0 as usize == number,
        (PortKey::Total(number), Port::Total(reduction)) => reduction.0 as usize == number,
        (PortKey::Entry(_), Port::Total(_)) | (PortKey::Total(_), Port::Entry(_)) => false,
    }
}

// Counts go up to 2, which stands for every greater number, so that none overflows.
fn sum(a: u8, b: u8) -> u8
    requires a { a ≤ 2 }
    requires b { b ≤ 2 }
    ensures { result ≡ min 2 (a + b) }
{
    (a + b).min(2)
}

fn once(count: u8) -> bool
    ensures { result ≡ (count == 1) }
{
    count == 1
}

// The first step that sends to a port.
fn sending_step(port: PortKey, steps: &[Step]) -> Option<usize>
    ensures { result ≡ sending_step (port_of port) steps.now }
{
    steps
        .iter()
        .position(|step| sends_some(port, step.parts.as_slice()))
}

fn sends_some(port: PortKey, parts: &[Part]) -> bool
    ensures { result ≡ nat_lt 0 (parts_send (port_of port) parts.now) }
{
    0 < parts_send(port, parts)
}

// How often steps send to a port.
fn steps_send(port: PortKey, steps: &[Step]) -> u8
    ensures { result ≡ min 2 (steps_send (port_of port) steps.now) }
{
    let mut count = 0;
    for step in steps {
        count = sum(count, parts_send(port, step.parts.as_slice()));
    }
    count
}

fn parts_send(port: PortKey, parts: &[Part]) -> u8
    ensures { result ≡ min 2 (parts_send (port_of port) parts.now) }
{
    let mut count = 0;
    for part in parts {
        count = sum(count, block_sends(port, part.block.as_slice()));
    }
    count
}

fn block_sends(port: PortKey, block: &[Stmt]) -> u8
    ensures { result ≡ min 2 (block_sends (port_of port) block.now) }
{
    let mut count = 0;
    for stmt in block {
        count = sum(count, stmt_sends(port, stmt));
    }
    count
}

fn stmt_sends(port: PortKey, stmt: &Stmt) -> u8
    ensures { result ≡ stmt_sends (port_of port) stmt.now }
{
    match stmt {
        Stmt::Send { entry, .. } => u8::from(same_port(port, Port::Entry(*entry))),
        Stmt::Contribute { reduction, .. } => u8::from(same_port(port, Port::Total(*reduction))),
        Stmt::Set { .. } | Stmt::SetAt { .. } | Stmt::If { .. } | Stmt::For { .. } => 0,
    }
}

// The first step that receives from a port.
fn taking_step(port: PortKey, steps: &[Step]) -> Option<usize>
    ensures { result ≡ taking_step (port_of port) steps.now }
{
    steps
        .iter()
        .position(|step| takes_some(port, step.parts.as_slice()))
}

fn takes_some(port: PortKey, parts: &[Part]) -> bool
    ensures { result ≡ nat_lt 0 (parts_take (port_of port) parts.now) }
{
    0 < parts_take(port, parts)
}

// How often steps receive from a port.
fn steps_take(port: PortKey, steps: &[Step]) -> u8
    ensures { result ≡ min 2 (steps_take (port_of port) steps.now) }
{
    let mut count = 0;
    for step in steps {
        count = sum(count, parts_take(port, step.parts.as_slice()));
    }
    count
}

fn parts_take(port: PortKey, parts: &[Part]) -> u8
    ensures { result ≡ min 2 (parts_take (port_of port) parts.now) }
{
    let mut count = 0;
    for part in parts {
        count = sum(count, takes(port, part.need));
    }
    count
}

fn takes(port: PortKey, need: Need) -> u8
    ensures { result ≡ takes (port_of port) need }
{
    match need {
        Need::Nothing => 0,
        Need::Port(needed) => u8::from(same_port(port, needed)),
    }
}

// ---- nothing is sent within an if or a loop

fn arrays_send_directly(arrays: &[Array]) -> bool
    ensures { result ≡ list_all array_sends_directly arrays.now }
{
    arrays
        .iter()
        .all(|array| steps_send_directly(array.steps.as_slice()))
}

fn steps_send_directly(steps: &[Step]) -> bool
    ensures { result ≡ list_all step_sends_directly steps.now }
{
    steps
        .iter()
        .all(|step| parts_send_directly(step.parts.as_slice()))
}

fn parts_send_directly(parts: &[Part]) -> bool
    ensures { result ≡ list_all part_sends_directly parts.now }
{
    parts
        .iter()
        .all(|part| block_sends_directly(part.block.as_slice()))
}

fn block_sends_directly(block: &[Stmt]) -> bool
    ensures { result ≡ list_all sends_directly block.now }
{
    block.iter().all(sends_directly)
}

fn sends_directly(stmt: &Stmt) -> bool
    ensures { result ≡ sends_directly stmt.now }
{
    match stmt {
        Stmt::If { yes, no, .. } => each_quiet(yes.as_slice()) && each_quiet(no.as_slice()),
        Stmt::For { block, .. } => each_quiet(block.as_slice()),
        Stmt::Set { .. } | Stmt::SetAt { .. } | Stmt::Send { .. } | Stmt::Contribute { .. } => true,
    }
}

fn each_quiet(block: &[Stmt]) -> bool
    ensures { result ≡ list_all is_quiet block.now }
{
    block.iter().all(is_quiet)
}

#[cycle(quiet)]
fn block_is_quiet(block: &[Stmt]) -> bool
    ensures { result ≡ all_quiet (map is_quiet block.now) }
{
    let mut quiet = true;
    for stmt in block {
        quiet = quiet && is_quiet(stmt);
    }
    quiet
}

// Whether a statement sends nothing, itself and within.
#[cycle(quiet)]
fn is_quiet(stmt: &Stmt) -> bool
    ensures { result ≡ is_quiet stmt.now }
{
    match stmt {
        Stmt::Set { .. } | Stmt::SetAt { .. } => true,
        Stmt::If { yes, no, .. } => {
            block_is_quiet(yes.as_slice()) && block_is_quiet(no.as_slice())
        }
        Stmt::For { block, .. } => block_is_quiet(block.as_slice()),
        Stmt::Send { .. } | Stmt::Contribute { .. } => false,
    }
}
