//! What an object can do next.

ghost use Rattle.std.specs.Prelude.{◌≡◌, ◌<◌, ◌≤◌, is_some, length, None, true};
ghost use Rattle.chare_base.specs.Elements.{elements, place_of};
ghost use Rattle.chare_base.specs.Entries.{source_of};
ghost use Rattle.chare_base.specs.Ports.{port_needed};
ghost use Rattle.chare_eval.specs.Inside.{is_done};
ghost use Rattle.object_steps.specs.Objects.{arrived_at, awaited_from, can_run, edge_at, edge_given, edge_of, held_for, is_surrounded, key_of, needs_entry, read_from, ready_from};

use chare_base::message::{EntryId, Need, Payload, Port, Source};
use chare_base::plan::{ElementId, Part, Place, Plan, Spot};
use ref_messages::key::RefKey;
use ref_messages::queue::RefQueue;

/// What an object can do next.
#[derive(Clone, Copy, Debug, PartialEq, Eq)]
pub enum Ready {
    /// Run this part of its step: what it needs is there.
    Step { spot: Spot },
    /// Nothing, until a message comes at this port.
    Await { port: Port },
    /// Begin an iteration: it is between two.
    AtTop,
}

/// An element where it stands, in an iteration, with the messages that came for it.
#[derive(Clone, Copy)]
pub(crate) struct Standpoint<'a> {
    pub(crate) element: ElementId,
    pub(crate) place: Place,
    // Whether some element sends to it at each entry of its array.
    pub(crate) surrounded: bool,
    pub(crate) iteration: u64,
    pub(crate) mail: &'a RefQueue,
}

// Of a step's parts: the first that isn't done and can run, else the first port that one waits at.
pub(crate) fn chosen(
    plan: &Plan,
    at: Standpoint<'_>,
    step: u8,
    done: &[bool],
    parts: &[Part],
) -> Ready
    requires element { at.element.0 < elements plan.now }
    requires place { at.place ≡ place_of plan.now at.element.0 }
    requires surrounded { at.surrounded ≡ is_surrounded plan.now at.element.0 }
    requires few { length parts.now ≤ 8 }
    ensures { result ≡ ready_from
        (arrived_at plan.now at.entry.element.0 at.entry.iteration at.entry.mail.now) step done.now
        0 None parts.now }
{
    let mut missing = None;
    for (i, part) in parts.iter().enumerate() {
        let need = part.need;
        if !is_done(done, i) {
            if can_run(plan, at, need) {
                let part = i as u8;
                return Ready::Step {
                    spot: Spot { step, part },
                };
            }
            missing = missing.or(port_needed(need));
        }
    }
    match missing {
        Some(port) => Ready::Await { port },
        None => Ready::AtTop,
    }
}

// Whether one of a step's parts that aren't done needs the message of an entry.
pub(crate) fn awaited(entry: EntryId, done: &[bool], parts: &[Part]) -> bool
    requires { length parts.now ≤ 8 }
    ensures { result ≡ awaited_from entry.0 done.now 0 parts.now }
{
    for (i, part) in parts.iter().enumerate() {
        if !is_done(done, i) && needs_entry(entry, part.need) {
            return true;
        }
    }
    false
}

fn needs_entry(entry: EntryId, need: Need) -> bool
    ensures { result ≡ needs_entry entry.0 need }
{
    match need {
        Need::Nothing => false,
        Need::Port(Port::Entry(e)) => e.0 == entry.0,
        Need::Port(Port::Total(_)) => false,
    }
}

// Whether what a part needs is there.
fn can_run(plan: &Plan, at: Standpoint<'_>, need: Need) -> bool
    requires element { at.element.0 < elements plan.now }
    requires place { at.place ≡ place_of plan.now at.element.0 }
    requires surrounded { at.surrounded ≡ is_surrounded plan.now at.element.0 }
    ensures { result ≡ can_run
        (arrived_at plan.now at.entry.element.0 at.entry.iteration at.entry.mail.now) need }
{
    match need {
        Need::Nothing => true,
        Need::Port(port) => is_there(plan, at, port),
    }
}

// Under what the message is held that comes at a port in the iteration.
fn key_of(at: Standpoint<'_>, port: Port) -> RefKey
    ensures { result ≡ key_of at.entry.iteration port }
{
    RefKey {
        iteration: at.iteration,
        port,
    }
}

// Whether the element finds something at a port. Where a message is held, it doesn't matter who stands there.
#[tactic(auto, using(crate::proofs::Finding::held, crate::proofs::Finding::at_edge))]
fn is_there(plan: &Plan, at: Standpoint<'_>, port: Port) -> bool
    requires element { at.element.0 < elements plan.now }
    requires place { at.place ≡ place_of plan.now at.element.0 }
    requires surrounded { at.surrounded ≡ is_surrounded plan.now at.element.0 }
    ensures { result ≡ is_some
        (arrived_at plan.now at.entry.element.0 at.entry.iteration at.entry.mail.now port) }
{
    if at.mail.has(key_of(at, port)) {
        return true;
    }
    is_edge_at(plan, at, port)
}

// Whether nobody stands where the message at a port would come from.
fn is_edge_at(plan: &Plan, at: Standpoint<'_>, port: Port) -> bool
    requires element { at.element.0 < elements plan.now }
    requires place { at.place ≡ place_of plan.now at.element.0 }
    requires surrounded { at.surrounded ≡ is_surrounded plan.now at.element.0 }
    ensures { result ≡ is_some (edge_at plan.now at.entry.element.0 port) }
{
    match port {
        Port::Entry(entry) => is_edge_behind(plan, at, entry),
        Port::Total(_) => false,
    }
}

// The same at an entry.
#[tactic(auto, unfolding(chare_base::specs::Entries::source_of))]
fn is_edge_behind(plan: &Plan, at: Standpoint<'_>, entry: EntryId) -> bool
    requires element { at.element.0 < elements plan.now }
    requires place { at.place ≡ place_of plan.now at.element.0 }
    requires surrounded { at.surrounded ≡ is_surrounded plan.now at.element.0 }
    ensures { result ≡ is_some (edge_of (source_of plan.now entry.0 at.entry.element.0)) }
{
    if entry.0 as usize >= plan.entries.len() {
        return true;
    }
    if has_known_sender(plan, at, entry) {
        return false;
    }
    is_edge(plan.source_at(entry, at.element, at.place.index))
}

// What the edge gives where nobody stands who would send the message at a port.
fn edge_at(plan: &Plan, at: Standpoint<'_>, port: Port) -> Option<Payload>
    requires element { at.element.0 < elements plan.now }
    requires place { at.place ≡ place_of plan.now at.element.0 }
    requires surrounded { at.surrounded ≡ is_surrounded plan.now at.element.0 }
    ensures { result ≡ edge_at plan.now at.entry.element.0 port }
{
    match port {
        Port::Entry(entry) => edge_behind(plan, at, entry),
        Port::Total(_) => None,
    }
}

// The same at an entry.
#[tactic(auto, unfolding(chare_base::specs::Entries::source_of))]
fn edge_behind(plan: &Plan, at: Standpoint<'_>, entry: EntryId) -> Option<Payload>
    requires element { at.element.0 < elements plan.now }
    requires place { at.place ≡ place_of plan.now at.element.0 }
    requires surrounded { at.surrounded ≡ is_surrounded plan.now at.element.0 }
    ensures { result ≡ edge_of (source_of plan.now entry.0 at.entry.element.0) }
{
    if entry.0 as usize >= plan.entries.len() {
        return Some(Payload::NONE);
    }
    if has_known_sender(plan, at, entry) {
        return None;
    }
    edge_of(plan.source_at(entry, at.element, at.place.index))
}

// Whether it is known, with no neighbour worked out, that some element sends at an entry.
#[tactic(auto, using(crate::proofs::Finding::sent))]
fn has_known_sender(plan: &Plan, at: Standpoint<'_>, entry: EntryId) -> bool
    requires entry { entry.0 < length plan.now.entries }
    requires place { at.place ≡ place_of plan.now at.element.0 }
    requires surrounded { at.surrounded ≡ is_surrounded plan.now at.element.0 }
    ensures { result ≡ true → edge_of (source_of plan.now entry.0 at.entry.element.0) ≡ None }
{
    at.surrounded && plan.entry(entry).owner == at.place.array
}

// Whether some element sends to an element at each entry of its array.
#[tactic(auto, unfolding(crate::specs::Objects::is_surrounded), using(crate::proofs::Finding::entries_few))]
pub(crate) fn is_surrounded(plan: &Plan, e: ElementId, place: Place) -> bool
    requires element { e.0 < elements plan.now }
    requires place { place ≡ place_of plan.now e.0 }
    ensures { result ≡ is_surrounded plan.now e.0 }
{
    for (i, entry) in plan.entries.as_slice().iter().enumerate() {
        let number = EntryId(i as u16);
        if entry.owner == place.array && is_edge(plan.source_at(number, e, place.index)) {
            return false;
        }
    }
    true
}

fn is_edge(source: Source) -> bool
    ensures { result ≡ is_some (edge_of source) }
{
    match source {
        Source::Element(_) => false,
        Source::Edge(_) => true,
    }
}

fn edge_of(source: Source) -> Option<Payload>
    ensures { result ≡ edge_of source }
{
    match source {
        Source::Element(_) => None,
        Source::Edge(payload) => Some(payload),
    }
}

// The same for what a part needs.
pub(crate) fn edge_given(plan: &Plan, at: Standpoint<'_>, need: Need) -> Option<Payload>
    requires element { at.element.0 < elements plan.now }
    requires place { at.place ≡ place_of plan.now at.element.0 }
    requires surrounded { at.surrounded ≡ is_surrounded plan.now at.element.0 }
    ensures { result ≡ edge_given plan.now at.entry.element.0 need }
{
    match need {
        Need::Nothing => None,
        Need::Port(port) => edge_at(plan, at, port),
    }
}

// The payload that comes with what a part needs, where it lies: the edge's, if there is one, else that of the message
// that is held. Where nothing is needed or there, it is an empty one.
pub(crate) fn given<'a>(at: Standpoint<'a>, need: Need, edge: &'a Option<Payload>) -> &'a Payload
    ensures { result.now ≡ read_from edge.now (held_for need at.entry.iteration at.entry.mail.now) }
{
    if let Some(payload) = edge {
        return payload;
    }
    match need {
        Need::Nothing => &Payload::NONE,
        Need::Port(port) => match at.mail.get(key_of(at, port)) {
            Some(payload) => payload,
            None => &Payload::NONE,
        },
    }
}

// The port that a part needs, if it needs one.
fn port_needed(need: Need) -> Option<Port>
    ensures { result ≡ port_needed need }
{
    match need {
        Need::Nothing => None,
        Need::Port(port) => Some(port),
    }
}

// Whether a part is done.
pub(crate) fn is_done(done: &[bool], part: usize) -> bool
    ensures { result ≡ is_done done.now part }
{
    done.get(part).copied().unwrap_or(false)
}
