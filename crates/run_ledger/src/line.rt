//! The lines of a script as a run stands to them.

ghost use Rattle.std.specs.Prelude.{◌≡◌, ◌≤◌, ◌<◌, ◌^◌, ℕ, length, map, if◌then◌else◌, ◌+◌, ◌*◌, Some};
ghost use Rattle.std.specs.List.{list_any};
ghost use Rattle.chare_base.specs.declared.slots.SlotId.{SlotId};
ghost use Rattle.chare_eval.specs.Laws.{flips_before};
ghost use Rattle.fault_script.specs.Lines.{set_of};
ghost use Rattle.run_ledger.specs.Lines.{accepted, adopted, below_spent, crash_at, crash_slot, flip_spent, flips_where, fresh_line, is_below, is_crash_below, is_crash_of_below, is_flip_below, is_flip_of, is_of, live_crashes, rebased, shapes, spent_at, spent_line};

use chare_base::slots::SlotId;
use fault_script::fault::Fault;

/// A line of the script: whether it is still to strike, and whether it shaped the base.
#[derive(Clone, Copy, Debug, PartialEq, Eq)]
pub struct LedgerLine {
    pub fault: Fault,
    /// It isn't spent.
    pub live: bool,
    /// It is a flip that the base's states have in them.
    pub based: bool,
}

// The lines that a set is made of.
#[derive(Clone, Copy)]
pub(crate) enum Which {
    Live,
    Shapes(u8),
}

impl LedgerLine {
    // A line before the first record.
    pub(crate) fn fresh(fault: Fault) -> LedgerLine
        ensures { result ≡ fresh_line fault }
    {
        LedgerLine {
            fault,
            live: true,
            based: false,
        }
    }
}

fn is_flip_of(fault: Fault, replica: u8) -> bool
    ensures { result ≡ is_flip_of replica fault }
{
    match fault {
        Fault::Flip { replica: r, .. } => r == replica,
        Fault::Crash { .. } => false,
    }
}

fn is_flip_below(fault: Fault, k: u64) -> bool
    ensures { result ≡ is_flip_below k fault }
{
    match fault {
        Fault::Flip { at, .. } => at < k,
        Fault::Crash { .. } => false,
    }
}

fn is_below(fault: Fault, k: u64) -> bool
    ensures { result ≡ is_below k fault }
{
    match fault {
        Fault::Flip { at, .. } => at < k,
        Fault::Crash { at, .. } => at < k,
    }
}

fn is_crash_below(line: &LedgerLine, k: u64) -> bool
    ensures { result ≡ is_crash_below k line.now }
{
    match line.fault {
        Fault::Flip { .. } => false,
        Fault::Crash { at, .. } => line.live && at < k,
    }
}

fn is_crash_of_below(line: &LedgerLine, replica: u8, k: u64) -> bool
    ensures { result ≡ is_crash_of_below replica k line.now }
{
    match line.fault {
        Fault::Flip { .. } => false,
        Fault::Crash { slot, at } => line.live && slot.replica == replica && at < k,
    }
}

// The line shapes a replica.
fn shapes(line: &LedgerLine, replica: u8) -> bool
    ensures { result ≡ shapes replica line.now }
{
    line.based || (line.live && is_flip_of(line.fault, replica))
}

fn is_of(line: &LedgerLine, which: Which) -> bool
    ensures { result ≡ is_of which line.now }
{
    match which {
        Which::Live => line.live,
        Which::Shapes(replica) => shapes(line, replica),
    }
}

// The set of these lines: a bit for each, the lowest for the first.
pub(crate) fn set_of(lines: &[LedgerLine], which: Which) -> u64
    requires { length lines.now ≤ 64 }
    ensures exact { result ≡ set_of (is_of which) lines.now }
    ensures small { (n : ℕ) → length lines.now ≤ n → result < 2 ^ n }
{
    match lines.split_first() {
        None => 0,
        Some((line, more)) => with_bit(is_of(line, which), set_of(more, which)),
    }
}

fn with_bit(on: bool, set: u64) -> u64
    requires { set < 2 ^ 63 }
    ensures { result ≡ (if on then 1 else 0) + 2 * set }
{
    if on { 1 + 2 * set } else { 2 * set }
}

// A live line kills a slot before the iteration.
pub(crate) fn any_crash_below(lines: &[LedgerLine], k: u64) -> bool
    ensures { result ≡ list_any (is_crash_below k) lines.now }
{
    lines.iter().any(|line| is_crash_below(line, k))
}

// A live line kills a slot of the replica before the iteration.
pub(crate) fn any_crash_of_below(lines: &[LedgerLine], replica: u8, k: u64) -> bool
    ensures { result ≡ list_any (is_crash_of_below replica k) lines.now }
{
    lines.iter().any(|line| is_crash_of_below(line, replica, k))
}

// How many flips below an iteration shape the replica.
#[tactic(auto, using(crate::proofs::Counting::strikes_counted))]
pub(crate) fn strike_count(lines: &[LedgerLine], replica: u8, k: u64) -> usize
    ensures { result ≡ length (flips_before k (flips_where (shapes replica) lines.now)) }
{
    lines
        .iter()
        .filter(|line| shapes(line, replica) && is_flip_below(line.fault, k))
        .count()
}

// The slot that the line at a place kills, where it is a live crash line.
pub(crate) fn crash_at(lines: &[LedgerLine], at: usize) -> Option<SlotId>
    ensures { result ≡ crash_at lines.now at }
{
    match lines.get(at) {
        None => None,
        Some(line) => crash_slot(line),
    }
}

fn crash_slot(line: &LedgerLine) -> Option<SlotId>
    ensures { result ≡ crash_slot line.now }
{
    match line.fault {
        Fault::Flip { .. } => None,
        Fault::Crash { slot, .. } => { if line.live { Some(slot) } else { None } }
    }
}

// The line at a place is spent.
#[tactic(auto, using(crate::proofs::Counts::spent_at_length))]
pub(crate) fn spend_at(lines: &mut Vec<LedgerLine>, at: usize)
    ensures exact { lines.new.items ≡ spent_at at lines.old.items }
    ensures length { length lines.new.items ≡ length lines.old.items }
    ensures fewer { (slot : SlotId) → crash_at lines.old.items at ≡ Some slot
        → live_crashes lines.new.items + 1 ≡ live_crashes lines.old.items }
{
    if at < lines.len() {
        lines[at].live = false;
    }
}

// The flips below an iteration are spent.
pub(crate) fn spend_flips(lines: &mut Vec<LedgerLine>, k: u64)
    ensures exact { lines.new.items ≡ map (flip_spent k) lines.old.items }
    ensures length { length lines.new.items ≡ length lines.old.items }
    ensures fewer { live_crashes lines.new.items ≤ live_crashes lines.old.items }
{
    for i in 0..lines.len() {
        spend_flip(&mut lines[i], k);
    }
}

fn spend_flip(line: &mut LedgerLine, k: u64)
    ensures { line.new ≡ flip_spent k line.old }
{
    if is_flip_below(line.fault, k) {
        line.live = false;
    }
}

fn spend_below(line: &mut LedgerLine, k: u64)
    ensures { line.new ≡ below_spent k line.old }
{
    if is_below(line.fault, k) {
        line.live = false;
    }
}

// The flips below an iteration that shape a replica are the base's.
fn rebase(line: &mut LedgerLine, replica: u8, k: u64)
    ensures { line.new ≡ rebased replica k line.old }
{
    line.based = shapes(line, replica) && is_flip_below(line.fault, k);
}

// Both replicas' checkpoints are the base: the flips below it are spent.
pub(crate) fn accept(lines: &mut Vec<LedgerLine>, k: u64)
    ensures exact { lines.new.items ≡ map (accepted k) lines.old.items }
    ensures length { length lines.new.items ≡ length lines.old.items }
    ensures fewer { live_crashes lines.new.items ≤ live_crashes lines.old.items }
{
    for i in 0..lines.len() {
        accept_line(&mut lines[i], k);
    }
}

fn accept_line(line: &mut LedgerLine, k: u64)
    ensures { line.new ≡ accepted k line.old }
{
    rebase(line, 0, k);
    spend_flip(line, k);
}

// One replica's checkpoint is the base of both: all lines below it are spent.
pub(crate) fn adopt(lines: &mut Vec<LedgerLine>, k: u64, from: u8)
    ensures exact { lines.new.items ≡ map (adopted k from) lines.old.items }
    ensures length { length lines.new.items ≡ length lines.old.items }
    ensures fewer { live_crashes lines.new.items ≤ live_crashes lines.old.items }
{
    for i in 0..lines.len() {
        adopt_line(&mut lines[i], k, from);
    }
}

fn adopt_line(line: &mut LedgerLine, k: u64, from: u8)
    ensures { line.new ≡ adopted k from line.old }
{
    rebase(line, from, k);
    spend_below(line, k);
}
