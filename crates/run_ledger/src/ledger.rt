//! The ledger of a run.

ghost use Rattle.std.specs.Prelude.{◌≡◌, ◌≤◌, ◌+◌, ◌++◌, ◌∷◌, ℕ, length, map, None, Some, [], IfOk, IfErr, OnOk, OnErr, replicate, true};
ghost use Rattle.fault_script.specs.Lines.{faults_of};
ghost use Rattle.run_ledger.specs.Lines.{crash_at, fresh_line, live_crashes};
ghost use Rattle.run_ledger.specs.Ledgers.{after, both_raised, holds, is_down, lineage_set, live_set, opening_ledger, strikes, with_copies, with_crash};
ghost use Rattle.run_ledger.specs.Conditions.{bare_node, both_up, is_adoptable, is_spared, is_up, unlawful};
ghost use Rattle.run_ledger.specs.Lawful.{Allows, Moves, Tells};
ghost use Rattle.run_ledger.specs.declared.record.Record.{Record};
ghost use Rattle.chare_base.specs.declared.plan.ElementId.{ElementId};

use crate::conditions::{
    bare_node, due, either, first_false, is_next, is_number, is_strong, is_weak, other,
};
use crate::copies::{lose_if, standing, stands};
use crate::line::{
    LedgerLine, Which, accept, adopt, any_crash_below, any_crash_of_below, crash_at, set_of,
    spend_at, spend_flips, strike_count,
};
use crate::record::{Record, Records};
use chare_base::memory::Memory;
use chare_base::options::Options;
use chare_base::plan::Plan;
use chare_base::slots::{LineSet, SlotId};
use fault_script::fault::FaultLine;
use fault_script::script::Script;
use std::alloc::Global;
use std::marker::Model;

/// A record that may not be made.
#[derive(Clone, Copy, Debug, PartialEq, Eq)]
pub struct Unlawful {
    /// The number of the record's first condition that fails, from 1.
    pub which: u8,
}

/// What the records of a run made of it, and the records. Contracts see a `Journal`: the ledger's state, the records,
/// and how many more can be made without memory.
#[derive(Drop)]
pub struct Ledger {
    options: Options,
    iterations: u64,
    base: u64,
    lines: Vec<LedgerLine>,
    first_copies: Vec<bool>,
    second_copies: Vec<bool>,
    first_down: bool,
    second_down: bool,
    crashes: u32,
    ended: bool,
    records: Records,
    ghost few: { length lines.items ≤ 64 },
    // each crash spent a line
    ghost counted: { crashes + live_crashes lines.items ≤ 64 },
    ghost first_nodes: { length first_copies.items ≡ options.nodes },
    ghost second_nodes: { length second_copies.items ≡ options.nodes },
}

impl Model for Ledger {
    ghost use Rattle.run_ledger.specs.Ledgers.{Journal};

    ghost Value = { Journal };

    ghost view = { λ l. record { ledger = record { options = l.options; iterations = l.iterations; base = l.base; lines = l.lines.items; first_copies = l.first_copies.items; second_copies = l.second_copies.items; first_down = l.first_down; second_down = l.second_down; crashes = l.crashes; ended = l.ended }; records = l.records.items; spare = l.records.room } };
}

impl Ledger {
    /// The ledger before the first record: the base is the opening, all lines of the script are live, all copies
    /// stand, and both replicas are up.
    ///
    /// `Memory`: an allocation was refused.
    pub fn start(
        alloc: Global,
        script: &Script,
        options: &Options,
        iterations: u64,
    ) -> Result<Ledger, Memory>
        ensures opening { IfOk result
            (λ l. l.ledger ≡ opening_ledger (faults_of script.now) options.now iterations) }
        ensures records { IfOk result (λ l. l.records ≡ []) }
    {
        let lines = fresh_lines(alloc, script.as_slice())?;
        let first_copies = standing(alloc, options.nodes)?;
        let second_copies = standing(alloc, options.nodes)?;
        Ok(Ledger {
            options: *options,
            iterations,
            base: 0,
            lines,
            first_copies,
            second_copies,
            first_down: false,
            second_down: false,
            crashes: 0,
            ended: false,
            records: Records::new(alloc),
        })
    }

    /// Makes room for `more` records beyond those made, so that they can be made without memory.
    ///
    /// `Memory`: an allocation was refused, and all is as before.
    pub fn reserve(&mut self, more: u32) -> Result<(), Memory>
        ensures room { OnOk result (more ≤ self.new.spare) }
        ensures ledger { self.new.ledger ≡ self.old.ledger }
        ensures records { self.new.records ≡ self.old.records }
        ensures err { OnErr result (self.new ≡ self.old) }
    {
        self.records.reserve(more as usize)?;
        Ok(())
    }

    /// Makes a record, where its conditions hold; else it says which of them is the first that fails, and the ledger
    /// stays. What the record says of the replicas' states on this plan is the caller's to know: where it is true, the
    /// record is a lawful step. It takes no memory.
    pub fn apply(&mut self, plan: &Plan, step: Record) -> Result<(), Unlawful>
        requires { 1 ≤ self.old.spare }
        ensures made { OnOk result (Moves self.old self.new step) }
        ensures allowed { OnOk result
            (Tells plan.now self.old.ledger step → Allows plan.now self.old.ledger step) }
        ensures refused { IfErr result (λ u. unlawful self.old.ledger step ≡ Some u.which) }
        ensures stays { OnErr result (self.new ≡ self.old) }
    {
        if let Some(which) = self.unlawful(step) {
            return Err(Unlawful { which });
        }
        self.make(step);
        Ok(())
    }

    /// The lines that shape a replica: those of the base, and its flips that are still to strike.
    pub fn lineage(&self, replica: u8) -> LineSet
        ensures { result.0 ≡ lineage_set replica self.now.ledger }
    {
        LineSet(set_of(self.lines.as_slice(), Which::Shapes(replica)))
    }

    /// How many flips struck a replica before iteration `k`, on the way to its present states: at most 64.
    pub fn strikes(&self, replica: u8, k: u64) -> u64
        ensures { result ≡ strikes self.now.ledger replica k }
    {
        strike_count(self.lines.as_slice(), replica, k) as u64
    }

    /// How many iterations the base has done.
    pub fn base(&self) -> u64
        ensures { result ≡ self.now.ledger.base }
    {
        self.base
    }

    /// The lines that aren't spent.
    pub fn live(&self) -> LineSet
        ensures { result.0 ≡ live_set self.now.ledger }
    {
        LineSet(set_of(self.lines.as_slice(), Which::Live))
    }

    /// Whether the slot's copy of its piece of the base stands.
    pub fn holds(&self, slot: SlotId) -> bool
        ensures { result ≡ holds self.now.ledger slot }
    {
        match slot.replica {
            0 => stands(self.first_copies.as_slice(), slot.node),
            1 => stands(self.second_copies.as_slice(), slot.node),
            _ => false,
        }
    }

    /// Whether a slot of the replica crashed since it was last up.
    pub fn down(&self, replica: u8) -> bool
        ensures { result ≡ is_down self.now.ledger replica }
    {
        match replica {
            0 => self.first_down,
            1 => self.second_down,
            _ => false,
        }
    }

    /// How many crashes are recorded: at most 64.
    pub fn crashes(&self) -> u32
        ensures exact { result ≡ self.now.ledger.crashes }
        ensures few { result ≤ 64 }
    {
        self.crashes
    }

    /// The records that were made, in order.
    pub fn records(&self) -> &Records
        ensures { result.now.items ≡ self.now.records }
    {
        &self.records
    }

    /// The records alone, of a ledger that isn't needed any more.
    pub fn into_records(self) -> Records
        ensures { result.items ≡ self.records }
    {
        self.records
    }

    /// The options of the run, as given at the start.
    pub fn options(&self) -> Options
        ensures { result ≡ self.now.ledger.options }
    {
        self.options
    }

    /// The job's iterations, as given at the start.
    pub fn iterations(&self) -> u64
        ensures { result ≡ self.now.ledger.iterations }
    {
        self.iterations
    }

    // The number of the first condition of a record that fails.
    fn unlawful(&self, step: Record) -> Option<u8>
        ensures { result ≡ unlawful self.now.ledger step }
    {
        match step {
            Record::Accept { k } => self.checkpoint_unlawful(k),
            Record::Differ { k, .. } => self.checkpoint_unlawful(k),
            Record::Crash { line } => self.crash_unlawful(line),
            Record::Mend { replica } => self.mend_unlawful(replica),
            Record::Adopt { k, from } => self.adopt_unlawful(k, from),
            Record::Both => self.both_unlawful(),
            Record::NoSpare => first_false(&[!self.ended, !self.is_spared()]),
            Record::Lost { node } => self.lost_unlawful(node),
            Record::Done => self.done_unlawful(),
        }
    }

    // The same for a checkpoint of both replicas, whether they agree or not.
    fn checkpoint_unlawful(&self, k: u64) -> Option<u8>
        ensures accept { result ≡ unlawful self.now.ledger (Record.Accept k) }
        ensures differ { (element : ElementId) → result
            ≡ unlawful self.now.ledger (Record.Differ k element) }
    {
        first_false(&[
            !self.ended,
            self.both_up(),
            is_next(self.base, self.options.every, self.iterations, k),
            !any_crash_below(self.lines.as_slice(), k),
        ])
    }

    fn crash_unlawful(&self, line: u32) -> Option<u8>
        ensures { result ≡ unlawful self.now.ledger (Record.Crash line) }
    {
        let strikes = crash_at(self.lines.as_slice(), line as usize).is_some();
        first_false(&[!self.ended, strikes])
    }

    fn mend_unlawful(&self, replica: u8) -> Option<u8>
        ensures { result ≡ unlawful self.now.ledger (Record.Mend replica) }
    {
        first_false(&[
            !self.ended,
            self.down(replica) && self.up(other(replica)),
            is_strong(self.options.mode),
            self.is_spared(),
            self.bare_node().is_none(),
        ])
    }

    fn adopt_unlawful(&self, k: u64, from: u8) -> Option<u8>
        ensures { result ≡ unlawful self.now.ledger (Record.Adopt k from) }
    {
        first_false(&[
            !self.ended,
            self.up(from) && self.down(other(from)),
            !is_strong(self.options.mode),
            self.is_adoptable(k),
            !any_crash_of_below(self.lines.as_slice(), from, k),
            self.is_spared(),
            self.bare_node().is_none(),
        ])
    }

    fn both_unlawful(&self) -> Option<u8>
        ensures { result ≡ unlawful self.now.ledger Record.Both }
    {
        first_false(&[
            !self.ended,
            self.first_down && self.second_down,
            self.is_spared(),
            self.bare_node().is_none(),
        ])
    }

    fn lost_unlawful(&self, node: u16) -> Option<u8>
        ensures { result ≡ unlawful self.now.ledger (Record.Lost node) }
    {
        first_false(&[
            !self.ended,
            self.is_spared(),
            is_number(node, self.bare_node()),
        ])
    }

    fn done_unlawful(&self) -> Option<u8>
        ensures { result ≡ unlawful self.now.ledger Record.Done }
    {
        first_false(&[!self.ended, self.base == self.iterations, self.both_up()])
    }

    fn up(&self, replica: u8) -> bool
        ensures { result ≡ is_up self.now.ledger replica }
    {
        match replica {
            0 => !self.first_down,
            1 => !self.second_down,
            _ => false,
        }
    }

    fn both_up(&self) -> bool
        ensures { result ≡ both_up self.now.ledger }
    {
        !self.first_down && !self.second_down
    }

    fn is_spared(&self) -> bool
        ensures { result ≡ is_spared self.now.ledger }
    {
        self.crashes <= u32::from(self.options.spares)
    }

    fn is_adoptable(&self, k: u64) -> bool
        ensures { result ≡ is_adoptable self.now.ledger k }
    {
        let due = due(self.base, self.options.every, self.iterations);
        self.base <= k && k <= self.iterations && (!is_weak(self.options.mode) || due <= k)
    }

    // The least node that has no copy of its piece of the base.
    fn bare_node(&self) -> Option<u16>
        ensures { result ≡ bare_node self.now.ledger }
    {
        bare_node(
            self.first_copies.as_slice(),
            self.second_copies.as_slice(),
            self.options.nodes,
        )
    }

    // What a record makes of the ledger, and the record in the list.
    fn make(&mut self, step: Record)
        requires { 1 ≤ self.old.spare }
        ensures ledger { self.new.ledger ≡ after self.old.ledger step }
        ensures records { self.new.records ≡ self.old.records ++ step ∷ [] }
        ensures spare { self.old.spare ≤ self.new.spare + 1 }
    {
        self.records.push_within(step);
        match step {
            Record::Accept { k } => {
                accept(&mut self.lines, k);
                self.base = k;
                self.raise_copies();
            }
            Record::Differ { k, .. } => spend_flips(&mut self.lines, k),
            Record::Crash { line } => self.crash(line as usize),
            Record::Mend { .. } => self.raise(),
            Record::Adopt { k, from } => {
                adopt(&mut self.lines, k, from);
                self.base = k;
                self.raise();
            }
            Record::Both => self.raise(),
            Record::NoSpare => self.ended = true,
            Record::Lost { .. } => self.ended = true,
            Record::Done => self.ended = true,
        }
    }

    // A live crash line strikes: it is spent, its replica is down, and the slot's copy is lost.
    fn crash(&mut self, line: usize)
        ensures { self.new ≡ record self.old
            { ledger = with_crash line (crash_at self.old.ledger.lines line) self.old.ledger } }
    {
        if let Some(slot) = crash_at(self.lines.as_slice(), line) {
            let (first, second) = (slot.replica == 0, slot.replica == 1);
            spend_at(&mut self.lines, line);
            lose_if(first, &mut self.first_copies, slot.node);
            lose_if(second, &mut self.second_copies, slot.node);
            self.first_down = either(self.first_down, first);
            self.second_down = either(self.second_down, second);
            self.crashes += 1;
        }
    }

    // Every copy of the base stands.
    fn raise_copies(&mut self)
        ensures { self.new ≡ record self.old { ledger = with_copies self.old.ledger } }
    {
        self.first_copies.fill(true);
        self.second_copies.fill(true);
    }

    // Both replicas are up, and every copy of the base stands.
    fn raise(&mut self)
        ensures { self.new ≡ record self.old { ledger = both_raised self.old.ledger } }
    {
        self.first_down = false;
        self.second_down = false;
        self.raise_copies();
    }
}

// The lines of a script before the first record.
fn fresh_lines(alloc: Global, script: &[FaultLine]) -> Result<Vec<LedgerLine>, Memory>
    ensures exact { IfOk result (λ lines. lines.items ≡ map fresh_line (faults_of script.now)) }
    ensures length { IfOk result (λ lines. length lines.items ≡ length script.now) }
{
    let mut lines = Vec::new(alloc);
    for line in script {
        lines.push(LedgerLine::fresh(line.fault))?;
    }
    Ok(lines)
}
