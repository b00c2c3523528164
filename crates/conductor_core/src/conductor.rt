//! The conductor.

ghost use Rattle.std.specs.Prelude.{◌≡◌, ◌++◌, ◌∷◌, ◌&&◌, [], length, replicate, slice_index_or, slice_set, IfOk, IfSome, OnOk, OnErr, IsErr, IsNone, IsTrue, is_none, is_some, Some, None, true, false, ◌↔◌};
ghost use Rattle.chare_base.specs.Elements.{elements};
ghost use Rattle.fault_script.specs.Lines.{faults_of};
ghost use Rattle.run_ledger.specs.Ledgers.{lineage_set};
ghost use Rattle.run_ledger.specs.Conditions.{unlawful};
ghost use Rattle.checkpoint_store.specs.Assembled.{assembled};
ghost use Rattle.conductor_core.specs.Conductors.{Heard, IsOf, accepted, agreed_on, conductor_did, conductor_heard, counts, differed, differed_by, finished, gone_back, gone_on, is_at, look_taken, note_taken, opening_stamp, raised_stamps, relined_stamps, round_agreed, round_opened, sent_back, sent_on, settled, settled_in, sight_of, start_conductor, taken, unseen, verdict_heard, wanted, with_mark, with_note, with_record, with_sight};
ghost use Rattle.conductor_core.specs.Made.{made};
ghost use Rattle.conductor_core.specs.Orders.{can_rise};

use crate::ending::{Ending, Outcome};
use crate::orders::{can_rise, order_back, order_on, raised, relined, stop_all};
use crate::verdicts::{all_there, least_difference, no_pieces};
use crate::wants::{
    CutAnswer, CutMove, Phase, first_unnoted, floor, gather_move, quiet_move, slot_after,
    slot_place,
};
use chare_base::bytes::Bytes;
use chare_base::memory::Memory;
use chare_base::options::Options;
use chare_base::placement::Placement;
use chare_base::plan::{ElementId, Plan};
use chare_base::slots::SlotId;
use checkpoint_store::assemble::assemble;
use checkpoint_store::mark::{Marks, mark_of};
use checkpoint_store::pieces::Pieces;
use fault_script::script::Script;
use iteration_agree::round::Sight;
use letter_post::letter::Letter;
use letter_post::outbox::Outbox;
use letter_post::stamp::Stamp;
use pup_state::compare::Verdict;
use pup_state::piece::Piece;
use run_ledger::ledger::Ledger;
use run_ledger::record::{Record, Records};
use std::alloc::Global;
use std::marker::Model;

/// The conductor of a run: it brings the agreement from round to round, hears how the replicas compare, records what
/// that says, and orders all slots.
///
/// Contracts see a `ConductorState` of `specs/Conductors`. Each call that takes a plan and a placement is given those of
/// the run. After `Memory` a conductor answers `Memory` to every later call that takes memory.
#[derive(Drop)]
pub struct Conductor {
    ledger: Ledger,
    first: Stamp,
    second: Stamp,
    phase: Phase,
    noted: Vec<bool>,
    sights: Vec<Option<Sight>>,
    next_look: SlotId,
    verdicts: Vec<Option<Verdict>>,
    pieces: Pieces,
    marks: Marks,
    last: Bytes,
    outcome: Option<Outcome>,
    over: bool,
}

impl Model for Conductor {
    ghost use Rattle.conductor_core.specs.Conductors.{ConductorState};

    ghost Value = { ConductorState };

    ghost view = { λ c. record { ledger = c.ledger.ledger; records = c.ledger.records; first = c.first; second = c.second; phase = c.phase; noted = c.noted.items; sights = c.sights.items; next_look = c.next_look; verdicts = c.verdicts.items; pieces = c.pieces; marks = c.marks; last = c.last; outcome = c.outcome; over = c.over } };
}

impl Conductor {
    /// The conductor of a run with these options, before it heard or saw anything.
    ///
    /// `Memory`: an allocation was refused.
    #[tactic(auto, unfolding(crate::specs::Conductors::start_conductor))]
    pub fn start(
        alloc: Global,
        plan: &Plan,
        script: &Script,
        options: &Options,
    ) -> Result<Conductor, Memory>
        ensures { IfOk result (λ c. c
            ≡ start_conductor (faults_of script.now) options.now plan.now.iterations) }
    {
        let ledger = Ledger::start(alloc, script, options, plan.iterations())?;
        let nodes = options.nodes as usize;
        let first = opening_stamp(&ledger, 0);
        let second = opening_stamp(&ledger, 1);
        let noted = vec![in alloc; false; nodes + nodes]?;
        let sights = vec![in alloc; None; nodes + nodes]?;
        let verdicts = vec![in alloc; None; nodes]?;
        let pieces = no_pieces(alloc, options.nodes)?;
        Ok(Conductor {
            ledger,
            first,
            second,
            phase: Phase::Quiet,
            noted,
            sights,
            next_look: SlotId {
                replica: 0,
                node: 0,
            },
            verdicts,
            pieces,
            marks: Marks::new(alloc),
            last: Bytes::new(alloc),
            outcome: None,
            over: false,
        })
    }

    /// Hears a letter.
    ///
    /// While the run goes on, a verdict at the agreed iteration under both replicas' present stamps is kept, with its
    /// piece. Every other letter changes nothing.
    ///
    /// `Memory`: an earlier call ran out of memory; the conductor is of no further use.
    pub fn hear<M: Placement>(
        &mut self,
        alloc: Global,
        plan: &Plan,
        map: &M,
        letter: Letter,
    ) -> Result<Outbox, Memory>
        requires nodes { IsOf (M.count map.now) self.old }
        ensures heard { IfOk result
            (λ out. record { conductor = self.new; out = out } ≡ conductor_heard letter self.old) }
        ensures err { OnErr result (self.new.over ≡ true) }
        ensures over { self.old.over ≡ true → IsErr result }
    {
        let _ = plan;
        let _ = map;
        if self.over {
            return Err(Memory);
        }
        self.hear_letter(letter);
        Ok(Outbox::new(alloc))
    }

    /// The move on the agreement that it wants; None where it wants none, and once the run has ended. It takes no memory.
    ///
    /// While no round is open it looks at slot after slot, and opens a round once the top of a slot that it saw has
    /// reached the floor. In a round that gathers caps it notes the first slot that isn't noted, and once all are, it
    /// agrees. In an agreed round it waits for every node's verdict, and then makes the round quiet.
    #[tactic(auto, unfolding(crate::specs::Conductors::wanted))]
    pub fn wants(&self) -> CutMove
        ensures { result ≡ wanted self.now }
    {
        if self.outcome.is_some() {
            return CutMove::None;
        }
        match self.phase {
            Phase::Quiet => quiet_move(floor(&self.ledger), self.sights.as_slice(), self.next_look),
            Phase::Gather => gather_move(first_unnoted(
                self.noted.as_slice(),
                self.ledger.options().nodes,
            )),
            Phase::Agreed { .. } => {
                if all_there(self.verdicts.as_slice()) {
                    CutMove::Quiet
                } else {
                    CutMove::None
                }
            }
        }
    }

    /// The move that it wants was made on the agreement, with this answer.
    ///
    /// Once an agreed round is made quiet it records what all verdicts say, where the ledger takes it. Where they are
    /// equal it accepts the checkpoint that the pieces make, and orders all slots to take it as their base; where the
    /// base is then at the last iteration the run is done, and every slot is sent Stop. Where they differ, and both
    /// stamps have a next epoch, it records the least element that a verdict names, and orders all slots back to the
    /// base. An answer to another move than the wanted one changes nothing.
    ///
    /// `Memory`: an allocation was refused, now or in an earlier call; the conductor is of no further use.
    pub fn did<M: Placement>(
        &mut self,
        alloc: Global,
        plan: &Plan,
        map: &M,
        answer: CutAnswer,
    ) -> Result<Outbox, Memory>
        requires place { length (M.place map.now) ≡ elements plan.now }
        requires nodes { IsOf (M.count map.now) self.old }
        ensures did { IfOk result
            (λ out. record { conductor = self.new; out = out }
            ≡ conductor_did plan.now (M.place map.now) answer self.old) }
        ensures err { OnErr result (self.new.over ≡ true) }
        ensures over { self.old.over ≡ true → IsErr result }
    {
        if self.over {
            return Err(Memory);
        }
        match self.make_move(alloc, plan, map, answer) {
            Ok(out) => Ok(out),
            Err(Memory) => {
                self.over = true;
                Err(Memory)
            }
        }
    }

    /// The last sight of a slot that it was given; None where there was none, or it was forgotten: an order to the slot
    /// makes it so.
    pub fn sight(&self, slot: SlotId) -> Option<Sight>
        ensures { result ≡ sight_of slot self.now }
    {
        let place = slot_place(self.ledger.options().nodes, slot);
        sight_at(self.sights.as_slice(), place)
    }

    /// What it recorded so far.
    pub fn records(&self) -> &Records
        ensures { result.now.items ≡ self.now.records }
    {
        self.ledger.records()
    }

    /// Whether the run has ended.
    pub fn ended(&self) -> bool
        ensures { result ≡ is_some self.now.outcome }
    {
        self.outcome.is_some()
    }

    /// What the run leaves; None exactly where it hasn't ended. The conductor is given up then too. It takes no memory.
    pub fn end(self) -> Option<Ending>
        ensures none { IsNone result ↔ (self.outcome ≡ None) }
        ensures outcome { IfSome result (λ ending. self.outcome ≡ Some ending.outcome) }
        ensures records { IfSome result (λ ending. ending.records.items ≡ self.records) }
        ensures marks { IfSome result (λ ending. ending.marks ≡ self.marks) }
        ensures last { IfSome result (λ ending. ending.last ≡ self.last) }
    {
        match self.outcome {
            None => None,
            Some(outcome) => Some(Ending {
                outcome,
                records: self.ledger.into_records(),
                marks: self.marks,
                last: self.last,
            }),
        }
    }
}

// ---- letters

impl Conductor {
    #[tactic(auto, unfolding(crate::specs::Conductors::conductor_heard))]
    fn hear_letter(&mut self, letter: Letter)
        requires { length self.old.verdicts ≡ length self.old.pieces }
        ensures { record { conductor = self.new; out = [] } ≡ conductor_heard letter self.old }
    {
        match letter {
            Letter::VerdictOf {
                first,
                second,
                node,
                iteration,
                verdict,
                piece,
            } => self.hear_verdict(first, second, node, iteration, verdict, piece),
            Letter::Parcel { .. } => (),
            Letter::Partial { .. } => (),
            Letter::Total { .. } => (),
            Letter::Piece { .. } => (),
            Letter::Lend { .. } => (),
            Letter::Take { .. } => (),
            Letter::Restore { .. } => (),
            Letter::Commit { .. } => (),
            Letter::Resume { .. } => (),
            Letter::Died { .. } => (),
            Letter::Stop => (),
        }
    }

    fn hear_verdict(
        &mut self,
        first: Stamp,
        second: Stamp,
        node: u16,
        iteration: u64,
        verdict: Verdict,
        piece: Piece,
    )
        requires { length self.old.verdicts ≡ length self.old.pieces }
        ensures { self.new ≡ verdict_heard first second node iteration verdict piece self.old }
    {
        if self.counts(first, second, node, iteration) {
            self.verdicts[node as usize] = Some(verdict);
            self.pieces.set(node as usize, piece);
        }
    }

    // Whether a verdict with these stamps, of this node and iteration, counts.
    fn counts(&self, first: Stamp, second: Stamp, node: u16, k: u64) -> bool
        ensures { result ≡ counts first second node k self.now }
    {
        self.outcome.is_none()
            && first.is_same(self.first)
            && second.is_same(self.second)
            && is_at(self.phase, k)
            && (node as usize) < self.verdicts.len()
    }
}

// ---- answers

impl Conductor {
    #[tactic(auto, unfolding(crate::specs::Conductors::conductor_did))]
    fn make_move<M: Placement>(
        &mut self,
        alloc: Global,
        plan: &Plan,
        map: &M,
        answer: CutAnswer,
    ) -> Result<Outbox, Memory>
        requires place { length (M.place map.now) ≡ elements plan.now }
        requires nodes { length self.old.pieces ≡ M.count map.now }
        ensures { IfOk result (λ out. record { conductor = self.new; out = out }
            ≡ conductor_did plan.now (M.place map.now) answer self.old) }
    {
        match self.wants() {
            CutMove::None => Ok(Outbox::new(alloc)),
            CutMove::Look { slot } => {
                self.look(slot, answer);
                Ok(Outbox::new(alloc))
            }
            CutMove::OpenRound { .. } => {
                self.open(answer);
                Ok(Outbox::new(alloc))
            }
            CutMove::Note { slot } => {
                self.note(slot, answer);
                Ok(Outbox::new(alloc))
            }
            CutMove::Agree { .. } => {
                self.agree(answer);
                Ok(Outbox::new(alloc))
            }
            CutMove::Quiet => self.settle(alloc, plan, map, answer),
        }
    }

    fn look(&mut self, slot: SlotId, answer: CutAnswer)
        ensures { self.new ≡ look_taken slot answer self.old }
    {
        match answer {
            CutAnswer::Nothing => (),
            CutAnswer::Seen(sight) => {
                self.keep_sight(slot, sight);
                self.next_look = slot_after(self.ledger.options().nodes, slot);
            }
            CutAnswer::Agreed(_) => (),
        }
    }

    fn open(&mut self, answer: CutAnswer)
        ensures { self.new ≡ round_opened answer self.old }
    {
        match answer {
            CutAnswer::Nothing => {
                self.phase = Phase::Gather;
                self.noted.fill(false);
            }
            CutAnswer::Seen(_) => (),
            CutAnswer::Agreed(_) => (),
        }
    }

    fn note(&mut self, slot: SlotId, answer: CutAnswer)
        ensures { self.new ≡ note_taken slot answer self.old }
    {
        match answer {
            CutAnswer::Nothing => (),
            CutAnswer::Seen(sight) => {
                self.keep_sight(slot, sight);
                self.keep_note(slot, sight.cap);
            }
            CutAnswer::Agreed(_) => (),
        }
    }

    fn agree(&mut self, answer: CutAnswer)
        ensures { self.new ≡ round_agreed answer self.old }
    {
        match answer {
            CutAnswer::Nothing => (),
            CutAnswer::Seen(_) => (),
            CutAnswer::Agreed(k) => self.agree_on(k),
        }
    }

    fn agree_on(&mut self, k: Option<u64>)
        ensures { self.new ≡ agreed_on k self.old }
    {
        match k {
            None => (),
            Some(k) => self.phase = Phase::Agreed { k },
        }
    }

    fn keep_sight(&mut self, slot: SlotId, sight: Sight)
        ensures { self.new ≡ with_sight slot sight self.old }
    {
        let place = slot_place(self.ledger.options().nodes, slot);
        put_sight(self.sights.as_mut_slice(), place, sight);
    }

    // A slot with a cap in this round is noted.
    fn keep_note(&mut self, slot: SlotId, cap: Option<u64>)
        ensures { self.new ≡ with_note slot cap self.old }
    {
        match cap {
            None => (),
            Some(_) => {
                let place = slot_place(self.ledger.options().nodes, slot);
                put_note(self.noted.as_mut_slice(), place);
            }
        }
    }
}

// ---- records

impl Conductor {
    // The round is made quiet.
    fn settle<M: Placement>(
        &mut self,
        alloc: Global,
        plan: &Plan,
        map: &M,
        answer: CutAnswer,
    ) -> Result<Outbox, Memory>
        requires place { length (M.place map.now) ≡ elements plan.now }
        requires nodes { length self.old.pieces ≡ M.count map.now }
        ensures { IfOk result (λ out. record { conductor = self.new; out = out }
            ≡ settled plan.now (M.place map.now) answer self.old) }
    {
        match answer {
            CutAnswer::Nothing => self.settle_round(alloc, plan, map),
            CutAnswer::Seen(_) => Ok(Outbox::new(alloc)),
            CutAnswer::Agreed(_) => Ok(Outbox::new(alloc)),
        }
    }

    // What the verdicts of an agreed round say is recorded.
    fn settle_round<M: Placement>(
        &mut self,
        alloc: Global,
        plan: &Plan,
        map: &M,
    ) -> Result<Outbox, Memory>
        requires place { length (M.place map.now) ≡ elements plan.now }
        requires nodes { length self.old.pieces ≡ M.count map.now }
        ensures { IfOk result (λ out. record { conductor = self.new; out = out }
            ≡ settled_in plan.now (M.place map.now) self.old.phase self.old) }
    {
        match self.phase {
            Phase::Quiet => Ok(Outbox::new(alloc)),
            Phase::Gather => Ok(Outbox::new(alloc)),
            Phase::Agreed { k } => self.settle_at(alloc, plan, map, k),
        }
    }

    fn settle_at<M: Placement>(
        &mut self,
        alloc: Global,
        plan: &Plan,
        map: &M,
        k: u64,
    ) -> Result<Outbox, Memory>
        requires place { length (M.place map.now) ≡ elements plan.now }
        requires nodes { length self.old.pieces ≡ M.count map.now }
        ensures { IfOk result (λ out. record { conductor = self.new; out = out }
            ≡ settled_in plan.now (M.place map.now) (Phase.Agreed k) self.old) }
    {
        let least = least_difference(self.verdicts.as_slice());
        self.phase = Phase::Quiet;
        self.verdicts.fill(None);
        match least {
            None => self.accept(alloc, plan, map, k),
            Some(element) => self.differ(alloc, plan, k, element),
        }
    }

    // The replicas differ at an iteration: both go back, under stamps of the next epoch.
    fn differ(
        &mut self,
        alloc: Global,
        plan: &Plan,
        k: u64,
        element: ElementId,
    ) -> Result<Outbox, Memory>
        ensures { IfOk result (λ out. record { conductor = self.new; out = out }
            ≡ differed k element self.old) }
    {
        if can_rise(self.first) && can_rise(self.second) {
            self.record_difference(alloc, plan, k, element)
        } else {
            Ok(Outbox::new(alloc))
        }
    }

    fn record_difference(
        &mut self,
        alloc: Global,
        plan: &Plan,
        k: u64,
        element: ElementId,
    ) -> Result<Outbox, Memory>
        requires first { IsTrue (can_rise self.old.first) }
        requires second { IsTrue (can_rise self.old.second) }
        ensures { IfOk result (λ out. record { conductor = self.new; out = out }
            ≡ differed_by (unlawful self.old.ledger (Record.Differ k element)) k element self.old) }
    {
        if make_record(&mut self.ledger, plan, Record::Differ { k, element })? {
            self.go_back(alloc)
        } else {
            Ok(Outbox::new(alloc))
        }
    }

    // All slots go back to the base, under stamps of the next epoch.
    fn go_back(&mut self, alloc: Global) -> Result<Outbox, Memory>
        requires first { IsTrue (can_rise self.old.first) }
        requires second { IsTrue (can_rise self.old.second) }
        ensures { IfOk result (λ out. record { conductor = self.new; out = out }
            ≡ gone_back self.old) }
    {
        self.raise_stamps();
        self.send_back(alloc)
    }

    fn raise_stamps(&mut self)
        requires first { IsTrue (can_rise self.old.first) }
        requires second { IsTrue (can_rise self.old.second) }
        ensures { self.new ≡ raised_stamps self.old }
    {
        self.first = raised(self.first, self.ledger.lineage(0));
        self.second = raised(self.second, self.ledger.lineage(1));
    }

    fn send_back(&mut self, alloc: Global) -> Result<Outbox, Memory>
        ensures { IfOk result (λ out. record { conductor = self.new; out = out }
            ≡ sent_back self.old) }
    {
        self.forget_sights();
        order_back(
            alloc,
            self.ledger.options().nodes,
            self.ledger.base(),
            self.ledger.live(),
            self.first,
            self.second,
        )
    }

    fn forget_sights(&mut self)
        ensures { self.new ≡ unseen self.old }
    {
        self.sights.fill(None);
    }

    // The replicas are equal at an iteration: the checkpoint of the pieces is the base.
    fn accept<M: Placement>(
        &mut self,
        alloc: Global,
        plan: &Plan,
        map: &M,
        k: u64,
    ) -> Result<Outbox, Memory>
        requires place { length (M.place map.now) ≡ elements plan.now }
        requires nodes { length self.old.pieces ≡ M.count map.now }
        ensures { IfOk result (λ out. record { conductor = self.new; out = out }
            ≡ accepted plan.now (M.place map.now) k self.old) }
    {
        if make_record(&mut self.ledger, plan, Record::Accept { k })? {
            self.take_pieces(alloc, plan, map)
        } else {
            Ok(Outbox::new(alloc))
        }
    }

    fn take_pieces<M: Placement>(
        &mut self,
        alloc: Global,
        plan: &Plan,
        map: &M,
    ) -> Result<Outbox, Memory>
        requires place { length (M.place map.now) ≡ elements plan.now }
        requires nodes { length self.old.pieces ≡ M.count map.now }
        ensures { IfOk result (λ out. record { conductor = self.new; out = out }
            ≡ taken (assembled plan.now (M.place map.now) self.old.pieces) self.old) }
    {
        let bytes = assemble(alloc, plan, map, &self.pieces)?;
        self.take_base(alloc, plan, bytes)
    }

    // The base has these bytes.
    fn take_base(&mut self, alloc: Global, plan: &Plan, bytes: Bytes) -> Result<Outbox, Memory>
        ensures { IfOk result (λ out. record { conductor = self.new; out = out }
            ≡ taken bytes self.old) }
    {
        let k = self.ledger.base();
        self.marks.push(mark_of(k, bytes.as_slice()))?;
        let mut out = self.go_on(alloc)?;
        self.finish(plan, bytes, &mut out)?;
        Ok(out)
    }

    // All slots go on from the base.
    fn go_on(&mut self, alloc: Global) -> Result<Outbox, Memory>
        ensures { IfOk result (λ out. record { conductor = self.new; out = out }
            ≡ gone_on self.old) }
    {
        self.reline_stamps();
        self.send_on(alloc)
    }

    fn reline_stamps(&mut self)
        ensures { self.new ≡ relined_stamps self.old }
    {
        self.first = relined(self.first, self.ledger.lineage(0));
        self.second = relined(self.second, self.ledger.lineage(1));
    }

    fn send_on(&mut self, alloc: Global) -> Result<Outbox, Memory>
        ensures { IfOk result (λ out. record { conductor = self.new; out = out }
            ≡ sent_on self.old) }
    {
        self.forget_sights();
        order_on(
            alloc,
            self.ledger.options().nodes,
            self.ledger.base(),
            self.ledger.live(),
            self.first,
            self.second,
        )
    }

    // The run is done where the base is at the last iteration.
    fn finish(&mut self, plan: &Plan, bytes: Bytes, out: &mut Outbox) -> Result<(), Memory>
        ensures { OnOk result (record { conductor = self.new; out = out.new }
            ≡ finished bytes (record { conductor = self.old; out = out.old })) }
    {
        if make_record(&mut self.ledger, plan, Record::Done)? {
            self.last = bytes;
            self.outcome = Some(Outcome::Done);
            stop_all(self.ledger.options().nodes, out)?;
        }
        Ok(())
    }
}

// ---- parts of it

// Makes a record where the ledger takes it, and says whether it did.
fn make_record(ledger: &mut Ledger, plan: &Plan, step: Record) -> Result<bool, Memory>
    ensures taken { IfOk result (λ taken. taken ≡ is_none (unlawful ledger.old.ledger step)) }
    ensures ledger { OnOk result
        (ledger.new.ledger ≡ (made step (unlawful ledger.old.ledger step) ledger.old).ledger) }
    ensures records { OnOk result
        (ledger.new.records ≡ (made step (unlawful ledger.old.ledger step) ledger.old).records) }
{
    ledger.reserve(1)?;
    Ok(ledger.apply(plan, step).is_ok())
}

// The stamp of a replica before its first order.
fn opening_stamp(ledger: &Ledger, replica: u8) -> Stamp
    ensures { result ≡ opening_stamp replica ledger.now.ledger }
{
    Stamp {
        replica,
        epoch: 0,
        lines: ledger.lineage(replica),
    }
}

fn is_at(phase: Phase, k: u64) -> bool
    ensures { result ≡ is_at k phase }
{
    match phase {
        Phase::Quiet => false,
        Phase::Gather => false,
        Phase::Agreed { k: agreed } => k == agreed,
    }
}

fn sight_at(sights: &[Option<Sight>], place: usize) -> Option<Sight>
    ensures { result ≡ slice_index_or sights.now place None }
{
    sights.get(place).copied().unwrap_or(None)
}

fn put_sight(sights: &mut [Option<Sight>], place: usize, sight: Sight)
    ensures { sights.new ≡ slice_set sights.old place (Some sight) }
{
    if place < sights.len() {
        sights[place] = Some(sight);
    }
}

fn put_note(noted: &mut [bool], place: usize)
    ensures { noted.new ≡ slice_set noted.old place true }
{
    if place < noted.len() {
        noted[place] = true;
    }
}
