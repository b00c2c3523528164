//! A live node: its elements' objects, what it gathers, and its pieces.

ghost use Rattle.std.specs.Prelude.{◌≡◌, ℕ, ◌<◌, ◌≤◌, if◌then◌else◌, List, [], None, length, map, slice_get, IfOk, OnOk};
ghost use Rattle.std.specs.List.{AllByRecursion};
ghost use Rattle.chare_base.specs.declared.plan.Plan.{Plan};
ghost use Rattle.chare_base.specs.Elements.{elements};
ghost use Rattle.chare_base.specs.Entries.{reduction_of};
ghost use Rattle.chare_eval.specs.Stage.{one_value};
ghost use Rattle.fault_script.specs.declared.fault.Fault.{Fault};
ghost use Rattle.fault_script.specs.Lines.{faults_of, flips_in};
ghost use Rattle.letter_post.specs.declared.letter.Sent.{Sent};
ghost use Rattle.letter_post.specs.Stamps.{lines_of, same_stamp};
ghost use Rattle.object_steps.specs.Objects.{Fits};
ghost use Rattle.node_core.specs.Nodes.{Body, all_at_of, body_heard, body_packed, body_ran, body_ran_at, body_ran_by, body_turned, first_running_of, idle_of, lesser, next_begin_of, out_of, parcel_heard, partial_heard, piece_heard, piece_of, sender_of, share_heard, taken_at, taken_by, taken_in, total_heard, turn_with, unmoved, with_objects, with_totals};
ghost use Rattle.node_core.specs.Rosters.{number_in};
ghost use Rattle.node_core.specs.Turns.{turned};

use crate::context::{Context, Here};
use crate::object::{begins, can_run, is_at, take, turn};
use crate::passing::{pass_all, send_totals};
use crate::piece::{Held, Loan, is_new, pack_objects, send_compared, send_packed};
use crate::roster::{Seats, number_in};
use crate::tallies::{Tally, count_in};
use crate::turn::{Sender, TurnKind};
use chare_base::memory::Memory;
use chare_base::message::{EntryId, Payload, Port, ReductionId};
use chare_base::placement::Placement;
use chare_base::plan::{ElementId, Plan, Reduction};
use chare_base::slots::{LineSet, SlotId};
use chare_eval::effects::Effects;
use fault_script::script::Script;
use letter_post::letter::Letter;
use letter_post::outbox::Outbox;
use letter_post::stamp::Stamp;
use object_steps::object::Object;
use pup_state::piece::Piece;
use ref_messages::key::RefKey;
use std::alloc::Global;
use std::marker::Model;

/// What a node holds while it lives.
#[derive(Drop)]
pub(crate) struct Live {
    pub(crate) objects: Vec<Object>,
    pub(crate) gatherings: Vec<Tally>,
    pub(crate) totals: Vec<Tally>,
    pub(crate) base: Piece,
    pub(crate) fresh: Option<Piece>,
    pub(crate) other: Option<Held>,
    pub(crate) live: LineSet,
    pub(crate) loan: Option<Loan>,
    pub(crate) waits: bool,
}

impl Model for Live {
    ghost use Rattle.node_core.specs.Nodes.{Body};

    ghost Value = { Body };

    ghost view = { λ l. record { objects = l.objects.items; gatherings = l.gatherings.items; totals = l.totals.items; base = l.base; fresh = l.fresh; other = l.other; live = l.live; loan = l.loan; waits = l.waits } };
}

impl Live {
    // A turn of an element. What it sends is put into an outbox that is empty before.
    #[tactic(auto, unfolding(crate::specs::Nodes::body_ran))]
    pub(crate) fn run<M: Placement>(
        &mut self,
        alloc: Global,
        context: &Context<'_, M>,
        here: &Here<'_>,
        e: ElementId,
        limit: u64,
        effects: &mut Effects,
        out: &mut Outbox,
    ) -> Result<TurnKind, Memory>
        requires fits { AllByRecursion (Fits context.now.plan.now) self.old.objects }
        requires empty { out.old ≡ [] }
        ensures told { IfOk result
            (λ kind. record { body = self.new; turn = turn_with kind out.new }
            ≡ body_ran context.now.plan.now
            (lines_of (faults_of context.now.script.now) here.now.stamp)
            (M.place context.now.map.now) limit e.0 here.now.slot here.now.stamp
            here.now.roster.now self.old) }
        ensures sent { IfOk result (λ kind. out.new ≡ out_of (turn_with kind out.new)) }
    {
        if self.waits {
            return Ok(TurnKind::Awaits);
        }
        let seat = here.roster.seat(e);
        let objects = &mut self.objects;
        let gatherings = &mut self.gatherings;
        let kind = run_at(
            alloc, context, here, seat, limit, objects, gatherings, effects, out,
        )?;
        Ok(kind)
    }
}

// A turn of the object at a seat.
fn run_at<M: Placement>(
    alloc: Global,
    context: &Context<'_, M>,
    here: &Here<'_>,
    seat: Option<u32>,
    limit: u64,
    objects: &mut Vec<Object>,
    gatherings: &mut Vec<Tally>,
    effects: &mut Effects,
    out: &mut Outbox,
) -> Result<TurnKind, Memory>
    requires fits { AllByRecursion (Fits context.now.plan.now) objects.old.items }
    requires empty { out.old ≡ [] }
    ensures told { (b : Body) → IfOk result
        (λ kind. record {
          body = with_objects b objects.new.items gatherings.new.items;
          turn = turn_with kind out.new;
        }
        ≡ body_ran_at context.now.plan.now
        (lines_of (faults_of context.now.script.now) here.now.stamp) (M.place context.now.map.now)
        limit here.now.slot here.now.stamp here.now.roster.now
        (with_objects b objects.old.items gatherings.old.items) seat) }
    ensures sent { IfOk result (λ kind. out.new ≡ out_of (turn_with kind out.new)) }
{
    match seat {
        None => Ok(TurnKind::Awaits),
        Some(i) => {
            if (i as usize) < objects.len() {
                run_object(
                    alloc, context, here, i, limit, objects, gatherings, effects, out,
                )
            } else {
                Ok(TurnKind::Awaits)
            }
        }
    }
}

fn run_object<M: Placement>(
    alloc: Global,
    context: &Context<'_, M>,
    here: &Here<'_>,
    i: u32,
    limit: u64,
    objects: &mut Vec<Object>,
    gatherings: &mut Vec<Tally>,
    effects: &mut Effects,
    out: &mut Outbox,
) -> Result<TurnKind, Memory>
    requires there { i < length objects.old.items }
    requires fits { AllByRecursion (Fits context.now.plan.now) objects.old.items }
    requires empty { out.old ≡ [] }
    ensures told { (b : Body) → IfOk result
        (λ kind. record {
          body = with_objects b objects.new.items gatherings.new.items;
          turn = turn_with kind out.new;
        }
        ≡ body_ran_by context.now.plan.now
        (lines_of (faults_of context.now.script.now) here.now.stamp) (M.place context.now.map.now)
        limit here.now.slot here.now.stamp here.now.roster.now
        (with_objects b objects.old.items gatherings.old.items) i
        (slice_get objects.old.items i)) }
    ensures sent { IfOk result (λ kind. out.new ≡ out_of (turn_with kind out.new)) }
{
    effects.clear();
    let plan = context.plan;
    let object = &mut objects[i as usize];
    let element = object.element();
    let before = begins(plan.iterations(), object);
    let sender = sender_of(here, i, object);
    let lines = here.stamp.lines;
    let spot = turn(alloc, plan, context.script, lines, limit, object, effects)?;
    match spot {
        None => Ok(idle(before)),
        Some(spot) => {
            let sent = effects.as_slice();
            pass_all(alloc, context, here.roster, sender, sent, gatherings, out)?;
            Ok(TurnKind::Ran { element, spot })
        }
    }
}

// The element of the object with this number, as it sends.
fn sender_of(here: &Here<'_>, i: u32, object: &Object) -> Sender
    ensures { (p : Plan) → Fits p object.now
        → result ≡ sender_of p here.now.slot here.now.stamp here.now.roster.now i object.now }
{
    Sender {
        slot: here.slot,
        stamp: here.stamp,
        iteration: object.done(),
        array: object.place().array,
        rank: here.roster.rank(i),
    }
}

// Why no part ran.
pub(crate) fn idle(before: bool) -> TurnKind
    ensures { (out : List Sent) → turn_with result out ≡ idle_of before }
{
    if before {
        TurnKind::Held
    } else {
        TurnKind::Awaits
    }
}

// ---- who can run

// The first of these that can run.
pub(crate) fn first_running(plan: &Plan, limit: u64, objects: &[Object]) -> Option<ElementId>
    requires { AllByRecursion (Fits plan.now) objects.now }
    ensures { result ≡ first_running_of plan.now limit objects.now }
{
    for object in objects {
        if can_run(plan, limit, object) {
            return Some(object.element());
        }
    }
    None
}

// The least of the `iterations` that one of these would begin.
pub(crate) fn next_begin(iterations: u64, objects: &[Object]) -> Option<u64>
    ensures { result ≡ next_begin_of iterations None objects.now }
{
    let mut least = None;
    for object in objects {
        least = lesser_if(begins(iterations, object), least, object.done());
    }
    least
}

fn lesser_if(begins: bool, least: Option<u64>, k: u64) -> Option<u64>
    ensures { result ≡ (if begins then lesser least k else least) }
{
    if !begins {
        return least;
    }
    match least {
        None => Some(k),
        Some(l) => Some(l.min(k)),
    }
}

// Whether each of these has completed k iterations, and none has begun the next.
pub(crate) fn all_at(k: u64, objects: &[Object]) -> bool
    ensures { result ≡ all_at_of k objects.now }
{
    objects.iter().all(|object| is_at(k, object))
}

// ---- letters

// What a node's elements contributed to a reduction in an iteration.
#[derive(Clone, Copy)]
struct Share {
    reduction: ReductionId,
    iteration: u64,
    node: u16,
    value: i64,
}

impl Live {
    // A letter comes. Orders are obeyed elsewhere, and no other letter is for a node.
    pub(crate) fn hear(
        &mut self,
        alloc: Global,
        plan: &Plan,
        slot: SlotId,
        own: Stamp,
        roster: &Seats,
        letter: Letter,
    ) -> Result<Outbox, Memory>
        ensures { (script : List Fault) (place : List ℕ)
            → IfOk result (λ out. record { body = self.new; out = out }
            ≡ body_heard plan.now script place slot own roster.now self.old letter) }
    {
        match letter {
            Letter::Parcel {
                stamp,
                entry,
                iteration,
                to,
                payload,
            } => {
                self.hear_parcel(own, roster, stamp, entry, iteration, to, &payload)?;
                Ok(Outbox::new(alloc))
            }
            Letter::Partial {
                stamp,
                reduction,
                iteration,
                node,
                value,
            } => {
                let share = Share {
                    reduction,
                    iteration,
                    node,
                    value,
                };
                let same = stamp.is_same(own);
                self.hear_share(alloc, plan, same, slot.replica, own, roster, share)
            }
            Letter::Total {
                stamp,
                reduction,
                iteration,
                value,
            } => self.hear_total(alloc, plan, stamp.is_same(own), iteration, reduction, value),
            Letter::Piece { stamp, piece } => {
                self.hear_piece(alloc, plan, own, slot.node, stamp, piece)
            }
            _ => Ok(Outbox::new(alloc)),
        }
    }

    // A message for an element, under the node's own stamp or not. Nothing is sent.
    pub(crate) fn hear_parcel(
        &mut self,
        stamp: Stamp,
        roster: &Seats,
        sent_under: Stamp,
        entry: EntryId,
        iteration: u64,
        to: ElementId,
        payload: &Payload,
    ) -> Result<(), Memory>
        ensures { OnOk result (record { body = self.new; out = [] }
            ≡ (if same_stamp sent_under stamp
            then parcel_heard roster.now iteration entry to payload.now self.old
            else unmoved self.old)) }
    {
        if !sent_under.is_same(stamp) {
            return Ok(());
        }
        let seat = roster.seat(to);
        take_parcel(seat, iteration, entry, payload, &mut self.objects)?;
        Ok(())
    }

    // A reduction's total.
    fn hear_total(
        &mut self,
        alloc: Global,
        plan: &Plan,
        own: bool,
        iteration: u64,
        reduction: ReductionId,
        value: i64,
    ) -> Result<Outbox, Memory>
        ensures { IfOk result (λ out. record { body = self.new; out = out }
            ≡ (if own
            then total_heard plan.now iteration reduction value self.old
            (reduction_of plan.now reduction.0)
            else unmoved self.old)) }
    {
        if !own {
            return Ok(Outbox::new(alloc));
        }
        match plan.reductions.get(reduction.0 as usize) {
            None => Ok(Outbox::new(alloc)),
            Some(x) => {
                let key = RefKey {
                    iteration,
                    port: Port::Total(reduction),
                };
                take_total(plan, x.owner, key, &one_value(value), &mut self.objects)?;
                Ok(Outbox::new(alloc))
            }
        }
    }

    // A node's share of a reduction.
    fn hear_share(
        &mut self,
        alloc: Global,
        plan: &Plan,
        own: bool,
        replica: u8,
        stamp: Stamp,
        roster: &Seats,
        share: Share,
    ) -> Result<Outbox, Memory>
        ensures { IfOk result (λ out. record { body = self.new; out = out }
            ≡ (if own
            then partial_heard roster.now replica stamp share.reduction share.iteration share.node
            share.value self.old (reduction_of plan.now share.reduction.0)
            else unmoved self.old)) }
    {
        if !own {
            return Ok(Outbox::new(alloc));
        }
        match plan.reductions.get(share.reduction.0 as usize) {
            None => Ok(Outbox::new(alloc)),
            Some(x) => {
                let sharers = roster.sharers(x.owner);
                let out = take_share(alloc, replica, stamp, share, x, sharers, &mut self.totals)?;
                Ok(out)
            }
        }
    }

    // The buddy's piece.
    fn hear_piece(
        &mut self,
        alloc: Global,
        plan: &Plan,
        own: Stamp,
        node: u16,
        stamp: Stamp,
        piece: Piece,
    ) -> Result<Outbox, Memory>
        ensures { IfOk result (λ out. record { body = self.new; out = out }
            ≡ piece_heard plan.now own node stamp piece self.old) }
    {
        let fits = piece.node == node && is_new(stamp, &piece, &self.other);
        if !fits {
            return Ok(Outbox::new(alloc));
        }
        let mut out = Outbox::new(alloc);
        self.other = Some(Held { stamp, piece });
        send_compared(alloc, plan, own, &self.fresh, &self.other, &mut out)?;
        Ok(out)
    }

    // Packs: its elements have completed k iterations.
    pub(crate) fn pack(
        &mut self,
        alloc: Global,
        plan: &Plan,
        slot: SlotId,
        stamp: Stamp,
        k: u64,
    ) -> Result<Outbox, Memory>
        requires { AllByRecursion (Fits plan.now) self.old.objects }
        ensures { IfOk result (λ out. record { body = self.new; out = out }
            ≡ body_packed plan.now slot stamp self.old
            (piece_of plan.now k slot.node self.old.objects)) }
    {
        let piece = pack_objects(alloc, plan, k, slot.node, self.objects.as_slice())?;
        let mut out = Outbox::new(alloc);
        send_packed(alloc, plan, slot, stamp, &piece, &self.other, &mut out)?;
        self.fresh = Some(piece);
        Ok(out)
    }
}

// A message comes to the object at a seat.
fn take_parcel(
    seat: Option<u32>,
    iteration: u64,
    entry: EntryId,
    payload: &Payload,
    objects: &mut Vec<Object>,
) -> Result<(), Memory>
    ensures { OnOk result (objects.new.items
        ≡ taken_at iteration entry payload.now objects.old.items seat) }
{
    if let Some(i) = seat {
        take_at(i, iteration, entry, payload, objects)?;
    }
    Ok(())
}

fn take_at(
    i: u32,
    iteration: u64,
    entry: EntryId,
    payload: &Payload,
    objects: &mut Vec<Object>,
) -> Result<(), Memory>
    ensures { OnOk result (objects.new.items
        ≡ taken_by iteration entry payload.now objects.old.items i
        (slice_get objects.old.items i)) }
{
    if (i as usize) < objects.len() {
        let key = RefKey {
            iteration,
            port: Port::Entry(entry),
        };
        take(&mut objects[i as usize], key, payload)?;
    }
    Ok(())
}

// A total comes to each element of an array.
fn take_total(
    plan: &Plan,
    array: u16,
    key: RefKey,
    payload: &Payload,
    objects: &mut Vec<Object>,
) -> Result<(), Memory>
    ensures { OnOk result (objects.new.items
        ≡ map (taken_in plan.now array key payload.now) objects.old.items) }
{
    for i in 0..objects.len() {
        take_in(plan, array, key, payload, &mut objects[i])?;
    }
    Ok(())
}

fn take_in(
    plan: &Plan,
    array: u16,
    key: RefKey,
    payload: &Payload,
    object: &mut Object,
) -> Result<(), Memory>
    ensures { OnOk result (object.new ≡ taken_in plan.now array key payload.now object.old) }
{
    if plan.place(object.element()).array == array {
        take(object, key, payload)?;
    }
    Ok(())
}

fn one_value(value: i64) -> Payload
    ensures { result ≡ one_value value }
{
    let mut values = [0; 8];
    values[0] = value;
    Payload { count: 1, values }
}

// A node's share is counted, and once none is missing the total goes to all sharers.
fn take_share(
    alloc: Global,
    replica: u8,
    stamp: Stamp,
    share: Share,
    x: &Reduction,
    sharers: &[u16],
    totals: &mut Vec<Tally>,
) -> Result<Outbox, Memory>
    requires { length sharers.now ≤ 65535 }
    ensures { (b : Body) → IfOk result
        (λ out. record { body = with_totals b totals.new.items; out = out }
        ≡ share_heard replica stamp share.reduction share.iteration share.value x.now sharers.now
        (with_totals b totals.old.items) (number_in 0 sharers.now share.node)) }
{
    let mut out = Outbox::new(alloc);
    match number_in(sharers, share.node) {
        None => Ok(out),
        Some(rank) => {
            let total = count_in(
                alloc,
                x.how,
                sharers.len() as u32,
                rank,
                share.reduction,
                share.iteration,
                share.value,
                totals,
            )?;
            send_totals(
                replica,
                stamp,
                share.reduction,
                share.iteration,
                sharers,
                total,
                &mut out,
            )?;
            Ok(out)
        }
    }
}
