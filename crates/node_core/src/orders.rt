//! Orders: what each leaves of a slot's node.

ghost use Rattle.std.specs.Prelude.{◌≡◌, ◌==◌, length, None, if◌then◌else◌, IfOk};
ghost use Rattle.chare_base.specs.Elements.{elements};
ghost use Rattle.letter_post.specs.Orders.{order_of};
ghost use Rattle.node_core.specs.Nodes.{begun_at, committed, committed_with, obeyed_as, quietly, restored, resumed, taken_up, with_base};

use crate::live::{Live, all_at};
use crate::loading::load;
use crate::piece::{Held, send_again};
use crate::tallies::drop_before;
use chare_base::memory::Memory;
use chare_base::placement::Placement;
use chare_base::plan::Plan;
use chare_base::slots::{LineSet, SlotId};
use letter_post::letter::Letter;
use letter_post::outbox::Outbox;
use letter_post::stamp::Stamp;
use pup_state::piece::Piece;
use std::alloc::Global;

// An order comes to a slot with a stamp of its own. An order to the other replica leaves no node, nor does one that the
// node can't obey. What is no order changes nothing here.
pub(crate) fn obey<M: Placement>(
    alloc: Global,
    plan: &Plan,
    map: &M,
    slot: SlotId,
    own: Stamp,
    letter: Letter,
    body: &mut Option<Live>,
) -> Result<Outbox, Memory>
    requires { length (M.place map.now) ≡ elements plan.now }
    ensures { IfOk result (λ out. record { body = body.new; out = out }
        ≡ obeyed_as plan.now (M.place map.now) slot own body.old (order_of letter)) }
{
    match letter {
        Letter::Restore {
            stamp,
            iteration: k,
            live,
        } => restore(alloc, plan, map, slot, stamp, k, live, body),
        Letter::Commit {
            stamp,
            iteration: k,
            live,
        } => commit(alloc, slot, stamp, k, live, body),
        Letter::Take {
            stamp,
            iteration: k,
            live,
            piece,
        } => take(alloc, plan, map, slot, stamp, k, live, piece, body),
        Letter::Resume { stamp } => resume(alloc, slot, own, stamp, body),
        Letter::Parcel { .. } => Ok(Outbox::new(alloc)),
        Letter::Partial { .. } => Ok(Outbox::new(alloc)),
        Letter::Total { .. } => Ok(Outbox::new(alloc)),
        Letter::Piece { .. } => Ok(Outbox::new(alloc)),
        Letter::VerdictOf { .. } => Ok(Outbox::new(alloc)),
        Letter::Lend { .. } => Ok(Outbox::new(alloc)),
        Letter::Died { .. } => Ok(Outbox::new(alloc)),
        Letter::Stop => Ok(Outbox::new(alloc)),
    }
}

// Back at the base.
fn restore<M: Placement>(
    alloc: Global,
    plan: &Plan,
    map: &M,
    slot: SlotId,
    stamp: Stamp,
    k: u64,
    live: LineSet,
    body: &mut Option<Live>,
) -> Result<Outbox, Memory>
    requires { length (M.place map.now) ≡ elements plan.now }
    ensures { IfOk result (λ out. record { body = body.new; out = out }
        ≡ (if stamp.replica == slot.replica
        then quietly (restored plan.now (M.place map.now) k live body.old)
        else quietly None)) }
{
    if stamp.replica != slot.replica {
        *body = None;
        return Ok(Outbox::new(alloc));
    }
    *body = restored(alloc, plan, map, k, live, body.take())?;
    Ok(Outbox::new(alloc))
}

fn restored<M: Placement>(
    alloc: Global,
    plan: &Plan,
    map: &M,
    k: u64,
    live: LineSet,
    body: Option<Live>,
) -> Result<Option<Live>, Memory>
    requires { length (M.place map.now) ≡ elements plan.now }
    ensures { IfOk result (λ b. b ≡ restored plan.now (M.place map.now) k live body) }
{
    match body {
        None => Ok(None),
        Some(b) => begin_at(alloc, plan, map, k, live, b.base, b.other),
    }
}

// At a piece that came with the order.
fn take<M: Placement>(
    alloc: Global,
    plan: &Plan,
    map: &M,
    slot: SlotId,
    stamp: Stamp,
    k: u64,
    live: LineSet,
    piece: Piece,
    body: &mut Option<Live>,
) -> Result<Outbox, Memory>
    requires { length (M.place map.now) ≡ elements plan.now }
    ensures { IfOk result (λ out. record { body = body.new; out = out }
        ≡ (if stamp.replica == slot.replica
        then quietly (taken_up plan.now (M.place map.now) slot.node k live piece)
        else quietly None)) }
{
    if stamp.replica != slot.replica {
        *body = None;
        return Ok(Outbox::new(alloc));
    }
    *body = taken_up(alloc, plan, map, slot.node, k, live, piece)?;
    Ok(Outbox::new(alloc))
}

fn taken_up<M: Placement>(
    alloc: Global,
    plan: &Plan,
    map: &M,
    node: u16,
    k: u64,
    live: LineSet,
    piece: Piece,
) -> Result<Option<Live>, Memory>
    requires { length (M.place map.now) ≡ elements plan.now }
    ensures { IfOk result (λ b. b ≡ taken_up plan.now (M.place map.now) node k live piece) }
{
    if piece.node != node {
        return Ok(None);
    }
    begin_at(alloc, plan, map, k, live, piece, None)
}

// A node whose elements are read out of its base, and which waits.
fn begin_at<M: Placement>(
    alloc: Global,
    plan: &Plan,
    map: &M,
    k: u64,
    live: LineSet,
    base: Piece,
    other: Option<Held>,
) -> Result<Option<Live>, Memory>
    requires { length (M.place map.now) ≡ elements plan.now }
    ensures { IfOk result (λ b. b ≡ begun_at plan.now (M.place map.now) k live base other) }
{
    if base.iteration != k {
        return Ok(None);
    }
    match load(alloc, plan, map, &base)? {
        None => Ok(None),
        Some(objects) => Ok(Some(Live {
            objects,
            gatherings: Vec::new(alloc),
            totals: Vec::new(alloc),
            base,
            fresh: None,
            other,
            live,
            loan: None,
            waits: true,
        })),
    }
}

// At the fresh piece.
fn commit(
    alloc: Global,
    slot: SlotId,
    stamp: Stamp,
    k: u64,
    live: LineSet,
    body: &mut Option<Live>,
) -> Result<Outbox, Memory>
    ensures { IfOk result (λ out. record { body = body.new; out = out }
        ≡ (if stamp.replica == slot.replica
        then quietly (committed k live body.old)
        else quietly None)) }
{
    if stamp.replica != slot.replica {
        *body = None;
        return Ok(Outbox::new(alloc));
    }
    *body = committed(k, live, body.take());
    Ok(Outbox::new(alloc))
}

fn committed(k: u64, live: LineSet, body: Option<Live>) -> Option<Live>
    ensures { result ≡ committed k live body }
{
    match body {
        None => None,
        Some(b) => committed_body(k, live, b),
    }
}

fn committed_body(k: u64, live: LineSet, mut body: Live) -> Option<Live>
    ensures { result ≡ committed_with k live body body.fresh }
{
    match body.fresh.take() {
        None => None,
        Some(piece) => {
            if piece.iteration != k || !all_at(k, body.objects.as_slice()) {
                return None;
            }
            Some(base_on(k, live, body, piece))
        }
    }
}

// A node with a new base, which waits.
fn base_on(k: u64, live: LineSet, mut body: Live, piece: Piece) -> Live
    ensures { result ≡ with_base k live body piece }
{
    drop_before(k, &mut body.gatherings);
    drop_before(k, &mut body.totals);
    body.base = piece;
    body.fresh = None;
    body.live = live;
    body.loan = None;
    body.waits = true;
    body
}

// A node that waited goes on.
fn resume(
    alloc: Global,
    slot: SlotId,
    own: Stamp,
    stamp: Stamp,
    body: &mut Option<Live>,
) -> Result<Outbox, Memory>
    ensures { IfOk result (λ out. record { body = body.new; out = out }
        ≡ (if stamp.replica == slot.replica
        then resumed slot own body.old
        else quietly None)) }
{
    if stamp.replica != slot.replica {
        *body = None;
        return Ok(Outbox::new(alloc));
    }
    match body {
        None => Ok(Outbox::new(alloc)),
        Some(live) => {
            let mut out = Outbox::new(alloc);
            send_again(alloc, slot, own, &live.fresh, &mut out)?;
            live.waits = false;
            Ok(out)
        }
    }
}
