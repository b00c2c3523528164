//! The pieces that a node keeps.

ghost use Rattle.std.specs.Prelude.{◌≡◌, ◌++◌, ◌∷◌, [], Some, OnOk, IfOk};
ghost use Rattle.std.specs.List.{AllByRecursion};
ghost use Rattle.object_steps.specs.Objects.{Fits};
ghost use Rattle.letter_post.specs.declared.letter.Letter.TheVariants as letters;
ghost use Rattle.node_core.specs.Nodes.{compared, is_new, objects_records, pack_sends, piece_of, sent_again, to_slot};

use buddy_compare::compare::compare;
use chare_base::bytes::Bytes;
use chare_base::memory::Memory;
use chare_base::plan::Plan;
use chare_base::slots::SlotId;
use letter_post::letter::{BoxId, Letter};
use letter_post::outbox::Outbox;
use letter_post::stamp::Stamp;
use object_steps::object::Object;
use pup_state::pack::pack_element;
use pup_state::piece::Piece;
use std::alloc::Global;

/// A piece that came, with its stamp.
#[derive(Drop)]
pub struct Held {
    pub stamp: Stamp,
    pub piece: Piece,
}

/// A copy that the conductor asked for and that waits until the piece is held.
#[derive(Clone, Copy, Debug, PartialEq, Eq)]
pub struct Loan {
    pub iteration: u64,
    /// Whether the fresh piece alone will do.
    pub fresh: bool,
}

// The records of these objects' elements.
pub(crate) fn pack_objects(
    alloc: Global,
    plan: &Plan,
    k: u64,
    node: u16,
    objects: &[Object],
) -> Result<Piece, Memory>
    requires { AllByRecursion (Fits plan.now) objects.now }
    ensures { IfOk result (λ piece. piece ≡ piece_of plan.now k node objects.now) }
{
    let mut bytes = Bytes::from_vec(Vec::new(alloc));
    put_all(alloc, plan, k, objects, &mut bytes)?;
    Ok(Piece {
        node,
        iteration: k,
        bytes,
    })
}

fn put_all(
    alloc: Global,
    plan: &Plan,
    k: u64,
    objects: &[Object],
    out: &mut Bytes,
) -> Result<(), Memory>
    requires { AllByRecursion (Fits plan.now) objects.now }
    ensures { OnOk result (out.new ≡ out.old ++ objects_records plan.now k objects.now) }
{
    for object in objects {
        pack_element(alloc, plan, object.element(), k, object.cells(), out)?;
    }
    Ok(())
}

// Whether a buddy's piece takes the place of the one that is held.
pub(crate) fn is_new(stamp: Stamp, piece: &Piece, other: &Option<Held>) -> bool
    ensures { result ≡ is_new stamp piece.now other.now }
{
    match other {
        None => true,
        Some(held) => { held.stamp.epoch < stamp.epoch || held.piece.iteration != piece.iteration }
    }
}

// Sends what the comparison of the own piece with the buddy's says, where both are there.
pub(crate) fn send_compared(
    alloc: Global,
    plan: &Plan,
    own: Stamp,
    fresh: &Option<Piece>,
    other: &Option<Held>,
    out: &mut Outbox,
) -> Result<(), Memory>
    ensures { OnOk result (out.new ≡ out.old ++ compared plan.now own fresh.now other.now) }
{
    match fresh {
        Some(mine) => send_verdict(alloc, plan, own, mine, other, out),
        None => Ok(()),
    }
}

fn send_verdict(
    alloc: Global,
    plan: &Plan,
    own: Stamp,
    mine: &Piece,
    other: &Option<Held>,
    out: &mut Outbox,
) -> Result<(), Memory>
    ensures { OnOk result (out.new ≡ out.old ++ compared plan.now own (Some mine.now) other.now) }
{
    if let Some(held) = other {
        if mine.iteration == held.piece.iteration {
            let letter = Letter::VerdictOf {
                first: own,
                second: held.stamp,
                node: mine.node,
                iteration: mine.iteration,
                verdict: compare(plan, mine, &held.piece),
                piece: mine.copy(alloc)?,
            };
            out.send(BoxId::Conductor, letter)?;
        }
    }
    Ok(())
}

// Sends what a node sends as it packs.
pub(crate) fn send_packed(
    alloc: Global,
    plan: &Plan,
    slot: SlotId,
    stamp: Stamp,
    piece: &Piece,
    other: &Option<Held>,
    out: &mut Outbox,
) -> Result<(), Memory>
    ensures { OnOk result (out.new ≡ out.old
        ++ pack_sends plan.now slot stamp piece.now other.now) }
{
    if slot.replica == 1 {
        send_piece(alloc, slot.node, stamp, piece, out)
    } else {
        send_verdict(alloc, plan, stamp, piece, other, out)
    }
}

// Sends a piece to the buddy in replica 0.
fn send_piece(
    alloc: Global,
    node: u16,
    stamp: Stamp,
    piece: &Piece,
    out: &mut Outbox,
) -> Result<(), Memory>
    ensures { OnOk result (out.new ≡ out.old ++ to_slot 0 node (letters.Piece stamp piece.now)
        ∷ []) }
{
    let buddy = SlotId { replica: 0, node };
    let letter = Letter::Piece {
        stamp,
        piece: piece.copy(alloc)?,
    };
    out.send(BoxId::Slot(buddy), letter)?;
    Ok(())
}

// Sends what replica 1 sends again as it goes on.
pub(crate) fn send_again(
    alloc: Global,
    slot: SlotId,
    stamp: Stamp,
    fresh: &Option<Piece>,
    out: &mut Outbox,
) -> Result<(), Memory>
    ensures { OnOk result (out.new ≡ out.old ++ sent_again slot stamp fresh.now) }
{
    match fresh {
        None => Ok(()),
        Some(piece) => {
            if slot.replica == 1 {
                return send_piece(alloc, slot.node, stamp, piece, out);
            }
            Ok(())
        }
    }
}
