//! The checkpoint of the pieces of all nodes.

ghost use Rattle.std.specs.Prelude.{◌≡◌, ◌++◌, ◌<◌, ◌≤◌, ℕ, List, length, take, drop, IfOk, OnOk};
ghost use Rattle.chare_base.specs.Elements.{elements};
ghost use Rattle.chare_base.specs.Flip.{Flip};
ghost use Rattle.chare_eval.specs.Fold.{fold};
ghost use Rattle.pup_state.specs.Spelling.{pack};
ghost use Rattle.checkpoint_store.specs.Assembled.{ArePieces, assembled, bytes_of, merged, record_size, rests, zeros};

use crate::laws::pieces_make_the_checkpoint;
use crate::pieces::Pieces;
use chare_base::bytes::Bytes;
use chare_base::memory::Memory;
use chare_base::placement::Placement;
use chare_base::plan::{ElementId, Plan};
use pup_state::pack::put_head;
use pup_state::piece::Piece;
use std::alloc::Global;

/// The checkpoint's bytes: the records of all elements in element order, each from the front of what is left of its
/// node's piece.
///
/// There is a piece for each node. Where each is the records of its node's elements after k iterations under some
/// flips, the result is the checkpoint after k iterations under these flips. Its time is linear in the bytes.
///
/// `Memory`: an allocation was refused.
#[tactic(auto, unfolding(crate::specs::Assembled::assembled))]
pub fn assemble<M: Placement>(
    alloc: Global,
    plan: &Plan,
    map: &M,
    pieces: &Pieces,
) -> Result<Bytes, Memory>
    requires place { length (M.place map.now) ≡ elements plan.now }
    requires nodes { length pieces.now ≡ M.count map.now }
    ensures exact { IfOk result (λ bytes. bytes ≡ assembled plan.now (M.place map.now) pieces.now) }
    // pieces of the definition make its checkpoint
    ensures checkpoint { (lines : List Flip) (k : ℕ)
        → ArePieces plan.now (M.place map.now) lines k pieces.now
        → IfOk result (λ bytes. bytes ≡ pack plan.now k (fold plan.now lines k)) }
{
    pieces_make_the_checkpoint();
    let mut ends = no_bytes_taken(alloc, map.nodes())?;
    let pieces = pieces.as_slice();
    let mut out = Bytes::from_vec(Vec::with_capacity(alloc, size_of_all(pieces))?);
    put_head(alloc, plan.elements(), &mut out)?;
    merge(plan, map, pieces, &mut ends, &mut out)?;
    Ok(out)
}

// How many bytes of each node's piece were taken, at first none.
fn no_bytes_taken(alloc: Global, nodes: u16) -> Result<Vec<usize>, Memory>
    ensures { IfOk result (λ ends. ends.items ≡ zeros nodes) }
{
    let mut ends = Vec::new(alloc);
    for node in 0..nodes {
        let _ = node;
        ends.push(0)?;
    }
    Ok(ends)
}

// A checkpoint's size, to ask for its memory at once. Nothing else rests on it.
fn size_of_all(pieces: &[Piece]) -> usize {
    let mut size = 8usize;
    for piece in pieces {
        size = size.saturating_add(piece.bytes.len());
    }
    size
}

// Appends the records of all elements in element order.
fn merge<M: Placement>(
    plan: &Plan,
    map: &M,
    pieces: &[Piece],
    ends: &mut Vec<usize>,
    out: &mut Bytes,
) -> Result<(), Memory>
    requires place { length (M.place map.now) ≡ elements plan.now }
    requires nodes { length pieces.now ≡ M.count map.now }
    requires ends { length ends.old.items ≡ M.count map.now }
    ensures { OnOk result (out.new ≡ out.old
        ++ merged plan.now 0 (M.place map.now) (rests pieces.now ends.old.items)) }
{
    for e in 0..plan.elements() {
        let e = ElementId(e);
        let node = map.node_of(e) as usize;
        take_record(
            record_size(plan, e),
            pieces[node].bytes.as_slice(),
            &mut ends[node],
            out,
        )?;
    }
    Ok(())
}

fn record_size(plan: &Plan, e: ElementId) -> usize
    requires { e.0 < elements plan.now }
    ensures { result ≡ record_size plan.now e.0 }
{
    28 + 8 * plan.cells_of(e) as usize
}

// Appends `size` bytes from the front of what is left, or all of it where it is less.
#[tactic(auto, using(crate::proofs::Merging::drop_min))]
fn take_record(size: usize, bytes: &[u8], end: &mut usize, out: &mut Bytes) -> Result<(), Memory>
    ensures out { OnOk result (out.new ≡ out.old ++ take size (drop end.old bytes.now)) }
    ensures left { OnOk result (drop end.new bytes.now ≡ drop size (drop end.old bytes.now)) }
{
    let start = (*end).min(bytes.len());
    let left = &bytes[start..];
    let count = size.min(left.len());
    out.extend(&left[..count])?;
    *end = start + count;
    Ok(())
}
