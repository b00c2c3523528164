//! A node's objects from its piece.

ghost use Rattle.std.specs.Prelude.{◌≡◌, ◌<◌, ◌≤◌, ◌++◌, ◌==◌, ◌∷◌, [], ⊤, if◌then◌else◌, length, drop, Some, None, MatchOption, IfOk, OnOk};
ghost use Rattle.std.specs.List.{AllByRecursion};
ghost use Rattle.chare_base.specs.Elements.{elements, cells_of};
ghost use Rattle.chare_base.specs.Placing.{members};
ghost use Rattle.object_steps.specs.Objects.{Fits, started};
ghost use Rattle.pup_state.specs.Spelling.{size_of};
ghost use Rattle.node_core.specs.Loads.{loaded, object_in};

use chare_base::memory::Memory;
use chare_base::placement::Placement;
use chare_base::plan::{ElementId, Plan};
use object_steps::object::Object;
use pup_state::fault::PupFault;
use pup_state::piece::Piece;
use pup_state::unpack::{Unpacked, size_of, unpack_element};
use std::alloc::Global;

// Far more bytes than the records of all elements have.
const TOO_MANY: usize = 4294967295;

/// The objects of a node's elements between two iterations, from a piece of the node: each has the cells of its record
/// and no message. None exactly where the piece's bytes aren't the records of the node's elements after the piece's
/// iteration. Its time is linear in the bytes and in the plan's elements.
///
/// `Memory`: an allocation was refused.
pub fn load<M: Placement>(
    alloc: Global,
    plan: &Plan,
    map: &M,
    piece: &Piece,
) -> Result<Option<Vec<Object>>, Memory>
    requires { length (M.place map.now) ≡ elements plan.now }
    ensures exact { IfOk result
        (λ found. MatchOption found (loaded plan.now (members (M.place map.now) piece.now.node)
        piece.now.iteration piece.now.bytes ≡ None)
        (λ objects. loaded plan.now (members (M.place map.now) piece.now.node) piece.now.iteration
        piece.now.bytes ≡ Some objects.items)) }
    ensures fits { IfOk result
        (λ found. MatchOption found ⊤ (λ objects. AllByRecursion (Fits plan.now) objects.items)) }
{
    let bytes = piece.bytes.as_slice();
    if bytes.len() >= TOO_MANY {
        return Ok(None);
    }
    let members = members(alloc, plan, map, piece.node)?;
    load_all(alloc, plan, members.as_slice(), piece.iteration, bytes)
}

// The elements of a node.
fn members<M: Placement>(alloc: Global, plan: &Plan, map: &M, node: u16) -> Result<Vec<u32>, Memory>
    requires { length (M.place map.now) ≡ elements plan.now }
    ensures exact { IfOk result (λ all. all.items ≡ members (M.place map.now) node) }
{
    let mut all = Vec::new(alloc);
    for e in 0..plan.elements() {
        let here = map.node_of(ElementId(e)) == node;
        push_if(here, e, &mut all)?;
    }
    Ok(all)
}

fn push_if(here: bool, e: u32, all: &mut Vec<u32>) -> Result<(), Memory>
    ensures { OnOk result (all.new.items ≡ all.old.items ++ (if here then e ∷ [] else [])) }
{
    if here {
        all.push(e)?;
    }
    Ok(())
}

// The objects of these elements, where the bytes are their records.
#[tactic(auto, unfolding(crate::specs::Loads::loaded))]
fn load_all(
    alloc: Global,
    plan: &Plan,
    members: &[u32],
    k: u64,
    bytes: &[u8],
) -> Result<Option<Vec<Object>>, Memory>
    requires there { AllByRecursion (λ e. e < elements plan.now) members.now }
    requires few { length bytes.now < 4294967295 }
    ensures exact { IfOk result
        (λ found. MatchOption found (loaded plan.now members.now k bytes.now ≡ None)
        (λ objects. loaded plan.now members.now k bytes.now ≡ Some objects.items)) }
    ensures fits { IfOk result
        (λ found. MatchOption found ⊤ (λ objects. AllByRecursion (Fits plan.now) objects.items)) }
{
    let mut all = Vec::new(alloc);
    let mut rest = bytes;
    for member in members {
        let e = ElementId(*member);
        match object_in(alloc, plan, e, k, rest)? {
            None => return Ok(None),
            Some(object) => all.push(object)?,
        }
        rest = rest.split_at(size_of(plan, e) as usize).1;
    }
    if rest.is_empty() {
        Ok(Some(all))
    } else {
        Ok(None)
    }
}

// The object of an element, where its record begins these bytes.
fn object_in(
    alloc: Global,
    plan: &Plan,
    e: ElementId,
    k: u64,
    bytes: &[u8],
) -> Result<Option<Object>, Memory>
    requires element { e.0 < elements plan.now }
    requires few { length bytes.now < 4294967295 }
    ensures exact { IfOk result (λ object. object ≡ object_in plan.now e.0 k bytes.now) }
    ensures fits { IfOk result (λ object. MatchOption object ⊤ (Fits plan.now)) }
    ensures long { IfOk result
        (λ object. MatchOption object ⊤ (λ _. size_of plan.now e.0 ≤ length bytes.now)) }
{
    match unpack_element(alloc, plan, e, bytes, 0) {
        Ok(unpacked) => Ok(object_at(alloc, plan, e, k, unpacked)),
        Err(PupFault::Memory) => Err(Memory),
        Err(_) => Ok(None),
    }
}

// The object of an element from its record, where that is of iteration k.
fn object_at(alloc: Global, plan: &Plan, e: ElementId, k: u64, from: Unpacked) -> Option<Object>
    requires element { e.0 < elements plan.now }
    requires cells { length from.cells.numbers ≡ cells_of plan.now e.0 }
    requires within { from.done ≤ plan.now.iterations }
    ensures exact { result
        ≡ (if from.done == k then Some (started plan.now e.0 from.cells k) else None) }
    ensures fits { MatchOption result ⊤ (Fits plan.now) }
{
    if from.done == k {
        Some(Object::start(alloc, plan, e, from.cells, k))
    } else {
        None
    }
}
