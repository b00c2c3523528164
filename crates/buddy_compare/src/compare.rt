//! The verdict on two pieces.

ghost use Rattle.std.specs.Prelude.{◌≡◌, ◌↔◌, ◌≤◌, ◌<◌, ◌+◌, length, take, drop, IfSome};
ghost use Rattle.std.specs.Str.{bytes_eq};
ghost use Rattle.chare_base.specs.Elements.{elements};
ghost use Rattle.chare_base.specs.Entries.{first_of};
ghost use Rattle.buddy_compare.specs.Comparing.{element_if, front_element, rest_verdict, verdict_of};

use chare_base::plan::{Array, ElementId, Plan};
use pup_state::compare::Verdict;
use pup_state::piece::Piece;
use pup_state::unpack::{front_place, size_of};

/// Compares the pieces that both replicas have of one node at one iteration. They are equal exactly where their bytes
/// are; else the verdict names the least element whose records differ. It takes no memory, and its time is linear in
/// the bytes.
///
/// It asks nothing of the bytes: where they differ and no element's record begins, element 0 is named.
pub fn compare(plan: &Plan, a: &Piece, b: &Piece) -> Verdict
    ensures exact { result ≡ verdict_of plan.now a.now.bytes b.now.bytes }
    ensures equal { (result ≡ Verdict.Equal) ↔ (a.now.bytes ≡ b.now.bytes) }
{
    first_difference(plan, a.bytes.as_slice(), b.bytes.as_slice())
}

// Record by record, each as long as the plan says.
#[tactic(auto, using(crate::proofs::Walking::ends, crate::proofs::Walking::differs, crate::proofs::Walking::goes_on), unfolding(crate::specs::Comparing::verdict_of))]
fn first_difference(plan: &Plan, a: &[u8], b: &[u8]) -> Verdict
    ensures { result ≡ verdict_of plan.now a.now b.now }
{
    let mut left = a;
    let mut other = b;
    for _ in 0..a.len() {
        match front_element(plan, left) {
            None => return rest_verdict(left, other),
            Some(e) => {
                let element = ElementId(e);
                let size = size_of(plan, element) as usize;
                if !is_same_front(left, other, size) {
                    return Verdict::Differ { element };
                }
                left = behind(left, size);
                other = behind(other, size);
            }
        }
    }
    rest_verdict(left, other)
}

// What is left, where no element's record begins.
fn rest_verdict(a: &[u8], b: &[u8]) -> Verdict
    ensures { result ≡ rest_verdict a.now b.now }
{
    if a == b {
        Verdict::Equal
    } else {
        Verdict::Differ {
            element: ElementId(0),
        }
    }
}

// The element whose record begins these bytes.
fn front_element(plan: &Plan, bytes: &[u8]) -> Option<u32>
    ensures exact { result ≡ front_element plan.now bytes.now }
    ensures there { IfSome result (λ e. e < elements plan.now) }
{
    let place = front_place(bytes)?;
    let first = first_of(plan.arrays.as_slice(), place.array);
    element_if(plan.elements(), first, place.index)
}

// The number of an array's first element, 0 where there is no such array.
fn first_of(arrays: &[Array], number: u16) -> u32
    ensures { result ≡ first_of arrays.now number }
{
    match arrays.get(number as usize) {
        Some(array) => array.first,
        None => 0,
    }
}

fn element_if(count: u32, first: u32, index: u32) -> Option<u32>
    ensures exact { result ≡ element_if count (first + index) }
    ensures there { IfSome result (λ e. e < count) }
{
    let e = u64::from(first) + u64::from(index);
    if e < u64::from(count) {
        Some(e as u32)
    } else {
        None
    }
}

fn is_same_front(a: &[u8], b: &[u8], size: usize) -> bool
    ensures { result ≡ bytes_eq (take size a.now) (take size b.now) }
{
    front(a, size) == front(b, size)
}

fn front(bytes: &[u8], size: usize) -> &[u8]
    ensures { result.now ≡ take size bytes.now }
{
    bytes.split_at(size.min(bytes.len())).0
}

fn behind(bytes: &[u8], size: usize) -> &[u8]
    ensures { result.now ≡ drop size bytes.now }
{
    bytes.split_at(size.min(bytes.len())).1
}
