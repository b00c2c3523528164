//! What records need of the ledger.

ghost use Rattle.std.specs.Prelude.{◌≡◌, ◌≤◌, ◌+◌, ◌&&◌, ◌||◌, nat_le, nat_lt, min, length};
ghost use Rattle.run_ledger.specs.Conditions.{bare_from, first_false, has_copy, is_number, is_strong, is_weak, other};

use crate::copies::stands;
use chare_base::options::Mode;

// The number of the first condition that fails, from 1.
pub(crate) fn first_false(conditions: &[bool]) -> Option<u8>
    requires { length conditions.now ≤ 200 }
    ensures { result ≡ first_false 1 conditions.now }
{
    for i in 0..conditions.len() {
        if !conditions[i] {
            return Some(i as u8 + 1);
        }
    }
    None
}

// The least iteration of the next checkpoint.
pub(crate) fn due(base: u64, every: u64, iterations: u64) -> u64
    ensures { result ≡ min (base + every) iterations }
{
    base.saturating_add(every).min(iterations)
}

// The iteration of a checkpoint of both replicas.
pub(crate) fn is_next(base: u64, every: u64, iterations: u64, k: u64) -> bool
    ensures { result ≡ (nat_le (min (base + every) iterations) k && nat_lt base k
        && nat_le k iterations) }
{
    due(base, every, iterations) <= k && base < k && k <= iterations
}

pub(crate) fn is_strong(mode: Mode) -> bool
    ensures { result ≡ is_strong mode }
{
    match mode {
        Mode::Strong => true,
        Mode::Medium => false,
        Mode::Weak => false,
    }
}

pub(crate) fn is_weak(mode: Mode) -> bool
    ensures { result ≡ is_weak mode }
{
    match mode {
        Mode::Strong => false,
        Mode::Medium => false,
        Mode::Weak => true,
    }
}

// The other replica.
pub(crate) fn other(replica: u8) -> u8
    ensures { result ≡ other replica }
{
    if replica == 0 { 1 } else { 0 }
}

// The least node of which neither replica has a copy.
pub(crate) fn bare_node(first: &[bool], second: &[bool], nodes: u16) -> Option<u16>
    ensures { result ≡ bare_from first.now second.now 0 nodes }
{
    for node in 0..nodes {
        if !has_copy(first, second, node) {
            return Some(node);
        }
    }
    None
}

fn has_copy(first: &[bool], second: &[bool], node: u16) -> bool
    ensures { result ≡ has_copy first.now second.now node }
{
    stands(first, node) || stands(second, node)
}

pub(crate) fn is_number(node: u16, found: Option<u16>) -> bool
    ensures { result ≡ is_number node found }
{
    match found {
        None => false,
        Some(other) => other == node,
    }
}

pub(crate) fn either(a: bool, b: bool) -> bool
    ensures { result ≡ (a || b) }
{
    a || b
}
