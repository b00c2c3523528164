//! The copies of the base, by node: which of them stand.

ghost use Rattle.std.specs.Prelude.{◌≡◌, IfOk, length, replicate, if◌then◌else◌, slice_index_or, slice_set, false, true};

use chare_base::memory::Memory;
use std::alloc::Global;

// The copies of n nodes, all of which stand.
pub(crate) fn standing(alloc: Global, nodes: u16) -> Result<Vec<bool>, Memory>
    ensures { IfOk result (λ copies. copies.items ≡ replicate nodes true) }
{
    let copies = vec![in alloc; true; nodes as usize]?;
    Ok(copies)
}

pub(crate) fn stands(copies: &[bool], node: u16) -> bool
    ensures { result ≡ slice_index_or copies.now node false }
{
    copies.get(node as usize).copied().unwrap_or(false)
}

// A node's copy is lost, if it is one of this replica's.
pub(crate) fn lose_if(on: bool, copies: &mut Vec<bool>, node: u16)
    ensures exact { copies.new.items
        ≡ (if on then slice_set copies.old.items node false else copies.old.items) }
    ensures length { length copies.new.items ≡ length copies.old.items }
{
    let node = node as usize;
    if on && node < copies.len() {
        copies[node] = false;
    }
}
