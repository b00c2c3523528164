//! On which node each element lives.

ghost use Rattle.std.specs.Prelude.{◌≡◌, ℕ, ◌<◌, ◌≤◌, ◌*◌, ◌/◌, List, length, slice_get, Some};
ghost use Rattle.chare_base.specs.Placing.{Covers, block_nodes};

use crate::plan::ElementId;

/// A placement says on which node of a replica each element lives, the same in both replicas.
///
/// Its meaning is the list of the node of each element, in element order. Each node of the list is below the number
/// of nodes, and every node has an element.
pub trait Placement {
    /// The node of each element, in element order.
    ghost place: { Self → List ℕ };

    /// How many nodes a replica has.
    ghost count: { Self → ℕ };

    /// How many nodes a replica has.
    fn nodes(&self) -> u16
        ensures exact { result ≡ count self.now }
        ensures covers { Covers (place self.now) (count self.now) };

    /// The node of an element. It takes no memory.
    fn node_of(&self, e: ElementId) -> u16
        requires { e.0 < length (place self.now) }
        ensures node { slice_get (place self.now) e.0 ≡ Some result }
        ensures within { result < count self.now };
}

/// Consecutive blocks of elements, one for each node: element e of E lives on node e * nodes / E (the whole part).
#[derive(Clone, Copy)]
pub struct BlockMap {
    pub elements: u32,
    pub nodes: u16,
    pub ghost some: { 1 ≤ nodes },
    pub ghost few: { nodes ≤ elements },
}

impl Placement for BlockMap {
    ghost place = { λ m. block_nodes m.elements m.nodes };

    ghost count = { λ m. m.nodes };

    fn nodes(&self) -> u16 {
        self.nodes
    }

    fn node_of(&self, e: ElementId) -> u16 {
        block(e.0, self.elements, self.nodes)
    }
}

// The block of an element.
fn block(e: u32, elements: u32, nodes: u16) -> u16
    requires some { 1 ≤ nodes }
    requires there { e < elements }
    ensures exact { result ≡ (e * nodes) / elements }
    ensures within { result < nodes }
{
    (u64::from(e) * u64::from(nodes) / u64::from(elements)) as u16
}
