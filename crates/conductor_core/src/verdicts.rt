//! What the conductor keeps of each node, and what all nodes' verdicts say.

ghost use Rattle.std.specs.Prelude.{◌≡◌, IfOk, None, is_some};
ghost use Rattle.std.specs.List.{list_all};
ghost use Rattle.conductor_core.specs.Verdicts.{difference_in, least_difference, least_from, lesser, no_pieces};

use chare_base::bytes::Bytes;
use chare_base::memory::Memory;
use chare_base::plan::ElementId;
use checkpoint_store::pieces::Pieces;
use pup_state::compare::Verdict;
use pup_state::piece::Piece;
use std::alloc::Global;

// Whether every node's verdict is there.
pub(crate) fn all_there(verdicts: &[Option<Verdict>]) -> bool
    ensures { result ≡ list_all is_some verdicts.now }
{
    verdicts.iter().all(|verdict| verdict.is_some())
}

// The least element that verdicts name.
pub(crate) fn least_difference(verdicts: &[Option<Verdict>]) -> Option<ElementId>
    ensures { result ≡ least_difference verdicts.now }
{
    let mut least = None;
    for verdict in verdicts {
        least = lesser(least, difference_in(*verdict));
    }
    least
}

fn difference_in(verdict: Option<Verdict>) -> Option<ElementId>
    ensures { result ≡ difference_in verdict }
{
    match verdict {
        None => None,
        Some(Verdict::Equal) => None,
        Some(Verdict::Differ { element }) => Some(element),
    }
}

fn lesser(found: Option<ElementId>, other: Option<ElementId>) -> Option<ElementId>
    ensures { result ≡ lesser found other }
{
    match (found, other) {
        (None, other) => other,
        (Some(e), None) => Some(e),
        (Some(e), Some(other)) => Some(if other.0 < e.0 { other } else { e }),
    }
}

// A place for the piece of each node.
pub(crate) fn no_pieces(alloc: Global, nodes: u16) -> Result<Pieces, Memory>
    ensures { IfOk result (λ pieces. pieces ≡ no_pieces nodes) }
{
    let mut pieces = Pieces::new(alloc);
    for node in 0..nodes {
        pieces.push(Piece {
            node,
            iteration: 0,
            bytes: Bytes::new(alloc),
        })?;
    }
    Ok(pieces)
}
