//! Laws of pieces: called where it is wanted, and its clause is a fact from there on.

ghost use Rattle.checkpoint_store.specs.Laws.{PiecesMakeTheCheckpoint};

use chare_eval::laws::fold_is_shaped;
use pup_state::laws::record_length;

/// Where each node's piece is the records of its elements after k iterations under some flips, the pieces assembled are
/// the checkpoint after k iterations under these flips, by whatever placement.
pub fn pieces_make_the_checkpoint()
    ensures { PiecesMakeTheCheckpoint }
{
    fold_is_shaped();
    record_length();
}
