//! Laws of the conductor: called where it is wanted, and its clauses are facts from there on.

ghost use Rattle.conductor_core.specs.Tells.{DidTell, EndsTell, HearsTell, MovesFit, PhasesFollow, StartsTell};

use buddy_compare::laws::verdicts_tell;
use chare_eval::laws::{earlier_flips_decide, fold_is_shaped};
use checkpoint_store::laws::pieces_make_the_checkpoint;
use run_ledger::laws::{equal_checkpoints_are_of_equal_folds, ledgers_stay_tidy, lineages_follow};

/// Whatever true letters it hears and whatever it is answered, a conductor keeps verdicts and pieces of the definition,
/// its records are lawful steps of the run, and its stamps have the lineages that the records leave. What it sends is true,
/// and what it orders a slot follows what it ordered the slot before. What it leaves at its end is the ending of a lawful
/// run.
pub fn conductors_tell()
    ensures starts { StartsTell }
    ensures hears { HearsTell }
    ensures did { DidTell }
    ensures ends { EndsTell }
{
    earlier_flips_decide();
    equal_checkpoints_are_of_equal_folds();
    fold_is_shaped();
    ledgers_stay_tidy();
    lineages_follow();
    pieces_make_the_checkpoint();
    verdicts_tell();
}

/// The conductor wants a move on the agreement only in the phase that the move is made in, with a slot of the run or a
/// floor within the job; and its phase goes with the agreement's round.
pub fn moves_fit_the_round()
    ensures fit { MovesFit }
    ensures follow { PhasesFollow }
{}
