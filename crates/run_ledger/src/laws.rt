//! Laws of lawful records: each is called where it is wanted, and its clauses are facts from there on.

ghost use Rattle.run_ledger.specs.Apart.{OneReplicaIsApart, RecordsAreRight, StrongRecordsAreRight};
ghost use Rattle.run_ledger.specs.Checkpoints.{EqualCheckpointsAreOfEqualFolds, FoldsAreLawful};
ghost use Rattle.run_ledger.specs.Laws.{AcceptThenDoneIsLawful, AcceptsMakeTheBase, AcceptsRebase, AdoptsRebase, CrashesKeepLineages, DiffersKeepTheBase, FaultsStay, LineagesAreSets, LineagesShareTheBase, LineagesStayEmpty, StaysTidy};

use chare_eval::laws::{earlier_flips_decide, fold_is_shaped, folds_fit, slips_are_noted};
use pup_state::laws::{lawful_fits, one_spelling};

/// The states of every fold are such as a job can have, for every plan and whatever flips strike. So their bytes are a
/// checkpoint, and a piece of them reads back.
pub fn folds_are_lawful()
    ensures { FoldsAreLawful }
{
    fold_is_shaped();
    folds_fit();
    slips_are_noted();
}

/// Where the checkpoints of two folds of a plan are equal after equally many iterations, so are their states: a
/// checkpoint tells the fold that it is of.
pub fn equal_checkpoints_are_of_equal_folds()
    ensures { EqualCheckpointsAreOfEqualFolds }
{
    folds_are_lawful();
    lawful_fits();
    one_spelling();
}

/// A run may take one checkpoint, at the end, where no fault is to come.
pub fn accept_then_done_is_lawful()
    ensures { AcceptThenDoneIsLawful }
{}

/// Where no fault is to come, no flip ever strikes a replica.
pub fn lineages_stay_empty()
    ensures { LineagesStayEmpty }
{}

/// What lawful records keep of a ledger: live flips strike at the base or later, those of the base before it, and the
/// lines are the script's.
pub fn ledgers_stay_tidy()
    ensures tidy { StaysTidy }
    ensures faults { FaultsStay }
{}

/// How lineages change with each record, and that the set of a lineage selects its flips from the script.
pub fn lineages_follow()
    ensures sets { LineagesAreSets }
    ensures bases { LineagesShareTheBase }
    ensures differs { DiffersKeepTheBase }
    ensures accepts { AcceptsRebase }
    ensures made { AcceptsMakeTheBase }
    ensures adopts { AdoptsRebase }
    ensures crashes { CrashesKeepLineages }
{}

/// A script whose flips all strike one replica makes no equal checkpoints that are wrong.
pub fn one_replica_is_apart()
    ensures { OneReplicaIsApart }
{}

/// Where no flips of the two replicas make equal checkpoints that are wrong, every checkpoint that a lawful run accepts is
/// that of the fault-free run, and the base at its end is the fault-free run's state. In strong mode nothing else is
/// needed; in the other modes a replica whose checkpoint is adopted must not have been struck since the base.
pub fn records_are_right()
    ensures all { RecordsAreRight }
    ensures strong { StrongRecordsAreRight }
{
    earlier_flips_decide();
    equal_checkpoints_are_of_equal_folds();
}
