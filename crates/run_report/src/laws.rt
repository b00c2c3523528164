//! Laws of reports: each is called where it is wanted, and its clauses are facts from there on.

ghost use Rattle.run_report.specs.Laws.{ReportsAreFaultFree, ReportsAreRight, StrongReportsAreRight};

use run_ledger::laws::records_are_right;

/// With no fault to come, every report of a lawful run tells the fault-free run.
pub fn reports_are_fault_free()
    ensures { ReportsAreFaultFree }
{}

/// Where no flips of the two replicas make equal checkpoints that are wrong, the report of a lawful run tells the fault-free
/// run: each checkpoint that became the base has the bytes of its checkpoint, and the answers are its answers. In strong
/// mode nothing else is needed; in the other modes a replica whose checkpoint is adopted must not have been struck
/// since the base.
pub fn reports_are_right()
    ensures all { ReportsAreRight }
    ensures strong { StrongReportsAreRight }
{
    records_are_right();
}
