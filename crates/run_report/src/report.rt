//! The text of a report.

ghost use Rattle.std.specs.Prelude.{◌≡◌, ◌++◌, None, IfOk, OnOk, drop, slice_get};
ghost use Rattle.fault_script.specs.Lines.{faults_of};
ghost use Rattle.run_ledger.specs.Ledgers.{after};
ghost use Rattle.run_ledger.specs.Conditions.{unlawful};
ghost use Rattle.run_ledger.specs.Lawful.{StepsFrom};
ghost use Rattle.conductor_core.specs.Endings.{IsEnding, IsLast, IsLastAt, marks_from};
ghost use Rattle.run_report.specs.Report.{crash_by, record_lines, report, told};
ghost use Rattle.run_report.specs.Marks.{IsMarkAt, first_mark, marks_behind};

use crate::ends::put_done;
use crate::lines::{
    put_accepted, put_adopted, put_both, put_crash, put_differ, put_first, put_lost, put_mend,
};
use chare_base::bytes::Bytes;
use chare_base::memory::Memory;
use chare_base::options::Options;
use chare_base::plan::Plan;
use checkpoint_store::mark::Mark;
use conductor_core::ending::Ending;
use fault_script::fault::Fault;
use fault_script::script::Script;
use run_ledger::laws::folds_are_lawful;
use run_ledger::ledger::Ledger;
use run_ledger::record::Record;
use std::alloc::Global;

/// The report of a run under a fault script: a line for each record, told from the ending's records and marks, and where
/// the job is done its answers, told from the last checkpoint. Its time is linear in the records, in the checkpoint's
/// bytes, and in the elements for each answer.
///
/// `Memory`: an allocation was refused.
#[tactic(auto, unfolding(crate::specs::Report::report))]
pub fn report(
    alloc: Global,
    plan: &Plan,
    script: &Script,
    options: &Options,
    ending: &Ending,
) -> Result<Bytes, Memory>
    requires { IsEnding plan.now (faults_of script.now) options.now ending.now }
    ensures { IfOk result (λ text. text
        ≡ report plan.now script.now options.now ending.now.records.items) }
{
    let mut out = Bytes::new(alloc);
    put_first(alloc, &mut out, plan, options)?;
    let mut ledger = Ledger::start(alloc, script, options, plan.iterations())?;
    let (records, marks, last) = (
        ending.records.as_slice(),
        ending.marks.as_slice(),
        ending.last.as_slice(),
    );
    put_records(
        alloc,
        &mut out,
        plan,
        script,
        &mut ledger,
        records,
        marks,
        last,
    )?;
    Ok(out)
}

// The lines of these records, made one after another on a ledger.
fn put_records(
    alloc: Global,
    out: &mut Bytes,
    plan: &Plan,
    script: &Script,
    ledger: &mut Ledger,
    records: &[Record],
    marks: &[Mark],
    last: &[u8],
) -> Result<(), Memory>
    requires steps { StepsFrom plan.now ledger.old.ledger records.now }
    requires marks { marks.now ≡ marks_from plan.now ledger.old.ledger records.now }
    requires last { IsLast plan.now ledger.old.ledger records.now last.now }
    ensures { OnOk result (out.new ≡ out.old
        ++ told plan.now script.now ledger.old.ledger records.now) }
{
    let mut marks = marks;
    for record in records {
        put_record(
            alloc,
            out,
            plan,
            script,
            ledger,
            first_mark(marks),
            last,
            *record,
        )?;
        marks = marks_behind(*record, marks);
        move_on(ledger, plan, *record)?;
    }
    Ok(())
}

// What a record tells, in the ledger before it.
#[tactic(auto, using(crate::proofs::Lasts::last_is, crate::proofs::Lasts::last_state))]
fn put_record(
    alloc: Global,
    out: &mut Bytes,
    plan: &Plan,
    script: &Script,
    ledger: &Ledger,
    mark: Mark,
    last: &[u8],
    step: Record,
) -> Result<(), Memory>
    requires mark { IsMarkAt plan.now ledger.now.ledger step mark }
    requires last { IsLastAt plan.now ledger.now.ledger step last.now }
    ensures { OnOk result (out.new ≡ out.old
        ++ record_lines plan.now script.now ledger.now.ledger step) }
{
    // So the last bytes can be read back.
    folds_are_lawful();
    match step {
        Record::Accept { k } => {
            put_accepted(
                alloc,
                out,
                &mark,
                ledger.strikes(0, k),
                ledger.strikes(1, k),
            )?
        }
        Record::Differ { k, element } => {
            put_differ(alloc, out, plan, k, element, ledger.base())?
        }
        Record::Crash { line } => put_crash_by(alloc, out, script, line)?,
        Record::Mend { replica } => put_mend(alloc, out, replica, ledger.base())?,
        Record::Adopt { k, from } => {
            put_adopted(alloc, out, &mark, from, ledger.strikes(from, k))?
        }
        Record::Both => put_both(alloc, out, ledger.base())?,
        Record::NoSpare => out.extend(b"end no spare\n")?,
        Record::Lost { node } => put_lost(alloc, out, node)?,
        Record::Done => put_done(alloc, out, plan, last)?,
    }
    Ok(())
}

// The crash by the line at a place in the script.
fn put_crash_by(alloc: Global, out: &mut Bytes, script: &Script, line: u32) -> Result<(), Memory>
    ensures { OnOk result (out.new ≡ out.old ++ crash_by (slice_get script.now line)) }
{
    if let Some(line) = script.as_slice().get(line as usize) {
        if let Fault::Crash { slot, .. } = line.fault {
            put_crash(alloc, out, slot, line.line)?;
        }
    }
    Ok(())
}

// The first mark of those that are left.
fn first_mark(marks: &[Mark]) -> Mark
    ensures { result ≡ first_mark marks.now }
{
    const NONE: Mark = Mark {
        k: 0,
        length: 0,
        digest: [0; 32],
    };
    marks.get(0).copied().unwrap_or(NONE)
}

// The marks that are left after a record.
fn marks_behind(step: Record, marks: &[Mark]) -> &[Mark]
    ensures { result.now ≡ marks_behind step marks.now }
{
    match step {
        Record::Accept { .. } => behind_first(marks),
        Record::Adopt { .. } => behind_first(marks),
        _ => marks,
    }
}

fn behind_first(marks: &[Mark]) -> &[Mark]
    ensures { result.now ≡ drop 1 marks.now }
{
    match marks.split_first() {
        None => marks,
        Some((_, rest)) => rest,
    }
}

// The ledger moves on by a record that it allows.
fn move_on(ledger: &mut Ledger, plan: &Plan, step: Record) -> Result<(), Memory>
    requires { unlawful ledger.old.ledger step ≡ None }
    ensures { OnOk result (ledger.new.ledger ≡ after ledger.old.ledger step) }
{
    ledger.reserve(1)?;
    match ledger.apply(plan, step) {
        Ok(()) => Ok(()),
        Err(_) => unreachable!(),
    }
}
