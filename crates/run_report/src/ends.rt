//! The end of a report, told from a checkpoint or from the states at the end.

ghost use Rattle.std.specs.Prelude.{◌≡◌, ◌≤◌, ◌<◌, ℕ, ◌++◌, IfOk, OnOk, length, List};
ghost use Rattle.chare_base.specs.declared.cells.Cells.{Cells};
ghost use Rattle.chare_base.specs.Shape.{Shaped};
ghost use Rattle.pup_state.specs.Laws.{State};
ghost use Rattle.pup_state.specs.Packs.{IsPack};
ghost use Rattle.run_report.specs.Answers.{ending, results};
ghost use Rattle.run_report.specs.Report.{plain_text};

use crate::answers::put_answers;
use crate::lines::put_plain_head;
use crate::slips::put_slips;
use chare_base::bytes::Bytes;
use chare_base::cells::{Cells, CellsList};
use chare_base::memory::Memory;
use chare_base::plan::Plan;
use pup_state::fault::PupFault;
use pup_state::laws::pieces_are_small;
use pup_state::unpack::unpack_all;
use std::alloc::Global;

/// The text of a plain run: the answers and slips from the states at its end.
///
/// `Memory`: an allocation was refused.
#[tactic(auto, unfolding(crate::specs::Report::plain_text), using(crate::proofs::Sides::states_few))]
pub fn plain_text(alloc: Global, plan: &Plan, all: &CellsList) -> Result<Bytes, Memory>
    requires { Shaped plan.now all.now }
    ensures { IfOk result (λ text. text ≡ plain_text plan.now all.now) }
{
    let mut out = Bytes::new(alloc);
    put_plain_head(alloc, &mut out, plan)?;
    put_results(alloc, &mut out, plan, all.as_slice())?;
    out.extend(b"end plain\n")?;
    Ok(out)
}

// The answers and slips at the end of a run, and that it is over.
pub(crate) fn put_done(
    alloc: Global,
    out: &mut Bytes,
    plan: &Plan,
    last: &[u8],
) -> Result<(), Memory>
    requires { State plan.now last.now }
    ensures { (done : ℕ) (all : List Cells) → IsPack plan.now last.now done all
        → OnOk result (out.new ≡ out.old ++ ending plan.now all) }
{
    pieces_are_small();
    let all = last_states(alloc, plan, last)?;
    put_ending(alloc, out, plan, all.as_slice())?;
    Ok(())
}

#[tactic(auto, unfolding(crate::specs::Answers::ending))]
fn put_ending(alloc: Global, out: &mut Bytes, plan: &Plan, all: &[Cells]) -> Result<(), Memory>
    requires { length all.now ≤ 4096 }
    ensures { OnOk result (out.new ≡ out.old ++ ending plan.now all.now) }
{
    put_results(alloc, out, plan, all)?;
    out.extend(b"end done\n")?;
    Ok(())
}

// The answers, and which elements slipped.
#[tactic(auto, unfolding(crate::specs::Answers::results))]
fn put_results(alloc: Global, out: &mut Bytes, plan: &Plan, all: &[Cells]) -> Result<(), Memory>
    requires { length all.now ≤ 4096 }
    ensures { OnOk result (out.new ≡ out.old ++ results plan.now all.now) }
{
    put_answers(alloc, out, plan, all)?;
    put_slips(alloc, out, plan, all)?;
    Ok(())
}

// The states of a checkpoint: since the bytes are one, nothing but memory can be wanting.
fn last_states(alloc: Global, plan: &Plan, bytes: &[u8]) -> Result<CellsList, Memory>
    requires checkpoint { State plan.now bytes.now }
    requires few { length bytes.now < 4294967295 }
    ensures exact { (done : ℕ) (all : List Cells) → IsPack plan.now bytes.now done all
        → IfOk result (λ states. states ≡ all) }
    ensures few { IfOk result (λ states. length states ≤ 4096) }
{
    match unpack_all(alloc, plan, bytes) {
        Ok(image) => Ok(image.all),
        Err(PupFault::Memory) => Err(Memory),
        Err(_) => unreachable!(),
    }
}
