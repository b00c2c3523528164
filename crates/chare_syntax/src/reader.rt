//! A job from its tokens.

ghost use Rattle.std.specs.Prelude.{◌≡◌, List, [], IfOk, IfErr, IsTrue};
ghost use Rattle.job_tree.specs.declared.fault.ParseFault.TheVariants as faults;
ghost use Rattle.job_tree.specs.Accepted.{IsJob, NoJob, Ended, Faulty, is_shallow};
ghost use Rattle.job_tree.specs.Fault.{Gives};
ghost use Rattle.job_tree.specs.Reading.{text_at};

use crate::declarations::job_of;
use crate::fault::ParseFault;
use crate::leaves::end_of;
use crate::token::Token;
use crate::tree::Job;
use std::alloc::Global;

/// How many levels of nesting may be open: brackets of each kind, and `-` and `not` before their operand.
pub const MAX_LEVELS: u32 = 32;

/// The job whose tokens these are. Any list of tokens may be given; those of a text end with `End`, `Bad` or
/// `TooLarge`, and `fault` speaks of such lists.
///
/// Errors: `Memory` where an allocation was refused. Otherwise the tokens are those of no job, and the fault is
/// at the first one with which no job of whatever depth goes on, or that opens level 33: `NotToken` and
/// `NumberTooLarge` by its kind, `TooDeep` where it opens that level, else `Unexpected`.
pub fn read_job(alloc: Global, tokens: &[Token]) -> Result<Job, ParseFault>
    ensures found { IfOk result (λ job. IsJob tokens.now job) }
    ensures shallow { IfOk result (λ job. IsTrue (is_shallow 32 job)) }
    ensures refused { IfErr result (λ f. (f ≡ faults.Memory → ⊥) → NoJob tokens.now) }
    ensures fault { IfErr result (λ f. Ended tokens.now → Faulty tokens.now f) }
{
    text_of(alloc, tokens)
}

// Reads a job and the end.
#[tactic(auto, unfolding(job_tree::specs::Reading::text_at))]
fn text_of(alloc: Global, tokens: &[Token]) -> Result<Job, ParseFault>
    ensures exact { Gives (λ job. (job, [])) result (text_at 32 tokens.now) }
{
    let (job, rest) = job_of(alloc, tokens, MAX_LEVELS)?;
    end_of(rest)?;
    Ok(job)
}
