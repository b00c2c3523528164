//! A text, read as a job's tree.

ghost use Rattle.std.specs.Prelude.{◌≡◌, ◌<◌, length, Err, IfOk, IfErr};
ghost use Rattle.job_tree.specs.declared.fault.ParseFault.TheVariants as faults;
ghost use Rattle.job_tree.specs.Text.{ReadsAs, ReadsAsNone, TextFault};

use crate::fault::ParseFault;
use crate::lexer::tokens;
use crate::reader::read_job;
use crate::tree::Ast;
use chare_bytes::bytes::Bytes;
use job_tree::laws::tokens_end_once;
use std::alloc::Global;

/// How many bytes a job's text may have.
pub const MAX_TEXT: usize = 65_536;

/// The tree of a job's text, with the text.
///
/// Errors: `TooLong` exactly where the text has more than 65,536 bytes. Else the fault is at the first token with
/// which no job of whatever depth goes on, or that opens level 33: `NotToken` where no token begins there,
/// `NumberTooLarge`, `TooDeep` where it opens that level, and `Unexpected` otherwise; its place is a byte of the
/// text, or the text's length where the text ends too early. Or `Memory`, where an allocation was refused.
pub fn parse(alloc: Global, text: &[u8]) -> Result<Ast, ParseFault>
    ensures text { IfOk result (λ ast. ast.text ≡ text.now) }
    ensures found { IfOk result (λ ast. ReadsAs text.now ast.job) }
    ensures too_long { 65536 < length text.now → result ≡ Err (faults.TooLong 65536) }
    ensures fault { IfErr result (TextFault text.now) }
    ensures refused { IfErr result (λ f. (f ≡ faults.Memory → ⊥) → ReadsAsNone text.now) }
{
    if text.len() > MAX_TEXT {
        return Err(ParseFault::TooLong { at: 65_536 });
    }
    // So that a fault has its place.
    tokens_end_once();
    let tokens = tokens(alloc, text)?;
    let job = read_job(alloc, &tokens)?;
    Ok(Ast {
        text: Bytes::from_slice(alloc, text)?,
        job,
    })
}
