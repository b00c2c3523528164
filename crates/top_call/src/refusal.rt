//! Lines that tell why a job is not run.

ghost use Rattle.std.specs.Prelude.{◌≡◌, ◌≤◌, ◌++◌, length, IfOk, OnOk};
ghost use Rattle.std.specs.Fmt.{decimal};
ghost use Rattle.chare_checker.specs.Wording.{wording};
ghost use Rattle.top_call.specs.Due.{job_line, nodes_line, script_line};

use chare_base::bytes::Bytes;
use chare_base::memory::Memory;
use chare_checker::wording::{word, word_at};
use fault_script::reading::ScriptFault;
use std::alloc::Global;

/// `job LINE COLUMN WORD` for the fault at this byte of an input, with the word of this code. A place behind the
/// input's end counts as its end.
#[tactic(auto, using(crate::proofs::Refusals::cut_place))]
pub(crate) fn job_line(alloc: Global, input: &[u8], at: u32, code: u8) -> Result<Bytes, Memory>
    requires { length input.now ≤ 262144 }
    ensures { IfOk result (λ line. line ≡ job_line (wording input.now at code)) }
{
    let wording = word_at(input, at.min(input.len() as u32), code);
    let mut line = Bytes::from_slice(alloc, b"job ")?;
    put_number(alloc, &mut line, wording.line)?;
    line.extend(b" ")?;
    put_number(alloc, &mut line, wording.column)?;
    line.extend(b" ")?;
    line.extend(word(wording.code))?;
    line.extend(b"\n")?;
    Ok(line)
}

/// `script LINE WORD` for this fault of a script.
pub(crate) fn script_line(alloc: Global, fault: ScriptFault) -> Result<Bytes, Memory>
    ensures { IfOk result (λ line. line ≡ script_line fault) }
{
    let mut line = Bytes::from_slice(alloc, b"script ")?;
    put_number(alloc, &mut line, fault.line())?;
    line.extend(b" ")?;
    line.extend(fault.word())?;
    line.extend(b"\n")?;
    Ok(line)
}

/// `nodes M elements E`: there are more nodes than elements.
pub(crate) fn nodes_line(alloc: Global, nodes: u16, elements: u32) -> Result<Bytes, Memory>
    ensures { IfOk result (λ line. line ≡ nodes_line nodes elements) }
{
    let mut line = Bytes::from_slice(alloc, b"nodes ")?;
    put_number(alloc, &mut line, u32::from(nodes))?;
    line.extend(b" elements ")?;
    put_number(alloc, &mut line, elements)?;
    line.extend(b"\n")?;
    Ok(line)
}

// A number in decimal.
fn put_number(alloc: Global, out: &mut Bytes, number: u32) -> Result<(), Memory>
    ensures { OnOk result (out.new ≡ out.old ++ decimal number) }
{
    let text = number.to_string(alloc)?;
    out.extend(text.as_bytes())
}
