//! The lines of a report, each put behind those before it.

ghost use Rattle.std.specs.Prelude.{◌≡◌, ◌++◌, OnOk};
ghost use Rattle.std.specs.Fmt.{decimal, signed_decimal};
ghost use Rattle.hex.specs.Hex.{encode_lower};
ghost use Rattle.run_report.specs.Lines.{accepted_line, adopted_line, both_line, crash_line, differ_line, first_line, lost_line, mark_text, mend_line, mode_word, plain_head};

use crate::names::put_element;
use chare_base::bytes::Bytes;
use chare_base::memory::Memory;
use chare_base::options::{Mode, Options};
use chare_base::plan::{ElementId, Plan};
use chare_base::slots::SlotId;
use checkpoint_store::mark::Mark;
use std::alloc::Global;

// A number in decimal.
pub(crate) fn put_number(alloc: Global, out: &mut Bytes, number: u64) -> Result<(), Memory>
    ensures { OnOk result (out.new ≡ out.old ++ decimal number) }
{
    let text = number.to_string(alloc)?;
    out.extend(text.as_bytes())
}

// A word, which ends with a blank, and a number.
pub(crate) fn put_named(
    alloc: Global,
    out: &mut Bytes,
    word: &[u8],
    number: u64,
) -> Result<(), Memory>
    ensures { OnOk result (out.new ≡ out.old ++ (word.now ++ decimal number)) }
{
    out.extend(word)?;
    put_number(alloc, out, number)?;
    Ok(())
}

// A number with its sign, where it is below 0.
pub(crate) fn put_signed(alloc: Global, out: &mut Bytes, number: i64) -> Result<(), Memory>
    ensures { OnOk result (out.new ≡ out.old ++ signed_decimal number) }
{
    let text = number.to_string(alloc)?;
    out.extend(text.as_bytes())
}

// A digest in 64 lower-case digits.
fn put_digest(alloc: Global, out: &mut Bytes, digest: &[u8]) -> Result<(), Memory>
    ensures { OnOk result (out.new ≡ out.old ++ encode_lower digest.now) }
{
    let text = hex::encode(alloc, digest)?;
    out.extend(text.as_bytes())
}

fn mode_word(mode: Mode) -> &'static [u8]
    ensures { result.now ≡ mode_word mode }
{
    match mode {
        Mode::Strong => b"strong",
        Mode::Medium => b"medium",
        Mode::Weak => b"weak",
    }
}

// `job NAME nodes M every E spares S mode WORD`
#[tactic(auto, unfolding(crate::specs::Lines::first_line))]
pub(crate) fn put_first(
    alloc: Global,
    out: &mut Bytes,
    plan: &Plan,
    options: &Options,
) -> Result<(), Memory>
    ensures { OnOk result (out.new ≡ out.old ++ first_line plan.now options.now) }
{
    out.extend(b"job ")?;
    out.extend(plan.name.as_slice())?;
    put_named(alloc, out, b" nodes ", u64::from(options.nodes))?;
    put_named(alloc, out, b" every ", options.every)?;
    put_named(alloc, out, b" spares ", u64::from(options.spares))?;
    out.extend(b" mode ")?;
    out.extend(mode_word(options.mode))?;
    out.extend(b"\n")?;
    Ok(())
}

// ` bytes L sha256 H`
#[tactic(auto, unfolding(crate::specs::Lines::mark_text))]
fn put_mark(alloc: Global, out: &mut Bytes, mark: &Mark) -> Result<(), Memory>
    ensures { OnOk result (out.new ≡ out.old ++ mark_text mark.now) }
{
    put_named(alloc, out, b" bytes ", mark.length)?;
    out.extend(b" sha256 ")?;
    put_digest(alloc, out, &mark.digest)?;
    Ok(())
}

// `accepted K bytes L sha256 H strikes P Q`
#[tactic(auto, unfolding(crate::specs::Lines::accepted_line))]
pub(crate) fn put_accepted(
    alloc: Global,
    out: &mut Bytes,
    mark: &Mark,
    first_strikes: u64,
    second_strikes: u64,
) -> Result<(), Memory>
    ensures { OnOk result (out.new ≡ out.old
        ++ accepted_line mark.now first_strikes second_strikes) }
{
    put_named(alloc, out, b"accepted ", mark.k)?;
    put_mark(alloc, out, mark)?;
    put_named(alloc, out, b" strikes ", first_strikes)?;
    put_named(alloc, out, b" ", second_strikes)?;
    out.extend(b"\n")?;
    Ok(())
}

// `adopted K from R bytes L sha256 H strikes P`
#[tactic(auto, unfolding(crate::specs::Lines::adopted_line))]
pub(crate) fn put_adopted(
    alloc: Global,
    out: &mut Bytes,
    mark: &Mark,
    from: u8,
    strikes: u64,
) -> Result<(), Memory>
    ensures { OnOk result (out.new ≡ out.old ++ adopted_line mark.now from strikes) }
{
    put_named(alloc, out, b"adopted ", mark.k)?;
    put_named(alloc, out, b" from ", u64::from(from))?;
    put_mark(alloc, out, mark)?;
    put_named(alloc, out, b" strikes ", strikes)?;
    out.extend(b"\n")?;
    Ok(())
}

// `differ K ELEMENT back K0`
#[tactic(auto, unfolding(crate::specs::Lines::differ_line))]
pub(crate) fn put_differ(
    alloc: Global,
    out: &mut Bytes,
    plan: &Plan,
    k: u64,
    element: ElementId,
    base: u64,
) -> Result<(), Memory>
    ensures { OnOk result (out.new ≡ out.old ++ differ_line plan.now k element.0 base) }
{
    put_named(alloc, out, b"differ ", k)?;
    out.extend(b" ")?;
    put_element(alloc, out, plan, element)?;
    put_named(alloc, out, b" back ", base)?;
    out.extend(b"\n")?;
    Ok(())
}

// `crash R J line X`
#[tactic(auto, unfolding(crate::specs::Lines::crash_line))]
pub(crate) fn put_crash(
    alloc: Global,
    out: &mut Bytes,
    slot: SlotId,
    line: u32,
) -> Result<(), Memory>
    ensures { OnOk result (out.new ≡ out.old ++ crash_line slot line) }
{
    put_named(alloc, out, b"crash ", u64::from(slot.replica))?;
    put_named(alloc, out, b" ", u64::from(slot.node))?;
    put_named(alloc, out, b" line ", u64::from(line))?;
    out.extend(b"\n")?;
    Ok(())
}

// `mend R from K0`
#[tactic(auto, unfolding(crate::specs::Lines::mend_line))]
pub(crate) fn put_mend(alloc: Global, out: &mut Bytes, replica: u8, base: u64) -> Result<(), Memory>
    ensures { OnOk result (out.new ≡ out.old ++ mend_line replica base) }
{
    put_named(alloc, out, b"mend ", u64::from(replica))?;
    put_named(alloc, out, b" from ", base)?;
    out.extend(b"\n")?;
    Ok(())
}

// `both back K0`
#[tactic(auto, unfolding(crate::specs::Lines::both_line))]
pub(crate) fn put_both(alloc: Global, out: &mut Bytes, base: u64) -> Result<(), Memory>
    ensures { OnOk result (out.new ≡ out.old ++ both_line base) }
{
    put_named(alloc, out, b"both back ", base)?;
    out.extend(b"\n")?;
    Ok(())
}

// `end lost J`
#[tactic(auto, unfolding(crate::specs::Lines::lost_line))]
pub(crate) fn put_lost(alloc: Global, out: &mut Bytes, node: u16) -> Result<(), Memory>
    ensures { OnOk result (out.new ≡ out.old ++ lost_line node) }
{
    put_named(alloc, out, b"end lost ", u64::from(node))?;
    out.extend(b"\n")?;
    Ok(())
}

// `plain NAME iterations N`
#[tactic(auto, unfolding(crate::specs::Lines::plain_head))]
pub(crate) fn put_plain_head(alloc: Global, out: &mut Bytes, plan: &Plan) -> Result<(), Memory>
    ensures { OnOk result (out.new ≡ out.old ++ plain_head plan.now) }
{
    out.extend(b"plain ")?;
    out.extend(plan.name.as_slice())?;
    put_named(alloc, out, b" iterations ", plan.iterations)?;
    out.extend(b"\n")?;
    Ok(())
}
