//! Which elements slipped.

ghost use Rattle.std.specs.Prelude.{◌≡◌, ◌≤◌, ◌++◌, length, IfOk, OnOk};
ghost use Rattle.run_report.specs.Slips.{slip_line, slip_lines, slip_text, slip_word, slipped_from, slips_text};

use crate::lines::put_named;
use crate::names::put_element;
use crate::parts::part;
use chare_base::bytes::Bytes;
use chare_base::cells::{Cells, Slip};
use chare_base::memory::Memory;
use chare_base::plan::{ElementId, Plan};
use std::alloc::Global;

// How many elements with a slip have a line.
const LINES: usize = 8;

// An element with a slip.
#[derive(Clone, Copy)]
pub(crate) struct Slipped {
    pub(crate) element: ElementId,
    pub(crate) slip: Slip,
}

// How many elements slipped, and a line for each of the first.
pub(crate) fn put_slips(
    alloc: Global,
    out: &mut Bytes,
    plan: &Plan,
    all: &[Cells],
) -> Result<(), Memory>
    requires { length all.now ≤ 4096 }
    ensures { OnOk result (out.new ≡ out.old ++ slips_text plan.now (slipped_from 0 all.now)) }
{
    let slipped = slipped_elements(alloc, all)?;
    put_slipped(alloc, out, plan, slipped.as_slice())
}

// The elements with a slip, in element order.
fn slipped_elements(alloc: Global, all: &[Cells]) -> Result<Vec<Slipped>, Memory>
    requires { length all.now ≤ 4096 }
    ensures { IfOk result (λ slipped. slipped.items ≡ slipped_from 0 all.now) }
{
    let mut slipped = Vec::new(alloc);
    for e in 0..all.len() as u32 {
        let slip = all[e as usize].slip;
        if slip.kind != 0 {
            let element = ElementId(e);
            slipped.push(Slipped { element, slip })?;
        }
    }
    Ok(slipped)
}

// `slips X`, and the lines
#[tactic(auto, unfolding(crate::specs::Slips::slips_text))]
fn put_slipped(
    alloc: Global,
    out: &mut Bytes,
    plan: &Plan,
    slipped: &[Slipped],
) -> Result<(), Memory>
    ensures { OnOk result (out.new ≡ out.old ++ slips_text plan.now slipped.now) }
{
    put_named(alloc, out, b"slips ", slipped.len() as u64)?;
    out.extend(b"\n")?;
    put_slip_lines(alloc, out, plan, part(slipped, 0, LINES))?;
    Ok(())
}

fn put_slip_lines(
    alloc: Global,
    out: &mut Bytes,
    plan: &Plan,
    slipped: &[Slipped],
) -> Result<(), Memory>
    ensures { OnOk result (out.new ≡ out.old ++ slip_lines plan.now slipped.now) }
{
    for one in slipped {
        put_slip_line(alloc, out, plan, *one)?;
    }
    Ok(())
}

// `slip ELEMENT WORD step S iteration K`
#[tactic(auto, unfolding(crate::specs::Slips::slip_line))]
fn put_slip_line(
    alloc: Global,
    out: &mut Bytes,
    plan: &Plan,
    slipped: Slipped,
) -> Result<(), Memory>
    ensures { OnOk result (out.new ≡ out.old ++ slip_line plan.now slipped) }
{
    out.extend(b"slip ")?;
    put_element(alloc, out, plan, slipped.element)?;
    out.extend(b" ")?;
    put_slip(alloc, out, slipped.slip)?;
    Ok(())
}

// `WORD step S iteration K`
#[tactic(auto, unfolding(crate::specs::Slips::slip_text))]
fn put_slip(alloc: Global, out: &mut Bytes, slip: Slip) -> Result<(), Memory>
    ensures { OnOk result (out.new ≡ out.old ++ slip_text slip) }
{
    out.extend(slip_word(slip.kind))?;
    put_named(alloc, out, b" step ", slip.step as u64)?;
    put_named(alloc, out, b" iteration ", slip.iteration)?;
    out.extend(b"\n")?;
    Ok(())
}

#[tactic(auto, unfolding(crate::specs::Slips::slip_word))]
fn slip_word(kind: u8) -> &'static [u8]
    ensures { result.now ≡ slip_word kind }
{
    match kind {
        1 => b"division",
        2 => b"read",
        3 => b"write",
        _ => b"",
    }
}
