//! The bytes of elements and of all of them.

ghost use Rattle.std.specs.Prelude.{◌≡◌, ◌+◌, ◌*◌, ◌<◌, ◌≤◌, ◌++◌, length, IfOk, OnOk, OnErr};
ghost use Rattle.chare_base.specs.Elements.{cells_of, elements};
ghost use Rattle.chare_base.specs.Shape.{Shaped};
ghost use Rattle.pup_state.specs.Spelling.{head, pack, record_spelling, records_from};

use crate::put::{put, put_cells, put_u8, put_u16, put_u32, put_u64};
use chare_base::bytes::Bytes;
use chare_base::cells::{Cells, CellsList};
use chare_base::memory::Memory;
use chare_base::plan::{ElementId, Plan};
use std::alloc::Global;

/// How many bytes an element's record has: 28, and 8 for each cell.
pub fn size(cells: &Cells) -> u32
    requires { length cells.now.numbers ≤ 4096 }
    ensures { result ≡ 28 + 8 * length cells.now.numbers }
{
    28 + 8 * cells.len() as u32
}

/// Appends the record of an element after `done` completed iterations. Where it runs out of memory nothing was
/// appended.
pub fn pack_element(
    alloc: Global,
    plan: &Plan,
    e: ElementId,
    done: u64,
    cells: &Cells,
    out: &mut Bytes,
) -> Result<(), Memory>
    requires element { e.0 < elements plan.now }
    requires cells { length cells.now.numbers ≡ cells_of plan.now e.0 }
    ensures ok { OnOk result (out.new ≡ out.old ++ record_spelling plan.now e.0 done cells.now) }
    ensures err { OnErr result (out.new ≡ out.old) }
{
    let mut record = Vec::new(alloc);
    write_record(plan, e, done, cells, &mut record)?;
    out.extend(record.as_slice())?;
    Ok(())
}

/// Appends what stands before the records of a checkpoint: the format's mark and the number of elements. Where it
/// runs out of memory nothing was appended.
pub fn put_head(alloc: Global, elements: u32, out: &mut Bytes) -> Result<(), Memory>
    ensures ok { OnOk result (out.new ≡ out.old ++ head elements) }
    ensures err { OnErr result (out.new ≡ out.old) }
{
    let mut head = Vec::with_capacity(alloc, 8)?;
    put(&mut head, b"ACR1");
    put_u32(&mut head, elements);
    out.extend(head.as_slice())?;
    Ok(())
}

/// The checkpoint of all elements, after `done` completed iterations. Its time is linear in the cells. The memory of
/// its bytes is asked for once; the head and each record are first written into a small buffer.
///
/// `Memory`: an allocation was refused.
#[tactic(auto, unfolding(crate::specs::Spelling::pack))]
pub fn pack_all(alloc: Global, plan: &Plan, done: u64, all: &CellsList) -> Result<Bytes, Memory>
    requires { Shaped plan.now all.now }
    ensures { IfOk result (λ bytes. bytes ≡ pack plan.now done all.now) }
{
    let all = all.as_slice();
    let mut out = Bytes::from_vec(Vec::with_capacity(alloc, size_of_all(all))?);
    put_head(alloc, plan.elements(), &mut out)?;
    put_records(alloc, plan, done, all, &mut out)?;
    Ok(out)
}

// A checkpoint's size, to ask for its memory at once. Nothing else rests on it: each record asks for its room.
fn size_of_all(all: &[Cells]) -> usize {
    let mut size = 8usize;
    for cells in all {
        size = size
            .saturating_add(28)
            .saturating_add(cells.len().saturating_mul(8));
    }
    size
}

// The records of all elements.
fn put_records(
    alloc: Global,
    plan: &Plan,
    done: u64,
    all: &[Cells],
    out: &mut Bytes,
) -> Result<(), Memory>
    requires { Shaped plan.now all.now }
    ensures { OnOk result (out.new ≡ out.old ++ records_from plan.now done 0 all.now) }
{
    let mut record = Vec::new(alloc);
    for e in 0..plan.elements() {
        write_record(plan, ElementId(e), done, &all[e as usize], &mut record)?;
        out.extend(record.as_slice())?;
    }
    Ok(())
}

// An element's record alone, in the memory of an earlier one.
#[tactic(auto, unfolding(crate::specs::Spelling::record_spelling))]
fn write_record(
    plan: &Plan,
    e: ElementId,
    done: u64,
    cells: &Cells,
    out: &mut Vec<u8>,
) -> Result<(), Memory>
    requires element { e.0 < elements plan.now }
    requires cells { length cells.now.numbers ≡ cells_of plan.now e.0 }
    ensures { OnOk result (out.new.items ≡ record_spelling plan.now e.0 done cells.now) }
{
    let count = plan.cells_of(e);
    out.clear();
    out.reserve(size(cells) as usize)?;
    let place = plan.place(e);
    put_u16(out, place.array);
    put_u32(out, place.index);
    put_u64(out, done);
    put_u8(out, cells.slip.kind);
    put_u8(out, cells.slip.step);
    put_u64(out, cells.slip.iteration);
    put_u32(out, count);
    put_cells(out, cells.numbers.as_slice());
    Ok(())
}
