//! States back from their bytes.

ghost use Rattle.std.specs.Prelude.{◌≡◌, ◌≢◌, ℕ, ◌+◌, ◌*◌, ◌<◌, ◌≤◌, ◌++◌, ◌==◌, nat_lt, List, length, drop, Some, None, Err, IfOk, MatchOption, ⊤};
ghost use Rattle.std.specs.Result.{IfErr};
ghost use Rattle.chare_base.specs.declared.cells.Cells.{Cells};
ghost use Rattle.chare_base.specs.Elements.{elements, steps_of};
ghost use Rattle.chare_base.specs.Shape.{Shaped};
ghost use Rattle.pup_state.specs.declared.fault.PupFault.{PupFault};
ghost use Rattle.pup_state.specs.Faults.{Cause, RecordCause, done_in, head_fault, number_at, is_first, is_placed, is_slip, is_timely, record_fault, slip_fits};
ghost use Rattle.pup_state.specs.Packs.{IsPack, IsRecord};
ghost use Rattle.pup_state.specs.Reading.{GivesRecord, GivesState, cells_in, faults_from, front_place, pack_fault, sizes_from, states_from};
ghost use Rattle.pup_state.specs.Spelling.{size_of};

use crate::fault::PupFault;
use crate::get::{behind, numbers_in, u8_at, u16_at, u32_at, u64_at};
use chare_base::cells::{Cells, CellsList, Slip};
use chare_base::memory::Memory;
use chare_base::plan::{ElementId, Place, Plan};
use std::alloc::Global;

/// What a checkpoint holds: the states of all elements, in element order, after `done` completed iterations.
#[derive(Drop)]
pub struct Image {
    pub done: u64,
    pub all: CellsList,
}

/// What an element's record holds: its state after `done` completed iterations. `next` is the place behind the
/// record, in bytes.
#[derive(Drop)]
pub struct Unpacked {
    pub cells: Cells,
    pub done: u64,
    pub next: u32,
}

/// The state in the record of element e that begins at the place `at`. Other bytes may follow it, as the next record
/// of a piece. A fault tells what is first wrong with the record, and comes whether or not there is memory.
pub fn unpack_element(
    alloc: Global,
    plan: &Plan,
    e: ElementId,
    bytes: &[u8],
    at: u32,
) -> Result<Unpacked, PupFault>
    requires element { e.0 < elements plan.now }
    requires place { at ≤ length bytes.now }
    requires few { length bytes.now < 4294967295 }
    ensures ok { IfOk result (λ u. IsRecord plan.now e.0 bytes.now at u.done u.cells u.next) }
    ensures only { GivesRecord plan.now e.0 bytes.now at result }
    ensures fault { (fault : PupFault) → RecordCause plan.now e.0 bytes.now at fault → result
        ≡ Err fault }
    ensures cause { IfErr result
        (λ fault. fault ≢ PupFault.Memory → RecordCause plan.now e.0 bytes.now at fault) }
{
    let rest = behind(bytes, at as usize);
    if let Some(fault) = record_fault(plan, e, None, rest, at) {
        return Err(fault);
    }
    let cells = cells_in(alloc, plan, e, rest)?;
    Ok(Unpacked {
        cells,
        done: u64_at(rest, 6),
        next: at + size_of(plan, e),
    })
}

/// The state of a checkpoint. The bytes are a checkpoint of the plan exactly where nothing is wrong with them; a fault
/// tells what is first wrong, and comes whether or not there is memory. Its time is linear in the bytes.
pub fn unpack_all(alloc: Global, plan: &Plan, bytes: &[u8]) -> Result<Image, PupFault>
    requires few { length bytes.now < 4294967295 }
    ensures ok { IfOk result (λ image. IsPack plan.now bytes.now image.done image.all) }
    ensures shaped { IfOk result (λ image. Shaped plan.now image.all) }
    ensures only { GivesState plan.now bytes.now result }
    ensures fault { (fault : PupFault) → Cause plan.now bytes.now fault → result ≡ Err fault }
    ensures cause { IfErr result
        (λ fault. fault ≢ PupFault.Memory → Cause plan.now bytes.now fault) }
{
    if let Some(fault) = pack_fault(plan, bytes) {
        return Err(fault);
    }
    let records = behind(bytes, 8);
    let all = states(alloc, plan, records)?;
    Ok(Image {
        done: u64_at(records, 6),
        all: CellsList::from_vec(all),
    })
}

// What is first wrong with a checkpoint.
#[tactic(auto, unfolding(crate::specs::Reading::pack_fault))]
fn pack_fault(plan: &Plan, bytes: &[u8]) -> Option<PupFault>
    requires { length bytes.now < 4294967295 }
    ensures exact { result ≡ pack_fault plan.now bytes.now }
    ensures long { MatchOption result
        (8 + sizes_from plan.now (elements plan.now) 0 ≤ length bytes.now) (λ _. ⊤) }
{
    if let Some(fault) = head_fault(plan, bytes) {
        return Some(fault);
    }
    records_fault(plan, behind(bytes, 8))
}

// What is first wrong before the records.
#[tactic(auto, unfolding(crate::specs::Faults::head_fault))]
fn head_fault(plan: &Plan, bytes: &[u8]) -> Option<PupFault>
    ensures exact { result ≡ head_fault plan.now bytes.now }
    ensures long { MatchOption result (8 ≤ length bytes.now) (λ _. ⊤) }
{
    if bytes.len() < 4 {
        return Some(PupFault::Short { at: 0 });
    }
    if bytes.split_at(4).0 != b"ACR1".as_slice() {
        return Some(PupFault::Magic);
    }
    if bytes.len() < 8 {
        return Some(PupFault::Short { at: 4 });
    }
    let found = u32_at(bytes, 4);
    if found != plan.elements() {
        return Some(PupFault::Count { found });
    }
    None
}

// What is first wrong with the records of a checkpoint, or behind them.
#[tactic(auto, using(crate::proofs::Steps::faults_next, crate::proofs::Steps::faults_end, crate::proofs::Steps::sizes_next))]
fn records_fault(plan: &Plan, records: &[u8]) -> Option<PupFault>
    requires { 8 + length records.now < 4294967295 }
    ensures exact { result ≡ faults_from plan.now (elements plan.now) 0 None 8 records.now }
    ensures long { MatchOption result
        (sizes_from plan.now (elements plan.now) 0 ≤ length records.now) (λ _. ⊤) }
{
    let mut first = None;
    let mut at = 8;
    let mut rest = records;
    for e in 0..plan.elements() {
        let e = ElementId(e);
        if let Some(fault) = record_fault(plan, e, first, rest, at) {
            return Some(fault);
        }
        first = Some(u64_at(rest, 6));
        let size = size_of(plan, e);
        rest = behind(rest, size as usize);
        at += size;
    }
    if rest.is_empty() {
        None
    } else {
        Some(PupFault::Trailing { at })
    }
}

// What is first wrong with the record that begins these bytes, which stand at a place.
#[tactic(auto, unfolding(crate::specs::Faults::record_fault))]
fn record_fault(
    plan: &Plan,
    e: ElementId,
    first: Option<u64>,
    bytes: &[u8],
    at: u32,
) -> Option<PupFault>
    requires element { e.0 < elements plan.now }
    requires few { at + length bytes.now < 4294967295 }
    ensures exact { result ≡ record_fault plan.now e.0 first at bytes.now }
    ensures long { MatchOption result (size_of plan.now e.0 ≤ length bytes.now) (λ _. ⊤) }
{
    if bytes.len() < 28 {
        return Some(PupFault::Short { at });
    }
    if !is_placed(plan, e, bytes) {
        return Some(PupFault::Order { at });
    }
    if !is_timely(plan, first, bytes) {
        return Some(PupFault::Iteration { at: at + 6 });
    }
    if !slip_fits(plan, e, bytes) {
        return Some(PupFault::SlipKind { at: at + 14 });
    }
    if u32_at(bytes, 24) != plan.cells_of(e) {
        return Some(PupFault::Layout { at: at + 24 });
    }
    if bytes.len() < size_of(plan, e) as usize {
        return Some(PupFault::Short { at: at + 28 });
    }
    None
}

// Whether a record is at an element's place.
fn is_placed(plan: &Plan, e: ElementId, bytes: &[u8]) -> bool
    requires { 28 ≤ length bytes.now }
    ensures { result ≡ is_placed plan.now e.0 bytes.now }
{
    let place = plan.place(e);
    u16_at(bytes, 0) == place.array && u32_at(bytes, 2) == place.index
}

// Whether a record's iterations are the plan's, and the first record's.
fn is_timely(plan: &Plan, first: Option<u64>, bytes: &[u8]) -> bool
    requires { 28 ≤ length bytes.now }
    ensures { result ≡ is_timely plan.now first bytes.now }
{
    let done = u64_at(bytes, 6);
    done <= plan.iterations() && is_first(first, done)
}

fn is_first(first: Option<u64>, done: u64) -> bool
    ensures { result ≡ is_first first done }
{
    match first {
        None => true,
        Some(first) => done == first,
    }
}

// Whether a record's slip is none, or one that the element can have.
fn slip_fits(plan: &Plan, e: ElementId, bytes: &[u8]) -> bool
    requires element { e.0 < elements plan.now }
    requires long { 28 ≤ length bytes.now }
    ensures { result ≡ slip_fits plan.now e.0 bytes.now }
{
    is_slip(plan.steps_of(e), u64_at(bytes, 6), slip_in(bytes))
}

fn is_slip(steps: u8, done: u64, slip: Slip) -> bool
    ensures { result ≡ is_slip steps done slip.kind slip.step slip.iteration }
{
    if slip.kind == 0 {
        slip.step == 0 && slip.iteration == 0
    } else {
        slip.kind <= 3 && slip.step < steps && slip.iteration < done
    }
}

fn slip_in(bytes: &[u8]) -> Slip
    requires { 28 ≤ length bytes.now }
    ensures { result ≡ record {
      kind = number_at 1 14 bytes.now;
      step = number_at 1 15 bytes.now;
      iteration = number_at 8 16 bytes.now;
    } }
{
    Slip {
        kind: u8_at(bytes, 14),
        step: u8_at(bytes, 15),
        iteration: u64_at(bytes, 16),
    }
}

/// Where the element stands whose record begins these bytes: its array's number, and its index there. None where there
/// are fewer bytes than a record's fixed fields have, which are 28.
pub fn front_place(bytes: &[u8]) -> Option<Place>
    ensures { result ≡ front_place bytes.now }
{
    if bytes.len() < 28 {
        return None;
    }
    Some(Place {
        array: u16_at(bytes, 0),
        index: u32_at(bytes, 2),
    })
}

/// How many bytes an element's record has: 28, and 8 for each cell.
pub fn size_of(plan: &Plan, e: ElementId) -> u32
    requires { e.0 < elements plan.now }
    ensures exact { result ≡ size_of plan.now e.0 }
    ensures few { result ≤ 32796 }
{
    28 + 8 * plan.cells_of(e)
}

// The states in the records of all elements.
#[tactic(auto, using(crate::proofs::Steps::states_next, crate::proofs::Steps::sizes_next))]
fn states(alloc: Global, plan: &Plan, records: &[u8]) -> Result<Vec<Cells>, Memory>
    requires { sizes_from plan.now (elements plan.now) 0 ≤ length records.now }
    ensures { IfOk result (λ all. all.items
        ≡ states_from plan.now (elements plan.now) 0 records.now) }
{
    let mut all = Vec::with_capacity(alloc, plan.elements() as usize)?;
    let mut rest = records;
    for e in 0..plan.elements() {
        let e = ElementId(e);
        all.push(cells_in(alloc, plan, e, rest)?)?;
        rest = behind(rest, size_of(plan, e) as usize);
    }
    Ok(all)
}

// The state in the record that begins these bytes.
fn cells_in(alloc: Global, plan: &Plan, e: ElementId, bytes: &[u8]) -> Result<Cells, Memory>
    requires element { e.0 < elements plan.now }
    requires long { size_of plan.now e.0 ≤ length bytes.now }
    ensures { IfOk result (λ cells. cells ≡ cells_in plan.now e.0 bytes.now) }
{
    Ok(Cells {
        numbers: numbers_in(alloc, plan.cells_of(e), behind(bytes, 28))?,
        slip: slip_in(bytes),
    })
}
