//! The walk over the statements of a part.

ghost use Rattle.std.specs.Prelude.{◌≡◌, OnOk, map, true};
ghost use Rattle.std.specs.Option.{option_map};
ghost use Rattle.job_rules.specs.Notes.{in_order};
ghost use Rattle.job_rules.specs.Statements.{assign_walked, block_walked, contribute_walked, count_values, each_walked, entry_named, for_walked, index_walked, is_number, loop_walked, member_named, mismatch_fault, operand_walked, other_walked, port_use, reduction_named, send_walked, stmt_walked, target_named, target_walked, unwritable, values_walked};

use crate::expressions::{misindexed, state_use, walk_value};
use crate::tables::{array_number, meant_in};
use crate::walk::Scope;
use chare_base::memory::Memory;
use job_rules::fault::{CheckFault, fault_if, name_fault};
use job_rules::names::{Meaning, bytes_at};
use job_rules::notes::{Notes, PortUse};
use job_rules::walk::{PartAt, Site};
use job_tree::token::Span;
use job_tree::tree::{Block, Expr, StmtDecl, Values};

/// Walks over a block, whose names are those of the job, of an array's table, of a part's parameters and of the
/// loops around it. A block of a loop or an `if` is nested.
///
/// `Memory`: an allocation was refused; the notes keep what was noted before, and `loops` may have more names.
#[cycle(statements)]
pub(crate) fn walk_block(
    scope: &Scope,
    part: PartAt,
    loops: &mut Vec<Span>,
    nested: bool,
    notes: &mut Notes,
    block: &Block,
) -> Result<(), Memory>
    ensures exact { OnOk result
        (notes.new ≡ block_walked scope.now.text.now scope.now.names.now scope.now.table.now part
        scope.now.params.now block.now loops.old.items nested notes.old) }
    ensures loops { OnOk result (loops.new.items ≡ loops.old.items) }
{
    walk_stmts(
        scope,
        part,
        loops,
        nested,
        notes,
        block.statements.as_slice(),
    )?;
    Ok(())
}

#[cycle(statements)]
fn walk_stmts(
    scope: &Scope,
    part: PartAt,
    loops: &mut Vec<Span>,
    nested: bool,
    notes: &mut Notes,
    stmts: &[StmtDecl],
) -> Result<(), Memory>
    ensures exact { OnOk result
        (notes.new ≡ each_walked (map
        (stmt_walked scope.now.text.now scope.now.names.now scope.now.table.now part
        scope.now.params.now) stmts.now) loops.old.items nested notes.old) }
    ensures loops { OnOk result (loops.new.items ≡ loops.old.items) }
{
    for stmt in stmts {
        walk_stmt(scope, part, loops, nested, notes, stmt)?;
    }
    Ok(())
}

#[cycle(statements)]
fn walk_stmt(
    scope: &Scope,
    part: PartAt,
    loops: &mut Vec<Span>,
    nested: bool,
    notes: &mut Notes,
    stmt: &StmtDecl,
) -> Result<(), Memory>
    ensures exact { OnOk result
        (notes.new ≡ stmt_walked scope.now.text.now scope.now.names.now scope.now.table.now part
        scope.now.params.now stmt.now loops.old.items nested notes.old) }
    ensures loops { OnOk result (loops.new.items ≡ loops.old.items) }
{
    match stmt {
        StmtDecl::Assign {
            target,
            index,
            value,
        } => walk_assign(scope, part, loops, notes, *target, index, value)?,
        StmtDecl::If { test, yes, no, .. } => {
            walk_operand(scope, part, loops, notes, test)?;
            walk_block(scope, part, loops, true, notes, yes)?;
            walk_other(scope, part, loops, notes, no)?;
        }
        StmtDecl::For { name, block, .. } => walk_for(scope, part, loops, notes, *name, block)?,
        StmtDecl::Send {
            at,
            array,
            entry,
            values,
        } => walk_send(
            scope, part, loops, nested, notes, *at, *array, *entry, values,
        )?,
        StmtDecl::Contribute { at, name, value } => {
            walk_contribute(scope, part, loops, nested, notes, *at, *name, value)?;
        }
    }
    Ok(())
}

#[cycle(statements)]
fn walk_for(
    scope: &Scope,
    part: PartAt,
    loops: &mut Vec<Span>,
    notes: &mut Notes,
    name: Span,
    block: &Block,
) -> Result<(), Memory>
    ensures exact { OnOk result
        (notes.new ≡ for_walked (loop_walked scope.now.text.now scope.now.table.now
        scope.now.params.now loops.old.items name) name
        (block_walked scope.now.text.now scope.now.names.now scope.now.table.now part
        scope.now.params.now block.now) loops.old.items notes.old) }
    ensures loops { OnOk result (loops.new.items ≡ loops.old.items) }
{
    walk_loop(scope, loops, notes, name);
    loops.push(name)?;
    walk_block(scope, part, loops, true, notes, block)?;
    loops.pop();
    Ok(())
}

fn walk_assign(
    scope: &Scope,
    part: PartAt,
    loops: &[Span],
    notes: &mut Notes,
    target: Span,
    index: &Option<Expr>,
    value: &Expr,
) -> Result<(), Memory>
    ensures { OnOk result (notes.new
        ≡ assign_walked scope.now.text.now scope.now.table.now part scope.now.params.now loops.now
        target index.now value.now notes.old) }
{
    walk_target(scope, part.part, loops, notes, target, index.is_some())?;
    walk_index(scope, part, loops, notes, index)?;
    walk_operand(scope, part, loops, notes, value)?;
    Ok(())
}

// What stands behind `else`, if anything does.
#[cycle(statements)]
fn walk_other(
    scope: &Scope,
    part: PartAt,
    loops: &mut Vec<Span>,
    notes: &mut Notes,
    other: &Option<Block>,
) -> Result<(), Memory>
    ensures exact { OnOk result
        (notes.new ≡ other_walked (option_map
        (block_walked scope.now.text.now scope.now.names.now scope.now.table.now part
        scope.now.params.now) other.now) loops.old.items true notes.old) }
    ensures loops { OnOk result (loops.new.items ≡ loops.old.items) }
{
    match other {
        Some(block) => walk_block(scope, part, loops, true, notes, block)?,
        None => {}
    }
    Ok(())
}

fn walk_operand(
    scope: &Scope,
    part: PartAt,
    loops: &[Span],
    notes: &mut Notes,
    value: &Expr,
) -> Result<(), Memory>
    ensures { OnOk result (notes.new
        ≡ operand_walked scope.now.text.now scope.now.table.now part scope.now.params.now loops.now
        value.now notes.old) }
{
    let site = Site::Part { number: part.part };
    walk_value(scope, site, loops, notes, value)?;
    Ok(())
}

fn walk_index(
    scope: &Scope,
    part: PartAt,
    loops: &[Span],
    notes: &mut Notes,
    index: &Option<Expr>,
) -> Result<(), Memory>
    ensures { OnOk result (notes.new
        ≡ index_walked scope.now.text.now scope.now.table.now part scope.now.params.now loops.now
        index.now notes.old) }
{
    match index {
        Some(index) => walk_operand(scope, part, loops, notes, index)?,
        None => {}
    }
    Ok(())
}

fn walk_send(
    scope: &Scope,
    part: PartAt,
    loops: &[Span],
    nested: bool,
    notes: &mut Notes,
    at: u32,
    array: Span,
    entry: Span,
    values: &Values,
) -> Result<(), Memory>
    ensures { OnOk result (notes.new
        ≡ values_walked scope.now.text.now scope.now.table.now part scope.now.params.now loops.now
        values.now (send_walked scope.now.text.now scope.now.names.now part at nested
        (count_values values.now) array entry notes.old)) }
{
    let count = count_values(values);
    note_send(scope, part, at, nested, count, array, entry, notes)?;
    walk_values(scope, part, loops, notes, values)?;
    Ok(())
}

fn walk_contribute(
    scope: &Scope,
    part: PartAt,
    loops: &[Span],
    nested: bool,
    notes: &mut Notes,
    at: u32,
    name: Span,
    value: &Expr,
) -> Result<(), Memory>
    ensures { OnOk result (notes.new
        ≡ operand_walked scope.now.text.now scope.now.table.now part scope.now.params.now loops.now
        value.now (contribute_walked scope.now.text.now scope.now.table.now part at nested name
        notes.old)) }
{
    note_contribution(scope, part, at, nested, name, notes)?;
    walk_operand(scope, part, loops, notes, value)?;
    Ok(())
}

fn walk_values(
    scope: &Scope,
    part: PartAt,
    loops: &[Span],
    notes: &mut Notes,
    values: &Values,
) -> Result<(), Memory>
    ensures { OnOk result (notes.new
        ≡ values_walked scope.now.text.now scope.now.table.now part scope.now.params.now loops.now
        values.now notes.old) }
{
    walk_operand(scope, part, loops, notes, &values.first)?;
    walk_operands(scope, part, loops, notes, values.others.as_slice())?;
    Ok(())
}

fn walk_operands(
    scope: &Scope,
    part: PartAt,
    loops: &[Span],
    notes: &mut Notes,
    values: &[Expr],
) -> Result<(), Memory>
    ensures { OnOk result (notes.new
        ≡ in_order (map (operand_walked scope.now.text.now scope.now.table.now part
        scope.now.params.now loops.now) values.now) notes.old) }
{
    for value in values {
        walk_operand(scope, part, loops, notes, value)?;
    }
    Ok(())
}

fn count_values(values: &Values) -> usize
    ensures { result ≡ count_values values.now }
{
    let others = values.others.as_slice();
    others.len() + 1
}

#[tactic(auto, unfolding(job_rules::specs::Statements::target_walked))]
fn walk_target(
    scope: &Scope,
    part: usize,
    loops: &[Span],
    notes: &mut Notes,
    name: Span,
    indexed: bool,
) -> Result<(), Memory>
    ensures { OnOk result (notes.new
        ≡ target_walked scope.now.text.now scope.now.table.now part scope.now.params.now loops.now
        name indexed notes.old) }
{
    let meaning = scope.meaning(name);
    let local = scope.is_local(loops, name);
    notes.note(name_fault(name));
    write_name(part, meaning, local, name, indexed, notes)?;
    Ok(())
}

// A target with this meaning in the array's table, local or not.
fn write_name(
    part: usize,
    meaning: Option<Meaning>,
    local: bool,
    name: Span,
    indexed: bool,
    notes: &mut Notes,
) -> Result<(), Memory>
    ensures { OnOk result (notes.new ≡ target_named part meaning local name indexed notes.old) }
{
    let kind = CheckFault::Kind { at: name.at };
    match meaning {
        Some(
            Meaning::State {
                number,
                declared,
                plain,
                ..
            },
        ) => {
            notes.note(fault_if(misindexed(plain, indexed), kind));
            notes.note_use(state_use(number, declared, part, name, true))?;
        }
        Some(_) => notes.note(Some(kind)),
        None => notes.note(unwritable(local, name)),
    }
    Ok(())
}

// A local name isn't written.
fn unwritable(local: bool, name: Span) -> Option<CheckFault>
    ensures { result ≡ unwritable local name }
{
    if local {
        Some(CheckFault::Kind { at: name.at })
    } else {
        Some(CheckFault::Unknown { at: name.at })
    }
}

#[tactic(auto, unfolding(job_rules::specs::Statements::loop_walked))]
fn walk_loop(scope: &Scope, loops: &[Span], notes: &mut Notes, name: Span)
    ensures { notes.new ≡ loop_walked scope.now.text.now scope.now.table.now scope.now.params.now
        loops.now name notes.old }
{
    let taken = scope.meaning(name).is_some() || scope.is_local(loops, name);
    notes.note(name_fault(name));
    notes.note(fault_if(taken, CheckFault::Twice { at: name.at }));
}

#[tactic(auto, unfolding(job_rules::specs::Statements::send_walked))]
fn note_send(
    scope: &Scope,
    part: PartAt,
    at: u32,
    nested: bool,
    count: usize,
    array: Span,
    entry: Span,
    notes: &mut Notes,
) -> Result<(), Memory>
    ensures { OnOk result (notes.new
        ≡ send_walked scope.now.text.now scope.now.names.now part at nested count array entry
        notes.old) }
{
    let number = array_number(scope.text, &scope.names.arrays, array);
    let meaning = meant_in(scope.names, number, bytes_at(scope.text, entry));
    notes.note(name_fault(array));
    notes.note(name_fault(entry));
    send_to_member(
        part, at, nested, count, number, meaning, array, entry, notes,
    )?;
    Ok(())
}

// A send to an entry of the array of this number, if there is one.
fn send_to_member(
    part: PartAt,
    at: u32,
    nested: bool,
    count: usize,
    number: Option<usize>,
    meaning: Option<Meaning>,
    array: Span,
    entry: Span,
    notes: &mut Notes,
) -> Result<(), Memory>
    ensures { OnOk result (notes.new
        ≡ member_named part at nested count number meaning array entry notes.old) }
{
    match number {
        Some(_) => send_to_entry(part, at, nested, count, meaning, entry, notes)?,
        None => notes.note(Some(CheckFault::Unknown { at: array.at })),
    }
    Ok(())
}

// A send of `count` values to a name with this meaning.
fn send_to_entry(
    part: PartAt,
    at: u32,
    nested: bool,
    count: usize,
    meaning: Option<Meaning>,
    name: Span,
    notes: &mut Notes,
) -> Result<(), Memory>
    ensures { OnOk result (notes.new ≡ entry_named part at nested count meaning name notes.old) }
{
    match meaning {
        Some(
            Meaning::Entry {
                port,
                source,
                values,
                ..
            },
        ) => {
            notes.note(fault_if(count as u64 != values, CheckFault::Kind { at: name.at }));
            notes.note(fault_if(!is_number(part.array, source), CheckFault::Shape { at }));
            notes.note_sent(port_use(port, part, at, nested))?;
        }
        _ => notes.note(mismatch_fault(meaning, name)),
    }
    Ok(())
}

#[tactic(auto, unfolding(job_rules::specs::Statements::contribute_walked))]
fn note_contribution(
    scope: &Scope,
    part: PartAt,
    at: u32,
    nested: bool,
    name: Span,
    notes: &mut Notes,
) -> Result<(), Memory>
    ensures { OnOk result (notes.new
        ≡ contribute_walked scope.now.text.now scope.now.table.now part at nested name notes.old) }
{
    let meaning = scope.meaning(name);
    notes.note(name_fault(name));
    give_to_reduction(part, at, nested, meaning, name, notes)?;
    Ok(())
}

// A contribution to a name with this meaning.
fn give_to_reduction(
    part: PartAt,
    at: u32,
    nested: bool,
    meaning: Option<Meaning>,
    name: Span,
    notes: &mut Notes,
) -> Result<(), Memory>
    ensures { OnOk result (notes.new ≡ reduction_named part at nested meaning name notes.old) }
{
    match meaning {
        Some(Meaning::Reduction { port, .. }) => notes.note_sent(port_use(port, part, at, nested))?,
        _ => notes.note(mismatch_fault(meaning, name)),
    }
    Ok(())
}

/// The fault of a name that isn't declared, or is declared as something else.
pub(crate) fn mismatch_fault(meaning: Option<Meaning>, name: Span) -> Option<CheckFault>
    ensures { result ≡ mismatch_fault meaning name }
{
    match meaning {
        Some(_) => Some(CheckFault::Kind { at: name.at }),
        None => Some(CheckFault::Unknown { at: name.at }),
    }
}

/// Whether this number was found.
pub(crate) fn is_number(number: usize, found: Option<usize>) -> bool
    ensures { result ≡ is_number number found }
{
    match found {
        Some(found) => found == number,
        None => false,
    }
}

/// The use of a port at a place.
pub(crate) fn port_use(port: usize, part: PartAt, at: u32, nested: bool) -> PortUse
    ensures { result ≡ port_use port part at nested }
{
    PortUse {
        port,
        step: part.step,
        at,
        nested,
    }
}
