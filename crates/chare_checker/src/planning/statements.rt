//! The plan of a statement.

ghost use Rattle.std.specs.Prelude.{◌≡◌, ◌++◌, ◌∷◌, [], IfOk, OnOk, length, map};
ghost use Rattle.std.specs.Option.{option_map};
ghost use Rattle.chare_base.specs.declared.plan.Stmt.TheVariants as stmts;
ghost use Rattle.job_rules.specs.Names.{bytes_at, lookup};
ghost use Rattle.job_rules.specs.PlannedExpressions.{place_planned, value_planned, values_planned};
ghost use Rattle.job_rules.specs.PlannedNames.{entry_meant, member, range_or_none, reduction_meant, state_range};
ghost use Rattle.job_rules.specs.Numbers.{narrow8, signed64};
ghost use Rattle.job_rules.specs.PlannedStatements.{assigned, block_planned, each_planned, other_planned, stmt_planned};

use crate::numbers::{narrow8, signed64};
use crate::planning::expressions::{plan_place, plan_value, plan_values};
use crate::planning::lookups::{entry_meant, member, range_or_none, reduction_meant, state_range};
use crate::walk::Scope;
use chare_base::expression::Expr;
use chare_base::memory::Memory;
use chare_base::plan::Stmt;
use chare_base::range::Range;
use job_rules::names::bytes_at;
use job_tree::token::Span;
use job_tree::tree::{self, Block, SignedNum, StmtDecl, Values};
use sqlite_items::Items;
use std::alloc::Global;

/// The plan of a block within loops.
///
/// `Memory`: an allocation was refused; `loops` may have more names.
#[cycle(statements)]
pub(crate) fn plan_block(
    alloc: Global,
    scope: &Scope<'_>,
    loops: &mut Vec<Span>,
    block: &Block,
) -> Result<Items<Stmt>, Memory>
    ensures exact { IfOk result
        (λ planned. planned ≡ block_planned scope.now.text.now scope.now.names.now
        scope.now.table.now scope.now.params.now block.now loops.old.items) }
    ensures loops { OnOk result (loops.new.items ≡ loops.old.items) }
{
    plan_stmts(alloc, scope, loops, block.statements.as_slice())
}

#[cycle(statements)]
fn plan_stmts(
    alloc: Global,
    scope: &Scope<'_>,
    loops: &mut Vec<Span>,
    stmts: &[StmtDecl],
) -> Result<Items<Stmt>, Memory>
    ensures exact { IfOk result
        (λ planned. planned ≡ each_planned
        (map (stmt_planned scope.now.text.now scope.now.names.now scope.now.table.now
        scope.now.params.now) stmts.now) loops.old.items) }
    ensures loops { OnOk result (loops.new.items ≡ loops.old.items) }
{
    let mut planned = Items::new(alloc);
    for stmt in stmts {
        planned.push(plan_stmt(alloc, scope, loops, stmt)?)?;
    }
    Ok(planned)
}

#[cycle(statements)]
fn plan_stmt(
    alloc: Global,
    scope: &Scope<'_>,
    loops: &mut Vec<Span>,
    stmt: &StmtDecl,
) -> Result<Stmt, Memory>
    ensures exact { IfOk result
        (λ planned. planned ≡ stmt_planned scope.now.text.now scope.now.names.now
        scope.now.table.now scope.now.params.now stmt.now loops.old.items) }
    ensures loops { OnOk result (loops.new.items ≡ loops.old.items) }
{
    match stmt {
        StmtDecl::Assign {
            target,
            index,
            value,
        } => plan_assign(alloc, scope, loops, *target, index, value),
        StmtDecl::If { test, yes, no, .. } => {
            let test = plan_value(alloc, scope, loops, test)?;
            let yes = plan_block(alloc, scope, loops, yes)?;
            let no = plan_other(alloc, scope, loops, no)?;
            Ok(Stmt::If { test, yes, no })
        }
        StmtDecl::For {
            name,
            low,
            high,
            block,
            ..
        } => plan_for(alloc, scope, loops, *name, *low, *high, block),
        StmtDecl::Send {
            array,
            entry,
            values,
            ..
        } => plan_send(alloc, scope, loops, *array, *entry, values),
        StmtDecl::Contribute { name, value, .. } => {
            plan_contribute(alloc, scope, loops, *name, value)
        }
    }
}

// The plan of what stands behind `else`, empty where nothing does.
#[cycle(statements)]
fn plan_other(
    alloc: Global,
    scope: &Scope<'_>,
    loops: &mut Vec<Span>,
    other: &Option<Block>,
) -> Result<Items<Stmt>, Memory>
    ensures exact { IfOk result
        (λ planned. planned ≡ other_planned
        (option_map (block_planned scope.now.text.now scope.now.names.now scope.now.table.now
        scope.now.params.now) other.now) loops.old.items) }
    ensures loops { OnOk result (loops.new.items ≡ loops.old.items) }
{
    match other {
        Some(block) => plan_block(alloc, scope, loops, block),
        None => Ok(Items::new(alloc)),
    }
}

#[cycle(statements)]
fn plan_for(
    alloc: Global,
    scope: &Scope<'_>,
    loops: &mut Vec<Span>,
    name: Span,
    low: SignedNum,
    high: SignedNum,
    block: &Block,
) -> Result<Stmt, Memory>
    ensures exact { IfOk result
        (λ planned. planned ≡ stmts.For (narrow8 (length loops.old.items)) (signed64 low)
        (signed64 high) (block_planned scope.now.text.now scope.now.names.now scope.now.table.now
        scope.now.params.now block.now (loops.old.items ++ name ∷ []))) }
    ensures loops { OnOk result (loops.new.items ≡ loops.old.items) }
{
    let slot = narrow8(loops.len() as u64);
    loops.push(name)?;
    let block = plan_block(alloc, scope, loops, block)?;
    loops.pop();
    Ok(Stmt::For {
        slot,
        low: signed64(low),
        high: signed64(high),
        block,
    })
}

fn plan_assign(
    alloc: Global,
    scope: &Scope<'_>,
    loops: &[Span],
    target: Span,
    index: &Option<tree::Expr>,
    value: &tree::Expr,
) -> Result<Stmt, Memory>
    ensures { IfOk result (λ planned. planned
        ≡ assigned (range_or_none (state_range scope.now.text.now scope.now.table.now target))
        (place_planned scope.now.text.now scope.now.table.now scope.now.params.now loops.now
        index.now) (value_planned scope.now.text.now scope.now.table.now scope.now.params.now
        loops.now value.now)) }
{
    let range = range_or_none(state_range(scope.text, scope.table, target));
    let place = plan_place(alloc, scope, loops, index)?;
    let value = plan_value(alloc, scope, loops, value)?;
    Ok(assigned(range, place, value))
}

fn assigned(range: Range, place: Option<Expr>, value: Expr) -> Stmt
    ensures { result ≡ assigned range place value }
{
    match place {
        Some(place) => Stmt::SetAt {
            at: range.at,
            cells: range.count,
            place,
            value,
        },
        None => Stmt::Set {
            cell: range.at,
            value,
        },
    }
}

fn plan_send(
    alloc: Global,
    scope: &Scope<'_>,
    loops: &[Span],
    array: Span,
    entry: Span,
    values: &Values,
) -> Result<Stmt, Memory>
    ensures { IfOk result (λ planned. planned
        ≡ stmts.Send (entry_meant (member scope.now.text.now scope.now.names.now array entry))
        (values_planned scope.now.text.now scope.now.table.now scope.now.params.now loops.now
        values.now)) }
{
    let entry = entry_meant(member(scope.text, scope.names, array, entry));
    let values = plan_values(alloc, scope, loops, values)?;
    Ok(Stmt::Send { entry, values })
}

fn plan_contribute(
    alloc: Global,
    scope: &Scope<'_>,
    loops: &[Span],
    name: Span,
    value: &tree::Expr,
) -> Result<Stmt, Memory>
    ensures { IfOk result (λ planned. planned
        ≡ stmts.Contribute (reduction_meant
        (lookup scope.now.table.now (bytes_at scope.now.text.now name)))
        (value_planned scope.now.text.now scope.now.table.now scope.now.params.now loops.now
        value.now)) }
{
    let reduction = reduction_meant(scope.table.get(bytes_at(scope.text, name)));
    let value = plan_value(alloc, scope, loops, value)?;
    Ok(Stmt::Contribute { reduction, value })
}
