//! The plan of an expression.

ghost use Rattle.std.specs.Prelude.{◌≡◌, IfOk, map};
ghost use Rattle.job_rules.specs.PlannedExpressions.{add_op, all_of, any_of, atom_planned, chosen, compare_op, conj_planned, expr_planned, factor_planned, here, local, mul_op, name_planned, place_planned, placed, product_of, product_planned, sum_of, sum_planned, term_planned, test_planned, unary_planned, value_planned, values_planned};
ghost use Rattle.job_rules.specs.Names.{local_named};
ghost use Rattle.job_rules.specs.PlannedNames.{range_or_none, state_range};

use crate::numbers::{narrow8, narrow63};
use crate::planning::lookups::{range_or_none, state_range};
use crate::walk::Scope;
use chare_base::expression::{AddOp, CompareOp, Expr, Factor, MulOp, Term};
use chare_base::memory::Memory;
use job_rules::names::local_named;
use job_tree::token::Span;
use job_tree::tree::{
    self, Atom, Choice, Conj, Here, Product, ProductTerm, Sum, SumTerm, Test, Unary, Values,
};
use sqlite_items::{Boxed, Items};
use std::alloc::Global;

/// The plan of an expression, whose names are those of an array's table, of a part's parameters and of the loops
/// around it.
#[cycle(expressions)]
pub(crate) fn plan_expr(
    alloc: Global,
    scope: &Scope<'_>,
    loops: &[Span],
    expr: &tree::Expr,
) -> Result<Expr, Memory>
    ensures { IfOk result (λ e. e
        ≡ expr_planned scope.now.text.now scope.now.table.now scope.now.params.now loops.now
        expr.now) }
{
    let first = plan_conj(alloc, scope, loops, &expr.first)?;
    let others = plan_conjs(alloc, scope, loops, expr.others.as_slice())?;
    let planned = any_of(alloc, first, others)?;
    Ok(planned)
}

#[cycle(expressions)]
fn plan_conjs(
    alloc: Global,
    scope: &Scope<'_>,
    loops: &[Span],
    conjs: &[Conj],
) -> Result<Items<Expr>, Memory>
    ensures { IfOk result (λ es. es
        ≡ map (conj_planned scope.now.text.now scope.now.table.now scope.now.params.now loops.now)
        conjs.now) }
{
    let mut planned = Items::new(alloc);
    for conj in conjs {
        planned.push(plan_conj(alloc, scope, loops, conj)?)?;
    }
    Ok(planned)
}

#[cycle(expressions)]
fn plan_conj(alloc: Global, scope: &Scope<'_>, loops: &[Span], conj: &Conj) -> Result<Expr, Memory>
    ensures { IfOk result (λ e. e
        ≡ conj_planned scope.now.text.now scope.now.table.now scope.now.params.now loops.now
        conj.now) }
{
    let first = plan_test(alloc, scope, loops, conj.first.get())?;
    let others = plan_tests(alloc, scope, loops, conj.others.as_slice())?;
    let planned = all_of(alloc, first, others)?;
    Ok(planned)
}

#[cycle(expressions)]
fn plan_tests(
    alloc: Global,
    scope: &Scope<'_>,
    loops: &[Span],
    tests: &[Test],
) -> Result<Items<Expr>, Memory>
    ensures { IfOk result (λ es. es
        ≡ map (test_planned scope.now.text.now scope.now.table.now scope.now.params.now loops.now)
        tests.now) }
{
    let mut planned = Items::new(alloc);
    for test in tests {
        planned.push(plan_test(alloc, scope, loops, test)?)?;
    }
    Ok(planned)
}

#[cycle(expressions)]
fn plan_test(alloc: Global, scope: &Scope<'_>, loops: &[Span], test: &Test) -> Result<Expr, Memory>
    ensures { IfOk result (λ e. e
        ≡ test_planned scope.now.text.now scope.now.table.now scope.now.params.now loops.now
        test.now) }
{
    match test {
        Test::Not { operand, .. } => {
            let operand = plan_test(alloc, scope, loops, operand.get())?;
            Ok(Expr::Not(Boxed::new(alloc, operand)?))
        }
        Test::Alone(sum) => plan_sum(alloc, scope, loops, sum),
        Test::Compare { left, op, right } => {
            let left = plan_sum(alloc, scope, loops, left)?;
            let right = plan_sum(alloc, scope, loops, right)?;
            let (left, right) = (Boxed::new(alloc, left)?, Boxed::new(alloc, right)?);
            Ok(Expr::Compare(compare_op(*op), left, right))
        }
    }
}

#[cycle(expressions)]
fn plan_sum(alloc: Global, scope: &Scope<'_>, loops: &[Span], sum: &Sum) -> Result<Expr, Memory>
    ensures { IfOk result (λ e. e
        ≡ sum_planned scope.now.text.now scope.now.table.now scope.now.params.now loops.now
        sum.now) }
{
    let first = plan_product(alloc, scope, loops, sum.first.get())?;
    let others = plan_terms(alloc, scope, loops, sum.others.as_slice())?;
    let planned = sum_of(alloc, first, others)?;
    Ok(planned)
}

#[cycle(expressions)]
fn plan_terms(
    alloc: Global,
    scope: &Scope<'_>,
    loops: &[Span],
    terms: &[SumTerm],
) -> Result<Items<Term>, Memory>
    ensures { IfOk result (λ ts. ts
        ≡ map (term_planned scope.now.text.now scope.now.table.now scope.now.params.now loops.now)
        terms.now) }
{
    let mut planned = Items::new(alloc);
    for term in terms {
        planned.push(plan_term(alloc, scope, loops, term)?)?;
    }
    Ok(planned)
}

#[cycle(expressions)]
fn plan_term(
    alloc: Global,
    scope: &Scope<'_>,
    loops: &[Span],
    term: &SumTerm,
) -> Result<Term, Memory>
    ensures { IfOk result (λ t. t
        ≡ term_planned scope.now.text.now scope.now.table.now scope.now.params.now loops.now
        term.now) }
{
    let value = plan_product(alloc, scope, loops, &term.value)?;
    let op = add_op(term.op);
    Ok(Term { op, value })
}

#[cycle(expressions)]
fn plan_product(
    alloc: Global,
    scope: &Scope<'_>,
    loops: &[Span],
    product: &Product,
) -> Result<Expr, Memory>
    ensures { IfOk result (λ e. e
        ≡ product_planned scope.now.text.now scope.now.table.now scope.now.params.now loops.now
        product.now) }
{
    let first = plan_unary(alloc, scope, loops, &product.first)?;
    let others = plan_factors(alloc, scope, loops, product.others.as_slice())?;
    let planned = product_of(alloc, first, others)?;
    Ok(planned)
}

#[cycle(expressions)]
fn plan_factors(
    alloc: Global,
    scope: &Scope<'_>,
    loops: &[Span],
    factors: &[ProductTerm],
) -> Result<Items<Factor>, Memory>
    ensures { IfOk result (λ fs. fs
        ≡ map (factor_planned scope.now.text.now scope.now.table.now scope.now.params.now loops.now)
        factors.now) }
{
    let mut planned = Items::new(alloc);
    for factor in factors {
        planned.push(plan_factor(alloc, scope, loops, factor)?)?;
    }
    Ok(planned)
}

#[cycle(expressions)]
fn plan_factor(
    alloc: Global,
    scope: &Scope<'_>,
    loops: &[Span],
    factor: &ProductTerm,
) -> Result<Factor, Memory>
    ensures { IfOk result (λ f. f
        ≡ factor_planned scope.now.text.now scope.now.table.now scope.now.params.now loops.now
        factor.now) }
{
    let value = plan_unary(alloc, scope, loops, &factor.value)?;
    let op = mul_op(factor.op);
    Ok(Factor { op, value })
}

#[cycle(expressions)]
fn plan_unary(
    alloc: Global,
    scope: &Scope<'_>,
    loops: &[Span],
    unary: &Unary,
) -> Result<Expr, Memory>
    ensures { IfOk result (λ e. e
        ≡ unary_planned scope.now.text.now scope.now.table.now scope.now.params.now loops.now
        unary.now) }
{
    match unary {
        Unary::Minus { operand, .. } => {
            let operand = plan_unary(alloc, scope, loops, operand.get())?;
            Ok(Expr::Minus(Boxed::new(alloc, operand)?))
        }
        Unary::Atom(atom) => plan_atom(alloc, scope, loops, atom),
    }
}

#[cycle(expressions)]
fn plan_atom(alloc: Global, scope: &Scope<'_>, loops: &[Span], atom: &Atom) -> Result<Expr, Memory>
    ensures { IfOk result (λ e. e
        ≡ atom_planned scope.now.text.now scope.now.table.now scope.now.params.now loops.now
        atom.now) }
{
    match atom {
        Atom::Number(number) => Ok(Expr::Number(narrow63(number.value))),
        Atom::Name(name) => Ok(plan_name(scope, loops, *name)),
        Atom::Cell { name, index } => plan_cell(alloc, scope, loops, *name, index.get()),
        Atom::Here { word, .. } => Ok(here(*word)),
        Atom::Choice {
            choice,
            first,
            second,
            ..
        } => {
            let first = plan_expr(alloc, scope, loops, first.get())?;
            let second = plan_expr(alloc, scope, loops, second.get())?;
            let planned = chosen(alloc, *choice, first, second)?;
            Ok(planned)
        }
        Atom::Group { inner, .. } => plan_expr(alloc, scope, loops, inner.get()),
    }
}

// The plan of a name with an index.
#[cycle(expressions)]
fn plan_cell(
    alloc: Global,
    scope: &Scope<'_>,
    loops: &[Span],
    name: Span,
    index: &tree::Expr,
) -> Result<Expr, Memory>
    ensures { IfOk result (λ e. e
        ≡ placed (range_or_none (state_range scope.now.text.now scope.now.table.now name))
        (expr_planned scope.now.text.now scope.now.table.now scope.now.params.now loops.now
        index.now)) }
{
    let range = range_or_none(state_range(scope.text, scope.table, name));
    let place = plan_expr(alloc, scope, loops, index)?;
    Ok(Expr::CellAt {
        at: range.at,
        cells: range.count,
        place: Boxed::new(alloc, place)?,
    })
}

/// The plan of a statement's expression.
#[tactic(auto, unfolding(job_rules::specs::PlannedExpressions::value_planned))]
pub(crate) fn plan_value(
    alloc: Global,
    scope: &Scope<'_>,
    loops: &[Span],
    expr: &tree::Expr,
) -> Result<Expr, Memory>
    ensures { IfOk result (λ e. e
        ≡ value_planned scope.now.text.now scope.now.table.now scope.now.params.now loops.now
        expr.now) }
{
    let planned = plan_expr(alloc, scope, loops, expr)?;
    Ok(planned)
}

/// The place of a cell, where the text has an index.
#[tactic(auto, unfolding(job_rules::specs::PlannedExpressions::place_planned))]
pub(crate) fn plan_place(
    alloc: Global,
    scope: &Scope<'_>,
    loops: &[Span],
    index: &Option<tree::Expr>,
) -> Result<Option<Expr>, Memory>
    ensures { IfOk result (λ e. e
        ≡ place_planned scope.now.text.now scope.now.table.now scope.now.params.now loops.now
        index.now) }
{
    match index {
        Some(index) => Ok(Some(plan_expr(alloc, scope, loops, index)?)),
        None => Ok(None),
    }
}

/// The plans of values that are sent.
#[tactic(auto, unfolding(job_rules::specs::PlannedExpressions::values_planned))]
pub(crate) fn plan_values(
    alloc: Global,
    scope: &Scope<'_>,
    loops: &[Span],
    values: &Values,
) -> Result<Items<Expr>, Memory>
    ensures { IfOk result (λ es. es
        ≡ values_planned scope.now.text.now scope.now.table.now scope.now.params.now loops.now
        values.now) }
{
    let mut planned = Items::new(alloc);
    planned.push(plan_expr(alloc, scope, loops, &values.first)?)?;
    planned.append(plan_exprs(alloc, scope, loops, values.others.as_slice())?)?;
    Ok(planned)
}

fn plan_exprs(
    alloc: Global,
    scope: &Scope<'_>,
    loops: &[Span],
    exprs: &[tree::Expr],
) -> Result<Items<Expr>, Memory>
    ensures { IfOk result (λ es. es
        ≡ map (expr_planned scope.now.text.now scope.now.table.now scope.now.params.now loops.now)
        exprs.now) }
{
    let mut planned = Items::new(alloc);
    for expr in exprs {
        planned.push(plan_expr(alloc, scope, loops, expr)?)?;
    }
    Ok(planned)
}

fn plan_name(scope: &Scope<'_>, loops: &[Span], name: Span) -> Expr
    ensures { result ≡ name_planned scope.now.text.now scope.now.table.now scope.now.params.now
        loops.now name }
{
    match state_range(scope.text, scope.table, name) {
        Some(range) => Expr::Cell(range.at),
        None => plan_local(scope.text, scope.params, loops, name),
    }
}

fn plan_local(text: &[u8], params: &[Span], loops: &[Span], name: Span) -> Expr
    ensures { result ≡ local (local_named text.now params.now name)
        (local_named text.now loops.now name) }
{
    match local_named(text, params, name) {
        Some(value) => Expr::Mail(narrow8(value as u64)),
        None => match local_named(text, loops, name) {
            Some(slot) => Expr::Loop(narrow8(slot as u64)),
            None => Expr::Cell(4_294_967_295),
        },
    }
}

fn any_of(alloc: Global, first: Expr, others: Items<Expr>) -> Result<Expr, Memory>
    ensures { IfOk result (λ e. e ≡ any_of first others) }
{
    if others.is_empty() {
        return Ok(first);
    }
    let mut operands = Items::new(alloc);
    operands.push(first)?;
    operands.append(others)?;
    Ok(Expr::Any(operands))
}

fn all_of(alloc: Global, first: Expr, others: Items<Expr>) -> Result<Expr, Memory>
    ensures { IfOk result (λ e. e ≡ all_of first others) }
{
    if others.is_empty() {
        return Ok(first);
    }
    let mut operands = Items::new(alloc);
    operands.push(first)?;
    operands.append(others)?;
    Ok(Expr::All(operands))
}

fn sum_of(alloc: Global, first: Expr, others: Items<Term>) -> Result<Expr, Memory>
    ensures { IfOk result (λ e. e ≡ sum_of first others) }
{
    if others.is_empty() {
        return Ok(first);
    }
    Ok(Expr::Sum(Boxed::new(alloc, first)?, others))
}

fn product_of(alloc: Global, first: Expr, others: Items<Factor>) -> Result<Expr, Memory>
    ensures { IfOk result (λ e. e ≡ product_of first others) }
{
    if others.is_empty() {
        return Ok(first);
    }
    Ok(Expr::Product(Boxed::new(alloc, first)?, others))
}

fn chosen(alloc: Global, choice: Choice, first: Expr, second: Expr) -> Result<Expr, Memory>
    ensures { IfOk result (λ e. e ≡ chosen choice first second) }
{
    let (first, second) = (Boxed::new(alloc, first)?, Boxed::new(alloc, second)?);
    match choice {
        Choice::Min => Ok(Expr::Least(first, second)),
        Choice::Max => Ok(Expr::Greatest(first, second)),
    }
}

fn here(word: Here) -> Expr
    ensures { result ≡ here word }
{
    match word {
        Here::Index => Expr::Index,
        Here::Row => Expr::Row,
        Here::Col => Expr::Col,
        Here::Cell => Expr::Which,
        Here::Iter => Expr::Iter,
    }
}

fn add_op(op: tree::AddOp) -> AddOp
    ensures { result ≡ add_op op }
{
    match op {
        tree::AddOp::Plus => AddOp::Plus,
        tree::AddOp::Minus => AddOp::Minus,
    }
}

fn mul_op(op: tree::MulOp) -> MulOp
    ensures { result ≡ mul_op op }
{
    match op {
        tree::MulOp::Times => MulOp::Times,
        tree::MulOp::Divide => MulOp::Divide,
        tree::MulOp::Remainder => MulOp::Remainder,
    }
}

fn compare_op(op: tree::CompareOp) -> CompareOp
    ensures { result ≡ compare_op op }
{
    match op {
        tree::CompareOp::Equal => CompareOp::Equal,
        tree::CompareOp::NotEqual => CompareOp::NotEqual,
        tree::CompareOp::Less => CompareOp::Less,
        tree::CompareOp::LessEqual => CompareOp::LessOrEqual,
        tree::CompareOp::Greater => CompareOp::Greater,
        tree::CompareOp::GreaterEqual => CompareOp::GreaterOrEqual,
    }
}
