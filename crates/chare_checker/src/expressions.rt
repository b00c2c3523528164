//! The walk over an expression.

ghost use Rattle.std.specs.Prelude.{◌≡◌, OnOk, map};
ghost use Rattle.job_rules.specs.Notes.{in_order};
ghost use Rattle.job_rules.specs.Expressions.{atom_walked, conj_walked, expr_walked, here_walked, local_fault, misindexed, misplaced, name_walked, product_term_walked, product_walked, state_read, state_use, sum_term_walked, sum_walked, test_walked, unary_walked, value_named, value_walked};

use crate::walk::Scope;
use chare_base::memory::Memory;
use job_rules::fault::{CheckFault, fault_if, name_fault};
use job_rules::names::Meaning;
use job_rules::notes::{Notes, StateUse};
use job_rules::walk::Site;
use job_tree::token::Span;
use job_tree::tree::{Atom, Conj, Expr, Here, Product, ProductTerm, Sum, SumTerm, Test, Unary};

/// Walks over an expression, whose names are those of an array's table, of a part's parameters and of the loops
/// around it.
///
/// `Memory`: an allocation was refused; the notes keep what was noted before.
#[tactic(auto, unfolding(job_rules::specs::Expressions::value_walked))]
pub(crate) fn walk_value(
    scope: &Scope,
    site: Site,
    loops: &[Span],
    notes: &mut Notes,
    value: &Expr,
) -> Result<(), Memory>
    ensures { OnOk result (notes.new
        ≡ value_walked scope.now.text.now scope.now.table.now site scope.now.params.now loops.now
        value.now notes.old) }
{
    walk_expr(scope, site, loops, notes, value)?;
    Ok(())
}

#[cycle(expressions)]
fn walk_expr(
    scope: &Scope,
    site: Site,
    loops: &[Span],
    notes: &mut Notes,
    expr: &Expr,
) -> Result<(), Memory>
    ensures { OnOk result (notes.new
        ≡ expr_walked scope.now.text.now scope.now.table.now site scope.now.params.now loops.now
        expr.now notes.old) }
{
    walk_conj(scope, site, loops, notes, &expr.first)?;
    walk_conjs(scope, site, loops, notes, expr.others.as_slice())?;
    Ok(())
}

#[cycle(expressions)]
fn walk_conjs(
    scope: &Scope,
    site: Site,
    loops: &[Span],
    notes: &mut Notes,
    conjs: &[Conj],
) -> Result<(), Memory>
    ensures { OnOk result (notes.new
        ≡ in_order (map (conj_walked scope.now.text.now scope.now.table.now site
        scope.now.params.now loops.now) conjs.now) notes.old) }
{
    for conj in conjs {
        walk_conj(scope, site, loops, notes, conj)?;
    }
    Ok(())
}

#[cycle(expressions)]
fn walk_conj(
    scope: &Scope,
    site: Site,
    loops: &[Span],
    notes: &mut Notes,
    conj: &Conj,
) -> Result<(), Memory>
    ensures { OnOk result (notes.new
        ≡ conj_walked scope.now.text.now scope.now.table.now site scope.now.params.now loops.now
        conj.now notes.old) }
{
    walk_test(scope, site, loops, notes, conj.first.get())?;
    walk_tests(scope, site, loops, notes, conj.others.as_slice())?;
    Ok(())
}

#[cycle(expressions)]
fn walk_tests(
    scope: &Scope,
    site: Site,
    loops: &[Span],
    notes: &mut Notes,
    tests: &[Test],
) -> Result<(), Memory>
    ensures { OnOk result (notes.new
        ≡ in_order (map (test_walked scope.now.text.now scope.now.table.now site
        scope.now.params.now loops.now) tests.now) notes.old) }
{
    for test in tests {
        walk_test(scope, site, loops, notes, test)?;
    }
    Ok(())
}

#[cycle(expressions)]
fn walk_test(
    scope: &Scope,
    site: Site,
    loops: &[Span],
    notes: &mut Notes,
    test: &Test,
) -> Result<(), Memory>
    ensures { OnOk result (notes.new
        ≡ test_walked scope.now.text.now scope.now.table.now site scope.now.params.now loops.now
        test.now notes.old) }
{
    match test {
        Test::Not { operand, .. } => walk_test(scope, site, loops, notes, operand.get())?,
        Test::Alone(sum) => walk_sum(scope, site, loops, notes, sum)?,
        Test::Compare { left, right, .. } => {
            walk_sum(scope, site, loops, notes, left)?;
            walk_sum(scope, site, loops, notes, right)?;
        }
    }
    Ok(())
}

#[cycle(expressions)]
fn walk_sum(
    scope: &Scope,
    site: Site,
    loops: &[Span],
    notes: &mut Notes,
    sum: &Sum,
) -> Result<(), Memory>
    ensures { OnOk result (notes.new
        ≡ sum_walked scope.now.text.now scope.now.table.now site scope.now.params.now loops.now
        sum.now notes.old) }
{
    walk_product(scope, site, loops, notes, sum.first.get())?;
    walk_sum_terms(scope, site, loops, notes, sum.others.as_slice())?;
    Ok(())
}

#[cycle(expressions)]
fn walk_sum_terms(
    scope: &Scope,
    site: Site,
    loops: &[Span],
    notes: &mut Notes,
    sum_terms: &[SumTerm],
) -> Result<(), Memory>
    ensures { OnOk result (notes.new
        ≡ in_order (map (sum_term_walked scope.now.text.now scope.now.table.now site
        scope.now.params.now loops.now) sum_terms.now) notes.old) }
{
    for sum_term in sum_terms {
        walk_sum_term(scope, site, loops, notes, sum_term)?;
    }
    Ok(())
}

#[cycle(expressions)]
fn walk_sum_term(
    scope: &Scope,
    site: Site,
    loops: &[Span],
    notes: &mut Notes,
    sum_term: &SumTerm,
) -> Result<(), Memory>
    ensures { OnOk result (notes.new
        ≡ sum_term_walked scope.now.text.now scope.now.table.now site scope.now.params.now loops.now
        sum_term.now notes.old) }
{
    walk_product(scope, site, loops, notes, &sum_term.value)?;
    Ok(())
}

#[cycle(expressions)]
fn walk_product(
    scope: &Scope,
    site: Site,
    loops: &[Span],
    notes: &mut Notes,
    product: &Product,
) -> Result<(), Memory>
    ensures { OnOk result (notes.new
        ≡ product_walked scope.now.text.now scope.now.table.now site scope.now.params.now loops.now
        product.now notes.old) }
{
    walk_unary(scope, site, loops, notes, &product.first)?;
    walk_product_terms(scope, site, loops, notes, product.others.as_slice())?;
    Ok(())
}

#[cycle(expressions)]
fn walk_product_terms(
    scope: &Scope,
    site: Site,
    loops: &[Span],
    notes: &mut Notes,
    product_terms: &[ProductTerm],
) -> Result<(), Memory>
    ensures { OnOk result (notes.new
        ≡ in_order (map (product_term_walked scope.now.text.now scope.now.table.now site
        scope.now.params.now loops.now) product_terms.now) notes.old) }
{
    for product_term in product_terms {
        walk_product_term(scope, site, loops, notes, product_term)?;
    }
    Ok(())
}

#[cycle(expressions)]
fn walk_product_term(
    scope: &Scope,
    site: Site,
    loops: &[Span],
    notes: &mut Notes,
    product_term: &ProductTerm,
) -> Result<(), Memory>
    ensures { OnOk result (notes.new
        ≡ product_term_walked scope.now.text.now scope.now.table.now site scope.now.params.now
        loops.now product_term.now notes.old) }
{
    walk_unary(scope, site, loops, notes, &product_term.value)?;
    Ok(())
}

#[cycle(expressions)]
fn walk_unary(
    scope: &Scope,
    site: Site,
    loops: &[Span],
    notes: &mut Notes,
    unary: &Unary,
) -> Result<(), Memory>
    ensures { OnOk result (notes.new
        ≡ unary_walked scope.now.text.now scope.now.table.now site scope.now.params.now loops.now
        unary.now notes.old) }
{
    match unary {
        Unary::Minus { operand, .. } => walk_unary(scope, site, loops, notes, operand.get())?,
        Unary::Atom(atom) => walk_atom(scope, site, loops, notes, atom)?,
    }
    Ok(())
}

#[cycle(expressions)]
fn walk_atom(
    scope: &Scope,
    site: Site,
    loops: &[Span],
    notes: &mut Notes,
    atom: &Atom,
) -> Result<(), Memory>
    ensures { OnOk result (notes.new
        ≡ atom_walked scope.now.text.now scope.now.table.now site scope.now.params.now loops.now
        atom.now notes.old) }
{
    match atom {
        Atom::Number(_) => {}
        Atom::Name(name) => walk_name(scope, site, loops, notes, *name, false)?,
        Atom::Cell { name, index } => {
            walk_name(scope, site, loops, notes, *name, true)?;
            walk_expr(scope, site, loops, notes, index.get())?;
        }
        Atom::Here { at, word } => walk_here(site, *at, *word, notes),
        Atom::Choice { first, second, .. } => {
            walk_expr(scope, site, loops, notes, first.get())?;
            walk_expr(scope, site, loops, notes, second.get())?;
        }
        Atom::Group { inner, .. } => walk_expr(scope, site, loops, notes, inner.get())?,
    }
    Ok(())
}

#[tactic(auto, unfolding(job_rules::specs::Expressions::name_walked))]
fn walk_name(
    scope: &Scope,
    site: Site,
    loops: &[Span],
    notes: &mut Notes,
    name: Span,
    indexed: bool,
) -> Result<(), Memory>
    ensures { OnOk result (notes.new
        ≡ name_walked scope.now.text.now scope.now.table.now site scope.now.params.now loops.now
        name indexed notes.old) }
{
    let meaning = scope.meaning(name);
    let local = scope.is_local(loops, name);
    notes.note(name_fault(name));
    read_name(site, meaning, local, name, indexed, notes)?;
    Ok(())
}

// A name with this meaning in the array's table, in scope or not.
fn read_name(
    site: Site,
    meaning: Option<Meaning>,
    local: bool,
    name: Span,
    indexed: bool,
    notes: &mut Notes,
) -> Result<(), Memory>
    ensures { OnOk result (notes.new ≡ value_named site meaning local name indexed notes.old) }
{
    match meaning {
        Some(
            Meaning::State {
                number,
                declared,
                plain,
                ..
            },
        ) => {
            read_state(site, number, declared, plain, name, indexed, notes)?;
        }
        _ => notes.note(local_fault(local, name, indexed)),
    }
    Ok(())
}

// An initial value reads no state.
fn read_state(
    site: Site,
    number: usize,
    declared: u32,
    plain: bool,
    name: Span,
    indexed: bool,
    notes: &mut Notes,
) -> Result<(), Memory>
    ensures { OnOk result (notes.new
        ≡ state_read site number declared plain name indexed notes.old) }
{
    let kind = CheckFault::Kind { at: name.at };
    match site {
        Site::Part { number: part } => {
            notes.note(fault_if(misindexed(plain, indexed), kind));
            notes.note_use(state_use(number, declared, part, name, false))?;
        }
        Site::Start { .. } => notes.note(Some(kind)),
    }
    Ok(())
}

/// The use of a state's name in a part.
pub(crate) fn state_use(
    state: usize,
    declared: u32,
    part: usize,
    name: Span,
    written: bool,
) -> StateUse
    ensures { result ≡ state_use state declared part name written }
{
    StateUse {
        state,
        declared,
        part,
        at: name.at,
        written,
    }
}

// A parameter and a loop's name have no index.
fn local_fault(local: bool, name: Span, indexed: bool) -> Option<CheckFault>
    ensures { result ≡ local_fault local name indexed }
{
    if local {
        fault_if(indexed, CheckFault::Kind { at: name.at })
    } else {
        Some(CheckFault::Unknown { at: name.at })
    }
}

#[tactic(auto, unfolding(job_rules::specs::Expressions::here_walked))]
fn walk_here(site: Site, at: u32, word: Here, notes: &mut Notes)
    ensures { notes.new ≡ here_walked site at word notes.old }
{
    notes.note(fault_if(misplaced(site, word), CheckFault::Kind { at }));
}

// Iterations are counted in steps alone, and cells in the initial value of a state with a size.
fn misplaced(site: Site, word: Here) -> bool
    ensures { result ≡ misplaced site word }
{
    match (site, word) {
        (Site::Part { .. }, Here::Cell) => true,
        (Site::Start { sized }, Here::Cell) => !sized,
        (Site::Start { .. }, Here::Iter) => true,
        _ => false,
    }
}

/// Whether a state's name has an index where there may be none, or none where there has to be one.
pub(crate) fn misindexed(plain: bool, indexed: bool) -> bool
    ensures { result ≡ misindexed plain indexed }
{
    if plain { indexed } else { !indexed }
}
