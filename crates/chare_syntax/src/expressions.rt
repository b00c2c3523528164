//! Readers of expressions. `levels` is how many levels of nesting may still be opened.

ghost use Rattle.std.specs.Prelude.{◌≡◌, ◌<◌, ◌≤◌, ◌+◌, length, IfOk};
ghost use Rattle.job_tree.specs.Fault.{Gives};
ghost use Rattle.job_tree.specs.declared.token.Mark.TheVariants as marks;
ghost use Rattle.job_tree.specs.Readers.{is_mark, many, optional};
ghost use Rattle.job_tree.specs.Reading.{deeper, is_add, is_mul, is_compare, behind, leaf_at, unary_at, test_at, expr_at, product_with, product_term_with, sum_with, sum_term_with, comparison_with, compared_with, conj_with, expr_with, group_with, choice_with, index_with, named_with, atom_with, minus_with, unary_with, not_with, test_with};

use crate::fault::ParseFault;
use crate::leaves::{
    add_of, begins, begins_add, begins_choice, begins_compare, begins_mul, begins_name, begins_num,
    choice_of, compare_of, here_of, mark_of, mul_of, name_of, num_of, open_of,
};
use crate::token::{Mark, Token};
use crate::tree::{Atom, CompareOp, Conj, Expr, Product, ProductTerm, Sum, SumTerm, Test, Unary};
use sqlite_items::{Boxed, Items};
use std::alloc::Global;

/// Reads an expression.
#[cycle(expression)]
#[tactic(auto, unfolding(job_tree::specs::Reading::expr_with))]
pub fn expr_of(alloc: Global, tokens: &[Token], levels: u32) -> Result<(Expr, &[Token]), ParseFault>
    ensures exact { Gives (λ x. (x.0, x.1.now)) result (expr_at levels tokens.now) }
    ensures shorter { IfOk result (λ x. length x.1.now < length tokens.now) }
{
    let (first, rest) = conj_of(alloc, tokens, levels)?;
    let (others, rest) = conjs_of(alloc, rest, levels)?;
    Ok((Expr { first, others }, rest))
}

// Reads what is joined by `or`.
#[cycle(expression)]
fn conjs_of(
    alloc: Global,
    tokens: &[Token],
    levels: u32,
) -> Result<(Items<Conj>, &[Token]), ParseFault>
    ensures exact { Gives (λ x. (x.0, x.1.now)) result
        (many (is_mark marks.Or) (behind marks.Or (conj_with (test_at levels))) tokens.now) }
    ensures shorter { IfOk result (λ x. length x.1.now ≤ length tokens.now) }
{
    let mut rest = tokens;
    let mut conjs = Items::new(alloc);
    'conjs: while begins(rest, Mark::Or) {
        let (_, after) = mark_of(rest, Mark::Or)?;
        let (conj, after) = conj_of(alloc, after, levels)?;
        conjs.push(conj)?;
        rest = after;
    }
    Ok((conjs, rest))
}

// Reads tests joined by `and`.
#[cycle(expression)]
#[tactic(auto, unfolding(job_tree::specs::Reading::conj_with))]
fn conj_of(alloc: Global, tokens: &[Token], levels: u32) -> Result<(Conj, &[Token]), ParseFault>
    ensures exact { Gives (λ x. (x.0, x.1.now)) result (conj_with (test_at levels) tokens.now) }
    ensures shorter { IfOk result (λ x. length x.1.now < length tokens.now) }
{
    let (first, rest) = test_of(alloc, tokens, levels)?;
    let first = Boxed::new(alloc, first)?;
    let (others, rest) = tests_of(alloc, rest, levels)?;
    Ok((Conj { first, others }, rest))
}

// Reads what is joined by `and`.
#[cycle(expression)]
fn tests_of(
    alloc: Global,
    tokens: &[Token],
    levels: u32,
) -> Result<(Items<Test>, &[Token]), ParseFault>
    ensures exact { Gives (λ x. (x.0, x.1.now)) result
        (many (is_mark marks.And) (behind marks.And (test_at levels)) tokens.now) }
    ensures shorter { IfOk result (λ x. length x.1.now ≤ length tokens.now) }
{
    let mut rest = tokens;
    let mut tests = Items::new(alloc);
    'tests: while begins(rest, Mark::And) {
        let (_, after) = mark_of(rest, Mark::And)?;
        let (test, after) = test_of(alloc, after, levels)?;
        tests.push(test)?;
        rest = after;
    }
    Ok((tests, rest))
}

// Reads a test.
#[cycle(expression)]
#[tactic(auto, unfolding(job_tree::specs::Reading::test_with))]
fn test_of(alloc: Global, tokens: &[Token], levels: u32) -> Result<(Test, &[Token]), ParseFault>
    ensures exact { Gives (λ x. (x.0, x.1.now)) result (test_at levels tokens.now) }
    ensures shorter { IfOk result (λ x. length x.1.now < length tokens.now) }
{
    if begins(tokens, Mark::Not) {
        not_of(alloc, tokens, levels)
    } else {
        compared_of(alloc, tokens, levels)
    }
}

// Reads `not` and its operand.
#[cycle(expression)]
#[tactic(auto, unfolding(job_tree::specs::Reading::not_with))]
fn not_of(alloc: Global, tokens: &[Token], levels: u32) -> Result<(Test, &[Token]), ParseFault>
    ensures exact { Gives (λ x. (x.0, x.1.now)) result
        (not_with levels (deeper levels) tokens.now) }
    ensures shorter { IfOk result (λ x. length x.1.now < length tokens.now) }
{
    let (opened, rest) = open_of(tokens, levels, Mark::Not)?;
    let (operand, rest) = deeper_test_of(alloc, rest, opened.left, levels)?;
    let operand = Boxed::new(alloc, operand)?;
    let at = opened.at;
    Ok((Test::Not { at, operand }, rest))
}

// Reads a sum, and what it is compared with.
#[cycle(expression)]
#[tactic(auto, unfolding(job_tree::specs::Reading::compared_with))]
fn compared_of(alloc: Global, tokens: &[Token], levels: u32) -> Result<(Test, &[Token]), ParseFault>
    ensures exact { Gives (λ x. (x.0, x.1.now)) result
        (compared_with (unary_at levels) tokens.now) }
    ensures shorter { IfOk result (λ x. length x.1.now < length tokens.now) }
{
    let (left, rest) = sum_of(alloc, tokens, levels)?;
    if !begins_compare(rest) {
        return Ok((Test::Alone(left), rest));
    }
    let ((op, right), rest) = comparison_of(alloc, rest, levels)?;
    Ok((Test::Compare { left, op, right }, rest))
}

// Reads what a sum is compared with.
#[cycle(expression)]
#[tactic(auto, unfolding(job_tree::specs::Reading::comparison_with))]
fn comparison_of(
    alloc: Global,
    tokens: &[Token],
    levels: u32,
) -> Result<((CompareOp, Sum), &[Token]), ParseFault>
    ensures exact { Gives (λ x. (x.0, x.1.now)) result
        (comparison_with (unary_at levels) tokens.now) }
    ensures shorter { IfOk result (λ x. length x.1.now < length tokens.now) }
{
    let (op, rest) = compare_of(tokens)?;
    let (right, rest) = sum_of(alloc, rest, levels)?;
    Ok(((op, right), rest))
}

// Reads a sum.
#[cycle(expression)]
#[tactic(auto, unfolding(job_tree::specs::Reading::sum_with))]
fn sum_of(alloc: Global, tokens: &[Token], levels: u32) -> Result<(Sum, &[Token]), ParseFault>
    ensures exact { Gives (λ x. (x.0, x.1.now)) result (sum_with (unary_at levels) tokens.now) }
    ensures shorter { IfOk result (λ x. length x.1.now < length tokens.now) }
{
    let (first, rest) = product_of(alloc, tokens, levels)?;
    let first = Boxed::new(alloc, first)?;
    let (others, rest) = sum_terms_of(alloc, rest, levels)?;
    Ok((Sum { first, others }, rest))
}

// Reads the products behind pluses and minuses.
#[cycle(expression)]
fn sum_terms_of(
    alloc: Global,
    tokens: &[Token],
    levels: u32,
) -> Result<(Items<SumTerm>, &[Token]), ParseFault>
    ensures exact { Gives (λ x. (x.0, x.1.now)) result
        (many is_add (sum_term_with (unary_at levels)) tokens.now) }
    ensures shorter { IfOk result (λ x. length x.1.now ≤ length tokens.now) }
{
    let mut rest = tokens;
    let mut terms = Items::new(alloc);
    'terms: while begins_add(rest) {
        let (term, after) = sum_term_of(alloc, rest, levels)?;
        terms.push(term)?;
        rest = after;
    }
    Ok((terms, rest))
}

// Reads a product behind a plus or a minus.
#[cycle(expression)]
#[tactic(auto, unfolding(job_tree::specs::Reading::sum_term_with))]
fn sum_term_of(
    alloc: Global,
    tokens: &[Token],
    levels: u32,
) -> Result<(SumTerm, &[Token]), ParseFault>
    ensures exact { Gives (λ x. (x.0, x.1.now)) result
        (sum_term_with (unary_at levels) tokens.now) }
    ensures shorter { IfOk result (λ x. length x.1.now < length tokens.now) }
{
    let ((at, op), rest) = add_of(tokens)?;
    let (value, rest) = product_of(alloc, rest, levels)?;
    Ok((SumTerm { at, op, value }, rest))
}

// Reads a product.
#[cycle(expression)]
#[tactic(auto, unfolding(job_tree::specs::Reading::product_with))]
fn product_of(
    alloc: Global,
    tokens: &[Token],
    levels: u32,
) -> Result<(Product, &[Token]), ParseFault>
    ensures exact { Gives (λ x. (x.0, x.1.now)) result (product_with (unary_at levels) tokens.now) }
    ensures shorter { IfOk result (λ x. length x.1.now < length tokens.now) }
{
    let (first, rest) = unary_of(alloc, tokens, levels)?;
    let (others, rest) = product_terms_of(alloc, rest, levels)?;
    Ok((Product { first, others }, rest))
}

// Reads the unaries behind operators of products.
#[cycle(expression)]
fn product_terms_of(
    alloc: Global,
    tokens: &[Token],
    levels: u32,
) -> Result<(Items<ProductTerm>, &[Token]), ParseFault>
    ensures exact { Gives (λ x. (x.0, x.1.now)) result
        (many is_mul (product_term_with (unary_at levels)) tokens.now) }
    ensures shorter { IfOk result (λ x. length x.1.now ≤ length tokens.now) }
{
    let mut rest = tokens;
    let mut terms = Items::new(alloc);
    'terms: while begins_mul(rest) {
        let (term, after) = product_term_of(alloc, rest, levels)?;
        terms.push(term)?;
        rest = after;
    }
    Ok((terms, rest))
}

// Reads a unary behind an operator of a product.
#[cycle(expression)]
#[tactic(auto, unfolding(job_tree::specs::Reading::product_term_with))]
fn product_term_of(
    alloc: Global,
    tokens: &[Token],
    levels: u32,
) -> Result<(ProductTerm, &[Token]), ParseFault>
    ensures exact { Gives (λ x. (x.0, x.1.now)) result
        (product_term_with (unary_at levels) tokens.now) }
    ensures shorter { IfOk result (λ x. length x.1.now < length tokens.now) }
{
    let ((at, op), rest) = mul_of(tokens)?;
    let (value, rest) = unary_of(alloc, rest, levels)?;
    Ok((ProductTerm { at, op, value }, rest))
}

// Reads a unary.
#[cycle(expression)]
#[tactic(auto, unfolding(job_tree::specs::Reading::unary_with))]
fn unary_of(alloc: Global, tokens: &[Token], levels: u32) -> Result<(Unary, &[Token]), ParseFault>
    ensures exact { Gives (λ x. (x.0, x.1.now)) result (unary_at levels tokens.now) }
    ensures shorter { IfOk result (λ x. length x.1.now < length tokens.now) }
{
    if begins(tokens, Mark::Minus) {
        minus_of(alloc, tokens, levels)
    } else {
        let (atom, rest) = atom_of(alloc, tokens, levels)?;
        Ok((Unary::Atom(atom), rest))
    }
}

// Reads a minus and its operand.
#[cycle(expression)]
#[tactic(auto, unfolding(job_tree::specs::Reading::minus_with))]
fn minus_of(alloc: Global, tokens: &[Token], levels: u32) -> Result<(Unary, &[Token]), ParseFault>
    ensures exact { Gives (λ x. (x.0, x.1.now)) result
        (minus_with levels (deeper levels) tokens.now) }
    ensures shorter { IfOk result (λ x. length x.1.now < length tokens.now) }
{
    let (opened, rest) = open_of(tokens, levels, Mark::Minus)?;
    let (operand, rest) = deeper_unary_of(alloc, rest, opened.left, levels)?;
    let operand = Boxed::new(alloc, operand)?;
    let at = opened.at;
    Ok((Unary::Minus { at, operand }, rest))
}

// Reads an atom.
#[cycle(expression)]
#[tactic(auto, unfolding(job_tree::specs::Reading::atom_with))]
fn atom_of(alloc: Global, tokens: &[Token], levels: u32) -> Result<(Atom, &[Token]), ParseFault>
    ensures exact { Gives (λ x. (x.0, x.1.now)) result
        (atom_with levels (deeper levels) tokens.now) }
    ensures shorter { IfOk result (λ x. length x.1.now < length tokens.now) }
{
    if begins(tokens, Mark::OpenParen) {
        group_of(alloc, tokens, levels)
    } else if begins_choice(tokens) {
        least_of(alloc, tokens, levels)
    } else if begins_name(tokens) {
        named_of(alloc, tokens, levels)
    } else {
        leaf_of(tokens)
    }
}

// Reads a number, or a word for one.
#[tactic(auto, unfolding(job_tree::specs::Reading::leaf_at))]
fn leaf_of(tokens: &[Token]) -> Result<(Atom, &[Token]), ParseFault>
    ensures exact { Gives (λ x. (x.0, x.1.now)) result (leaf_at tokens.now) }
    ensures shorter { IfOk result (λ x. length x.1.now < length tokens.now) }
{
    if begins_num(tokens) {
        let (n, rest) = num_of(tokens)?;
        Ok((Atom::Number(n), rest))
    } else {
        let ((at, word), rest) = here_of(tokens)?;
        Ok((Atom::Here { at, word }, rest))
    }
}

// Reads an expression in brackets.
#[cycle(expression)]
#[tactic(auto, unfolding(job_tree::specs::Reading::group_with))]
fn group_of(alloc: Global, tokens: &[Token], levels: u32) -> Result<(Atom, &[Token]), ParseFault>
    ensures exact { Gives (λ x. (x.0, x.1.now)) result
        (group_with levels (deeper levels) tokens.now) }
    ensures shorter { IfOk result (λ x. length x.1.now < length tokens.now) }
{
    let (opened, rest) = open_of(tokens, levels, Mark::OpenParen)?;
    let (inner, rest) = deeper_expr_of(alloc, rest, opened.left, levels)?;
    let (_, rest) = mark_of(rest, Mark::CloseParen)?;
    let inner = Boxed::new(alloc, inner)?;
    let at = opened.at;
    Ok((Atom::Group { at, inner }, rest))
}

// Reads `min` or `max` of two expressions.
#[cycle(expression)]
#[tactic(auto, unfolding(job_tree::specs::Reading::choice_with))]
fn least_of(alloc: Global, tokens: &[Token], levels: u32) -> Result<(Atom, &[Token]), ParseFault>
    ensures exact { Gives (λ x. (x.0, x.1.now)) result
        (choice_with levels (deeper levels) tokens.now) }
    ensures shorter { IfOk result (λ x. length x.1.now < length tokens.now) }
{
    let ((at, choice), rest) = choice_of(tokens)?;
    let (opened, rest) = open_of(rest, levels, Mark::OpenParen)?;
    let (first, rest) = deeper_expr_of(alloc, rest, opened.left, levels)?;
    let (_, rest) = mark_of(rest, Mark::Comma)?;
    let (second, rest) = deeper_expr_of(alloc, rest, opened.left, levels)?;
    let (_, rest) = mark_of(rest, Mark::CloseParen)?;
    let first = Boxed::new(alloc, first)?;
    let second = Boxed::new(alloc, second)?;
    let atom = Atom::Choice {
        at,
        choice,
        first,
        second,
    };
    Ok((atom, rest))
}

// Reads a name, and its index where it has one.
#[cycle(expression)]
#[tactic(auto, unfolding(job_tree::specs::Reading::named_with))]
fn named_of(alloc: Global, tokens: &[Token], levels: u32) -> Result<(Atom, &[Token]), ParseFault>
    ensures exact { Gives (λ x. (x.0, x.1.now)) result
        (named_with levels (deeper levels) tokens.now) }
    ensures shorter { IfOk result (λ x. length x.1.now < length tokens.now) }
{
    let (name, rest) = name_of(tokens)?;
    if !begins(rest, Mark::OpenBracket) {
        return Ok((Atom::Name(name), rest));
    }
    let (index, rest) = index_of(alloc, rest, levels)?;
    let index = Boxed::new(alloc, index)?;
    Ok((Atom::Cell { name, index }, rest))
}

/// Reads an index in its brackets.
#[cycle(expression)]
#[tactic(auto, unfolding(job_tree::specs::Reading::index_with))]
pub fn index_of(
    alloc: Global,
    tokens: &[Token],
    levels: u32,
) -> Result<(Expr, &[Token]), ParseFault>
    ensures exact { Gives (λ x. (x.0, x.1.now)) result
        (index_with levels (deeper levels) tokens.now) }
    ensures shorter { IfOk result (λ x. length x.1.now < length tokens.now) }
{
    let (opened, rest) = open_of(tokens, levels, Mark::OpenBracket)?;
    let (index, rest) = deeper_expr_of(alloc, rest, opened.left, levels)?;
    let (_, rest) = mark_of(rest, Mark::CloseBracket)?;
    Ok((index, rest))
}

// Reads an operand that stands a level deeper.
#[cycle(expression)]
fn deeper_expr_of(
    alloc: Global,
    tokens: &[Token],
    left: u32,
    levels: u32,
) -> Result<(Expr, &[Token]), ParseFault>
    requires { left + 1 ≡ levels }
    ensures exact { Gives (λ x. (x.0, x.1.now)) result (expr_with (deeper levels).test tokens.now) }
    ensures shorter { IfOk result (λ x. length x.1.now < length tokens.now) }
{
    expr_of(alloc, tokens, left)
}

// Reads an operand that stands a level deeper.
#[cycle(expression)]
fn deeper_test_of(
    alloc: Global,
    tokens: &[Token],
    left: u32,
    levels: u32,
) -> Result<(Test, &[Token]), ParseFault>
    requires { left + 1 ≡ levels }
    ensures exact { Gives (λ x. (x.0, x.1.now)) result ((deeper levels).test tokens.now) }
    ensures shorter { IfOk result (λ x. length x.1.now < length tokens.now) }
{
    test_of(alloc, tokens, left)
}

// Reads an operand that stands a level deeper.
#[cycle(expression)]
fn deeper_unary_of(
    alloc: Global,
    tokens: &[Token],
    left: u32,
    levels: u32,
) -> Result<(Unary, &[Token]), ParseFault>
    requires { left + 1 ≡ levels }
    ensures exact { Gives (λ x. (x.0, x.1.now)) result ((deeper levels).unary tokens.now) }
    ensures shorter { IfOk result (λ x. length x.1.now < length tokens.now) }
{
    unary_of(alloc, tokens, left)
}
