//! What expressions compute.

ghost use Rattle.std.specs.Prelude.{◌≡◌, map, pos, replicate, slice_get, true, false};
ghost use Rattle.chare_eval.specs.Value.{after, all_from, any_from, cell_found, cell_in, factor_of, number_at, product_from, sum_from, term_of, value_of};

use crate::arithmetic::{READ, least_kind};
use crate::loops::Loops;
use chare_base::expression::{Expr, Factor, Term};

/// What an expression reads beside the cells.
#[derive(Drop)]
pub struct Scene {
    /// The element's index in its array.
    pub index: u32,
    pub row: u32,
    pub col: u32,
    /// In an initial value, the number of the cell within its state.
    pub which: u32,
    /// How many iterations the element has completed.
    pub iteration: u64,
    /// The values that came with the message that the part needs; 0 where none came.
    pub values: [i64; 8],
    /// The variables of the loops, the outermost first.
    pub loops: Loops,
}

impl Scene {
    /// A scene in which all is 0.
    pub const fn new() -> Scene
        ensures { result ≡ record {
          index = 0;
          row = 0;
          col = 0;
          which = 0;
          iteration = 0;
          values = replicate 8 (pos 0);
          loops = replicate 32 (pos 0);
        } }
    {
        Scene {
            index: 0,
            row: 0,
            col: 0,
            which: 0,
            iteration: 0,
            values: [0; 8],
            loops: Loops::new(),
        }
    }
}

/// A value, and the least kind of slip on the way to it: 0 where there was none.
#[derive(Clone, Copy, Debug, PartialEq, Eq)]
pub struct Computed {
    pub value: i64,
    pub slip: u8,
}

/// What an expression computes over these cells.
#[cycle(expressions)]
pub fn value(e: &Expr, scene: &Scene, cells: &[i64]) -> Computed
    ensures { result ≡ value_of e.now scene.now cells.now }
{
    match e {
        Expr::Number(number) => Computed::clean(*number),
        Expr::Cell(at) => cell(cells, *at as usize),
        Expr::CellAt {
            at,
            cells: count,
            place,
        } => cell_at(cells, *at, *count, leaf(place.get(), scene, cells)),
        Expr::Mail(at) => Computed::clean(number_at(&scene.values, *at)),
        Expr::Loop(slot) => Computed::clean(scene.loops.get(*slot)),
        Expr::Index => Computed::clean(i64::from(scene.index)),
        Expr::Row => Computed::clean(i64::from(scene.row)),
        Expr::Col => Computed::clean(i64::from(scene.col)),
        Expr::Which => Computed::clean(i64::from(scene.which)),
        Expr::Iter => Computed::clean(scene.iteration.cast_signed()),
        Expr::Minus(a) => operand(a.get(), scene, cells).minus(),
        Expr::Not(a) => operand(a.get(), scene, cells).denied(),
        Expr::Least(a, b) => {
            operand(a.get(), scene, cells).least(operand(b.get(), scene, cells))
        }
        Expr::Greatest(a, b) => {
            operand(a.get(), scene, cells).greatest(operand(b.get(), scene, cells))
        }
        Expr::Compare(op, a, b) => {
            operand(a.get(), scene, cells).compared(*op, operand(b.get(), scene, cells))
        }
        Expr::Sum(first, others) => {
            let first = operand(first.get(), scene, cells);
            sum(first, others.as_slice(), scene, cells)
        }
        Expr::Product(first, others) => {
            let first = operand(first.get(), scene, cells);
            product(first, others.as_slice(), scene, cells)
        }
        Expr::All(operands) => all(operands.as_slice(), scene, cells),
        Expr::Any(operands) => any(operands.as_slice(), scene, cells),
    }
}

// What an operand computes. Most are leaves, or a cell whose place is a leaf; these cost no call here.
#[cycle(expressions)]
#[inline(always)]
pub(crate) fn operand(e: &Expr, scene: &Scene, cells: &[i64]) -> Computed
    ensures { result ≡ value_of e.now scene.now cells.now }
{
    match e {
        Expr::CellAt {
            at,
            cells: count,
            place,
        } => cell_at(cells, *at, *count, leaf(place.get(), scene, cells)),
        _ => leaf(e, scene, cells),
    }
}

// The same where a leaf alone costs no call.
#[cycle(expressions)]
#[inline(always)]
fn leaf(e: &Expr, scene: &Scene, cells: &[i64]) -> Computed
    ensures { result ≡ value_of e.now scene.now cells.now }
{
    match e {
        Expr::Number(number) => Computed::clean(*number),
        Expr::Cell(at) => cell(cells, *at as usize),
        Expr::Mail(at) => Computed::clean(number_at(&scene.values, *at)),
        Expr::Loop(slot) => Computed::clean(scene.loops.get(*slot)),
        Expr::Index => Computed::clean(i64::from(scene.index)),
        Expr::Row => Computed::clean(i64::from(scene.row)),
        Expr::Col => Computed::clean(i64::from(scene.col)),
        _ => value(e, scene, cells),
    }
}

// Operands added and subtracted, from the left.
#[cycle(expressions)]
fn sum(first: Computed, others: &[Term], scene: &Scene, cells: &[i64]) -> Computed
    ensures { result ≡ sum_from (map term_of others.now) scene.now cells.now first }
{
    let mut sum = first;
    for other in others {
        sum = sum.plus(other.op, operand(&other.value, scene, cells));
    }
    sum
}

// Operands multiplied and divided, from the left.
#[cycle(expressions)]
fn product(first: Computed, others: &[Factor], scene: &Scene, cells: &[i64]) -> Computed
    ensures { result ≡ product_from (map factor_of others.now) scene.now cells.now first }
{
    let mut product = first;
    for other in others {
        product = product.times(other.op, operand(&other.value, scene, cells));
    }
    product
}

// Whether no operand is 0. All are evaluated, each for its slip.
#[cycle(expressions)]
fn all(operands: &[Expr], scene: &Scene, cells: &[i64]) -> Computed
    ensures { result ≡ all_from (map value_of operands.now) scene.now cells.now true 0 }
{
    let mut holds = true;
    let mut slip = 0;
    for e in operands {
        let next = operand(e, scene, cells);
        holds = holds && next.value != 0;
        slip = least_kind(slip, next.slip);
    }
    Computed {
        value: i64::from(holds),
        slip,
    }
}

// Whether an operand isn't 0. All are evaluated, each for its slip.
#[cycle(expressions)]
fn any(operands: &[Expr], scene: &Scene, cells: &[i64]) -> Computed
    ensures { result ≡ any_from (map value_of operands.now) scene.now cells.now false 0 }
{
    let mut holds = false;
    let mut slip = 0;
    for e in operands {
        let next = operand(e, scene, cells);
        holds = holds || next.value != 0;
        slip = least_kind(slip, next.slip);
    }
    Computed {
        value: i64::from(holds),
        slip,
    }
}

/// The number at a place, or 0 where there is none.
pub(crate) fn number_at(numbers: &[i64], at: u8) -> i64
    ensures { result ≡ number_at numbers.now at }
{
    numbers.get(at as usize).copied().unwrap_or(0)
}

// The cell of a number. Where there is none it is 0, and a slip.
fn cell(cells: &[i64], at: usize) -> Computed
    ensures { result ≡ cell_found (slice_get cells.now at) }
{
    match cells.get(at) {
        Some(value) => Computed::clean(*value),
        None => Computed {
            value: 0,
            slip: READ,
        },
    }
}

// The cell at a place of the state whose `count` cells begin at `at`.
fn cell_at(cells: &[i64], at: u32, count: u32, place: Computed) -> Computed
    ensures { result ≡ after place.slip (cell_in cells.now at count place.value) }
{
    cell_in(cells, at, count, place.value).after(place.slip)
}

fn cell_in(cells: &[i64], at: u32, count: u32, place: i64) -> Computed
    ensures { result ≡ cell_in cells.now at count place }
{
    if 0 <= place && place < i64::from(count) {
        cell(cells, at as usize + place as usize)
    } else {
        Computed {
            value: 0,
            slip: READ,
        }
    }
}
