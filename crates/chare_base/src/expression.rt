//! A plan's expressions, over the cells of one element and the values of a message.

use sqlite_items::{Boxed, Items};

/// A comparison of two numbers, which gives 1 where it holds and 0 elsewhere.
#[derive(Clone, Copy, Debug, PartialEq, Eq)]
pub enum CompareOp {
    Equal,
    NotEqual,
    Less,
    LessOrEqual,
    Greater,
    GreaterOrEqual,
}

/// An operator of a sum.
#[derive(Clone, Copy, Debug, PartialEq, Eq)]
pub enum AddOp {
    Plus,
    Minus,
}

/// An operator of a product.
#[derive(Clone, Copy, Debug, PartialEq, Eq)]
pub enum MulOp {
    Times,
    /// The quotient, truncated toward 0. By 0 it is 0, and a division by zero.
    Divide,
    /// The remainder, with the sign of the left operand. By 0 it is 0, and a division by zero.
    Remainder,
}

/// An expression of 64 bits that wrap. A chain of operators of one level is one node, read from the left.
#[cycle(expression)]
#[derive(Drop)]
pub enum Expr {
    /// A number as written.
    Number(i64),
    /// The cell of this number, which is a state's only one.
    Cell(u32),
    /// The cell at a place, counted from 0, of the state whose `cells` cells begin at `at`. Outside of them it is 0,
    /// and a read out of range.
    CellAt {
        at: u32,
        cells: u32,
        place: Boxed<Expr>,
    },
    /// The value of this number, from 0, of the message that the part needs.
    Mail(u8),
    /// The variable of the loop that has this many others around it.
    Loop(u8),
    /// The element's index in its array.
    Index,
    /// The element's row in its array, which is 0 in an array of one dimension.
    Row,
    /// The element's column in its array, which is its index in an array of one dimension.
    Col,
    /// In an initial value, the number of the cell within its state.
    Which,
    /// How many iterations the element has completed.
    Iter,
    Minus(Boxed<Expr>),
    /// 1 where the operand is 0, and 0 elsewhere.
    Not(Boxed<Expr>),
    /// The lesser of two numbers.
    Least(Boxed<Expr>, Boxed<Expr>),
    /// The greater of two numbers.
    Greatest(Boxed<Expr>, Boxed<Expr>),
    Compare(CompareOp, Boxed<Expr>, Boxed<Expr>),
    Sum(Boxed<Expr>, Items<Term>),
    Product(Boxed<Expr>, Items<Factor>),
    /// 1 where no operand is 0, and 0 elsewhere. All operands are evaluated.
    All(Items<Expr>),
    /// 1 where an operand isn't 0, and 0 elsewhere. All operands are evaluated.
    Any(Items<Expr>),
}

/// An operand of a sum, behind its operator.
#[cycle(expression)]
#[derive(Drop)]
pub struct Term {
    pub op: AddOp,
    pub value: Expr,
}

/// An operand of a product, behind its operator.
#[cycle(expression)]
#[derive(Drop)]
pub struct Factor {
    pub op: MulOp,
    pub value: Expr,
}
