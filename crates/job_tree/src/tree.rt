//! The tree of a job's text: a struct or an enum for each rule of the grammar.
//!
//! Places are byte offsets in the text. Each node that begins with a word or a symbol has its place as
//! `at`, a `SignedNum` as `minus`; `How` and the operators have none. The others begin with a name, a number or another
//! node, whose place is theirs.
//!
//! The first test of a `Conj` and the first product of a `Sum` are boxed, so that an expression moves as a few words.

ghost use Rattle.std.specs.Prelude.{IsTrue, length};
ghost use Rattle.job_tree.specs.Accepted.{is_filled, is_shallow, names_lie};

use crate::token::{Num, Span};
use chare_bytes::bytes::Bytes;
use sqlite_items::{Boxed, Items};

/// A text and its tree.
#[derive(Drop)]
pub struct Ast {
    pub text: Bytes,
    pub job: Job,
    /// The tree opens 32 levels of nesting at most.
    pub ghost shallow: { IsTrue (is_shallow 32 job) },
    /// Each name of the tree has at least one byte, and lies in the text.
    pub ghost named: { IsTrue (names_lie (length text) job) },
    /// The tree has an array and an answer, each array a state and a step, and each overlap two parts, at least.
    pub ghost filled: { IsTrue (is_filled job) },
}

/// `job NAME iterate NUM array.. answer..`, with at least one array and one answer.
#[derive(Drop)]
pub struct Job {
    pub at: u32,
    pub name: Span,
    pub iterations: Num,
    pub arrays: Items<ArrayDecl>,
    pub answers: Items<AnswerDecl>,
}

/// `NUM [ , NUM ]`: the sizes of an array, or an element's coordinates.
#[derive(Clone, Copy)]
pub struct Coordinates {
    pub first: Num,
    pub second: Option<Num>,
}

/// `array NAME [ sizes ] { state.. member.. step.. }`, with at least one state and one step.
#[derive(Drop)]
pub struct ArrayDecl {
    pub at: u32,
    pub name: Span,
    pub sizes: Coordinates,
    pub states: Items<StateDecl>,
    pub members: Items<MemberDecl>,
    pub steps: Items<StepDecl>,
}

/// `state NAME : int [ [ NUM ] ] = expr`.
#[derive(Drop)]
pub struct StateDecl {
    pub at: u32,
    pub name: Span,
    /// How many cells the state has, where the text says it.
    pub cells: Option<Num>,
    pub start: Expr,
}

/// An entry or a reduction of an array.
#[derive(Clone, Copy)]
pub enum MemberDecl {
    Entry(EntryDecl),
    Reduce(ReduceDecl),
}

/// `entry NAME [ ( NUM ) ] from NAME [ offset ] edge`: messages between elements.
#[derive(Clone, Copy)]
pub struct EntryDecl {
    pub at: u32,
    pub name: Span,
    /// How many values a message has, where the text says it.
    pub values: Option<Num>,
    /// The array whose elements send.
    pub source: Span,
    /// Where the sender stands, counted from the receiver.
    pub offset: Offset,
    pub edge: EdgeDecl,
}

/// `snum [ , snum ]`.
#[derive(Clone, Copy)]
pub struct Offset {
    pub first: SignedNum,
    pub second: Option<SignedNum>,
}

/// What an element beyond the array's edge gives.
#[derive(Clone, Copy)]
pub enum EdgeDecl {
    /// `wrap`: the element counted on from the other edge.
    Wrap { at: u32 },
    /// `else snum`: this number.
    Else { at: u32, value: SignedNum },
}

/// `[ - ] NUM`.
#[derive(Clone, Copy)]
pub struct SignedNum {
    /// The place of the minus, where there is one.
    pub minus: Option<u32>,
    pub number: Num,
}

/// `reduce NAME how`: one value of all elements' contributions.
#[derive(Clone, Copy)]
pub struct ReduceDecl {
    pub at: u32,
    pub name: Span,
    pub how: How,
}

/// `sum`, `min` or `max`.
#[derive(Clone, Copy)]
pub enum How {
    Sum,
    Min,
    Max,
}

/// `step body`.
#[derive(Drop)]
pub struct StepDecl {
    pub at: u32,
    pub body: StepBody,
}

/// What stands behind the word `step`.
#[derive(Drop)]
pub enum StepBody {
    Block(Block),
    Part(PartDecl),
    /// `overlap { part part.. }`, with at least two parts.
    Overlap { at: u32, parts: Items<PartDecl> },
}

/// `when PORT ( names ) block`: a block that runs with the values of a message.
#[derive(Drop)]
pub struct PartDecl {
    pub at: u32,
    pub port: Span,
    pub names: Names,
    pub block: Block,
}

/// `NAME { , NAME }`.
#[derive(Drop)]
pub struct Names {
    pub first: Span,
    pub others: Items<Span>,
}

/// `expr { , expr }`.
#[derive(Drop)]
pub struct Values {
    pub first: Expr,
    pub others: Items<Expr>,
}

/// `{ statement.. }`.
#[cycle(statement)]
#[derive(Drop)]
pub struct Block {
    pub at: u32,
    pub statements: Items<StmtDecl>,
}

/// A statement of a block.
#[cycle(statement)]
#[derive(Drop)]
pub enum StmtDecl {
    /// `NAME [ [ expr ] ] = expr`.
    Assign {
        target: Span,
        index: Option<Expr>,
        value: Expr,
    },
    /// `if expr block [ else block ]`.
    If {
        at: u32,
        test: Expr,
        yes: Block,
        no: Option<Block>,
    },
    /// `for NAME in snum .. snum block`.
    For {
        at: u32,
        name: Span,
        low: SignedNum,
        high: SignedNum,
        block: Block,
    },
    /// `send ARRAY . ENTRY ( values )`.
    Send {
        at: u32,
        array: Span,
        entry: Span,
        values: Values,
    },
    /// `contribute NAME ( expr )`.
    Contribute {
        at: u32,
        name: Span,
        value: Expr,
    },
}

/// A line of what the job answers.
#[derive(Clone, Copy)]
pub enum AnswerDecl {
    /// `answer how ARRAY . STATE`.
    Over {
        at: u32,
        how: How,
        array: Span,
        state: Span,
    },
    /// `answer at ARRAY [ coordinates ] . STATE [ [ NUM ] ]`.
    At {
        at: u32,
        array: Span,
        element: Coordinates,
        state: Span,
        cell: Option<Num>,
    },
}

/// Tests joined by `or`, of which each is one joined by `and`.
#[cycle(expression)]
#[derive(Drop)]
pub struct Expr {
    pub first: Conj,
    pub others: Items<Conj>,
}

/// Tests joined by `and`.
#[cycle(expression)]
#[derive(Drop)]
pub struct Conj {
    pub first: Boxed<Test>,
    pub others: Items<Test>,
}

/// `not test`, a sum, or two sums that are compared.
#[cycle(expression)]
#[derive(Drop)]
pub enum Test {
    Not {
        at: u32,
        operand: Boxed<Test>,
    },
    Alone(Sum),
    Compare {
        left: Sum,
        op: CompareOp,
        right: Sum,
    },
}

/// `==`, `!=`, `<`, `<=`, `>` or `>=`.
#[derive(Clone, Copy)]
pub enum CompareOp {
    Equal,
    NotEqual,
    Less,
    LessEqual,
    Greater,
    GreaterEqual,
}

/// Products joined by `+` and `-`, read from the left.
#[cycle(expression)]
#[derive(Drop)]
pub struct Sum {
    pub first: Boxed<Product>,
    pub others: Items<SumTerm>,
}

/// A product behind `+` or `-`.
#[cycle(expression)]
#[derive(Drop)]
pub struct SumTerm {
    pub at: u32,
    pub op: AddOp,
    pub value: Product,
}

/// `+` or `-`.
#[derive(Clone, Copy)]
pub enum AddOp {
    Plus,
    Minus,
}

/// Unaries joined by `*`, `/` and `%`, read from the left.
#[cycle(expression)]
#[derive(Drop)]
pub struct Product {
    pub first: Unary,
    pub others: Items<ProductTerm>,
}

/// A unary behind `*`, `/` or `%`.
#[cycle(expression)]
#[derive(Drop)]
pub struct ProductTerm {
    pub at: u32,
    pub op: MulOp,
    pub value: Unary,
}

/// `*`, `/` or `%`.
#[derive(Clone, Copy)]
pub enum MulOp {
    Times,
    Divide,
    Remainder,
}

/// `- unary`, or an atom.
#[cycle(expression)]
#[derive(Drop)]
pub enum Unary {
    Minus { at: u32, operand: Boxed<Unary> },
    Atom(Atom),
}

/// An operand without a sign or an operator, unless in brackets.
#[cycle(expression)]
#[derive(Drop)]
pub enum Atom {
    Number(Num),
    Name(Span),
    /// `NAME [ expr ]`.
    Cell {
        name: Span,
        index: Boxed<Expr>,
    },
    Here {
        at: u32,
        word: Here,
    },
    /// `min ( expr , expr )` or `max ( expr , expr )`.
    Choice {
        at: u32,
        choice: Choice,
        first: Boxed<Expr>,
        second: Boxed<Expr>,
    },
    /// `( expr )`.
    Group {
        at: u32,
        inner: Boxed<Expr>,
    },
}

/// `index`, `row`, `col`, `cell` or `iter`: a number that goes by where and when it is computed.
#[derive(Clone, Copy)]
pub enum Here {
    Index,
    Row,
    Col,
    Cell,
    Iter,
}

/// `min` or `max`.
#[derive(Clone, Copy)]
pub enum Choice {
    Min,
    Max,
}
