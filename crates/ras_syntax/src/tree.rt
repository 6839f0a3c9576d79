//! A file of the grammar, rule by rule, with the place of each of its tokens.
//! Where nothing else is said, `at` is the place of the first.

use ras_lexer::Text;

/// `NAME`
#[derive(Clone, Copy, Debug)]
pub struct Name {
    pub at: u32,
    pub text: Text,
}

/// `sort NAME ;`
#[derive(Clone, Copy, Debug)]
pub struct Sort {
    pub at: u32,
    pub name: Name,
    pub semicolon: u32,
}

/// `total` or `nullable`
#[derive(Clone, Copy, Debug, PartialEq, Eq)]
pub enum Totality {
    Total,
    Nullable,
}

/// `total NAME : NAME -> NAME ;` or the same with `nullable`
#[derive(Clone, Copy, Debug)]
pub struct Function {
    pub at: u32,
    pub totality: Totality,
    pub name: Name,
    pub colon: u32,
    pub source: Name,
    pub arrow: u32,
    pub target: Name,
    pub semicolon: u32,
}

/// `const NAME : NAME ;`
#[derive(Clone, Copy, Debug)]
pub struct Constant {
    pub at: u32,
    pub name: Name,
    pub colon: u32,
    pub sort: Name,
    pub semicolon: u32,
}

/// `= NAME`, the initial value of a variable
#[derive(Clone, Copy, Debug)]
pub struct Initial {
    pub at: u32,
    pub constant: Name,
}

/// `var NAME : NAME ;` with or without an initial value
#[derive(Clone, Copy, Debug)]
pub struct Variable {
    pub at: u32,
    pub name: Name,
    pub colon: u32,
    pub sort: Name,
    pub initial: Option<Initial>,
    pub semicolon: u32,
}

/// `NAME : NAME`, a column of a relation
#[derive(Clone, Copy, Debug)]
pub struct Column {
    pub name: Name,
    pub colon: u32,
    pub sort: Name,
}

/// `, COLUMN`
#[derive(Clone, Copy, Debug)]
pub struct CommaColumn {
    pub comma: u32,
    pub column: Column,
}

/// `relation NAME ( COLUMN , COLUMN ) ;`
#[derive(Drop)]
pub struct Relation {
    pub at: u32,
    pub name: Name,
    pub open: u32,
    pub first: Column,
    pub others: Vec<CommaColumn>,
    pub close: u32,
    pub semicolon: u32,
}

/// `row NAME : NAME ;`
#[derive(Clone, Copy, Debug)]
pub struct Row {
    pub at: u32,
    pub name: Name,
    pub colon: u32,
    pub relation: Name,
    pub semicolon: u32,
}

/// `param NAME : NAME ;`
#[derive(Clone, Copy, Debug)]
pub struct Param {
    pub at: u32,
    pub name: Name,
    pub colon: u32,
    pub sort: Name,
    pub semicolon: u32,
}

/// `NAME (`, a function round the rest of a term
#[derive(Clone, Copy, Debug)]
pub struct Call {
    pub function: Name,
    pub open: u32,
}

/// What stands inside all calls of a term: `undef`, `NAME` or `NAME . NAME`.
#[derive(Clone, Copy, Debug)]
pub enum Base {
    Undef(u32),
    Plain(Name),
    /// The row, the place of the dot, and the column.
    Cell(Name, u32, Name),
}

/// The calls from the outside in, the base, and the places of the closing signs from the inside out.
#[derive(Drop)]
pub struct Term {
    pub calls: Vec<Call>,
    pub base: Base,
    pub closes: Vec<u32>,
}

/// `=` or `!=`
#[derive(Clone, Copy, Debug, PartialEq, Eq)]
pub enum Comparison {
    Equal,
    NotEqual,
}

/// `TERM = TERM` or `TERM != TERM`; the place is that of the sign.
#[derive(Drop)]
pub struct Literal {
    pub left: Term,
    pub at: u32,
    pub comparison: Comparison,
    pub right: Term,
}

/// `and LITERAL`
#[derive(Drop)]
pub struct AndLiteral {
    pub at: u32,
    pub literal: Literal,
}

/// `true`, with its place, or literals
#[derive(Drop)]
pub enum Conjunction {
    True(u32),
    All(Literal, Vec<AndLiteral>),
}

/// `or CONJUNCTION`
#[derive(Drop)]
pub struct OrConjunction {
    pub at: u32,
    pub conjunction: Conjunction,
}

/// `CONJUNCTION or CONJUNCTION`
#[derive(Drop)]
pub struct Guard {
    pub first: Conjunction,
    pub others: Vec<OrConjunction>,
}

/// `. NAME`, the column of an update's target
#[derive(Clone, Copy, Debug)]
pub struct Dotted {
    pub dot: u32,
    pub column: Name,
}

/// `NAME := TERM ;` or `NAME . NAME := TERM ;`; the place is that of the sign `:=`.
#[derive(Drop)]
pub struct Update {
    pub target: Name,
    pub column: Option<Dotted>,
    pub at: u32,
    pub term: Term,
    pub semicolon: u32,
}

/// `NAME . NAME := TERM ;` in a case; the place is that of the sign `:=`.
#[derive(Drop)]
pub struct Assignment {
    pub row: Name,
    pub dot: u32,
    pub column: Name,
    pub at: u32,
    pub term: Term,
    pub semicolon: u32,
}

/// `if CONJUNCTION { ASSIGNMENT }`
#[derive(Drop)]
pub struct Case {
    pub at: u32,
    pub condition: Conjunction,
    pub open: u32,
    pub assignments: Vec<Assignment>,
    pub close: u32,
}

/// `each NAME : NAME { CASE CASE }`
#[derive(Drop)]
pub struct Each {
    pub at: u32,
    pub row: Name,
    pub colon: u32,
    pub relation: Name,
    pub open: u32,
    pub first: Case,
    pub others: Vec<Case>,
    pub close: u32,
}

/// `step NAME { ROW PARAM when GUARD ; UPDATE EACH }`
#[derive(Drop)]
pub struct Step {
    pub at: u32,
    pub name: Name,
    pub open: u32,
    pub rows: Vec<Row>,
    pub params: Vec<Param>,
    pub when: u32,
    pub guard: Guard,
    pub semicolon: u32,
    pub updates: Vec<Update>,
    pub eachs: Vec<Each>,
    pub close: u32,
}

/// `unsafe { ROW when GUARD ; }`
#[derive(Drop)]
pub struct Goal {
    pub at: u32,
    pub open: u32,
    pub rows: Vec<Row>,
    pub when: u32,
    pub guard: Guard,
    pub semicolon: u32,
    pub close: u32,
}

/// `system NAME ;` and the items of the file, kind by kind
#[derive(Drop)]
pub struct File {
    pub at: u32,
    pub name: Name,
    pub semicolon: u32,
    pub sorts: Vec<Sort>,
    pub functions: Vec<Function>,
    pub constants: Vec<Constant>,
    pub variables: Vec<Variable>,
    pub relations: Vec<Relation>,
    pub steps: Vec<Step>,
    pub goals: Vec<Goal>,
}
