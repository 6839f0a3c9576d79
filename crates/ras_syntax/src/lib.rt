//! The tokens of a file come in, and its tree goes out, rule by rule of the grammar and with all places.
//! The layer above uses the contract of `parse`: it is the tree of the tokens, or the first token with which no file goes on.
#![tactic(auto)]

mod declarations;
mod fault;
mod formulas;
pub mod law;
mod parsing;
mod reader;
mod steps;
mod tree;

pub use fault::{SyntaxError, SyntaxFault};
pub use parsing::{Tree, parse};
pub use tree::{
    AndLiteral, Assignment, Base, Call, Case, Column, CommaColumn, Comparison, Conjunction,
    Constant, Dotted, Each, File, Function, Goal, Guard, Initial, Literal, Name, OrConjunction,
    Param, Relation, Row, Sort, Step, Term, Totality, Update, Variable,
};
