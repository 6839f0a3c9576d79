//! The bytes of a text come in, and its tokens go out: names, reserved words and signs with their places.
//! The layer above uses the contract of `tokens`: they are the token list of the text, or its first fault is named.
#![tactic(auto)]

mod fault;
mod fixed;
pub mod law;
mod lexing;
mod scanning;
mod text;
mod token;

pub use fault::{LexError, LexFault, LexKind};
pub use fixed::Fixed;
pub use lexing::tokens;
pub use text::Text;
pub use token::{Token, Word};
