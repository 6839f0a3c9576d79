//! The number texts line by line: numbers, terms, literals, cubes and trees in a line, and sections of lines. What comes
//! first is read exactly: the value that it spells, or where it does not go on.
#![tactic(auto)]

mod cubes;
mod digits;
mod formulas;
mod law;
mod lines;
mod spelled;
mod stop;
mod trees;
mod words;

pub use digits::number_of;
pub use law::bytes_are_lines;
pub use lines::{Lines, line_count};
pub use spelled::{Spelled, counted};
pub use stop::Stop;
pub use words::Words;
