//! Texts that are written piece by piece: numbers, words and lines go out behind what is written already. The layer above uses
//! the clauses that each call adds just this text.
#![tactic(auto)]

mod putting;

pub use putting::{put, put_counted, put_line, put_number, put_word, put_words};
