//! Worked specification texts on which the definitions of `ras_names` and `ras_numbering` are shown to say what they should.
//! Each function has an empty body, and its contract holds what is so, and what is not. The first faults of many more files are
//! cases of the command line.
#![tactic(auto)]

mod canonical;
mod denoted;
mod nothing;
mod tokens;

pub use canonical::canonical_texts;
pub use denoted::{texts_of_systems, texts_without_a_fault, values_of_texts};
pub use nothing::{first_faults, texts_that_denote_nothing};
pub use tokens::tokens_of_texts;
