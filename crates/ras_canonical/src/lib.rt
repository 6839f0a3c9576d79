//! What the canonical text of a file is read as: the layer above uses its laws, which say that the text spells the file, and
//! denotes what the file denotes.
#![tactic(auto)]

pub mod law;
