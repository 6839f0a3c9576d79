//! Row maps. What goes in are the rows of a formula and those of a premise; what comes out are all ways in which rows of the
//! premise can stand for those of the formula: the layers above use `row_maps`.
#![tactic(auto)]

mod maps;

pub use maps::row_maps;
