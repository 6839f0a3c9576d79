//! Exact covers: what is left of a problem where its data parameters are eliminated. What goes in is a problem over a shape;
//! what comes out are cubes without data parameters. The layer above uses the contract of `cover`, and the laws on covers.
#![tactic(auto)]

mod admitting;
mod covering;
mod law;

pub use covering::{CoverCount, cover, cover_from};
pub use law::{a_cover_is_met_where_there_is_an_extension, what_is_extendable_is_strongest};
