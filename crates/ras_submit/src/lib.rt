//! Submissions. What goes in are a store of a search, the site of a cube, and what was found out about the cube; the cube becomes
//! a submission of its site, for reasons or as an entry. The layer above uses the contracts of `note` and `enter`.
#![tactic(auto)]

mod law;
mod submitting;

pub use law::going_on_composes;
pub use submitting::{enter, note};
