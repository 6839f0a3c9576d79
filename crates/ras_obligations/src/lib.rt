//! The obligations of a certificate, made one after the other. A system and formulas come in; each obligation in order is handed to
//! a visitor, and let go: the layer above implements `Visitor`, and uses `visit_obligations` and `initial_premise`.
#![tactic(auto)]

mod halt;
mod premises;
mod visiting;

pub use halt::Halt;
pub use premises::initial_premise;
pub use visiting::{Visitor, visit_obligations};
