//! Certificates of safety. A system and formulas come in; what comes out is a tree for each obligation of the formulas, in
//! order: the layer above uses `certify`.
#![tactic(auto)]

mod certifying;
mod law;

pub use certifying::certify;
pub use law::good_evidence_has_obligations_that_hold;
