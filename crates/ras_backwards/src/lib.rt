//! One step backwards, for every system: the list of a preimage is exact, and the formulas of a good evidence of safety are
//! an invariant. The layer above uses these laws, and the words for where a state leads in its own database.
#![tactic(auto)]

mod law;

pub use law::{
    a_good_evidence_has_an_invariant, a_good_evidence_suffices, a_preimage_fits,
    a_preimage_is_exact, a_problem_gives_its_step,
};
