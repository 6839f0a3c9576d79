//! One step backwards with covers. What goes in is a system, the number of a transition and a cube; what comes out are cubes
//! that a state of a database meets exactly where, in some database that extends it, a step by the transition leads from the
//! state to one that meets the given cube. The layer above uses the contract of `pre_covered`.
#![tactic(auto)]

mod covered;
mod gathering;
mod law;

pub use covered::pre_covered;
pub use law::a_cover_is_met_where_the_problem_is;
