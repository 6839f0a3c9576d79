//! Small worked searches on which the definitions of `ras_core` and `ras_extension` are shown to say what they should. Each
//! function has an empty body, and its contract holds what is so, and what is not.
#![tactic(auto)]

mod leads;
mod refused;
mod searches;

pub use leads::{
    a_state_leads_through_a_larger_database, a_state_that_cannot_reach_the_goal, what_is_tight,
    where_states_lead,
};
pub use refused::{
    admits_that_are_out_of_order, admits_that_are_refused, claims_that_are_refused,
    drops_that_are_refused, ends_of_work_that_are_refused, give_backs_that_are_refused,
    hits_that_are_refused, reports_that_are_refused, skips_that_are_refused,
    spills_that_are_out_of_order, spills_that_are_refused,
};
pub use searches::{
    a_search_of_two_entries, a_search_that_drops_and_skips, a_search_that_hits,
    a_search_that_spills, the_smallest_search,
};
