//! Small worked systems on which the definitions of `ras_logic` and `ras_system` are shown to say what they should. Each
//! function has an empty body, and its contract holds what is so, and what is not.
#![tactic(auto)]

mod calls;
mod clashes;
mod databases;
mod evidence;
mod faults;
mod preimages;
mod runs;
mod schemas;
mod states;
mod system_faults;
mod systems;
mod terms;

pub use calls::{goal_fits, goal_is_foreign};
pub use clashes::{
    facts_learned_later, facts_that_clash, facts_that_hold_together, terms_of_literals,
};
pub use databases::{databases_that_do_not_extend, good_databases, larger_databases, no_databases};
pub use evidence::{
    broken_trees, closed_trees, evidence_that_is_not_good, good_evidence, splits_under_other_rows,
    what_has_to_be_refuted, whole_trees,
};
pub use faults::{
    counts_of_a_schema_beyond_their_limits, faults_of_a_shape, functions_that_close_a_cycle,
    literals_of_no_cube, sorts_of_a_schema_that_do_not_exist,
};
pub use preimages::{
    a_preimage_by_a_variable_without_a_value, a_preimage_by_bulk_cases,
    a_preimage_by_bulk_cases_and_functions, a_preimage_by_failing_cases,
    a_preimage_by_two_row_parameters, preimages_by_a_row_parameter,
};
pub use runs::{
    a_step_of_all_kinds, choices_that_are_no_step, formulas_that_are_an_invariant,
    formulas_that_are_no_invariant, runs_that_are_no_violation, safe_systems, the_states_of_a_run,
    the_steps_of_a_run, unsafe_systems,
};
pub use schemas::{
    counts_at_their_limits, cycles_of_sorts, good_and_bad_schemas, good_and_bad_shapes,
};
pub use states::{
    good_and_bad_states, initial_states, states_that_do_not_meet_a_formula,
    states_that_meet_a_formula,
};
pub use system_faults::{
    counts_of_a_system_beyond_their_limits, first_faults_of_systems, systems_without_a_fault,
};
pub use systems::{
    bulk_cases_that_are_none, goals_and_shapes_that_are_none, good_systems, starts_that_are_none,
    transitions_that_are_none,
};
pub use terms::{
    formulas_that_fit, satisfied_problems, sorts_of_terms, terms_without_a_sort, truth_of_literals,
    values_of_terms,
};
