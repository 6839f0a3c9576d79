ghost use Rattle.std.specs.Prelude.{◌≡◌, [], ◌∷◌};
ghost use Rattle.ras_system.specs.declared.state.State.{State};
ghost use Rattle.ras_system.specs.Steps.{state_after, IsStep};
ghost use Rattle.ras_system.specs.Runs.{IsRun, IsViolation, IsSafe};
ghost use Rattle.ras_system.specs.Invariants.{IsInvariant};
ghost use Rattle.ras_vectors.specs.Words.{choice, state, database};
ghost use Rattle.ras_vectors.specs.Hiring.{hiring, careless, one_job, one_row, wrong_owner};
ghost use Rattle.ras_vectors.specs.Desk.{desk, take_seat, clear, two_elements, three_seats, off_and_on};
ghost use Rattle.ras_vectors.specs.Small.{still, unset_is_unsafe, one_element, two, three_elements, is_set, is_b, is_c, is_set};
ghost use Rattle.ras_vectors.specs.Depot.{depot, stock, move, shift, before_move, after_move};

use ras_system::{a_good_evidence_suffices, no_fault_is_first_exactly_in_a_system};

/// Two seats are taken, and then all are switched: the named one is kept, each other one by the first case that holds.
pub fn the_states_of_a_run()
    ensures first { state_after two_elements take_seat (three_seats 2 0 0 0) (choice 0 (0 ∷ []) []) ≡ three_seats 2 1 0 0 }
    ensures second { state_after two_elements take_seat (three_seats 2 1 0 0) (choice 0 (1 ∷ []) []) ≡ three_seats 2 1 1 0 }
    ensures third { state_after two_elements clear (three_seats 2 1 1 0) (choice 1 (1 ∷ []) []) ≡ three_seats 1 2 1 1 }
{}

pub fn the_steps_of_a_run()
    ensures first { IsStep desk two_elements (three_seats 2 0 0 0) (choice 0 (0 ∷ []) []) (three_seats 2 1 0 0) }
    ensures second { IsStep desk two_elements (three_seats 2 1 0 0) (choice 0 (1 ∷ []) []) (three_seats 2 1 1 0) }
    ensures third { IsStep desk two_elements (three_seats 2 1 1 0) (choice 1 (1 ∷ []) []) (three_seats 1 2 1 1) }
    ensures run { IsRun desk two_elements (three_seats 2 0 0 0) (choice 0 (0 ∷ []) [] ∷ choice 0 (1 ∷ []) [] ∷ choice 1 (1 ∷ []) [] ∷ []) (three_seats 1 2 1 1) }
    ensures no_step { IsRun desk two_elements (three_seats 2 0 0 0) [] (three_seats 2 0 0 0) }
{}

/// Two relations, named rows of both, a data parameter, functions, all terms read before the step, cases in order.
pub fn a_step_of_all_kinds()
    ensures after { state_after stock move before_move (choice 0 (4 ∷ 1 ∷ 1 ∷ []) (2 ∷ [])) ≡ after_move }
    ensures step { IsStep depot stock before_move (choice 0 (4 ∷ 1 ∷ 1 ∷ []) (2 ∷ [])) after_move }
    ensures first_disjunct { IsStep depot stock before_move (choice 0 (1 ∷ 0 ∷ 4 ∷ []) (2 ∷ [])) (state_after stock move before_move (choice 0 (1 ∷ 0 ∷ 4 ∷ []) (2 ∷ []))) }
{}

/// A row that is none, one row twice, too few and too many rows, a value beyond its sort, too few values, a guard that is
/// false, a transition that is none, and another state than the one that the step leads to.
pub fn choices_that_are_no_step()
    ensures row { (next : State) → ¬ IsStep desk two_elements (three_seats 2 0 0 0) (choice 0 (3 ∷ []) []) next }
    ensures row_twice { (next : State) → ¬ IsStep depot stock before_move (choice 0 (4 ∷ 1 ∷ 4 ∷ []) (2 ∷ [])) next }
    ensures row_of_the_other_relation { (next : State) → ¬ IsStep depot stock before_move (choice 0 (4 ∷ 3 ∷ 1 ∷ []) (2 ∷ [])) next }
    ensures few_rows { (next : State) → ¬ IsStep desk two_elements (three_seats 2 0 0 0) (choice 0 [] []) next }
    ensures many_rows { (next : State) → ¬ IsStep desk two_elements (three_seats 2 0 0 0) (choice 0 (0 ∷ 1 ∷ []) []) next }
    ensures value { (next : State) → ¬ IsStep careless one_job (one_row 0 0) (choice 0 (0 ∷ []) (1 ∷ 3 ∷ [])) next }
    ensures few_values { (next : State) → ¬ IsStep careless one_job (one_row 0 0) (choice 0 (0 ∷ []) (1 ∷ [])) next }
    ensures guard { (next : State) → ¬ IsStep desk two_elements (three_seats 2 0 0 0) (choice 1 (0 ∷ []) []) next }
    ensures both_disjuncts { (next : State) → ¬ IsStep depot stock before_move (choice 0 (4 ∷ 0 ∷ 1 ∷ []) (2 ∷ [])) next }
    ensures transition { (next : State) → ¬ IsStep desk two_elements (three_seats 2 0 0 0) (choice 2 (0 ∷ []) []) next }
    ensures other_state { ¬ IsStep desk two_elements (three_seats 2 0 0 0) (choice 0 (0 ∷ []) []) (three_seats 2 1 1 0) }
    ensures no_step { ¬ IsRun desk two_elements (three_seats 2 0 0 0) [] (three_seats 2 1 0 0) }
{}

/// A user who takes a job that another owns; seats that are switched; a variable that is not set from the start on.
pub fn unsafe_systems()
    ensures careless_violation { IsViolation careless one_job (one_row 0 0) (choice 0 (0 ∷ []) (1 ∷ 2 ∷ []) ∷ []) (one_row 1 2) }
    ensures careless { ¬ IsSafe careless }
    ensures desk_violation { IsViolation desk two_elements (three_seats 2 0 0 0) (choice 0 (0 ∷ []) [] ∷ choice 0 (1 ∷ []) [] ∷ choice 1 (1 ∷ []) [] ∷ []) (three_seats 1 2 1 1) }
    ensures desk { ¬ IsSafe desk }
    ensures unset { ¬ IsSafe unset_is_unsafe }
{}

/// A run from a state that is not initial, a run that ends at no goal, and one in what is no database.
pub fn runs_that_are_no_violation()
    ensures start { ¬ IsViolation careless one_job (one_row 1 2) [] (one_row 1 2) }
    ensures end { ¬ IsViolation careless one_job (one_row 0 0) (choice 0 (0 ∷ []) (1 ∷ 1 ∷ []) ∷ []) (one_row 1 1) }
    ensures database { ¬ IsViolation careless (database (2 ∷ 1 ∷ []) ((0 ∷ []) ∷ []) []) (one_row 0 0) (choice 0 (0 ∷ []) (1 ∷ 2 ∷ []) ∷ []) (one_row 1 2) }
{}

/// What a good evidence says of a variable that is never set, and of one that goes from b to c but starts at a.
pub fn safe_systems()
    ensures still { IsSafe still }
    ensures two { IsSafe two }
{
    no_fault_is_first_exactly_in_a_system();
    a_good_evidence_suffices();
}

/// Where the variable is never set, no step leads to where it is.
pub fn formulas_that_are_an_invariant()
    ensures still { IsInvariant still (is_set ∷ []) }
{}

/// A formula that the initial state meets, a goal that is left out, and a step into a formula from outside.
pub fn formulas_that_are_no_invariant()
    ensures initial { ¬ IsInvariant unset_is_unsafe unset_is_unsafe.goals }
    ensures goal { ¬ IsInvariant two (is_b ∷ []) }
    ensures step { ¬ IsInvariant two (is_c ∷ []) }
    ensures nothing { ¬ IsInvariant careless [] }
{}
