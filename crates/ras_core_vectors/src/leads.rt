ghost use Rattle.std.specs.Prelude.{◌≡◌, ℕ, List, [], ◌∷◌};
ghost use Rattle.ras_system.specs.declared.state.State.{State};
ghost use Rattle.ras_system.specs.declared.choice.Choice.{Choice};
ghost use Rattle.ras_system.specs.States.{MeetsAny};
ghost use Rattle.ras_system.specs.Runs.{IsRun};
ghost use Rattle.ras_core.specs.Admissible.{IsTight, AllLead};
ghost use Rattle.ras_extension.specs.Reaching.{Leads, CanReach};
ghost use Rattle.ras_vectors.specs.Words.{state};
ghost use Rattle.ras_vectors.specs.Small.{two, three_elements, is_b, is_c, is_set};
ghost use Rattle.ras_core_vectors.specs.Searches.{away, not_a, literal_too_many, grow, no_element};

use crate::searches::a_search_of_two_entries;
use ras_core::{an_empty_base_is_one, at_quiet_the_kept_entries_are_what_can_reach};
use ras_system::no_fault_is_first_exactly_in_a_system;
use ras_vectors::good_systems;

/// A state in which the variable is b leads to one in which it is c, and can reach the goal.
pub fn where_states_lead()
    ensures all { AllLead two 0 is_c is_b }
    ensures all_but_a { AllLead away 0 not_a not_a }
    ensures not_from_a { ¬ Leads two three_elements (state (1 ∷ []) []) 0 is_c }
    ensures not_back { ¬ Leads two three_elements (state (3 ∷ []) []) 0 is_b }
    ensures no_step { ¬ Leads two three_elements (state (2 ∷ []) []) 1 is_c }
    ensures reach { CanReach two three_elements (state (2 ∷ []) []) }
{}

/// What can reach the goal meets an entry of a search that ended quiet; so a state in which the variable is a can't.
pub fn a_state_that_cannot_reach_the_goal()
    ensures { ¬ CanReach two three_elements (state (1 ∷ []) []) }
{
    good_systems();
    an_empty_base_is_one();
    a_search_of_two_entries();
    at_quiet_the_kept_entries_are_what_can_reach();
}

/// The cube before the goal is tight, and is not with a literal more.
pub fn what_is_tight()
    ensures tight { IsTight two 0 is_c is_b }
    ensures literal_too_many { ¬ IsTight two 0 is_c literal_too_many }
{}

/// Where there is no element, no run sets the variable. In a larger database a step does, so the state leads to the goal.
pub fn a_state_leads_through_a_larger_database()
    ensures here { (choices : List Choice) (last : State) → IsRun grow no_element (state (0 ∷ []) []) choices last → ¬ MeetsAny no_element last grow.goals }
    ensures leads { Leads grow no_element (state (0 ∷ []) []) 0 is_set }
    ensures reach { CanReach grow no_element (state (0 ∷ []) []) }
{
    no_fault_is_first_exactly_in_a_system();
}
