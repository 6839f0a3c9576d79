ghost use Rattle.std.specs.Prelude.{◌≡◌, [], ◌∷◌, Some, None};
ghost use Rattle.ras_system.specs.Systems.{IsSystem};
ghost use Rattle.ras_logic.specs.Terms.{constant_term};
ghost use Rattle.ras_vectors.specs.Words.{sort, constant, relation, var, cell, same, apart, cube, problem, set_var, set_cell, case, set_column, total};
ghost use Rattle.ras_vectors.specs.Hiring.{hiring, careless};
ghost use Rattle.ras_vectors.specs.Desk.{desk};
ghost use Rattle.ras_vectors.specs.Small.{still, two, both_ways};
ghost use Rattle.ras_vectors.specs.Depot.{depot, shape, tasks, carts, place, hall, parcel, shelf, stand, picked, shelf_of, hall_of, front, main_hall, with_start, with_step, with_goal, idle};

use ras_system::no_fault_is_first_exactly_in_a_system;

pub fn good_systems()
    ensures hiring { IsSystem hiring }
    ensures careless { IsSystem careless }
    ensures desk { IsSystem desk }
    ensures still { IsSystem still }
    ensures two { IsSystem two }
    ensures depot { IsSystem depot }
{
    no_fault_is_first_exactly_in_a_system();
}

/// Initial constants: too few, too many, one of another sort, and one that does not exist.
pub fn starts_that_are_none()
    ensures few { ¬ IsSystem (with_start (Some (constant 0) ∷ [])) }
    ensures many { ¬ IsSystem (with_start (None ∷ None ∷ None ∷ [])) }
    ensures other_sort { ¬ IsSystem (with_start (None ∷ Some (constant 1) ∷ [])) }
    ensures unknown { ¬ IsSystem (with_start (Some (constant 3) ∷ None ∷ [])) }
{}

/// What a step names does not exist, or has another sort; it assigns twice; its guard has no disjunct.
pub fn transitions_that_are_none()
    ensures row { ¬ IsSystem (with_step (record idle { rows = relation 2 ∷ [] })) }
    ensures param { ¬ IsSystem (with_step (record idle { params = sort 0 ∷ sort 3 ∷ [] })) }
    ensures no_disjunct { ¬ IsSystem (with_step (record idle { guard = [] })) }
    ensures second_disjunct { ¬ IsSystem (with_step (record idle { guard = [] ∷ (same place hall ∷ []) ∷ [] })) }
    ensures row_in_the_guard { ¬ IsSystem (with_step (record idle { guard = (same (shelf 1) (shelf 1) ∷ []) ∷ [] })) }
    ensures other_sort { ¬ IsSystem (with_step (record idle { updates = set_var 0 main_hall ∷ [] })) }
    ensures target { ¬ IsSystem (with_step (record idle { updates = set_cell 0 2 place ∷ [] })) }
    ensures variable_twice { ¬ IsSystem (with_step (record idle { updates = set_var 0 front ∷ set_var 1 main_hall ∷ set_var 0 place ∷ [] })) }
    ensures cell_twice { ¬ IsSystem (with_step (record idle { updates = set_cell 0 1 front ∷ set_cell 0 0 picked ∷ set_cell 0 1 front ∷ [] })) }
{}

/// The updated row of a case has the number after the row parameters, and no other; the cases of a relation are in a row.
pub fn bulk_cases_that_are_none()
    ensures relation { ¬ IsSystem (with_step (record idle { bulk = case (relation 2) [] [] ∷ [] })) }
    ensures condition { ¬ IsSystem (with_step (record idle { bulk = case tasks (same (shelf 2) front ∷ []) [] ∷ [] })) }
    ensures other_relation { ¬ IsSystem (with_step (record idle { bulk = case carts (same (shelf 1) front ∷ []) [] ∷ [] })) }
    ensures column { ¬ IsSystem (with_step (record idle { bulk = case carts [] (set_column 1 front ∷ []) ∷ [] })) }
    ensures other_sort { ¬ IsSystem (with_step (record idle { bulk = case tasks [] (set_column 1 front ∷ set_column 0 front ∷ []) ∷ [] })) }
    ensures column_twice { ¬ IsSystem (with_step (record idle { bulk = case tasks [] (set_column 1 front ∷ set_column 0 picked ∷ set_column 1 place ∷ []) ∷ [] })) }
    ensures separated { ¬ IsSystem (with_step (record idle { bulk = case tasks [] [] ∷ case carts [] [] ∷ case tasks [] [] ∷ [] })) }
{}

/// A goal that does not fit, one with a data parameter, and a shape that is none.
pub fn goals_and_shapes_that_are_none()
    ensures sides { ¬ IsSystem (with_goal (cube [] (same place hall ∷ []))) }
    ensures param { ¬ IsSystem (with_goal (problem [] (sort 0 ∷ []) [])) }
    ensures shape { ¬ IsSystem (record depot { shape = record shape { relations = (sort 0 ∷ sort 1 ∷ []) ∷ (sort 1 ∷ []) ∷ [] ∷ [] } }) }
{}
