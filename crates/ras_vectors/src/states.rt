ghost use Rattle.std.specs.Prelude.{[], ◌∷◌};
ghost use Rattle.ras_system.specs.States.{IsState, IsInitial, Meets};
ghost use Rattle.ras_vectors.specs.Words.{database, state, cube, problem, same, apart, sort};
ghost use Rattle.ras_vectors.specs.Hiring.{one_job, one_row, wrong_owner, apps, job, no_job};
ghost use Rattle.ras_vectors.specs.Desk.{desk, seats, seat, two_elements, three_seats, off_and_on};
ghost use Rattle.ras_vectors.specs.Small.{still, one_element};
ghost use Rattle.ras_vectors.specs.Depot.{shape, stock, tasks, carts, before_move, after_move, place, stand, picked, shelf, shelf_of, no_shelf};

/// Any number of rows; one element or one list too few or too many, and elements beyond their sorts.
pub fn good_and_bad_states()
    ensures state { IsState shape stock before_move }
    ensures next { IsState shape stock after_move }
    ensures no_rows { IsState shape stock (state (4 ∷ 2 ∷ []) ([] ∷ [] ∷ [])) }
    ensures few_variables { ¬ IsState shape stock (state (4 ∷ []) ([] ∷ [] ∷ [])) }
    ensures many_variables { ¬ IsState shape stock (state (4 ∷ 2 ∷ 0 ∷ []) ([] ∷ [] ∷ [])) }
    ensures variable_beyond { ¬ IsState shape stock (state (4 ∷ 3 ∷ []) ([] ∷ [] ∷ [])) }
    ensures few_relations { ¬ IsState shape stock (state (4 ∷ 2 ∷ []) ([] ∷ [])) }
    ensures many_relations { ¬ IsState shape stock (state (4 ∷ 2 ∷ []) ([] ∷ [] ∷ [] ∷ [])) }
    ensures few_cells { ¬ IsState shape stock (state (4 ∷ 2 ∷ []) (((3 ∷ 4 ∷ []) ∷ (3 ∷ []) ∷ []) ∷ [] ∷ [])) }
    ensures cell_beyond { ¬ IsState shape stock (state (4 ∷ 2 ∷ []) ([] ∷ ((4 ∷ []) ∷ (5 ∷ []) ∷ []) ∷ [])) }
{}

/// The declared constant, undef where none is declared, and undef in every cell.
pub fn initial_states()
    ensures undef { IsInitial still one_element (state (0 ∷ []) []) }
    ensures constant { IsInitial desk two_elements (three_seats 2 0 0 0) }
    ensures no_rows { IsInitial desk two_elements (state (2 ∷ []) ([] ∷ [])) }
    ensures set { ¬ IsInitial still one_element (state (1 ∷ []) []) }
    ensures other_constant { ¬ IsInitial desk two_elements (three_seats 1 0 0 0) }
    ensures undef_for_a_constant { ¬ IsInitial desk two_elements (three_seats 0 0 0 0) }
    ensures cell { ¬ IsInitial desk two_elements (three_seats 2 0 0 1) }
    ensures no_state { ¬ IsInitial desk two_elements (state (2 ∷ []) []) }
{}

/// Rows of one relation are different, rows of two relations may have one number, and data parameters are elements.
pub fn states_that_meet_a_formula()
    ensures two_rows { Meets two_elements (three_seats 1 2 1 1) off_and_on }
    ensures equal_rows { Meets two_elements (three_seats 1 0 0 0) (cube (seats ∷ seats ∷ []) (same (seat 0) (seat 1) ∷ [])) }
    ensures one_number { Meets stock before_move (cube (tasks ∷ carts ∷ []) (apart (shelf 0) (stand 1) ∷ same (shelf 0) place ∷ [])) }
    ensures param { Meets stock before_move (problem (tasks ∷ []) (sort 0 ∷ []) (same (shelf_of picked) (shelf 0) ∷ apart (shelf 0) no_shelf ∷ [])) }
    ensures no_row_named { Meets one_job (one_row 0 0) (cube [] []) }
{}

/// No row twice, no row of a relation without rows, and no row that makes the literals hold.
pub fn states_that_do_not_meet_a_formula()
    ensures one_row_for_two { ¬ Meets one_job (one_row 0 0) (cube (apps ∷ apps ∷ []) []) }
    ensures no_row { ¬ Meets stock (state (1 ∷ 1 ∷ []) ([] ∷ ((3 ∷ []) ∷ []) ∷ [])) (cube (carts ∷ tasks ∷ []) []) }
    ensures right_owner { ¬ Meets one_job (one_row 1 1) wrong_owner }
    ensures literal { ¬ Meets one_job (one_row 1 2) (cube [] (same no_job no_job ∷ apart no_job no_job ∷ [])) }
    ensures param_beyond { ¬ Meets (database (2 ∷ 0 ∷ []) ([] ∷ []) []) (one_row 0 0) (problem [] (sort 1 ∷ []) (apart picked no_job ∷ [])) }
{}
