ghost use Rattle.std.specs.Prelude.{◌≡◌, [], ◌∷◌, true, false, Some, None};
ghost use Rattle.ras_logic.specs.Terms.{sort_of, undef_term, constant_term, image_term};
ghost use Rattle.ras_logic.specs.Formulas.{Fits, IsCube};
ghost use Rattle.ras_logic.specs.Truth.{value, holds, Satisfies};
ghost use Rattle.ras_vectors.specs.Words.{sort, constant, function, var, cell, param, same, apart, cube, problem, relation};
ghost use Rattle.ras_vectors.specs.Depot.{shape, tasks, carts, stock, some_values, place, hall, parcel, shelf, stand, picked, shelf_of, hall_of, front, back, main_hall, no_shelf, no_hall, split_up};

/// A sort for each kind of base, and along two functions.
pub fn sorts_of_terms()
    ensures variable { sort_of shape [] [] hall ≡ Some (sort 2) }
    ensures cell { sort_of shape (tasks ∷ carts ∷ []) [] (stand 1) ≡ Some (sort 1) }
    ensures constant { sort_of shape [] [] main_hall ≡ Some (sort 2) }
    ensures undef { sort_of shape [] [] no_hall ≡ Some (sort 2) }
    ensures param { sort_of shape [] (sort 1 ∷ sort 0 ∷ []) (param 1) ≡ Some (sort 0) }
    ensures image { sort_of shape [] (sort 0 ∷ []) (hall_of (shelf_of picked)) ≡ Some (sort 2) }
{}

/// A number that names nothing, or a function of another sort.
pub fn terms_without_a_sort()
    ensures variable { sort_of shape [] [] (var 2) ≡ None }
    ensures row { sort_of shape (tasks ∷ []) [] (cell 1 0) ≡ None }
    ensures column { sort_of shape (carts ∷ []) [] (cell 0 1) ≡ None }
    ensures relation { sort_of shape (relation 2 ∷ []) [] (cell 0 0) ≡ None }
    ensures constant { sort_of shape [] [] (constant_term (constant 3)) ≡ None }
    ensures undef { sort_of shape [] [] (undef_term (sort 3)) ≡ None }
    ensures param { sort_of shape [] [] picked ≡ None }
    ensures function { sort_of shape [] [] (image_term place (function 2)) ≡ None }
    ensures other_sort { sort_of shape [] (sort 0 ∷ []) (shelf_of (hall_of picked)) ≡ None }
    ensures other_sort_of_the_base { sort_of shape [] [] (shelf_of place) ≡ None }
{}

pub fn formulas_that_fit()
    ensures cube { Fits shape split_up }
    ensures params { Fits shape (problem (tasks ∷ []) (sort 0 ∷ []) (same picked (parcel 0) ∷ apart (hall_of (shelf_of picked)) hall ∷ [])) }
    ensures relation { ¬ Fits shape (cube (relation 2 ∷ []) []) }
    ensures param { ¬ Fits shape (problem [] (sort 3 ∷ []) []) }
    ensures sides { ¬ Fits shape (cube [] (same place front ∷ same place hall ∷ [])) }
    ensures no_side { ¬ Fits shape (cube [] (same (var 2) (var 2) ∷ [])) }
    ensures no_data_parameter { IsCube split_up }
    ensures left { ¬ IsCube (problem [] [] (same picked front ∷ [])) }
    ensures right { ¬ IsCube (problem [] [] (same place front ∷ apart front (shelf_of picked) ∷ [])) }
    ensures declared { ¬ IsCube (problem [] (sort 0 ∷ []) []) }
{}

/// Each kind of base, undef and nothing through functions, and two functions in the order of the path.
pub fn values_of_terms()
    ensures variable { value stock some_values place ≡ 4 }
    ensures second_variable { value stock some_values hall ≡ 1 }
    ensures cell { value stock some_values (shelf 0) ≡ 4 }
    ensures cell_of_second_row { value stock some_values (stand 1) ≡ 3 }
    ensures constant { value stock some_values back ≡ 2 }
    ensures undef { value stock some_values no_shelf ≡ 0 }
    ensures param { value stock some_values (param 1) ≡ 3 }
    ensures image { value stock some_values (shelf_of picked) ≡ 1 }
    ensures last_image { value stock some_values (hall_of place) ≡ 2 }
    ensures image_of_image { value stock some_values (hall_of (shelf_of (parcel 0))) ≡ 2 }
    ensures no_image { value stock some_values (shelf_of (param 1)) ≡ 0 }
    ensures image_of_no_image { value stock some_values (hall_of (shelf_of (param 1))) ≡ 0 }
    ensures image_of_undef { value stock some_values (hall_of no_shelf) ≡ 0 }
{}

/// Both signs, each true and false, with two functions on a side.
pub fn truth_of_literals()
    ensures same { holds stock some_values (same (hall_of (shelf_of (parcel 0))) (hall_of place)) ≡ true }
    ensures not_same { holds stock some_values (same (hall_of (shelf_of (parcel 0))) hall) ≡ false }
    ensures apart { holds stock some_values (apart (hall_of (shelf_of (parcel 0))) hall) ≡ true }
    ensures not_apart { holds stock some_values (apart (hall_of (shelf_of (parcel 0))) (hall_of place)) ≡ false }
    ensures undef_is_itself { holds stock some_values (same (shelf_of (param 1)) no_shelf) ≡ true }
{}

/// Values for two rows and two data parameters; a literal that is false, a value beyond its sort, and too few values.
pub fn satisfied_problems()
    ensures satisfied { Satisfies shape stock some_values (problem (tasks ∷ carts ∷ []) (sort 0 ∷ sort 0 ∷ []) (apart place (stand 1) ∷ same hall main_hall ∷ [])) }
    ensures false_literal { ¬ Satisfies shape stock some_values (problem (tasks ∷ carts ∷ []) (sort 0 ∷ sort 0 ∷ []) (apart place (stand 1) ∷ apart hall main_hall ∷ [])) }
    ensures few_rows { ¬ Satisfies shape stock some_values (problem (tasks ∷ carts ∷ carts ∷ []) (sort 0 ∷ sort 0 ∷ []) []) }
    ensures few_params { ¬ Satisfies shape stock some_values (problem (tasks ∷ carts ∷ []) (sort 0 ∷ sort 0 ∷ sort 0 ∷ []) []) }
    ensures other_row { ¬ Satisfies shape stock some_values (problem (carts ∷ tasks ∷ []) (sort 0 ∷ sort 0 ∷ []) []) }
    ensures param_beyond { ¬ Satisfies shape stock some_values (problem (tasks ∷ carts ∷ []) (sort 2 ∷ sort 2 ∷ []) []) }
    ensures variable_beyond { ¬ Satisfies shape stock (record some_values { vars = 5 ∷ 1 ∷ [] }) (problem (tasks ∷ carts ∷ []) (sort 0 ∷ sort 0 ∷ []) []) }
    ensures cell_beyond { ¬ Satisfies shape stock (record some_values { rows = (2 ∷ 4 ∷ []) ∷ (5 ∷ []) ∷ [] }) (problem (tasks ∷ carts ∷ []) (sort 0 ∷ sort 0 ∷ []) []) }
{}
