ghost use Rattle.std.specs.Prelude.{◌≡◌, [], ◌∷◌};
ghost use Rattle.ras_logic.specs.Databases.{IsDatabase, Extends};
ghost use Rattle.ras_vectors.specs.Words.{database, sort};
ghost use Rattle.ras_vectors.specs.Hiring.{schema as hiring_schema, one_job};
ghost use Rattle.ras_vectors.specs.Depot.{schema, stock};
ghost use Rattle.ras_vectors.specs.Small.{two, three_elements};

/// A nullable function may have no image, constants of two sorts may be one number, and a sort may have no element but undef.
pub fn good_databases()
    ensures one_job { IsDatabase hiring_schema one_job }
    ensures stock { IsDatabase schema stock }
    ensures more_users_than_jobs { IsDatabase hiring_schema (database (5 ∷ 1 ∷ []) ((4 ∷ []) ∷ []) []) }
    ensures no_element { IsDatabase hiring_schema (database (0 ∷ 0 ∷ []) ([] ∷ []) []) }
    ensures greatest_constant { IsDatabase two.shape.schema three_elements }
{}

/// Each is none for one reason.
pub fn no_databases()
    ensures sort_missing { ¬ IsDatabase hiring_schema (database (2 ∷ []) ([] ∷ []) []) }
    ensures sort_more { ¬ IsDatabase hiring_schema (database (2 ∷ 1 ∷ 1 ∷ []) ((1 ∷ []) ∷ []) []) }
    ensures table_missing { ¬ IsDatabase hiring_schema (database (2 ∷ 0 ∷ []) [] []) }
    ensures short_table { ¬ IsDatabase hiring_schema (database (2 ∷ 2 ∷ []) ((1 ∷ []) ∷ []) []) }
    ensures long_table { ¬ IsDatabase hiring_schema (database (2 ∷ 1 ∷ []) ((1 ∷ 1 ∷ []) ∷ []) []) }
    ensures image_beyond { ¬ IsDatabase hiring_schema (database (2 ∷ 3 ∷ []) ((1 ∷ 3 ∷ 2 ∷ []) ∷ []) []) }
    ensures undef_image { ¬ IsDatabase hiring_schema (database (2 ∷ 2 ∷ []) ((1 ∷ 0 ∷ []) ∷ []) []) }
    ensures constant_missing { ¬ IsDatabase two.shape.schema (database (3 ∷ []) [] (1 ∷ 2 ∷ [])) }
    ensures constant_more { ¬ IsDatabase hiring_schema (database (2 ∷ 1 ∷ []) ((1 ∷ []) ∷ []) (1 ∷ [])) }
    ensures undef_constant { ¬ IsDatabase two.shape.schema (database (3 ∷ []) [] (1 ∷ 0 ∷ 2 ∷ [])) }
    ensures constant_beyond { ¬ IsDatabase two.shape.schema (database (3 ∷ []) [] (1 ∷ 2 ∷ 4 ∷ [])) }
    ensures equal_constants { ¬ IsDatabase two.shape.schema (database (3 ∷ []) [] (1 ∷ 2 ∷ 1 ∷ [])) }
{}

/// More elements, with images of their own.
pub fn larger_databases()
    ensures itself { Extends stock stock }
    ensures one_more { Extends (database (3 ∷ 2 ∷ []) ((1 ∷ 3 ∷ []) ∷ []) []) one_job }
    ensures more_users { Extends (database (5 ∷ 1 ∷ []) ((1 ∷ []) ∷ []) []) one_job }
    ensures more_halls { Extends (database (3 ∷ 4 ∷ 3 ∷ []) ((1 ∷ 3 ∷ 0 ∷ []) ∷ (1 ∷ 1 ∷ 2 ∷ 2 ∷ []) ∷ []) (1 ∷ 2 ∷ 1 ∷ [])) stock }
{}

/// Fewer elements, another image or constant of an element.
pub fn databases_that_do_not_extend()
    ensures fewer_users { ¬ Extends (database (1 ∷ 1 ∷ []) ((1 ∷ []) ∷ []) []) one_job }
    ensures other_owner { ¬ Extends (database (2 ∷ 2 ∷ []) ((2 ∷ 1 ∷ []) ∷ []) []) one_job }
    ensures no_job { ¬ Extends (database (2 ∷ 1 ∷ []) ([] ∷ []) []) one_job }
    ensures image_of_the_third { ¬ Extends (database (3 ∷ 4 ∷ 2 ∷ []) ((1 ∷ 3 ∷ 1 ∷ []) ∷ (1 ∷ 1 ∷ 2 ∷ 2 ∷ []) ∷ []) (1 ∷ 2 ∷ 1 ∷ [])) stock }
    ensures second_function { ¬ Extends (database (3 ∷ 4 ∷ 2 ∷ []) ((1 ∷ 3 ∷ 0 ∷ []) ∷ (1 ∷ 1 ∷ 2 ∷ 1 ∷ []) ∷ []) (1 ∷ 2 ∷ 1 ∷ [])) stock }
    ensures other_constant { ¬ Extends (database (4 ∷ []) [] (1 ∷ 2 ∷ 4 ∷ [])) three_elements }
    ensures constant_missing { ¬ Extends (database (4 ∷ []) [] (1 ∷ 2 ∷ [])) three_elements }
{}
