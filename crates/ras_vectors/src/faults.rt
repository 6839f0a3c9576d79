ghost use Rattle.std.specs.Prelude.{[], ◌∷◌, replicate};
ghost use Rattle.ras_logic.specs.declared.kind.Kind.TheVariants.{Sort, Function, Constant, Variable, Relation, Column};
ghost use Rattle.ras_logic.specs.declared.schema_fault.SchemaFault.TheVariants as fault;
ghost use Rattle.ras_logic.specs.declared.shape_fault.ShapeFault.TheVariants as shape_fault;
ghost use Rattle.ras_logic.specs.declared.cube_fault.CubeFault.TheVariants as cube_fault;
ghost use Rattle.ras_logic.specs.SchemaFaults.{IsSchemaFault};
ghost use Rattle.ras_logic.specs.ShapeFaults.{IsShapeFault};
ghost use Rattle.ras_logic.specs.CubeFaults.{IsCubeFault};
ghost use Rattle.ras_vectors.specs.Words.{sort, function, relation, total, nullable, same, apart, schema_of, shape_of};
ghost use Rattle.ras_vectors.specs.Depot.{place, front, picked, shelf_of, no_shelf};

/// The first count beyond its limit: sorts, then functions, then constants.
pub fn counts_of_a_schema_beyond_their_limits()
    ensures sorts { IsSchemaFault (schema_of 65 (replicate 257 (total 0 1)) (replicate 257 (sort 0))) (fault.TooMany Sort) }
    ensures functions { IsSchemaFault (schema_of 64 (replicate 257 (total 0 64)) (replicate 257 (sort 0))) (fault.TooMany Function) }
    ensures constants { IsSchemaFault (schema_of 64 (total 0 64 ∷ []) (replicate 257 (sort 64))) (fault.TooMany Constant) }
    ensures functions_after_sorts { ¬ IsSchemaFault (schema_of 65 (replicate 257 (total 0 1)) []) (fault.TooMany Function) }
    ensures constants_after_sorts { ¬ IsSchemaFault (schema_of 65 [] (replicate 257 (sort 0))) (fault.TooMany Constant) }
    ensures constants_after_functions { ¬ IsSchemaFault (schema_of 64 (replicate 257 (total 0 1)) (replicate 257 (sort 0))) (fault.TooMany Constant) }
    ensures no_fault { ¬ IsSchemaFault (schema_of 64 [] []) (fault.TooMany Sort) }
    ensures other_kind { ¬ IsSchemaFault (schema_of 64 [] []) (fault.TooMany Variable) }
{}

/// The first function of no sort, then the first constant of none.
pub fn sorts_of_a_schema_that_do_not_exist()
    ensures function { IsSchemaFault (schema_of 2 (total 0 1 ∷ total 0 2 ∷ total 2 0 ∷ []) (sort 2 ∷ [])) (fault.BadSort Function 1) }
    ensures constant { IsSchemaFault (schema_of 2 (total 0 1 ∷ nullable 1 0 ∷ []) (sort 1 ∷ sort 2 ∷ [])) (fault.BadSort Constant 1) }
    ensures later_function { ¬ IsSchemaFault (schema_of 2 (total 0 1 ∷ total 0 2 ∷ total 2 0 ∷ []) []) (fault.BadSort Function 2) }
    ensures good_function { ¬ IsSchemaFault (schema_of 2 (total 0 1 ∷ total 0 2 ∷ total 2 0 ∷ []) []) (fault.BadSort Function 0) }
    ensures constant_after_functions { ¬ IsSchemaFault (schema_of 2 (total 0 2 ∷ []) (sort 2 ∷ [])) (fault.BadSort Constant 0) }
    ensures function_after_limits { ¬ IsSchemaFault (schema_of 65 (total 0 65 ∷ []) []) (fault.BadSort Function 0) }
    ensures constant_after_limits { ¬ IsSchemaFault (schema_of 2 [] (replicate 257 (sort 2))) (fault.BadSort Constant 0) }
    ensures other_kind { ¬ IsSchemaFault (schema_of 2 [] (sort 2 ∷ [])) (fault.BadSort Column 0) }
{}

/// The function that closes the first cycle, where all sorts exist.
pub fn functions_that_close_a_cycle()
    ensures second { IsSchemaFault (schema_of 2 (total 0 1 ∷ nullable 1 0 ∷ []) []) (fault.Cycle (function 1)) }
    ensures first { ¬ IsSchemaFault (schema_of 2 (total 0 1 ∷ nullable 1 0 ∷ []) []) (fault.Cycle (function 0)) }
    ensures later { ¬ IsSchemaFault (schema_of 2 (total 0 1 ∷ nullable 1 0 ∷ total 1 1 ∷ []) []) (fault.Cycle (function 2)) }
    ensures after_constants { ¬ IsSchemaFault (schema_of 2 (total 0 1 ∷ nullable 1 0 ∷ []) (sort 2 ∷ [])) (fault.Cycle (function 1)) }
    ensures after_functions { ¬ IsSchemaFault (schema_of 2 (total 0 1 ∷ nullable 1 0 ∷ total 0 2 ∷ []) []) (fault.Cycle (function 1)) }
    ensures after_limits { ¬ IsSchemaFault (schema_of 65 (total 0 1 ∷ nullable 1 0 ∷ []) []) (fault.Cycle (function 1)) }
{}

/// Counts, then sorts of variables, then sorts of columns counted over all relations, then relations without columns.
pub fn faults_of_a_shape()
    ensures variables { IsShapeFault (shape_of (replicate 65 (sort 0)) (replicate 17 [])) (shape_fault.TooMany Variable) }
    ensures relations { IsShapeFault (shape_of (sort 3 ∷ []) (replicate 17 [])) (shape_fault.TooMany Relation) }
    ensures columns { IsShapeFault (shape_of (sort 3 ∷ []) ((sort 0 ∷ []) ∷ replicate 33 (sort 0) ∷ [])) (shape_fault.TooMany Column) }
    ensures variable { IsShapeFault (shape_of (sort 2 ∷ sort 3 ∷ []) ((sort 3 ∷ []) ∷ [])) (shape_fault.BadSort Variable 1) }
    ensures column { IsShapeFault (shape_of (sort 2 ∷ []) ((sort 0 ∷ sort 1 ∷ []) ∷ [] ∷ (sort 3 ∷ sort 3 ∷ []) ∷ [])) (shape_fault.BadSort Column 2) }
    ensures no_column { IsShapeFault (shape_of (sort 2 ∷ []) ((sort 0 ∷ sort 1 ∷ []) ∷ [] ∷ [] ∷ [])) (shape_fault.NoColumn (relation 1)) }
    ensures relations_after_variables { ¬ IsShapeFault (shape_of (replicate 65 (sort 0)) (replicate 17 [])) (shape_fault.TooMany Relation) }
    ensures columns_after_variables { ¬ IsShapeFault (shape_of (replicate 65 (sort 0)) (replicate 33 (sort 0) ∷ [])) (shape_fault.TooMany Column) }
    ensures columns_after_relations { ¬ IsShapeFault (shape_of [] (replicate 17 (replicate 33 (sort 0)))) (shape_fault.TooMany Column) }
    ensures variable_after_limits { ¬ IsShapeFault (shape_of (sort 3 ∷ []) (replicate 17 [])) (shape_fault.BadSort Variable 0) }
    ensures column_after_variables { ¬ IsShapeFault (shape_of (sort 3 ∷ []) ((sort 3 ∷ []) ∷ [])) (shape_fault.BadSort Column 0) }
    ensures column_after_limits { ¬ IsShapeFault (shape_of [] (replicate 33 (sort 3) ∷ [])) (shape_fault.BadSort Column 0) }
    ensures later_column { ¬ IsShapeFault (shape_of [] ((sort 3 ∷ sort 3 ∷ []) ∷ [])) (shape_fault.BadSort Column 1) }
    ensures no_column_after_variables { ¬ IsShapeFault (shape_of (sort 3 ∷ []) ([] ∷ [])) (shape_fault.NoColumn (relation 0)) }
    ensures no_column_after_columns { ¬ IsShapeFault (shape_of [] ([] ∷ (sort 3 ∷ []) ∷ [])) (shape_fault.NoColumn (relation 0)) }
    ensures no_column_after_limits { ¬ IsShapeFault (shape_of [] (replicate 17 [])) (shape_fault.NoColumn (relation 0)) }
    ensures later_relation { ¬ IsShapeFault (shape_of [] ([] ∷ [] ∷ [])) (shape_fault.NoColumn (relation 1)) }
    ensures some_column { ¬ IsShapeFault (shape_of [] ((sort 0 ∷ []) ∷ [] ∷ [])) (shape_fault.NoColumn (relation 0)) }
{}

/// The first literal with a data parameter on either side.
pub fn literals_of_no_cube()
    ensures right { IsCubeFault (same place front ∷ apart no_shelf (shelf_of picked) ∷ same picked picked ∷ []) (cube_fault.Param 1) }
    ensures left { IsCubeFault (same (shelf_of picked) place ∷ []) (cube_fault.Param 0) }
    ensures later { ¬ IsCubeFault (same place front ∷ apart no_shelf (shelf_of picked) ∷ same picked picked ∷ []) (cube_fault.Param 2) }
    ensures none { ¬ IsCubeFault (same place front ∷ apart no_shelf (shelf_of picked) ∷ []) (cube_fault.Param 0) }
    ensures beyond { ¬ IsCubeFault (same place front ∷ []) (cube_fault.Param 1) }
{}
