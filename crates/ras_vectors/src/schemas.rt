ghost use Rattle.std.specs.Prelude.{[], ◌∷◌, replicate};
ghost use Rattle.ras_logic.specs.Schemas.{IsAcyclic, IsSchema};
ghost use Rattle.ras_logic.specs.SchemaFaults.{HasSchemaLimits};
ghost use Rattle.ras_logic.specs.Shapes.{IsShape};
ghost use Rattle.ras_logic.specs.ShapeFaults.{HasShapeLimits};
ghost use Rattle.ras_vectors.specs.Words.{sort, total, nullable, schema_of, shape_of};
ghost use Rattle.ras_vectors.specs.Hiring as hiring;
ghost use Rattle.ras_vectors.specs.Depot as depot;

/// Functions between two sorts, one each way, are a cycle, and so is one from a sort to itself; one way alone is none.
pub fn cycles_of_sorts()
    ensures both_ways { ¬ IsAcyclic 2 (total 0 1 ∷ nullable 1 0 ∷ []) }
    ensures itself { ¬ IsAcyclic 2 (total 1 1 ∷ []) }
    ensures one_way { IsAcyclic 2 hiring.schema.functions }
    ensures two_ways_to_one { IsAcyclic 3 (total 0 2 ∷ total 0 2 ∷ nullable 1 2 ∷ []) }
{}

pub fn good_and_bad_schemas()
    ensures hiring { IsSchema hiring.schema }
    ensures depot { IsSchema depot.schema }
    ensures source { ¬ IsSchema (schema_of 2 (total 2 0 ∷ []) []) }
    ensures target { ¬ IsSchema (schema_of 2 (total 0 2 ∷ []) []) }
    ensures constant { ¬ IsSchema (schema_of 2 [] (sort 1 ∷ sort 2 ∷ [])) }
    ensures cycle { ¬ IsSchema (schema_of 2 (total 0 1 ∷ nullable 1 0 ∷ []) []) }
{}

pub fn good_and_bad_shapes()
    ensures hiring { IsShape hiring.shape }
    ensures depot { IsShape depot.shape }
    ensures variable { ¬ IsShape (shape_of (sort 3 ∷ []) []) }
    ensures column { ¬ IsShape (shape_of [] ((sort 0 ∷ sort 3 ∷ []) ∷ [])) }
    ensures no_column { ¬ IsShape (shape_of [] ((sort 0 ∷ []) ∷ [] ∷ [])) }
    ensures schema { ¬ IsShape (record { schema = schema_of 1 (total 0 0 ∷ []) []; vars = []; relations = [] }) }
{}

/// Counts at their limits, and one beyond.
pub fn counts_at_their_limits()
    ensures most { HasSchemaLimits (schema_of 64 (replicate 256 (total 0 1)) (replicate 256 (sort 0))) }
    ensures sorts { ¬ HasSchemaLimits (schema_of 65 [] []) }
    ensures functions { ¬ HasSchemaLimits (schema_of 2 (replicate 257 (total 0 1)) []) }
    ensures constants { ¬ HasSchemaLimits (schema_of 2 [] (replicate 257 (sort 0))) }
    ensures shape { HasShapeLimits (shape_of (replicate 64 (sort 0)) (replicate 16 (replicate 32 (sort 0)))) }
    ensures variables { ¬ HasShapeLimits (shape_of (replicate 65 (sort 0)) []) }
    ensures relations { ¬ HasShapeLimits (shape_of [] (replicate 17 (sort 0 ∷ []))) }
    ensures columns { ¬ HasShapeLimits (shape_of [] ((sort 0 ∷ []) ∷ replicate 33 (sort 0) ∷ [])) }
{}
