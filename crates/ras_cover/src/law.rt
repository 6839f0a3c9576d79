ghost use Rattle.std.specs.Prelude.{◌↔◌, List, []};
ghost use Rattle.ras_logic.specs.declared.problem.Problem.{Problem};
ghost use Rattle.ras_logic.specs.declared.raw_db.RawDb.{RawDb};
ghost use Rattle.ras_logic.specs.declared.values.Values.{Values};
ghost use Rattle.ras_logic.specs.Shapes.{ShapeParts};
ghost use Rattle.ras_logic.specs.Databases.{IsDatabase};
ghost use Rattle.ras_logic.specs.Truth.{AreValues};
ghost use Rattle.ras_cover.specs.Covers.{AreCubesOf, AreExtendable, AreStrongest, IsCover, SatisfiesAny, HasExtension, bare};

/// Cubes of which whatever satisfies one can be extended to what satisfies the problem are the strongest that it implies.
pub fn what_is_extendable_is_strongest()
    ensures { (shape : ShapeParts) (p : Problem) (cubes : List Problem) → AreCubesOf shape p cubes → AreExtendable shape p cubes → AreStrongest shape p cubes }
{}

/// Values satisfy some cube of a cover exactly where they can be extended to what satisfies the problem.
pub fn a_cover_is_met_where_there_is_an_extension()
    ensures { (shape : ShapeParts) (p : Problem) (cubes : List Problem) → IsCover shape p cubes → (d : RawDb) (v : Values) → IsDatabase shape.schema d
        → AreValues shape d p.rows [] (bare v) → (SatisfiesAny shape d (bare v) cubes ↔ HasExtension shape p d v) }
{}
