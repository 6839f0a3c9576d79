ghost use Rattle.std.specs.Prelude.{◌↔◌, List};
ghost use Rattle.ras_logic.specs.declared.problem.Problem.{Problem};
ghost use Rattle.ras_logic.specs.declared.raw_db.RawDb.{RawDb};
ghost use Rattle.ras_logic.specs.Shapes.{ShapeParts};
ghost use Rattle.ras_logic.specs.Databases.{IsDatabase, Extends};
ghost use Rattle.ras_logic.specs.Formulas.{Fits};
ghost use Rattle.ras_system.specs.declared.state.State.{State};
ghost use Rattle.ras_system.specs.States.{IsState, Meets, MeetsAny};
ghost use Rattle.ras_cover.specs.Covers.{IsCover};

/// A state of a database meets some cube of a cover exactly where it meets the problem in some database that extends its own.
pub fn a_cover_is_met_where_the_problem_is()
    ensures { (shape : ShapeParts) (p : Problem) (cubes : List Problem) (d : RawDb) (s : State) → Fits shape p → IsCover shape p cubes
        → IsDatabase shape.schema d → IsState shape d s
        → (MeetsAny d s cubes ↔ ((larger : RawDb) × IsDatabase shape.schema larger × Extends larger d × Meets larger s p)) }
{}
