ghost use Rattle.std.specs.Prelude.{◌↔◌, ℕ, List, All};
ghost use Rattle.ras_logic.specs.declared.literal.Literal.{Literal};
ghost use Rattle.ras_logic.specs.declared.problem.Problem.{Problem};
ghost use Rattle.ras_logic.specs.declared.raw_db.RawDb.{RawDb};
ghost use Rattle.ras_logic.specs.declared.values.Values.{Values};
ghost use Rattle.ras_logic.specs.declared.ids.RelId.{RelId};
ghost use Rattle.ras_logic.specs.declared.ids.SortId.{SortId};
ghost use Rattle.ras_logic.specs.declared.tree.Node.{Node};
ghost use Rattle.ras_logic.specs.Shapes.{ShapeParts};
ghost use Rattle.ras_logic.specs.declared.function.FunDecl.{FunDecl};
ghost use Rattle.ras_logic.specs.Schemas.{IsSchema, HasSorts, IsAcyclic};
ghost use Rattle.ras_logic.specs.SchemaFaults.{HasCycle};
ghost use Rattle.ras_logic.specs.Databases.{IsDatabase};
ghost use Rattle.ras_logic.specs.Formulas.{LiteralFits, Fits, IsCube};
ghost use Rattle.ras_logic.specs.Truth.{AreValues, AllHold, Satisfies};
ghost use Rattle.ras_logic.specs.Clashes.{FactsClash};
ghost use Rattle.ras_logic.specs.Refutations.{Closes, HoldsOfSome};

/// Where the sorts exist, the functions are acyclic exactly where no sequence of them leads back to its start.
pub fn acyclic_is_without_a_cycle()
    ensures { (sorts : ℕ) (functions : List FunDecl) → All (HasSorts sorts) functions → (IsAcyclic sorts functions ↔ (¬ HasCycle functions)) }
{}

/// Facts that clash hold in no database.
pub fn a_clash_has_no_model()
    ensures { (shape : ShapeParts) (rows : List RelId) (params : List SortId) (facts : List Literal) → IsSchema shape.schema → All (LiteralFits shape rows params) facts
        → FactsClash shape.schema facts → (d : RawDb) (v : Values) → IsDatabase shape.schema d → AreValues shape d rows params v → ¬ AllHold d v facts }
{}

/// A closed tree is sound: whatever satisfies the premise satisfies one of the formulas, under some of the premise's rows.
pub fn a_closed_tree_is_sound()
    ensures { (shape : ShapeParts) (premise : Problem) (formulas : List Problem) (nodes : List Node) → IsSchema shape.schema → Fits shape premise
        → All (Fits shape) formulas → All IsCube formulas → Closes shape.schema premise formulas nodes
        → (d : RawDb) (v : Values) → IsDatabase shape.schema d → Satisfies shape d v premise → HoldsOfSome d v premise.rows formulas }
{}
