ghost use Rattle.std.specs.Prelude.{ℕ, List, length, All};
ghost use Rattle.ras_logic.specs.declared.problem.Problem.{Problem};
ghost use Rattle.ras_logic.specs.declared.tree.Node.{Node};
ghost use Rattle.ras_logic.specs.Formulas.{Fits, IsCube};
ghost use Rattle.ras_logic.specs.Refutations.{Closes};
ghost use Rattle.ras_logic.specs.Schemas.{IsSchema, SchemaParts};
ghost use Rattle.ras_logic.specs.Shapes.{ShapeParts};
ghost use Rattle.ras_entail.specs.Entailment.{IsAmong};
ghost use Rattle.ras_reasons.specs.Naming.{NamesBelow, AreNamed, ArePicked};

/// A premise that a tree closes is among the formulas that the tree names, and those are formulas of the list.
pub fn named_formulas_suffice()
    ensures within { (schema : SchemaParts) (premise : Problem) (list : List Problem) (nodes : List Node) → Closes schema premise list nodes → NamesBelow nodes (length list) }
    ensures suffice { (shape : ShapeParts) (premise : Problem) (list : List Problem) (nodes : List Node) (numbers : List ℕ) (picked : List Problem) → IsSchema shape.schema → Fits shape premise
        → All (Fits shape) list → All IsCube list → Closes shape.schema premise list nodes → AreNamed nodes numbers → ArePicked list numbers picked → IsAmong shape premise picked }
{}
