ghost use Rattle.std.specs.Prelude.{◌≡◌, ℕ, ◌<◌, List, [], ◌∷◌, ◌++◌, All};
ghost use Rattle.ras_logic.specs.declared.ids.RelId.{RelId};
ghost use Rattle.ras_logic.specs.declared.literal.Literal.{Literal};
ghost use Rattle.ras_logic.specs.declared.problem.Problem.{Problem};
ghost use Rattle.ras_logic.specs.declared.raw_db.RawDb.{RawDb};
ghost use Rattle.ras_logic.specs.declared.values.Values.{Values};
ghost use Rattle.ras_logic.specs.declared.tree.Node.{Node};
ghost use Rattle.ras_logic.specs.Shapes.{ShapeParts};
ghost use Rattle.ras_logic.specs.Schemas.{IsSchema, SchemaParts};
ghost use Rattle.ras_logic.specs.Trees.{AreTrees};
ghost use Rattle.ras_logic.specs.Formulas.{Fits, IsCube};
ghost use Rattle.ras_logic.specs.Refutations.{CloseAll, Closes};
ghost use Rattle.ras_sat.specs.declared.instance.Instance.{Instance};
ghost use Rattle.ras_sat.specs.Instances.{IsByInstance};
ghost use Rattle.ras_sat.specs.Needed.{AreChildrenNeeded};
ghost use Rattle.ras_sat.specs.Answers.{IsEscape};

/// One answer alone is right: where a tree refutes the premise by cases on the instances, nothing satisfies the premise and
/// falsifies each instance.
pub fn one_answer_is_right()
    ensures { (shape : ShapeParts) (premise : Problem) (formulas : List Problem) (instances : List Instance) (nodes : List Node) → IsSchema shape.schema → Fits shape premise
        → All (Fits shape) formulas → All IsCube formulas → Closes shape.schema premise formulas nodes → All (IsByInstance instances) nodes
        → (d : RawDb) (v : Values) → ¬ IsEscape shape premise formulas instances d v }
{}

/// What it is that a split is needed: the tree of none of its children closes with the facts of the split itself. That tree
/// stands behind those of the children before.
pub fn no_child_is_idle()
    ensures { (schema : SchemaParts) (formulas : List Problem) (rows : List RelId) (facts : List Literal) (children : ℕ) (nodes : List Node)
        → AreChildrenNeeded schema formulas rows facts children nodes → (before tree after : List Node) (k : ℕ) → k < children → AreTrees k before → AreTrees 1 tree
        → nodes ≡ before ++ tree ++ after → ¬ CloseAll schema formulas rows (facts ∷ []) tree }
{}
