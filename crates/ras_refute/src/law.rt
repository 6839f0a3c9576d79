ghost use Rattle.std.specs.Prelude.{◌≡◌, List};
ghost use Rattle.ras_logic.specs.declared.problem.Problem.{Problem};
ghost use Rattle.ras_logic.specs.declared.tree.Node.{Node};
ghost use Rattle.ras_logic.specs.Schemas.{SchemaParts};
ghost use Rattle.ras_logic.specs.Refutations.{Closes};
ghost use Rattle.ras_refute.specs.declared.tree_fault.TreeFault.{TreeFault};
ghost use Rattle.ras_refute.specs.Faults.{IsTreeFault};

/// A tree with a fault does not close.
pub fn a_fault_is_no_closing()
    ensures { (schema : SchemaParts) (premise : Problem) (formulas : List Problem) (nodes : List Node) (fault : TreeFault)
        → IsTreeFault schema premise formulas nodes fault → ¬ Closes schema premise formulas nodes }
{}

/// A tree has at most one first fault.
pub fn the_first_fault_is_one()
    ensures { (schema : SchemaParts) (premise : Problem) (formulas : List Problem) (nodes : List Node) (fault other : TreeFault)
        → IsTreeFault schema premise formulas nodes fault → IsTreeFault schema premise formulas nodes other → fault ≡ other }
{}
