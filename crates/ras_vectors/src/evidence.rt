ghost use Rattle.std.specs.Prelude.{◌≡◌, [], ◌∷◌};
ghost use Rattle.ras_logic.specs.declared.tree.Node.TheVariants.{Leaf, Split};
ghost use Rattle.ras_logic.specs.Trees.{IsWhole};
ghost use Rattle.ras_logic.specs.Refutations.{Closes};
ghost use Rattle.ras_system.specs.Obligations.{obligations};
ghost use Rattle.ras_system.specs.Evidence.{IsGoodSafe, ClosesObligation};
ghost use Rattle.ras_vectors.specs.Words.{sort, cube, problem, var, same, apart, tree};
ghost use Rattle.ras_vectors.specs.Hiring as hiring;
ghost use Rattle.ras_vectors.specs.Small.{still, two, both_ways, x, unset, is_set, is_b, is_c, still_to_refute, still_trees, two_to_refute, two_trees, both_to_refute};
ghost use Rattle.ras_vectors.specs.Depot as depot;

/// Each formula at the start, each goal, and each preimage of each formula under each transition, in order.
pub fn what_has_to_be_refuted()
    ensures hiring { obligations hiring.hiring (hiring.wrong_owner ∷ []) ≡ hiring.to_refute }
    ensures still { obligations still (is_set ∷ []) ≡ still_to_refute }
    ensures two { obligations two (is_c ∷ is_b ∷ []) ≡ two_to_refute }
    ensures both_ways { obligations both_ways (is_c ∷ is_b ∷ []) ≡ both_to_refute }
    ensures no_formulas { obligations hiring.hiring [] ≡ record { premise = hiring.wrong_owner; formulas = [] } ∷ [] }
    ensures at_the_start { obligations (record depot.depot { transitions = []; goals = [] }) (depot.cart_and_task ∷ []) ≡ depot.cart_and_task_to_refute }
{}

pub fn good_evidence()
    ensures hiring { IsGoodSafe hiring.hiring (hiring.wrong_owner ∷ []) hiring.trees }
    ensures still { IsGoodSafe still (is_set ∷ []) still_trees }
    ensures two { IsGoodSafe two (is_c ∷ is_b ∷ []) two_trees }
{}

/// Trees in preorder, and nodes that are too few or too many for one.
pub fn whole_trees()
    ensures leaf { IsWhole (tree (Leaf ∷ [])) }
    ensures nested { IsWhole (tree (Split 0 [] 2 ∷ Split 1 [] 1 ∷ Leaf ∷ Leaf ∷ [])) }
    ensures no_children { IsWhole (tree (Split 0 [] 0 ∷ [])) }
    ensures no_node { ¬ IsWhole (tree []) }
    ensures node_missing { ¬ IsWhole (tree (Split 0 [] 2 ∷ Leaf ∷ [])) }
    ensures node_too_many { ¬ IsWhole (tree (Split 0 [] 1 ∷ Leaf ∷ Leaf ∷ [])) }
{}

/// A split under two rows of the premise, and splits one in the other, each child closed before the next.
pub fn closed_trees()
    ensures rows { Closes depot.schema depot.two_tasks (depot.twins ∷ []) (Split 0 (0 ∷ 2 ∷ []) 2 ∷ Leaf ∷ Leaf ∷ []) }
    ensures rows_turned { Closes depot.schema depot.two_tasks (depot.twins ∷ []) (Split 0 (2 ∷ 0 ∷ []) 2 ∷ Leaf ∷ Leaf ∷ []) }
    ensures nested { Closes depot.schema (cube [] []) depot.all_cases (Split 0 [] 2 ∷ Split 1 [] 1 ∷ Leaf ∷ Split 2 [] 1 ∷ Leaf ∷ []) }
    ensures no_literals { Closes depot.schema (cube [] []) (cube [] [] ∷ []) (Split 0 [] 0 ∷ []) }
{}

/// No child, a child too many, facts that do not clash, a formula that is not there, nodes too few and too many.
pub fn broken_trees()
    ensures no_child { ¬ Closes still.shape.schema is_set (is_set ∷ []) (Split 0 [] 0 ∷ []) }
    ensures child_too_many { ¬ Closes still.shape.schema is_set (is_set ∷ []) (Split 0 [] 2 ∷ Leaf ∷ Leaf ∷ []) }
    ensures count_too_many { ¬ Closes still.shape.schema is_set (is_set ∷ []) (Split 0 [] 2 ∷ Leaf ∷ []) }
    ensures no_clash { ¬ Closes still.shape.schema is_set (is_set ∷ []) (Leaf ∷ []) }
    ensures no_formula { ¬ Closes still.shape.schema is_set (is_set ∷ []) (Split 1 [] 1 ∷ Leaf ∷ []) }
    ensures no_node { ¬ Closes still.shape.schema is_set (is_set ∷ []) [] }
    ensures node_missing { ¬ Closes still.shape.schema is_set (is_set ∷ []) (Split 0 [] 1 ∷ []) }
    ensures node_too_many { ¬ Closes still.shape.schema is_set (is_set ∷ []) (Split 0 [] 1 ∷ Leaf ∷ Leaf ∷ []) }
    ensures by_levels { ¬ Closes depot.schema (cube [] []) depot.all_cases (Split 0 [] 2 ∷ Split 1 [] 1 ∷ Split 2 [] 1 ∷ Leaf ∷ Leaf ∷ []) }
{}

/// Rows that are not the premise's, one row twice, a row of another relation, too few and too many rows.
pub fn splits_under_other_rows()
    ensures outside { ¬ Closes depot.schema depot.two_tasks (depot.twins ∷ []) (Split 0 (0 ∷ 3 ∷ []) 2 ∷ Leaf ∷ Leaf ∷ []) }
    ensures row_twice { ¬ Closes depot.schema depot.two_tasks (depot.twins ∷ []) (Split 0 (0 ∷ 0 ∷ []) 2 ∷ Leaf ∷ Leaf ∷ []) }
    ensures other_relation { ¬ Closes depot.schema depot.two_tasks (depot.twins ∷ []) (Split 0 (0 ∷ 1 ∷ []) 2 ∷ Leaf ∷ Leaf ∷ []) }
    ensures few { ¬ Closes depot.schema depot.two_tasks (depot.twins ∷ []) (Split 0 (0 ∷ []) 2 ∷ Leaf ∷ Leaf ∷ []) }
    ensures many { ¬ Closes depot.schema depot.two_tasks (depot.twins ∷ []) (Split 0 (0 ∷ 2 ∷ 1 ∷ []) 2 ∷ Leaf ∷ Leaf ∷ []) }
{}

/// Too few and too many trees, a formula refuted by itself at the start, one that does not fit, one with a data parameter.
pub fn evidence_that_is_not_good()
    ensures few_trees { ¬ IsGoodSafe still (is_set ∷ []) (tree (Leaf ∷ []) ∷ []) }
    ensures many_trees { ¬ IsGoodSafe still (is_set ∷ []) (tree (Leaf ∷ []) ∷ tree (Split 0 [] 1 ∷ Leaf ∷ []) ∷ tree (Leaf ∷ []) ∷ []) }
    ensures by_itself { ¬ IsGoodSafe still (is_set ∷ []) (tree (Split 0 [] 1 ∷ Leaf ∷ []) ∷ tree (Split 0 [] 1 ∷ Leaf ∷ []) ∷ []) }
    ensures no_formula { ¬ IsGoodSafe still [] (tree (Split 0 [] 1 ∷ Leaf ∷ []) ∷ []) }
    ensures other_formula { ¬ IsGoodSafe two (is_c ∷ is_b ∷ []) (tree (Leaf ∷ []) ∷ tree (Leaf ∷ []) ∷ tree (Split 0 [] 1 ∷ Leaf ∷ []) ∷ tree (Split 0 [] 1 ∷ Leaf ∷ []) ∷ tree (Leaf ∷ []) ∷ []) }
    ensures not_fitting { ¬ IsGoodSafe still (cube [] (same (var 1) (var 1) ∷ []) ∷ []) [] }
    ensures data_parameter { ¬ IsGoodSafe still (problem [] (sort 0 ∷ []) (apart x unset ∷ []) ∷ []) still_trees }
{}
