ghost use Rattle.std.specs.Prelude.{◌≡◌, [], ◌∷◌, Some, None, replicate};
ghost use Rattle.ras_system.specs.declared.system_fault.SystemPlace.TheVariants.{Initial, Transition, Guard, Update, Bulk, Goal};
ghost use Rattle.ras_system.specs.declared.system_fault.SystemKind.TheVariants.{Limit, Range, Sort, Target, NoDisjunct};
ghost use Rattle.ras_logic.specs.Terms.{image_term};
ghost use Rattle.ras_system.specs.SystemFaults.{first_fault};
ghost use Rattle.ras_vectors.specs.Words.{sort, constant, relation, function, var, cell, same, cube, set_var, set_cell, case, set_column};
ghost use Rattle.ras_vectors.specs.Hiring.{hiring};
ghost use Rattle.ras_vectors.specs.Desk.{desk};
ghost use Rattle.ras_vectors.specs.Depot.{depot, tasks, carts, place, hall, parcel, shelf, picked, front, main_hall, shelf_of, hall_of, no_parcel, idle, at_back, with_start, with_step, with_steps, with_goal, with_goals, fault_at};

/// Systems without a fault.
pub fn systems_without_a_fault()
    ensures hiring { first_fault hiring ≡ None }
    ensures desk { first_fault desk ≡ None }
    ensures depot { first_fault depot ≡ None }
    ensures most { first_fault (with_step (record {
      rows = replicate 8 tasks;
      params = replicate 16 (sort 0);
      guard = replicate 64 (replicate 128 (same place front));
      updates = [];
      bulk = replicate 8 (case tasks (replicate 16 (same (shelf 8) front)) []);
    })) ≡ None }
    ensures most_steps { first_fault (with_steps (replicate 256 idle)) ≡ None }
    ensures most_goals { first_fault (with_goals (replicate 64 (cube (replicate 8 tasks) (replicate 128 (same (shelf 7) front))))) ≡ None }
{}

/// One beyond each limit, at the place that the limit names.
pub fn counts_of_a_system_beyond_their_limits()
    ensures steps { first_fault (with_steps (replicate 257 idle)) ≡ fault_at (Transition 256) Limit }
    ensures rows { first_fault (with_step (record idle { rows = replicate 9 (relation 2) })) ≡ fault_at (Transition 1) Limit }
    ensures params { first_fault (with_step (record idle { params = replicate 17 (sort 3); guard = [] })) ≡ fault_at (Transition 1) Limit }
    ensures disjuncts { first_fault (with_step (record idle { guard = replicate 65 [] })) ≡ fault_at (Guard 1 64) Limit }
    ensures literals { first_fault (with_step (record idle { guard = [] ∷ replicate 129 (same place hall) ∷ [] })) ≡ fault_at (Guard 1 1) Limit }
    ensures cases { first_fault (with_step (record idle { bulk = replicate 9 (case tasks [] []) })) ≡ fault_at (Bulk 1 8) Limit }
    ensures condition { first_fault (with_step (record idle { bulk = case tasks [] [] ∷ case tasks (replicate 17 (same place hall)) [] ∷ [] })) ≡ fault_at (Bulk 1 1) Limit }
    ensures goals { first_fault (with_goals (replicate 65 (cube [] []))) ≡ fault_at (Goal 64) Limit }
    ensures rows_of_a_goal { first_fault (with_goal (cube (replicate 9 (relation 2)) [])) ≡ fault_at (Goal 1) Limit }
    ensures literals_of_a_goal { first_fault (with_goal (cube [] (replicate 129 (same place hall)))) ≡ fault_at (Goal 1) Limit }
{}

/// The earlier place before the later one, and at one place the earlier kind.
pub fn first_faults_of_systems()
    ensures few_initial { first_fault (with_start (None ∷ [])) ≡ fault_at (Initial 1) Range }
    ensures many_initial { first_fault (with_start (None ∷ None ∷ None ∷ [])) ≡ fault_at (Initial 2) Range }
    ensures sort_before_length { first_fault (with_start (Some (constant 2) ∷ [])) ≡ fault_at (Initial 0) Sort }
    ensures no_constant { first_fault (with_start (Some (constant 3) ∷ Some (constant 0) ∷ [])) ≡ fault_at (Initial 0) Range }
    ensures second_initial { first_fault (with_start (None ∷ Some (constant 0) ∷ [])) ≡ fault_at (Initial 1) Sort }
    ensures no_row { first_fault (with_step (record idle { rows = tasks ∷ relation 2 ∷ []; guard = [] })) ≡ fault_at (Transition 1) Range }
    ensures no_sort { first_fault (with_step (record idle { params = sort 3 ∷ [] })) ≡ fault_at (Transition 1) Range }
    ensures no_disjunct { first_fault (with_step (record idle { guard = []; updates = set_var 9 (var 9) ∷ [] })) ≡ fault_at (Transition 1) NoDisjunct }
    ensures range_before_sort { first_fault (with_step (record idle { guard = [] ∷ (same place hall ∷ same (var 2) (var 2) ∷ []) ∷ [] })) ≡ fault_at (Guard 1 1) Range }
    ensures sides { first_fault (with_step (record idle { guard = (same place hall ∷ []) ∷ (same (var 2) (var 2) ∷ []) ∷ [] })) ≡ fault_at (Guard 1 0) Sort }
    ensures other_sort { first_fault (with_step (record idle { guard = (same (hall_of (hall_of place)) hall ∷ []) ∷ [] })) ≡ fault_at (Guard 1 0) Sort }
    ensures updated_row { first_fault (with_step (record idle { guard = (same (shelf 1) front ∷ []) ∷ [] })) ≡ fault_at (Guard 1 0) Range }
    ensures sort_before_target { first_fault (with_step (record idle { updates = set_var 0 front ∷ set_var 0 main_hall ∷ [] })) ≡ fault_at (Update 1 1) Sort }
    ensures variable_twice { first_fault (with_step (record idle { updates = set_var 0 front ∷ set_var 1 main_hall ∷ set_var 0 place ∷ [] })) ≡ fault_at (Update 1 2) Target }
    ensures cell_twice { first_fault (with_step (record idle { updates = set_cell 0 1 front ∷ set_cell 0 0 picked ∷ set_cell 0 1 front ∷ [] })) ≡ fault_at (Update 1 2) Target }
    ensures no_target { first_fault (with_step (record idle { updates = set_cell 1 0 picked ∷ [] })) ≡ fault_at (Update 1 0) Range }
    ensures no_relation { first_fault (with_step (record idle { bulk = case (relation 2) [] [] ∷ [] })) ≡ fault_at (Bulk 1 0) Range }
    ensures no_column { first_fault (with_step (record idle { bulk = case carts [] (set_column 1 front ∷ []) ∷ [] })) ≡ fault_at (Bulk 1 0) Range }
    ensures column_of_other_sort { first_fault (with_step (record idle { bulk = case tasks [] (set_column 0 front ∷ []) ∷ [] })) ≡ fault_at (Bulk 1 0) Sort }
    ensures column_twice { first_fault (with_step (record idle { bulk = case tasks [] (set_column 1 front ∷ set_column 0 picked ∷ set_column 1 place ∷ []) ∷ [] })) ≡ fault_at (Bulk 1 0) Target }
    ensures separated { first_fault (with_step (record idle { bulk = case tasks [] [] ∷ case carts [] [] ∷ case tasks [] [] ∷ [] })) ≡ fault_at (Bulk 1 2) Target }
    ensures sort_before_separation { first_fault (with_step (record idle { bulk = case tasks [] [] ∷ case carts [] [] ∷ case tasks (same place hall ∷ []) [] ∷ [] })) ≡ fault_at (Bulk 1 2) Sort }
    ensures guard_before_updates { first_fault (with_step (record idle { guard = (same place hall ∷ []) ∷ []; updates = set_var 0 hall ∷ []; bulk = case (relation 2) [] [] ∷ [] })) ≡ fault_at (Guard 1 0) Sort }
    ensures updates_before_cases { first_fault (with_step (record idle { updates = set_var 0 hall ∷ []; bulk = case (relation 2) [] [] ∷ [] })) ≡ fault_at (Update 1 0) Sort }
    ensures goal_of_no_row { first_fault (with_goal (cube (relation 2 ∷ []) [])) ≡ fault_at (Goal 1) Range }
    ensures goal_of_no_function { first_fault (with_goal (cube [] (same (image_term place (function 2)) place ∷ []))) ≡ fault_at (Goal 1) Range }
    ensures goal_of_two_sorts { first_fault (with_goal (cube [] (same place hall ∷ []))) ≡ fault_at (Goal 1) Sort }
    ensures start_before_steps { first_fault (record (with_start (None ∷ [])) { transitions = record idle { guard = [] } ∷ [] }) ≡ fault_at (Initial 1) Range }
    ensures steps_before_goals { first_fault (record (with_goal (cube (relation 2 ∷ []) [])) { transitions = idle ∷ record idle { guard = [] } ∷ [] }) ≡ fault_at (Transition 1) NoDisjunct }
{}
