//! For each kind of event and each part of what allows it, an event that is refused for that part.
ghost use Rattle.std.specs.Prelude.{[], ◌∷◌};
ghost use Rattle.ras_core.specs.declared.event.Event.TheVariants.{Claim, Admit, Skip, Drop as DropBy, Done, GiveBack, Hit, Spill, Idle};
ghost use Rattle.ras_core.specs.declared.origin.Origin.TheVariants.{Goal, Step};
ghost use Rattle.ras_core.specs.Events.{Allowed, BookkeepingAllows, after};
ghost use Rattle.ras_core.specs.Journals.{first_state};
ghost use Rattle.ras_vectors.specs.Small.{two, unset_is_unsafe, is_b, is_c};
ghost use Rattle.ras_core_vectors.specs.Searches.{wake, wake_at_work, asleep, seated, two_at, two_last, away_at, dropped_at_work, seated_at_work, with_hit, with_spill, is_unset, not_a, everything, too_wide, literal_too_many, row_too_many, without_state, misfit};

/// The entry is kept and free.
pub fn claims_that_are_refused()
    ensures unknown { ¬ BookkeepingAllows 2 (two_at 2) (Claim 1) }
    ensures dropped { ¬ BookkeepingAllows 2 (away_at 3) (Claim 0) }
    ensures taken { ¬ BookkeepingAllows 2 (two_at 2) (Claim 0) }
    ensures finished { ¬ BookkeepingAllows 2 (two_at 4) (Claim 0) }
{}

/// No hit stands, and there is room in the budget; the goal exists, or the entry is kept and taken.
pub fn admits_that_are_out_of_order()
    ensures hit { ¬ BookkeepingAllows 2 (with_hit (two_at 2)) (Admit (Step 0 0) is_b) }
    ensures budget { ¬ BookkeepingAllows 1 (two_at 2) (Admit (Step 0 0) is_b) }
    ensures goal { ¬ BookkeepingAllows 2 (two_at 0) (Admit (Goal 1) is_c) }
    ensures unknown { ¬ BookkeepingAllows 2 (two_at 2) (Admit (Step 1 0) is_b) }
    ensures dropped { ¬ BookkeepingAllows 3 dropped_at_work (Admit (Step 0 0) is_b) }
    ensures free { ¬ BookkeepingAllows 2 (two_at 1) (Admit (Step 0 0) is_b) }
    ensures finished { ¬ BookkeepingAllows 3 (two_at 4) (Admit (Step 0 0) is_b) }
{}

/// The cube is that goal, or a formula whose states all lead into the entry, without a row or a literal too many; no initial
/// state meets it, and some state meets it and neither an entry nor the base.
pub fn admits_that_are_refused()
    ensures other_goal { ¬ Allowed two 2 (two_at 0) (Admit (Goal 0) is_b) }
    ensures misfit { ¬ Allowed wake 2 wake_at_work (Admit (Step 0 0) misfit) }
    ensures too_wide { ¬ Allowed two 2 (two_at 2) (Admit (Step 0 0) too_wide) }
    ensures other_step { ¬ Allowed two 2 (two_at 2) (Admit (Step 0 1) is_b) }
    ensures rows { ¬ Allowed seated 2 seated_at_work (Admit (Step 0 0) row_too_many) }
    ensures literals { ¬ Allowed two 2 (two_at 2) (Admit (Step 0 0) literal_too_many) }
    ensures initial { ¬ Allowed unset_is_unsafe 1 (first_state unset_is_unsafe []) (Admit (Goal 0) is_unset) }
    ensures no_state { ¬ Allowed two 2 (two_at 2) (Admit (Step 0 0) without_state) }
    ensures covered { ¬ Allowed two 3 (two_at 3) (Admit (Step 0 0) is_b) }
    ensures base { ¬ Allowed two 2 (first_state two (is_c ∷ is_b ∷ [])) (Admit (Goal 0) is_c) }
{}

/// The origin is as for an admission; the reasons are kept, and each state of the cube meets one or the base.
pub fn skips_that_are_refused()
    ensures goal { ¬ BookkeepingAllows 2 (two_at 3) (Skip (Goal 1) is_c (0 ∷ [])) }
    ensures free { ¬ BookkeepingAllows 2 (two_at 1) (Skip (Step 0 0) is_b []) }
    ensures dropped { ¬ BookkeepingAllows 2 dropped_at_work (Skip (Step 0 0) not_a (1 ∷ [])) }
    ensures unknown_reason { ¬ BookkeepingAllows 2 (two_at 3) (Skip (Step 0 0) is_b (1 ∷ 2 ∷ [])) }
    ensures dropped_reason { ¬ BookkeepingAllows 2 (away_at 6) (Skip (Step 1 0) is_c (0 ∷ [])) }
    ensures other_goal { ¬ Allowed two 2 (two_at 3) (Skip (Goal 0) is_b (1 ∷ [])) }
    ensures misfit { ¬ Allowed wake 2 (after wake_at_work (Admit (Step 0 0) is_unset)) (Skip (Step 0 0) misfit (1 ∷ [])) }
    ensures too_wide { ¬ Allowed two 2 (two_at 3) (Skip (Step 0 0) is_c (0 ∷ [])) }
    ensures not_covered { ¬ Allowed two 2 (two_at 2) (Skip (Step 0 0) is_b (0 ∷ [])) }
{}

/// The two entries are kept and different, and each state of the first meets the second.
pub fn drops_that_are_refused()
    ensures itself { ¬ BookkeepingAllows 2 (two_at 3) (DropBy 0 0) }
    ensures unknown { ¬ BookkeepingAllows 2 (two_at 3) (DropBy 2 0) }
    ensures dropped { ¬ BookkeepingAllows 2 (away_at 3) (DropBy 0 1) }
    ensures by_unknown { ¬ BookkeepingAllows 2 (two_at 3) (DropBy 0 2) }
    ensures by_dropped { ¬ BookkeepingAllows 2 (away_at 3) (DropBy 1 0) }
    ensures not_inside { ¬ Allowed two 2 (two_at 3) (DropBy 1 0) }
{}

/// The entry is kept and taken, and each state that leads into it meets one of its submissions.
pub fn ends_of_work_that_are_refused()
    ensures unknown { ¬ BookkeepingAllows 2 (two_at 3) (Done 2) }
    ensures dropped { ¬ BookkeepingAllows 2 dropped_at_work (Done 0) }
    ensures free { ¬ BookkeepingAllows 2 (two_at 3) (Done 1) }
    ensures again { ¬ BookkeepingAllows 2 (two_at 4) (Done 0) }
    ensures not_worked_out { ¬ Allowed two 2 (two_at 2) (Done 0) }
{}

/// The entry is kept and taken.
pub fn give_backs_that_are_refused()
    ensures unknown { ¬ BookkeepingAllows 2 (two_at 3) (GiveBack 2) }
    ensures dropped { ¬ BookkeepingAllows 2 dropped_at_work (GiveBack 0) }
    ensures free { ¬ BookkeepingAllows 2 (two_at 3) (GiveBack 1) }
    ensures finished { ¬ BookkeepingAllows 2 (two_at 4) (GiveBack 0) }
{}

/// No hit stands, the origin is as for a skip, and some initial state meets the cube.
pub fn hits_that_are_refused()
    ensures again { ¬ BookkeepingAllows 1 (with_hit (two_at 0)) (Hit (Goal 0) is_c) }
    ensures goal { ¬ BookkeepingAllows 1 (two_at 0) (Hit (Goal 1) is_c) }
    ensures free { ¬ BookkeepingAllows 2 (two_at 1) (Hit (Step 0 0) is_b) }
    ensures dropped { ¬ BookkeepingAllows 2 dropped_at_work (Hit (Step 0 0) not_a) }
    ensures other_goal { ¬ Allowed two 2 (two_at 0) (Hit (Goal 0) everything) }
    ensures misfit { ¬ Allowed asleep 2 wake_at_work (Hit (Step 0 0) misfit) }
    ensures too_wide { ¬ Allowed two 2 (two_at 2) (Hit (Step 0 0) everything) }
    ensures not_initial { ¬ Allowed two 2 (two_at 2) (Hit (Step 0 0) is_b) }
{}

/// No hit and no spill stand, and the entries number the budget; the origin is as for an admission.
pub fn spills_that_are_out_of_order()
    ensures hit { ¬ BookkeepingAllows 1 (with_hit (two_at 2)) (Spill (Step 0 0) is_b) }
    ensures again { ¬ BookkeepingAllows 1 (with_spill (two_at 2)) (Spill (Step 0 0) is_b) }
    ensures below { ¬ BookkeepingAllows 2 (two_at 2) (Spill (Step 0 0) is_b) }
    ensures goal { ¬ BookkeepingAllows 0 (two_at 0) (Spill (Goal 1) is_c) }
    ensures free { ¬ BookkeepingAllows 1 (two_at 1) (Spill (Step 0 0) is_b) }
    ensures dropped { ¬ BookkeepingAllows 2 dropped_at_work (Spill (Step 0 0) is_b) }
{}

/// The cube is as for an admission.
pub fn spills_that_are_refused()
    ensures other_goal { ¬ Allowed two 0 (two_at 0) (Spill (Goal 0) is_b) }
    ensures misfit { ¬ Allowed wake 1 wake_at_work (Spill (Step 0 0) misfit) }
    ensures too_wide { ¬ Allowed two 1 (two_at 2) (Spill (Step 0 0) too_wide) }
    ensures rows { ¬ Allowed seated 1 seated_at_work (Spill (Step 0 0) row_too_many) }
    ensures literals { ¬ Allowed two 1 (two_at 2) (Spill (Step 0 0) literal_too_many) }
    ensures initial { ¬ Allowed unset_is_unsafe 0 (first_state unset_is_unsafe []) (Spill (Goal 0) is_unset) }
    ensures no_state { ¬ Allowed two 1 (two_at 2) (Spill (Step 0 0) without_state) }
    ensures covered { ¬ Allowed two 2 (two_at 3) (Spill (Step 0 0) is_b) }
    ensures base { ¬ Allowed two 0 (first_state two (is_c ∷ is_b ∷ [])) (Spill (Goal 0) is_c) }
{}

/// The search is quiet, and was not found so before.
pub fn reports_that_are_refused()
    ensures goal { ¬ BookkeepingAllows 2 (two_at 0) Idle }
    ensures hit { ¬ BookkeepingAllows 2 (with_hit (two_at 6)) Idle }
    ensures spill { ¬ BookkeepingAllows 2 (with_spill (two_at 6)) Idle }
    ensures free { ¬ BookkeepingAllows 2 (two_at 4) Idle }
    ensures taken { ¬ BookkeepingAllows 2 (two_at 5) Idle }
    ensures again { ¬ BookkeepingAllows 2 two_last Idle }
{}
