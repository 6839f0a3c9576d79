//! The core law: what holds after every lawful journal of a system, with any budget and any base, whoever wrote it. Each part
//! is a function that does nothing, and its contract is the part. Who keeps a journal that replays hands out each by one call.
ghost use Rattle.std.specs.Prelude.{◌≡◌, ◌↔◌, ◌⊎◌, ◌+◌, ◌<◌, ◌≤◌, ℕ, true, List, [], ◌∷◌, ◌++◌, length, take, slice_get, Some, All, Any};
ghost use Rattle.ras_logic.specs.declared.problem.Problem.{Problem};
ghost use Rattle.ras_logic.specs.declared.raw_db.RawDb.{RawDb};
ghost use Rattle.ras_system.specs.declared.state.State.{State};
ghost use Rattle.ras_system.specs.declared.transition.Transition.{Transition};
ghost use Rattle.ras_system.specs.Systems.{SystemParts, IsSystem};
ghost use Rattle.ras_system.specs.States.{MeetsAny};
ghost use Rattle.ras_system.specs.Invariants.{IsInvariant};
ghost use Rattle.ras_extension.specs.Reaching.{IsStateIn, IsStateOf, CanReach, Leads};
ghost use Rattle.ras_core.specs.declared.event.Event.{Event};
ghost use Rattle.ras_core.specs.declared.origin.Origin.TheVariants.{Step};
ghost use Rattle.ras_core.specs.declared.work.Work.TheVariants.{Done as IsDone};
ghost use Rattle.ras_core.specs.CoreStates.{FoundParts, EntryParts, CoreParts, IsEntry, IsQuiet, cubes_of};
ghost use Rattle.ras_core.specs.Covered.{IsCovered, MeetsEntry, AreCovered, kept_cubes};
ghost use Rattle.ras_core.specs.Admissible.{ComesFrom, NoneIsInitial, SomeIsInitial, HasNewState, IsFormula, without};
ghost use Rattle.ras_core.specs.Events.{Allowed, IsWorkedOut, after};
ghost use Rattle.ras_core.specs.Journals.{IsBase, Replays, first_state};
ghost use Rattle.ras_core.specs.Recorded.{IsHit, IsSpill, IsIdle};
ghost use Rattle.ras_core.specs.Sound.{IsSound};

/// A search may begin with no base.
pub fn an_empty_base_is_one()
    ensures { (system : SystemParts) → IsBase system [] }
{}

/// The empty journal is lawful, an event that is allowed after a lawful journal makes it a longer one, and the base stays.
pub fn a_journal_grows_by_what_is_allowed()
    ensures nothing { (system : SystemParts) (budget : ℕ) (base : List Problem) → IsBase system base → Replays system budget base [] (first_state system base) }
    ensures event { (system : SystemParts) (budget : ℕ) (base : List Problem) (journal : List Event) (s : CoreParts) (e : Event)
        → Replays system budget base journal s → Allowed system budget s e → Replays system budget base (journal ++ e ∷ []) (after s e) }
    ensures base { (system : SystemParts) (budget : ℕ) (base : List Problem) (journal : List Event) (s : CoreParts)
        → Replays system budget base journal s → s.base ≡ base }
{}

/// Each kind of event keeps what is sound, so the state after a lawful journal is sound.
pub fn each_event_keeps_what_is_sound()
    ensures start { (system : SystemParts) (budget : ℕ) (base : List Problem) → IsBase system base → IsSound system budget (first_state system base) }
    ensures event { (system : SystemParts) (budget : ℕ) (s : CoreParts) (e : Event) → IsSound system budget s → Allowed system budget s e
        → IsSound system budget (after s e) }
    ensures journal { (system : SystemParts) (budget : ℕ) (base : List Problem) (journal : List Event) (s : CoreParts)
        → Replays system budget base journal s → IsSound system budget s }
{}

/// The states of the kept entries and the base are those of all entries and the base.
pub fn kept_entries_cover_all_entries()
    ensures { (system : SystemParts) (budget : ℕ) (base : List Problem) (journal : List Event) (s : CoreParts) → Replays system budget base journal s
        → (d : RawDb) (state : State) → IsStateIn system d state → (IsCovered s d state ↔ (MeetsEntry s d state ⊎ MeetsAny d state s.base)) }
{}

/// The states of every submission, of entries and of goals, are among those of the kept entries and the base.
pub fn kept_entries_cover_all_submissions()
    ensures entry { (system : SystemParts) (budget : ℕ) (base : List Problem) (journal : List Event) (s : CoreParts) → Replays system budget base journal s
        → (i : ℕ) (e : EntryParts) → IsEntry s i e → All (AreCovered system s) e.submissions }
    ensures goal { (system : SystemParts) (budget : ℕ) (base : List Problem) (journal : List Event) (s : CoreParts) → Replays system budget base journal s
        → (j : ℕ) (goal : Problem) → slice_get s.submitted j ≡ Some true → slice_get system.goals j ≡ Some goal → AreCovered system s goal }
{}

/// The cube of an entry, of the hit and of the spill is the goal of its origin, or each of its states leads by the origin's
/// transition into the origin's entry, which is an earlier one.
pub fn each_cube_comes_from_its_origin()
    ensures entry { (system : SystemParts) (budget : ℕ) (base : List Problem) (journal : List Event) (s : CoreParts) → Replays system budget base journal s
        → (i : ℕ) (e : EntryParts) → IsEntry s i e → ComesFrom system (take i (cubes_of s)) e.origin e.cube }
    ensures hit { (system : SystemParts) (budget : ℕ) (base : List Problem) (journal : List Event) (s : CoreParts) → Replays system budget base journal s
        → (f : FoundParts) → s.hit ≡ Some f → ComesFrom system (cubes_of s) f.origin f.cube }
    ensures spill { (system : SystemParts) (budget : ℕ) (base : List Problem) (journal : List Event) (s : CoreParts) → Replays system budget base journal s
        → (f : FoundParts) → s.spill ≡ Some f → ComesFrom system (cubes_of s) f.origin f.cube }
{}

/// Each state of an entry, of the hit and of the spill can reach a goal. Their cubes fit the system.
pub fn each_cube_can_reach_a_goal()
    ensures entry { (system : SystemParts) (budget : ℕ) (base : List Problem) (journal : List Event) (s : CoreParts) → IsSystem system
        → Replays system budget base journal s → (i : ℕ) (e : EntryParts) → IsEntry s i e
        → IsFormula system e.cube × ((d : RawDb) (state : State) → IsStateOf system e.cube d state → CanReach system d state) }
    ensures hit { (system : SystemParts) (budget : ℕ) (base : List Problem) (journal : List Event) (s : CoreParts) → IsSystem system
        → Replays system budget base journal s → (f : FoundParts) → s.hit ≡ Some f
        → IsFormula system f.cube × ((d : RawDb) (state : State) → IsStateOf system f.cube d state → CanReach system d state) }
    ensures spill { (system : SystemParts) (budget : ℕ) (base : List Problem) (journal : List Event) (s : CoreParts) → IsSystem system
        → Replays system budget base journal s → (f : FoundParts) → s.spill ≡ Some f
        → IsFormula system f.cube × ((d : RawDb) (state : State) → IsStateOf system f.cube d state → CanReach system d state) }
{}

/// No initial state meets an entry, the spill or the base, and some initial state meets the hit.
pub fn only_the_hit_is_met_at_the_start()
    ensures entry { (system : SystemParts) (budget : ℕ) (base : List Problem) (journal : List Event) (s : CoreParts) → Replays system budget base journal s
        → (i : ℕ) (e : EntryParts) → IsEntry s i e → NoneIsInitial system e.cube }
    ensures spill { (system : SystemParts) (budget : ℕ) (base : List Problem) (journal : List Event) (s : CoreParts) → Replays system budget base journal s
        → (f : FoundParts) → s.spill ≡ Some f → NoneIsInitial system f.cube }
    ensures base { (system : SystemParts) (budget : ℕ) (base : List Problem) (journal : List Event) (s : CoreParts) → Replays system budget base journal s
        → All (NoneIsInitial system) s.base }
    ensures hit { (system : SystemParts) (budget : ℕ) (base : List Problem) (journal : List Event) (s : CoreParts) → Replays system budget base journal s
        → (f : FoundParts) → s.hit ≡ Some f → SomeIsInitial system f.cube }
{}

/// Each state that leads into a done entry meets one of its submissions.
pub fn done_entries_are_worked_out()
    ensures { (system : SystemParts) (budget : ℕ) (base : List Problem) (journal : List Event) (s : CoreParts) → Replays system budget base journal s
        → (i : ℕ) (e : EntryParts) → IsEntry s i e → e.work ≡ IsDone → IsWorkedOut system e }
{}

/// Each entry has a state that meets no earlier entry and no cube of the base, and the spill has one that meets no entry and
/// no cube of the base.
pub fn each_entry_was_new()
    ensures entry { (system : SystemParts) (budget : ℕ) (base : List Problem) (journal : List Event) (s : CoreParts) → Replays system budget base journal s
        → (i : ℕ) (e : EntryParts) → IsEntry s i e → HasNewState system e.cube (take i (cubes_of s)) s.base }
    ensures spill { (system : SystemParts) (budget : ℕ) (base : List Problem) (journal : List Event) (s : CoreParts) → Replays system budget base journal s
        → (f : FoundParts) → s.spill ≡ Some f → HasNewState system f.cube (cubes_of s) s.base }
{}

/// The cube of an entry, and of the spill, that comes by a transition from another entry has at most as many rows as that
/// entry and the transition's row parameters together; and whichever of its literals is left out, what remains has a state
/// that does not lead by the transition into that entry.
pub fn each_cube_is_tight()
    ensures entry_rows { (system : SystemParts) (budget : ℕ) (base : List Problem) (journal : List Event) (s : CoreParts) → Replays system budget base journal s
        → (i from transition : ℕ) (e target : EntryParts) (t : Transition) → IsEntry s i e → e.origin ≡ Step from transition → IsEntry s from target
        → slice_get system.transitions transition ≡ Some t → length e.cube.rows ≤ length target.cube.rows + length t.rows }
    ensures entry_literals { (system : SystemParts) (budget : ℕ) (base : List Problem) (journal : List Event) (s : CoreParts) → Replays system budget base journal s
        → (i from transition : ℕ) (e target : EntryParts) (k : ℕ) → IsEntry s i e → e.origin ≡ Step from transition → IsEntry s from target
        → k < length e.cube.literals
        → (d : RawDb) × (state : State) × IsStateOf system (without k e.cube) d state × ¬ Leads system d state transition target.cube }
    ensures spill_rows { (system : SystemParts) (budget : ℕ) (base : List Problem) (journal : List Event) (s : CoreParts) → Replays system budget base journal s
        → (from transition : ℕ) (f : FoundParts) (target : EntryParts) (t : Transition) → s.spill ≡ Some f → f.origin ≡ Step from transition → IsEntry s from target
        → slice_get system.transitions transition ≡ Some t → length f.cube.rows ≤ length target.cube.rows + length t.rows }
    ensures spill_literals { (system : SystemParts) (budget : ℕ) (base : List Problem) (journal : List Event) (s : CoreParts) → Replays system budget base journal s
        → (from transition : ℕ) (f : FoundParts) (target : EntryParts) (k : ℕ) → s.spill ≡ Some f → f.origin ≡ Step from transition → IsEntry s from target
        → k < length f.cube.literals
        → (d : RawDb) × (state : State) × IsStateOf system (without k f.cube) d state × ¬ Leads system d state transition target.cube }
{}

/// The entries are at most the budget, and number it where a spill stands.
pub fn entries_stay_within_the_budget()
    ensures few { (system : SystemParts) (budget : ℕ) (base : List Problem) (journal : List Event) (s : CoreParts) → Replays system budget base journal s
        → length s.entries ≤ budget }
    ensures spill { (system : SystemParts) (budget : ℕ) (base : List Problem) (journal : List Event) (s : CoreParts) → Replays system budget base journal s
        → (f : FoundParts) → s.spill ≡ Some f → length s.entries ≡ budget }
{}

/// At quiet each state that can reach a goal meets a kept entry or the base; with an empty base these are the states that
/// can. The cubes of the kept entries and the base are then an invariant.
pub fn at_quiet_the_kept_entries_are_what_can_reach()
    ensures covered { (system : SystemParts) (budget : ℕ) (base : List Problem) (journal : List Event) (s : CoreParts) → IsSystem system
        → Replays system budget base journal s → IsQuiet s
        → (d : RawDb) (state : State) → IsStateIn system d state → CanReach system d state → IsCovered s d state }
    ensures reach { (system : SystemParts) (budget : ℕ) (journal : List Event) (s : CoreParts) → IsSystem system
        → Replays system budget [] journal s → IsQuiet s
        → (d : RawDb) (state : State) → IsStateIn system d state → (IsCovered s d state ↔ CanReach system d state) }
    ensures invariant { (system : SystemParts) (budget : ℕ) (base : List Problem) (journal : List Event) (s : CoreParts) → IsSystem system
        → Replays system budget base journal s → IsQuiet s → IsInvariant system (kept_cubes s ++ base) }
    ensures listed { (s : CoreParts) (d : RawDb) (state : State) → (IsCovered s d state ↔ MeetsAny d state (kept_cubes s ++ s.base)) }
{}

/// A hit stands exactly where the journal has one, and so do a spill and the report of idleness.
pub fn what_stands_was_recorded()
    ensures idle { (system : SystemParts) (budget : ℕ) (base : List Problem) (journal : List Event) (s : CoreParts)
        → Replays system budget base journal s → ((s.reported ≡ true) ↔ Any IsIdle journal) }
    ensures hit { (system : SystemParts) (budget : ℕ) (base : List Problem) (journal : List Event) (s : CoreParts)
        → Replays system budget base journal s → (((f : FoundParts) × (s.hit ≡ Some f)) ↔ Any IsHit journal) }
    ensures spill { (system : SystemParts) (budget : ℕ) (base : List Problem) (journal : List Event) (s : CoreParts)
        → Replays system budget base journal s → (((f : FoundParts) × (s.spill ≡ Some f)) ↔ Any IsSpill journal) }
{}
