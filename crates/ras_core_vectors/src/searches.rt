ghost use Rattle.std.specs.Prelude.{◌≡◌, [], ◌∷◌};
ghost use Rattle.ras_core.specs.CoreStates.{IsQuiet};
ghost use Rattle.ras_core.specs.Journals.{IsLawful, replay_from, first_state};
ghost use Rattle.ras_core.specs.Covered.{kept_cubes};
ghost use Rattle.ras_vectors.specs.Small.{still, unset_is_unsafe, two, is_b, is_c};
ghost use Rattle.ras_core_vectors.specs.Searches.{still_journal, still_last, two_journal, two_last, spill_journal, spill_last, hit_journal, hit_last, away, away_journal, away_last, not_a};

/// The smallest safe system: the goal is admitted, claimed and done, and the search is idle.
pub fn the_smallest_search()
    ensures lawful { IsLawful still 1 [] still_journal }
    ensures state { replay_from (first_state still []) still_journal ≡ still_last }
    ensures quiet { IsQuiet still_last }
{}

/// The goal is admitted and worked on, the cube before it is admitted and worked on, and then the search is idle.
pub fn a_search_of_two_entries()
    ensures lawful { IsLawful two 2 [] two_journal }
    ensures state { replay_from (first_state two []) two_journal ≡ two_last }
    ensures quiet { IsQuiet two_last }
    ensures kept { kept_cubes two_last ≡ is_c ∷ is_b ∷ [] }
{}

/// An entry is dropped, another is given back and claimed again, and a cube is skipped.
pub fn a_search_that_drops_and_skips()
    ensures lawful { IsLawful away 2 [] away_journal }
    ensures state { replay_from (first_state away []) away_journal ≡ away_last }
    ensures quiet { IsQuiet away_last }
    ensures kept { kept_cubes away_last ≡ not_a ∷ [] }
{}

/// An initial state meets the goal.
pub fn a_search_that_hits()
    ensures lawful { IsLawful unset_is_unsafe 1 [] hit_journal }
    ensures state { replay_from (first_state unset_is_unsafe []) hit_journal ≡ hit_last }
    ensures open { ¬ IsQuiet hit_last }
{}

/// With a budget of one entry, the cube before it is the spill.
pub fn a_search_that_spills()
    ensures lawful { IsLawful two 1 [] spill_journal }
    ensures state { replay_from (first_state two []) spill_journal ≡ spill_last }
    ensures open { ¬ IsQuiet spill_last }
{}
