ghost use Rattle.std.specs.Prelude.{◌≡◌, ◌↔◌, ℕ, List, Ok, Err};
ghost use Rattle.ras_core.specs.declared.event.Event.{Event};
ghost use Rattle.ras_lines.specs.Faults.{IsMisfit};
ghost use Rattle.ras_journals.specs.JournalTexts.{IsJournalFront, BeginsWithJournal};
ghost use Rattle.ras_journals.specs.JournalReading.{journal};

/// What is read is the journal whose lines come first. Where none is read, what is left begins with the first line with which
/// no journal goes on, or nothing is left and lines are missing.
pub fn journals_are_read_exactly()
    ensures found { (lines behind : List (List ℕ)) (events : List Event) → (journal lines ≡ Ok (events, behind)) ↔ IsJournalFront lines events behind }
    ensures misfit { (lines left : List (List ℕ)) → journal lines ≡ Err left → IsMisfit BeginsWithJournal lines left }
{}
