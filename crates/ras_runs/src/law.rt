ghost use Rattle.std.specs.Prelude.{◌≡◌, ◌↔◌, ℕ, List, Ok, Err};
ghost use Rattle.ras_logic.specs.declared.raw_db.RawDb.{RawDb};
ghost use Rattle.ras_steps.specs.declared.run.Run.{Run};
ghost use Rattle.ras_lines.specs.Faults.{IsMisfit};
ghost use Rattle.ras_runs.specs.DatabaseTexts.{IsDatabaseFront, BeginsWithDatabase};
ghost use Rattle.ras_runs.specs.RunTexts.{IsRunFront, BeginsWithRun};
ghost use Rattle.ras_runs.specs.Reading.{database, run};

/// What is read is the database whose lines come first. Where none is read, what is left begins with the first line with
/// which no database goes on, or nothing is left and lines are missing.
pub fn databases_are_read_exactly()
    ensures found { (lines behind : List (List ℕ)) (d : RawDb) → (database lines ≡ Ok (d, behind)) ↔ IsDatabaseFront lines d behind }
    ensures misfit { (lines left : List (List ℕ)) → database lines ≡ Err left → IsMisfit BeginsWithDatabase lines left }
{}

/// What is read is the run whose lines come first. Where none is read, what is left begins with the first line with which no
/// run goes on, or nothing is left and lines are missing.
pub fn runs_are_read_exactly()
    ensures found { (lines behind : List (List ℕ)) (r : Run) → (run lines ≡ Ok (r, behind)) ↔ IsRunFront lines r behind }
    ensures misfit { (lines left : List (List ℕ)) → run lines ≡ Err left → IsMisfit BeginsWithRun lines left }
{}
