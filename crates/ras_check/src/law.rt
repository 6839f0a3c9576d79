ghost use Rattle.std.specs.Prelude.{◌≡◌, ℕ, List};
ghost use Rattle.ras_logic.specs.declared.problem.Problem.{Problem};
ghost use Rattle.ras_logic.specs.declared.raw_db.RawDb.{RawDb};
ghost use Rattle.ras_logic.specs.declared.tree.Tree.{Tree};
ghost use Rattle.ras_system.specs.Systems.{SystemParts, IsSystem};
ghost use Rattle.ras_system.specs.Runs.{IsSafe};
ghost use Rattle.ras_steps.specs.declared.run.Run.{Run};
ghost use Rattle.ras_evidence.specs.declared.value.Evidence.{Evidence};
ghost use Rattle.ras_evidence.specs.declared.value.Evidence.TheVariants.{Safe, Unsafe};
ghost use Rattle.ras_evidence.specs.EvidenceTexts.{IsEvidenceText};
ghost use Rattle.ras_check.specs.declared.verdict.Verdict.{Verdict};
ghost use Rattle.ras_check.specs.Judging.{IsComplete, HasCubes, IsGood, AnswersCheck, HasVerdict};

/// An evidence that is read from a text is complete, as the judge asks, and its formulas are cubes.
pub fn a_text_is_complete()
    ensures complete { (bytes : List ℕ) (evidence : Evidence) → IsEvidenceText bytes evidence → IsComplete evidence }
    ensures cubes { (bytes : List ℕ) (evidence : Evidence) → IsEvidenceText bytes evidence → HasCubes evidence }
{}

/// There are no two verdicts on an evidence.
pub fn an_evidence_is_judged_in_one_way()
    ensures { (system : SystemParts) (evidence : Evidence) (verdict other : Verdict)
        → AnswersCheck system evidence verdict → AnswersCheck system evidence other → verdict ≡ other }
{
    ras_safety::a_fault_is_not_good();
    ras_safety::the_first_fault_is_one();
    ras_violation::a_fault_is_no_violation();
    ras_violation::the_first_fault_is_one();
    ras_spent::a_fault_is_not_good();
    ras_spent::the_first_fault_is_one();
}

/// Each complete evidence with cubes has a verdict for each system.
pub fn each_evidence_has_a_verdict()
    ensures { (system : SystemParts) (evidence : Evidence) → IsSystem system → IsComplete evidence → HasCubes evidence
        → HasVerdict system evidence }
{
    ras_steps::a_fault_is_no_step();
    ras_spent::no_evidence_is_without_a_verdict();
}

/// A system with an evidence of safety that is judged good is safe.
pub fn a_good_evidence_of_safety_suffices()
    ensures { (system : SystemParts) (formulas : List Problem) (trees : List Tree) → IsSystem system
        → IsGood system (Safe formulas trees) → IsSafe system }
{
    ras_backwards::a_good_evidence_suffices();
}

/// A system with an evidence of a violation that is judged good is not safe.
pub fn a_good_evidence_of_a_violation_suffices()
    ensures { (system : SystemParts) (db : RawDb) (run : Run) → IsGood system (Unsafe db run) → ¬ IsSafe system }
{
    ras_violation::a_violation_is_not_safe();
}
