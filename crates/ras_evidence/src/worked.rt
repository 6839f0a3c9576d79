ghost use Rattle.ras_evidence.specs.declared.fault.EvidenceKind.TheVariants as kind;
ghost use Rattle.ras_evidence.specs.EvidenceTexts.{IsEvidenceText};
ghost use Rattle.ras_evidence.specs.EvidenceFaults.{IsFirstFault};
ghost use Rattle.ras_evidence.specs.Worked.{wrong_owner_text, wrong_owner, spent_text, spent, cut_text, no_budget_text, fault_at};

/// The texts of a run of one step, and of a spent budget of one formula.
pub fn texts_of_evidences()
    ensures a_run { IsEvidenceText wrong_owner_text wrong_owner }
    ensures a_budget { IsEvidenceText spent_text spent }
{}

/// A cube line that is not ended, and a budget of nothing.
pub fn texts_with_a_fault()
    ensures cut { IsFirstFault cut_text (fault_at 3 kind.Ended) }
    ensures no_budget { IsFirstFault no_budget_text (fault_at 2 kind.Text) }
{}
