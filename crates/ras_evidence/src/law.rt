ghost use Rattle.std.specs.Prelude.{◌≡◌, ◌⊎◌, ℕ, List};
ghost use Rattle.ras_evidence.specs.declared.value.Evidence.{Evidence};
ghost use Rattle.ras_evidence.specs.declared.fault.EvidenceFault.{EvidenceFault};
ghost use Rattle.ras_evidence.specs.EvidenceTexts.{Told, IsTextOf, IsEvidenceText};
ghost use Rattle.ras_evidence.specs.EvidenceFaults.{IsFirstFault};

/// Bytes are the text of one evidence at most, of whatever kind.
pub fn bytes_have_one_evidence()
    ensures { (bytes : List ℕ) (e d : Evidence) → IsEvidenceText bytes e → IsEvidenceText bytes d → e ≡ d }
{}

/// Bytes are the text of one evidence and one journal at most.
pub fn bytes_have_one_text()
    ensures { (bytes : List ℕ) (t u : Told) → IsTextOf bytes t → IsTextOf bytes u → t ≡ u }
{}

/// Bytes have one first fault at most.
pub fn bytes_have_one_first_fault()
    ensures { (bytes : List ℕ) (f g : EvidenceFault) → IsFirstFault bytes f → IsFirstFault bytes g → f ≡ g }
{}

/// The text of an evidence has no fault.
pub fn a_text_has_no_fault()
    ensures { (bytes : List ℕ) (e : Evidence) (f : EvidenceFault) → IsEvidenceText bytes e → IsFirstFault bytes f → ⊥ }
{}

/// Any bytes are the text of an evidence, or have a first fault.
pub fn bytes_are_a_text_or_have_a_fault()
    ensures { (bytes : List ℕ) → ((e : Evidence) × IsEvidenceText bytes e) ⊎ ((f : EvidenceFault) × IsFirstFault bytes f) }
{}
