ghost use Rattle.std.specs.Prelude.{◌≡◌};
ghost use Rattle.ras_lines.specs.Lines.{written};
ghost use Rattle.ras_evidence.specs.declared.fault.EvidenceFault.{EvidenceFault};
ghost use Rattle.ras_evidence.specs.EvidenceFaults.{IsFirstFault};
ghost use Rattle.ras_evidence.specs.EvidenceTexts.{Told, text_lines, IsWritableText, IsTextOf};

/// The lines of an evidence and a journal that can be written, each with its end, are their text.
pub fn a_writable_evidence_has_its_text()
    ensures { (t : Told) → IsWritableText t → IsTextOf (written (text_lines t)) t }
{}

/// What is read of the text that was written of an evidence and a journal are these, and no fault.
pub fn what_is_written_is_read_again()
    ensures value { (t u : Told) → IsWritableText t → IsTextOf (written (text_lines t)) u → u ≡ t }
    ensures no_fault { (t : Told) (f : EvidenceFault) → IsWritableText t → IsFirstFault (written (text_lines t)) f → ⊥ }
{}
