ghost use Rattle.std.specs.Prelude.{◌≡◌, [], codes};
ghost use Rattle.ras_names.specs.Canonical.{canonical_text, line, whole_case};
ghost use Rattle.ras_names.specs.Unplaced.{file_of, case_of};
ghost use Rattle.ras_names.specs.Placed.{always};
ghost use Rattle.ras_names_vectors.specs.Words.{named, name, case};
ghost use Rattle.ras_names_vectors.specs.Processes.{hiring_text, desk_text, nullable_text};
ghost use Rattle.ras_names_vectors.specs.Canonicals.{hiring_canonical, desk_canonical, nullable_canonical};

/// Files and their canonical texts; a file with nothing but its name; a case without assignments.
pub fn canonical_texts()
    ensures hiring { canonical_text (file_of hiring_text) ≡ hiring_canonical }
    ensures desk { canonical_text (file_of desk_text) ≡ desk_canonical }
    ensures nullable { canonical_text (file_of nullable_text) ≡ nullable_canonical }
    ensures nothing { canonical_text (file_of (named (name 7 "s"))) ≡ line (codes "system s;") }
    ensures case { whole_case (case_of (case 0 (always 0) [])) ≡ line (codes "    if true { }") }
{}
