ghost use Rattle.std.specs.Prelude.{◌≡◌, None};
ghost use Rattle.ras_vectors.specs.Hiring.{hiring};
ghost use Rattle.ras_vectors.specs.Desk.{desk};
ghost use Rattle.ras_names.specs.Unplaced.{file_of};
ghost use Rattle.ras_names.specs.Files.{FileDenotes};
ghost use Rattle.ras_names.specs.FileChecks.{first_fault};
ghost use Rattle.ras_numbering.specs.FileValues.{system_value};
ghost use Rattle.ras_names_vectors.specs.Processes.{hiring_text, desk_text, nullable_text};
ghost use Rattle.ras_names_vectors.specs.Denoted.{hiring_names, desk_names, nullable_system, nullable_names};

use ras_system::no_fault_is_first_exactly_in_a_system;

/// Texts that have no fault.
pub fn texts_without_a_fault()
    ensures hiring { first_fault hiring_text ≡ None }
    ensures desk { first_fault desk_text ≡ None }
    ensures nullable { first_fault nullable_text ≡ None }
{}

/// What these texts denote.
pub fn texts_of_systems()
    ensures hiring { FileDenotes (file_of hiring_text) hiring hiring_names }
    ensures desk { FileDenotes (file_of desk_text) desk desk_names }
    ensures nullable { FileDenotes (file_of nullable_text) nullable_system nullable_names }
{
    no_fault_is_first_exactly_in_a_system();
}

/// The same systems by the numbers of the names.
pub fn values_of_texts()
    ensures hiring { system_value hiring_text ≡ hiring }
    ensures desk { system_value desk_text ≡ desk }
    ensures nullable { system_value nullable_text ≡ nullable_system }
{}
