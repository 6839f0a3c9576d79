//! What makes the values of this crate those that a file denotes, as functions that do nothing.

ghost use Rattle.std.specs.Prelude.{◌≡◌, ℕ, List, Some, None, position};
ghost use Rattle.std.specs.Str.{bytes_eq};
ghost use Rattle.ras_syntax.specs.Grammar.{Text};
ghost use Rattle.ras_names.specs.Placed as placed;
ghost use Rattle.ras_names.specs.Unplaced.{file_of};
ghost use Rattle.ras_names.specs.FileNames.{names_of};
ghost use Rattle.ras_names.specs.Files.{FileDenotes};
ghost use Rattle.ras_names.specs.FileChecks.{first_fault};
ghost use Rattle.ras_numbering.specs.Numbers.{number_in};
ghost use Rattle.ras_numbering.specs.FileValues.{system_value};

/// The number of a name is its first place in the list.
pub fn a_name_has_its_first_place()
    ensures { (names : List Text) (name : Text) (n : ℕ) → position (bytes_eq name) names ≡ Some n → number_in names name ≡ n }
{}

/// A file without a fault denotes its value.
pub fn a_file_without_a_fault_denotes_its_value()
    ensures { (file : placed.File) → first_fault file ≡ None → FileDenotes (file_of file) (system_value file) (names_of (file_of file)) }
{}
