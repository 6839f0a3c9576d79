ghost use Rattle.std.specs.Prelude.{◌≡◌, Some};
ghost use Rattle.ras_system.specs.Systems.{SystemParts};
ghost use Rattle.ras_names.specs.declared.names.Names as declared;
ghost use Rattle.ras_names.specs.declared.spec_fault.SpecKind.TheVariants.{Cycle, DuplicateName, RepeatedTarget, WrongSort};
ghost use Rattle.ras_names.specs.FileChecks.{first_fault};
ghost use Rattle.ras_names.specs.Unplaced.{file_of};
ghost use Rattle.ras_names.specs.Files.{FileDenotes};
ghost use Rattle.ras_names_vectors.specs.Words.{fault};
ghost use Rattle.ras_names_vectors.specs.Wrong.{sort_twice, cycle_of_two, undef_on_both_sides, variable_twice};

use ras_names::law::a_file_with_a_fault_denotes_nothing;

/// The first faults of texts, with their places.
pub fn first_faults()
    ensures duplicate { first_fault sort_twice ≡ Some (fault 23 DuplicateName) }
    ensures cycle { first_fault cycle_of_two ≡ Some (fault 50 (Cycle (record { n = 1 }))) }
    ensures undef { first_fault undef_on_both_sides ≡ Some (fault 30 WrongSort) }
    ensures target { first_fault variable_twice ≡ Some (fault 58 RepeatedTarget) }
{}

/// These texts denote nothing.
pub fn texts_that_denote_nothing()
    ensures duplicate { (system : SystemParts) (names : declared.Names) → ¬ FileDenotes (file_of sort_twice) system names }
    ensures cycle { (system : SystemParts) (names : declared.Names) → ¬ FileDenotes (file_of cycle_of_two) system names }
    ensures undef { (system : SystemParts) (names : declared.Names) → ¬ FileDenotes (file_of undef_on_both_sides) system names }
    ensures target { (system : SystemParts) (names : declared.Names) → ¬ FileDenotes (file_of variable_twice) system names }
{
    a_file_with_a_fault_denotes_nothing();
}
