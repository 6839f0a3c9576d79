//! What makes the clause of `print` pin the bytes, as a function that does nothing.

ghost use Rattle.std.specs.Prelude.{◌≡◌};
ghost use Rattle.ras_system.specs.Systems.{SystemParts};
ghost use Rattle.ras_syntax.specs.Grammar as grammar;
ghost use Rattle.ras_names.specs.declared.names.Names as declared;
ghost use Rattle.ras_names.specs.Files.{FileDenotes};
ghost use Rattle.ras_names.specs.Canonical.{canonical_text};

/// All files that denote a system with its names have one canonical text.
pub fn a_system_has_one_text()
    ensures { (file other : grammar.File) (system : SystemParts) (names : declared.Names) → FileDenotes file system names → FileDenotes other system names
        → canonical_text file ≡ canonical_text other }
{}
