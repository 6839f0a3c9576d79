//! What makes the definitions of this crate agree, as functions that do nothing.

ghost use Rattle.std.specs.Prelude.{◌≡◌, ◌⊎◌, List, Some, None};
ghost use Rattle.ras_lexer.specs.declared.token.Token.{Token};
ghost use Rattle.ras_system.specs.Systems.{SystemParts};
ghost use Rattle.ras_syntax.specs.Grammar as grammar;
ghost use Rattle.ras_names.specs.declared.names.Names as declared;
ghost use Rattle.ras_names.specs.declared.spec_fault.SpecFault as fault;
ghost use Rattle.ras_names.specs.FileNames.{names_of};
ghost use Rattle.ras_names.specs.Files.{FileDenotes};
ghost use Rattle.ras_names.specs.Texts.{TokensDenote};
ghost use Rattle.ras_names.specs.Placed as placed;
ghost use Rattle.ras_names.specs.Unplaced.{file_of};
ghost use Rattle.ras_names.specs.PlacedTokens.{IsFileOf};
ghost use Rattle.ras_names.specs.FileChecks.{first_fault};
ghost use Rattle.ras_names.specs.Faults.{IsFirstFault};

use ras_syntax::law::words_determine_the_file;

/// A file denotes one system with one list of names at most.
pub fn a_file_denotes_one_system()
    ensures { (file : grammar.File) (system other : SystemParts) (names more : declared.Names) → FileDenotes file system names → FileDenotes file other more
        → (system ≡ other) × (names ≡ more) }
{}

/// A file with a fault denotes nothing.
pub fn a_file_with_a_fault_denotes_nothing()
    ensures { (file : placed.File) (first : fault.SpecFault) → first_fault file ≡ Some first → (system : SystemParts) (names : declared.Names)
        → ¬ FileDenotes (file_of file) system names }
{}

/// So with tokens: they denote one system with one list of names at most.
pub fn tokens_denote_one_system()
    ensures { (tokens : List Token) (system other : SystemParts) (names more : declared.Names) → TokensDenote tokens system names → TokensDenote tokens other more
        → (system ≡ other) × (names ≡ more) }
{
    words_determine_the_file();
}

/// Tokens with a first fault denote nothing.
pub fn tokens_with_a_fault_denote_nothing()
    ensures { (tokens : List Token) (first : fault.SpecFault) → IsFirstFault tokens first → (system : SystemParts) (names : declared.Names)
        → ¬ TokensDenote tokens system names }
{
    words_determine_the_file();
}

/// Tokens have one first fault at most.
pub fn first_faults_are_one()
    ensures { (tokens : List Token) (one other : fault.SpecFault) → IsFirstFault tokens one → IsFirstFault tokens other → one ≡ other }
{
    words_determine_the_file();
}

/// A file without a fault denotes a system, with its own names.
pub fn a_file_without_a_fault_denotes_a_system()
    ensures { (file : placed.File) → first_fault file ≡ None → (system : SystemParts) × FileDenotes (file_of file) system (names_of (file_of file)) }
{}

/// So with tokens that are a file: they denote a system, or they have a first fault.
pub fn tokens_denote_or_have_a_fault()
    ensures { (tokens : List Token) (file : placed.File) → IsFileOf tokens file
        → ((system : SystemParts) × (names : declared.Names) × TokensDenote tokens system names) ⊎ ((first : fault.SpecFault) × IsFirstFault tokens first) }
{}
