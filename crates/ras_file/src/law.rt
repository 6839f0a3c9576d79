//! What makes the reading of a file exact, as functions that do nothing: a text denotes one system with one list of names at
//! most, has one first fault at most, and never both.

ghost use Rattle.std.specs.Prelude.{◌≡◌, ℕ, List};
ghost use Rattle.ras_system.specs.Systems.{SystemParts};
ghost use Rattle.ras_names.specs.declared.names.Names as declared;
ghost use Rattle.ras_names.specs.Texts.{Denotes};
ghost use Rattle.ras_file.specs.declared.fault.FileFault as fault;
ghost use Rattle.ras_file.specs.FileFaults.{IsFileFault};

use ras_lexer::law::{
    first_faults_are_one as lexical_faults_are_one, tokens_are_one, tokens_have_no_fault,
};
use ras_names::law::{tokens_denote_one_system, tokens_with_a_fault_denote_nothing};
use ras_syntax::law::{first_faults_are_one as syntax_faults_are_one, words_determine_the_file};

/// A text denotes one system with one list of names at most.
pub fn a_text_denotes_one_system()
    ensures { (bytes : List ℕ) (system other : SystemParts) (names more : declared.Names) → Denotes bytes system names → Denotes bytes other more
        → (system ≡ other) × (names ≡ more) }
{
    tokens_are_one();
    tokens_denote_one_system();
}

/// A text has one first fault at most.
pub fn a_text_has_one_fault()
    ensures { (bytes : List ℕ) (one other : fault.FileFault) → IsFileFault bytes one → IsFileFault bytes other → one ≡ other }
{
    tokens_are_one();
    lexical_faults_are_one();
    tokens_have_no_fault();
    syntax_faults_are_one();
    words_determine_the_file();
}

/// A text with a fault denotes nothing.
pub fn a_text_with_a_fault_denotes_nothing()
    ensures { (bytes : List ℕ) (first : fault.FileFault) → IsFileFault bytes first → (system : SystemParts) (names : declared.Names) → ¬ Denotes bytes system names }
{
    tokens_are_one();
    tokens_have_no_fault();
    tokens_with_a_fault_denote_nothing();
}
