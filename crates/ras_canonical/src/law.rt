//! What makes the canonical text one that is read back, as functions that do nothing.

ghost use Rattle.std.specs.Prelude.{◌≡◌, ℕ, List};
ghost use Rattle.ras_lexer.specs.declared.token.Token.{Token};
ghost use Rattle.ras_lexer.specs.Pieces.{IsTokens};
ghost use Rattle.ras_system.specs.Systems.{SystemParts};
ghost use Rattle.ras_syntax.specs.Grammar as grammar;
ghost use Rattle.ras_syntax.specs.Places.{words};
ghost use Rattle.ras_names.specs.declared.names.Names as declared;
ghost use Rattle.ras_names.specs.Files.{FileDenotes};
ghost use Rattle.ras_names.specs.Canonical.{canonical_text};
ghost use Rattle.ras_names.specs.Texts.{Denotes};

/// The canonical text of a file that some bytes spell is tokens again, and these spell the same file.
pub fn a_canonical_text_spells_its_file()
    ensures { (bytes : List ℕ) (tokens : List Token) (file : grammar.File) → IsTokens bytes tokens → words tokens ≡ grammar.file_words file
        → (again : List Token) × IsTokens (canonical_text file) again × (words again ≡ grammar.file_words file) }
{}

/// The canonical text of a system with its names denotes them, where any text does.
pub fn a_canonical_text_denotes_the_same()
    ensures { (bytes : List ℕ) (file : grammar.File) (system : SystemParts) (names : declared.Names) → Denotes bytes system names → FileDenotes file system names
        → Denotes (canonical_text file) system names }
{}
