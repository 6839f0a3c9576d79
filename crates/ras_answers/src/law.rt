//! Each text denotes a system or has a first fault, and so at each layer below: no text is without an answer.

ghost use Rattle.std.specs.Prelude.{◌⊎◌, ℕ, List};
ghost use Rattle.ras_lexer.specs.declared.token.Token as token;
ghost use Rattle.ras_lexer.specs.declared.fault.LexFault as lex_fault;
ghost use Rattle.ras_lexer.specs.Pieces as lexer;
ghost use Rattle.ras_lexer.specs.Pieces.{IsTokens};
ghost use Rattle.ras_syntax.specs.Grammar.{IsFile};
ghost use Rattle.ras_syntax.specs.Parsing as syntax;
ghost use Rattle.ras_syntax.specs.Places.{words};
ghost use Rattle.ras_system.specs.Systems.{SystemParts};
ghost use Rattle.ras_names.specs.declared.names.Names as declared;
ghost use Rattle.ras_names.specs.Placed as placed;
ghost use Rattle.ras_names.specs.PlacedTokens.{IsFileOf};
ghost use Rattle.ras_names.specs.Texts.{Denotes};
ghost use Rattle.ras_file.specs.declared.fault.FileFault as fault;
ghost use Rattle.ras_file.specs.FileFaults.{IsFileFault};

use ras_names::law::tokens_denote_or_have_a_fault;

/// Each text has tokens or a first fault.
pub fn a_text_has_tokens_or_a_fault()
    ensures { (bytes : List ℕ) → ((tokens : List token.Token) × IsTokens bytes tokens) ⊎ ((first : lex_fault.LexFault) × lexer.IsFirstFault bytes first) }
{}

/// Tokens are a file of the grammar or have a first fault.
pub fn tokens_are_a_file_or_have_a_fault()
    ensures { (tokens : List token.Token) → IsFile (words tokens) ⊎ ((first : ℕ) × syntax.IsFirstFault (words tokens) first) }
{}

/// Tokens that are a file of the grammar are that file with its places.
pub fn a_file_has_places()
    ensures { (tokens : List token.Token) → IsFile (words tokens) → (file : placed.File) × IsFileOf tokens file }
{}

/// Each text denotes a system with its names or has a first fault.
pub fn a_text_denotes_a_system_or_has_a_fault()
    ensures { (bytes : List ℕ) → ((system : SystemParts) × (names : declared.Names) × Denotes bytes system names) ⊎ ((first : fault.FileFault) × IsFileFault bytes first) }
{
    a_text_has_tokens_or_a_fault();
    tokens_are_a_file_or_have_a_fault();
    a_file_has_places();
    tokens_denote_or_have_a_fault();
}

/// A text that denotes nothing has a first fault.
pub fn a_text_that_denotes_nothing_has_a_fault()
    ensures { (bytes : List ℕ) → ((system : SystemParts) (names : declared.Names) → ¬ Denotes bytes system names) → (first : fault.FileFault) × IsFileFault bytes first }
{
    a_text_denotes_a_system_or_has_a_fault();
}
