//! What makes the grammar exact, as functions that do nothing: words have one file or one first fault.

ghost use Rattle.std.specs.Prelude.{◌≡◌, ℕ, List};
ghost use Rattle.ras_lexer.specs.declared.token.Word as word;
ghost use Rattle.ras_syntax.specs.Grammar as grammar;
ghost use Rattle.ras_syntax.specs.Parsing.{IsFirstFault};

/// The words of a file of the grammar are those of no other.
pub fn words_determine_the_file()
    ensures { (f g : grammar.File) → grammar.file_words f ≡ grammar.file_words g → f ≡ g }
{}

/// Words have at most one first fault; a file of the grammar has none.
pub fn first_faults_are_one()
    ensures { (words : List word.Word) (j k : ℕ) → IsFirstFault words j → IsFirstFault words k → j ≡ k }
{}
