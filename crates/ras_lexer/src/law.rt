//! What makes `tokens` exact, as functions that do nothing: a text has one token list or one first fault, and never both.

ghost use Rattle.std.specs.Prelude.{◌≡◌, ℕ, List};
ghost use Rattle.ras_lexer.specs.Pieces.{IsTokens, IsFirstFault, StandInOrder};
ghost use Rattle.ras_lexer.specs.declared.token.Token as token;
ghost use Rattle.ras_lexer.specs.declared.fault.LexFault as fault;

/// A text has at most one token list.
pub fn tokens_are_one()
    ensures { (text : List ℕ) (xs ys : List token.Token) → IsTokens text xs → IsTokens text ys → xs ≡ ys }
{}

/// A text has at most one first fault.
pub fn first_faults_are_one()
    ensures { (text : List ℕ) (f g : fault.LexFault) → IsFirstFault text f → IsFirstFault text g → f ≡ g }
{}

/// A text with a token list has no fault.
pub fn tokens_have_no_fault()
    ensures { (text : List ℕ) (tokens : List token.Token) (f : fault.LexFault) → IsTokens text tokens → IsFirstFault text f → ⊥ }
{}

/// The tokens of a text stand in order, and each is written where it stands.
pub fn tokens_stand_in_order()
    ensures { (text : List ℕ) (tokens : List token.Token) → IsTokens text tokens → StandInOrder text 0 tokens }
{}
