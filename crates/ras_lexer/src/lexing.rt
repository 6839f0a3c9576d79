ghost use Rattle.std.specs.Prelude.{◌≡◌, ◌<◌, ◌^◌, Err, List, length};
ghost use Rattle.ras_lexer.specs.Pieces.{IsTokens};
ghost use Rattle.ras_lexer.specs.Lexing.{Lexes};
ghost use Rattle.ras_lexer.specs.declared.token.Token as declared;

use crate::fault::{LexError, LexFault};
use crate::scanning::{Front, scan};
use crate::token::Token;
use std::alloc::Global;

/// The tokens of a text, in the order of their places. Blanks and comments separate them, and the longest word is taken.
/// Where the text has a fault, wherever it stands, the first is named and no tokens are given.
pub fn tokens(alloc: Global, bytes: &[u8]) -> Result<Vec<Token>, LexError>
    requires { length bytes.now < 2 ^ 32 }

    // What is read is the token list of the text, and a fault is its first.
    ensures cases { Lexes bytes.now result }

    // A text that has a token list is read, unless memory runs out.
    ensures only { (tokens : List declared.Token) → IsTokens bytes.now tokens → (fault : LexFault) → result ≡ Err (LexError.Fault fault) → ⊥ }
{
    let mut tokens = Vec::new(alloc);
    let mut rest = bytes;
    while !rest.is_empty() {
        let at = bytes.len() - rest.len();
        let found = match scan(rest) {
            Ok(found) => found,
            Err(wrong) => {
                return Err(LexError::Fault(LexFault {
                    at: (at + wrong.before) as u32,
                    kind: wrong.kind,
                }));
            }
        };
        match &found {
            Front::Space(_) => {}
            Front::Word(word) => tokens.push(Token {
                at: at as u32,
                word: *word,
            })?,
        }
        rest = rest.split_at(found.length()).1;
    }
    Ok(tokens)
}
