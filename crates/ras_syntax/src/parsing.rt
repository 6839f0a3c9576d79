ghost use Rattle.std.specs.Prelude.{◌≡◌, [], List, Err, length};
ghost use Rattle.ras_syntax.specs.Grammar.{IsFile};
ghost use Rattle.ras_syntax.specs.Machine as m;
ghost use Rattle.ras_syntax.specs.Parsing as parsing;
ghost use Rattle.ras_syntax.specs.Parsing.{Parses};
ghost use Rattle.ras_syntax.specs.Places as places;
ghost use Rattle.ras_syntax.specs.Places.{words};
ghost use Rattle.ras_syntax.specs.Reading.{Moves, Took, ReadsAll};

use crate::fault::{ReadError, SyntaxError, SyntaxFault};
use crate::reader::Reader;
use crate::tree::File;
use ras_lexer::{Fixed, Token};
use std::alloc::{AllocError, Global};
use std::marker::Model;

/// The tree of a file. Contracts see it as the list of the tokens that it was read from.
#[derive(Drop)]
pub struct Tree {
    /// The file, rule by rule of the grammar.
    pub file: File,
}

impl Model for Tree {
    ghost use Rattle.std.specs.Prelude.{List};
    ghost use Rattle.ras_lexer.specs.declared.token.Token as token;

    ghost Value = { List token.Token };

    ghost use Rattle.ras_syntax.specs.Grammar.{IsFile};
    ghost use Rattle.ras_syntax.specs.Places.{of_file, words};

    ghost view = { λ t. of_file t.file };

    ghost invariant = { λ t. IsFile (words (of_file t.file)) };
}

impl<'a> Reader<'a> {
    fn file(&mut self, alloc: Global) -> Result<File, ReadError>
        ensures reads { Moves m.start self.old.rest.now self.new.rest.now (λ x. []) result }
        ensures took { Took self.old.rest.now self.new.rest.now (λ x. places.of_file x) result }
    {
        let at = self.expect(Fixed::System)?;
        let name = self.name()?;
        let semicolon = self.expect(Fixed::Semicolon)?;
        let sorts = self.sorts(alloc)?;
        let functions = self.functions(alloc)?;
        let constants = self.constants(alloc)?;
        let variables = self.variables(alloc)?;
        let relations = self.relations(alloc)?;
        let steps = self.steps(alloc)?;
        let goals = self.goals(alloc)?;
        Ok(File {
            at,
            name,
            semicolon,
            sorts,
            functions,
            constants,
            variables,
            relations,
            steps,
            goals,
        })
    }
}

/// Reads the file, which has to be all of the tokens.
fn whole(alloc: Global, tokens: &[Token]) -> Result<File, ReadError>
    ensures { ReadsAll m.start tokens.now (λ x. places.of_file x) result }
{
    let mut reader = Reader { rest: tokens };
    let file = reader.file(alloc)?;
    let rest = reader.rest;
    if !rest.is_empty() {
        return Err(ReadError::Fault(rest.len()));
    }
    Ok(file)
}

/// The tree of all the tokens of a text, whose length in bytes is the place of a fault at its end.
/// Words alone decide whether they are a file; their places are kept as they are. A term is read in a loop, however deep.
pub fn parse(alloc: Global, tokens: &[Token], length: u32) -> Result<Tree, SyntaxError>
    // A tree is that of the tokens, which are a file. A fault is at the first token with which no file goes on.
    ensures cases { Parses tokens.now length result }

    // A file is read, unless memory runs out.
    ensures only { IsFile (words tokens.now) → (fault : SyntaxFault) → result ≡ Err
        (SyntaxError.Fault fault) → ⊥ }
{
    match whole(alloc, tokens) {
        Ok(file) => Ok(Tree { file }),
        Err(ReadError::Memory) => Err(SyntaxError::Memory(AllocError)),
        Err(ReadError::Fault(left)) => {
            let at = place(tokens, length, tokens.len() - left);
            Err(SyntaxError::Fault(SyntaxFault { at }))
        }
    }
}

fn place(tokens: &[Token], length: u32, index: usize) -> u32
    ensures { result ≡ parsing.place tokens.now length index }
{
    if index < tokens.len() {
        tokens[index].at
    } else {
        length
    }
}
