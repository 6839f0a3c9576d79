ghost use Rattle.std.specs.Prelude.{◌≡◌, ◌<◌, ◌^◌, length, map, slice_get, Some, IfOk, IfErr};
ghost use Rattle.ras_names.specs.Placed as placed;
ghost use Rattle.ras_names.specs.Texts.{Denotes};
ghost use Rattle.ras_names.specs.Faults.{IsFirstFault};
ghost use Rattle.ras_lexer.specs.Pieces.{IsTokens};
ghost use Rattle.ras_scope.specs.Placing.{placed_function};
ghost use Rattle.ras_file.specs.FileFaults.{lexical_kind, cycle_of, IsNamesFault, IsErrorOf};

use crate::fault::{FileError, FileFault, FileKind};
use ras_elab::law::a_tree_is_a_placed_file;
use ras_elab::{Spec, SpecError, elaborate};
use ras_lexer::{LexError, LexFault, LexKind, Token, tokens};
use ras_logic::FunId;
use ras_names::{SpecFault, SpecKind};
use ras_syntax::law::words_determine_the_file;
use ras_syntax::{Function, SyntaxError, Tree, parse};
use std::alloc::Global;

/// The kind of a fault of the bytes.
fn lexical(kind: LexKind) -> FileKind
    ensures { result ≡ lexical_kind kind }
{
    match kind {
        LexKind::BadByte => FileKind::BadByte,
        LexKind::LongName => FileKind::LongName,
        LexKind::BadUtf8 => FileKind::BadUtf8,
    }
}

/// The kind of a cycle that the function of this number closes.
fn cycle(functions: &[Function], function: FunId) -> FileKind
    requires { function.n < length functions.now }
    ensures { (f : placed.Function) → slice_get (map placed_function functions.now) function.n ≡ Some f → result ≡ cycle_of f }
{
    let closing = &functions[function.n as usize];
    FileKind::Cycle {
        source: closing.source.text,
        target: closing.target.text,
    }
}

/// The fault of a file whose first fault of names and sorts is this one.
fn of_names(tree: &Tree, first: SpecFault) -> FileFault
    requires { IsFirstFault tree.now first }
    ensures { IsNamesFault tree.now result }
{
    a_tree_is_a_placed_file();
    words_determine_the_file();
    let functions = tree.file.functions.as_slice();
    let kind = match first.kind {
        SpecKind::DuplicateName => FileKind::DuplicateName,
        SpecKind::UnknownName => FileKind::UnknownName,
        SpecKind::WrongSort => FileKind::WrongSort,
        SpecKind::Cycle { function } => cycle(functions, function),
        SpecKind::TooMany => FileKind::TooMany,
        SpecKind::TooWide => FileKind::TooWide,
        SpecKind::RepeatedTarget => FileKind::RepeatedTarget,
    };
    FileFault { at: first.at, kind }
}

/// The tree of a file of the grammar.
fn read_tree(alloc: Global, bytes: &[u8]) -> Result<Tree, FileError>
    requires { length bytes.now < 2 ^ 32 }
    ensures tree { IfOk result (IsTokens bytes.now) }
    ensures fault { IfErr result (IsErrorOf bytes.now) }
{
    let tokens = match tokens(alloc, bytes) {
        Ok(tokens) => tokens,
        Err(LexError::Fault(LexFault { at, kind })) => {
            let kind = lexical(kind);
            return Err(FileError::Fault(FileFault { at, kind }));
        }
        Err(LexError::Memory(error)) => return Err(FileError::Memory(error)),
    };
    match parse(alloc, tokens.as_slice(), bytes.len() as u32) {
        Ok(tree) => Ok(tree),
        Err(SyntaxError::Fault(fault)) => Err(FileError::Fault(FileFault {
            at: fault.at,
            kind: FileKind::Syntax,
        })),
        Err(SyntaxError::Memory(error)) => Err(FileError::Memory(error)),
    }
}

/// The system that a specification file denotes with its names, or the file's first fault: one of its bytes before one of its
/// tokens, and that before one of names and sorts. Want of memory may come at any bytes.
pub fn read_file(alloc: Global, bytes: &[u8]) -> Result<Spec, FileError>
    requires { length bytes.now < 2 ^ 32 }
    ensures spec { IfOk result (λ s. Denotes bytes.now s.system s.names) }
    ensures fault { IfErr result (IsErrorOf bytes.now) }
{
    let tree = read_tree(alloc, bytes)?;
    match elaborate(alloc, &tree) {
        Ok(spec) => Ok(spec),
        Err(SpecError::Fault(first)) => Err(FileError::Fault(of_names(&tree, first))),
        Err(SpecError::Memory(error)) => Err(FileError::Memory(error)),
    }
}
