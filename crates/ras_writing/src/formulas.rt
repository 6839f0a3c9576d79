ghost use Rattle.std.specs.Prelude.{◌≡◌, ◌++◌, List, OnOk};
ghost use Rattle.std.specs.Fmt.{decimal};
ghost use Rattle.ras_lines.specs.Words.{base_word};
ghost use Rattle.ras_writing.specs.Pieces as piece;

use crate::put::{Written, put_all, put_counted};
use ras_logic::{Base, Cube, FunId, Literal, RelId, Shared, Term};
use ras_text::{put, put_number, put_word};
use std::alloc::AllocError;

impl Written for FunId {
    ghost text = { piece.function };

    fn write(&self, out: &mut Vec<u8>) -> Result<(), AllocError> {
        put(out, b"/")?;
        put_number(out, u64::from(self.n))
    }
}

impl Written for RelId {
    ghost text = { piece.relation };

    fn write(&self, out: &mut Vec<u8>) -> Result<(), AllocError> {
        put_word(out, u64::from(self.n))
    }
}

/// A letter and a number.
fn put_named(out: &mut Vec<u8>, letter: &[u8], number: u16) -> Result<(), AllocError>
    ensures { OnOk result (out.new.items ≡ out.old.items ++ (letter.now ++ decimal number)) }
{
    put(out, letter)?;
    put_number(out, u64::from(number))
}

fn put_base(out: &mut Vec<u8>, base: Base) -> Result<(), AllocError>
    ensures { OnOk result (out.new.items ≡ out.old.items ++ base_word base) }
{
    match base {
        Base::Var(var) => put_named(out, b"v", var.n),
        Base::Cell { row, column } => {
            put_named(out, b"r", row)?;
            put_named(out, b".", column)
        }
        Base::Constant(constant) => put_named(out, b"c", constant.n),
        Base::Undef(sort) => put_named(out, b"u", sort.n),
        Base::Param(_) => Ok(()),
    }
}

fn put_term(out: &mut Vec<u8>, term: &Term) -> Result<(), AllocError>
    ensures { OnOk result (out.new.items ≡ out.old.items ++ piece.term term.now) }
{
    put_base(out, term.base)?;
    put_all(out, term.path.as_slice())
}

impl Written for Literal {
    ghost text = { piece.literal };

    fn write(&self, out: &mut Vec<u8>) -> Result<(), AllocError> {
        let Literal::Equal { left, right, same } = self;
        put(out, b" ")?;
        put_term(out, left)?;
        if *same {
            put(out, b"=")?;
        } else {
            put(out, b"!=")?;
        }
        put_term(out, right)
    }
}

/// The words of a cube, without the end of the line.
pub fn put_cube(out: &mut Vec<u8>, cube: &Cube) -> Result<(), AllocError>
    ensures { OnOk result (out.new.items ≡ out.old.items ++ piece.cube_words cube.now) }
{
    put(out, b"cube")?;
    put_counted(out, cube.rows())?;
    put_counted(out, cube.literals())
}

impl Written for Cube {
    ghost text = { piece.cube };

    fn write(&self, out: &mut Vec<u8>) -> Result<(), AllocError> {
        put_cube(out, self)?;
        put(out, b"\n")
    }
}

impl Written for Shared<Cube> {
    ghost text = { piece.cube };

    fn write(&self, out: &mut Vec<u8>) -> Result<(), AllocError> {
        self.get().write(out)
    }
}
