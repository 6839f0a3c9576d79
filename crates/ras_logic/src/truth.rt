//! What terms stand for in a database, and whether literals hold there. What does not fit the database or the values counts as
//! undef, 0, as the definitions say. No call takes memory.
ghost use Rattle.std.specs.Prelude.{◌≡◌, get_or};
ghost use Rattle.ras_logic.specs.Databases.{image as the_image, constant_of};
ghost use Rattle.ras_logic.specs.Truth.{value_of_base as the_base, image_along as the_end, value as the_value, holds as the_truth};

use crate::ids::{ConstId, FunId};
use crate::literal::Literal;
use crate::raw_db::RawDb;
use crate::term::{Base, Term};
use crate::values::Values;

/// What a list holds at a place, and 0 past its end.
pub fn number_at(numbers: &[u32], place: usize) -> u32
    ensures { result ≡ get_or numbers.now place 0 }
{
    numbers.get(place).copied().unwrap_or(0)
}

/// Where variables, the cells of named rows and data parameters have their values.
pub trait Valued {
    ghost use Rattle.std.specs.Prelude.{◌≡◌, [], get_or};
    ghost use Rattle.ras_logic.specs.declared.values.Values.{Values};

    // the values, wherever they stand
    ghost seen: { Self → Values };

    /// The value of a variable.
    fn var(&self, number: usize) -> u32
        ensures { result ≡ get_or (seen self.now).vars number 0 };

    /// The value of a cell of a named row.
    fn cell(&self, row: usize, column: usize) -> u32
        ensures { result ≡ get_or (get_or (seen self.now).rows row []) column 0 };

    /// The value of a data parameter.
    fn param(&self, number: usize) -> u32
        ensures { result ≡ get_or (seen self.now).params number 0 };
}

impl Valued for Values {
    ghost seen = { λ v. v };

    fn var(&self, number: usize) -> u32 {
        number_at(self.vars.as_slice(), number)
    }

    fn cell(&self, row: usize, column: usize) -> u32 {
        match self.rows.as_slice().get(row) {
            Some(cells) => number_at(cells.as_slice(), column),
            None => 0,
        }
    }

    fn param(&self, number: usize) -> u32 {
        number_at(self.params.as_slice(), number)
    }
}

/// The element of a constant.
pub fn constant_value(db: &RawDb, constant: ConstId) -> u32
    ensures { result ≡ constant_of db.now constant.n }
{
    number_at(db.constants.as_slice(), constant.n as usize)
}

/// The image of an element under a function.
fn image(db: &RawDb, function: FunId, element: u32) -> u32
    ensures { result ≡ the_image db.now function.n element }
{
    if element == 0 {
        return 0;
    }
    match db.tables.as_slice().get(function.n as usize) {
        Some(table) => number_at(table.as_slice(), element as usize - 1),
        None => 0,
    }
}

/// The image of an element under each function of a path in order.
#[tactic(auto, using(crate::proofs::Paths::image_along_rest))]
fn image_along(db: &RawDb, path: &[FunId], start: u32) -> u32
    ensures { result ≡ the_end db.now path.now start }
{
    let mut element = start;
    for function in path {
        element = image(db, *function, element);
    }
    element
}

fn value_of_base<V: Valued>(db: &RawDb, values: &V, base: Base) -> u32
    ensures { result ≡ the_base db.now (V.seen values.now) base }
{
    match base {
        Base::Var(v) => values.var(v.n as usize),
        Base::Cell { row, column } => values.cell(row as usize, column as usize),
        Base::Constant(c) => constant_value(db, c),
        Base::Undef(_) => 0,
        Base::Param(p) => values.param(p as usize),
    }
}

/// The element that a term stands for: that of its base, then the image under each function of its path.
pub fn value<V: Valued>(db: &RawDb, values: &V, term: &Term) -> u32
    ensures { result ≡ the_value db.now (V.seen values.now) term.now }
{
    let start = value_of_base(db, values, term.base);
    image_along(db, term.path.as_slice(), start)
}

/// Whether the values of both sides of a literal are equal, or different, as it says.
pub fn holds<V: Valued>(db: &RawDb, values: &V, literal: &Literal) -> bool
    ensures { result ≡ the_truth db.now (V.seen values.now) literal.now }
{
    match literal {
        Literal::Equal { left, right, same } => {
            (value(db, values, left) == value(db, values, right)) == *same
        }
    }
}
