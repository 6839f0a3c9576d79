ghost use Rattle.std.specs.Prelude.{◌≡◌};
ghost use Rattle.ras_logic.specs.Truth.{value as the_value, holds as the_truth};

use crate::database::Database;
use ras_logic::{Literal, Term, Values};

/// The value of a term: the element of its base, then the image under each function of its path. What does not fit the
/// database or the values counts as 0, undef. It takes no memory.
pub fn value(db: &Database, values: &Values, term: &Term) -> u32
    ensures { result ≡ the_value db.now values.now term.now }
{
    ras_logic::value(db.raw(), values, term)
}

/// Whether the values of both sides of a literal are equal, or different, as it says. It takes no memory.
pub fn holds(db: &Database, values: &Values, literal: &Literal) -> bool
    ensures { result ≡ the_truth db.now values.now literal.now }
{
    ras_logic::holds(db.raw(), values, literal)
}
