ghost use Rattle.std.specs.Prelude.{◌≡◌, true, false};
ghost use Rattle.ras_vectors.specs.Hiring.{shape as hiring_shape, wrong_owner};
ghost use Rattle.ras_vectors.specs.Desk.{shape as desk_shape};

use ras_logic::{Problem, Shape, fits};

/// The goal of the hiring system fits its shape.
pub fn goal_fits(shape: &Shape, goal: &Problem) -> bool
    requires shape { shape.now ≡ hiring_shape }
    requires goal { goal.now ≡ wrong_owner }
    ensures { result ≡ true }
{
    fits(shape, goal)
}

/// The goal of the hiring system does not fit the shape of the desk, whose relation has one column.
pub fn goal_is_foreign(shape: &Shape, foreign: &Problem) -> bool
    requires shape { shape.now ≡ desk_shape }
    requires goal { foreign.now ≡ wrong_owner }
    ensures { result ≡ false }
{
    fits(shape, foreign)
}
