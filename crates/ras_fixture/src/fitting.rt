ghost use Rattle.std.specs.Prelude.{IsTrue, All};
ghost use Rattle.ras_logic.specs.Formulas.{Fits};

use ras_logic::{Cube, Shape, Shared, cube_fits};

/// Whether each formula fits.
pub fn formulas_fit(shape: &Shape, formulas: &[Shared<Cube>]) -> bool
    ensures { IsTrue result → All (Fits shape.now) formulas.now }
{
    for formula in formulas {
        if !cube_fits(shape, formula.get()) {
            return false;
        }
    }
    true
}
