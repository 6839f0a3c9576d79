ghost use Rattle.std.specs.Prelude.{◌≡◌, ◌↔◌, ◌∷◌, [], OnOk, IsTrue};
ghost use Rattle.ras_split.specs.Among.{IsAmong};
ghost use Rattle.ras_leads.specs.Gathered.{Gathers};

use ras_logic::{Cube, List, Plain};
use std::alloc::AllocError;

/// Whether a cube is one of these, literal by literal.
fn is_there(cubes: &[Cube], cube: &Cube) -> bool
    ensures { IsTrue result ↔ IsAmong cubes.now cube.now }
{
    cubes.iter().any(|other| other.equal(cube))
}

/// Adds a cube, unless it is there.
fn gather_one(cubes: &mut List<Cube>, cube: Cube) -> Result<(), AllocError>
    ensures { OnOk result (Gathers cubes.old (cube ∷ []) cubes.new) }
{
    if is_there(cubes.as_slice(), &cube) {
        return Ok(());
    }
    cubes.push(cube)?;
    Ok(())
}

/// Adds the cubes that are not there yet.
pub fn gather(cubes: &mut List<Cube>, added: List<Cube>) -> Result<(), AllocError>
    ensures { OnOk result (Gathers cubes.old added cubes.new) }
{
    for cube in added.into_vec() {
        gather_one(cubes, cube)?;
    }
    Ok(())
}
