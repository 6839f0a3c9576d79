ghost use Rattle.std.specs.Prelude.{◌≡◌, ◌⊎◌, ◌++◌, ◌∷◌, [], true, IfOk, OnOk};
ghost use Rattle.ras_logic.specs.declared.problem.Problem.{Problem};
ghost use Rattle.ras_logic.specs.Shapes.{ShapeParts};
ghost use Rattle.ras_split.specs.Among.{IsAmong};
ghost use Rattle.ras_cover.specs.Within.{Admits, AreAlike, AreOthers, IsCoveredBy};

use ras_logic::{Cube, List, Literal, Plain};
use std::alloc::{AllocError, Global};

/// Whether a literal is one of a list.
fn has(literals: &[Literal], literal: &Literal) -> bool
    ensures { result ≡ true → IsAmong literals.now literal.now }
{
    literals.iter().any(|other| other.equal(literal))
}

/// Whether each literal of a cube is one of another's, so that it is satisfied wherever the other is.
fn covers(cube: &Cube, other: &Cube) -> bool
    ensures { result ≡ true → IsCoveredBy other.now cube.now }
{
    cube.literals()
        .iter()
        .all(|literal| has(other.literals(), literal))
}

/// Whether one of the cubes covers another.
fn is_covered(cubes: &[Cube], cube: &Cube) -> bool
    ensures { result ≡ true → (q : Problem) × IsAmong cubes.now q × IsCoveredBy cube.now q }
{
    cubes.iter().any(|other| covers(other, cube))
}

/// Adds a cube that another one does not cover.
fn push_other(kept: &mut List<Cube>, cube: &Cube, other: Cube) -> Result<(), AllocError>
    ensures { OnOk result (((kept.new ≡ kept.old) × IsCoveredBy other cube.now) ⊎ (kept.new ≡ kept.old ++ other ∷ [])) }
{
    if covers(cube, &other) {
        return Ok(());
    }
    kept.push(other)?;
    Ok(())
}

/// The cubes that another one does not cover.
fn others(alloc: Global, cubes: List<Cube>, cube: &Cube) -> Result<List<Cube>, AllocError>
    ensures { IfOk result (AreOthers cubes cube.now) }
{
    let mut kept = List::new(alloc);
    for other in cubes.into_vec() {
        push_other(&mut kept, cube, other)?;
    }
    Ok(kept)
}

/// Adds a cube to cubes of the same rows, unless one of them covers it; those that it covers are left out.
pub fn admit(alloc: Global, cubes: List<Cube>, cube: Cube) -> Result<List<Cube>, AllocError>
    requires { (q : Problem) → IsAmong cubes q → AreAlike cube q }
    ensures { IfOk result (λ r. (shape : ShapeParts) → Admits shape cubes cube r) }
{
    if is_covered(cubes.as_slice(), &cube) {
        return Ok(cubes);
    }
    let mut kept = others(alloc, cubes, &cube)?;
    kept.push(cube)?;
    Ok(kept)
}
