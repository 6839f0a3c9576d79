ghost use Rattle.std.specs.Prelude.{◌≡◌, ◌+◌, ◌-◌, ◌^◌, ◌∷◌, [], length, IfOk, MatchOption, min};
ghost use Rattle.ras_logic.specs.declared.problem.Problem.{Problem};
ghost use Rattle.ras_logic.specs.Formulas.{Fits, IsCube};
ghost use Rattle.ras_closure.specs.Closings.{IsClosureOf};
ghost use Rattle.ras_cover.specs.Covers.{AreTidy, IsCover};
ghost use Rattle.ras_split.specs.Among.{IsAmong};
ghost use Rattle.ras_split.specs.Standing.{CaseParts};
ghost use Rattle.ras_cubes.specs.Reduced.{IsReducedCube};
ghost use Rattle.ras_cubes.specs.Dues.{IsCubeFor};
ghost use Rattle.ras_cover.specs.CaseCubes.{AreCubesTo, IsOwnCube, IsCaseIn};

use crate::admitting::admit;
use ras_closure::Closure;
use ras_cubes::{cube_of, reduced_cube};
use ras_logic::{Cube, List, Plain, Problem, Shape};
use ras_split::{Case, cases_of};
use std::alloc::{AllocError, Global};

/// How many covers were made.
#[derive(Clone, Copy, Debug, PartialEq, Eq)]
pub struct CoverCount {
    pub n: u64,
}

impl CoverCount {
    /// One more. It stands still at its greatest value.
    fn rise(&mut self)
        ensures { self.new.n ≡ min (self.old.n + 1) (2 ^ 64 - 1) }
    {
        self.n = self.n.saturating_add(1);
    }
}

/// The problem as a cube of its own literals; none where one of them names a data parameter.
fn own_cube(alloc: Global, problem: &Problem) -> Result<Option<Problem>, AllocError>
    ensures { IfOk result (λ o. MatchOption o (Unit {0}) (IsOwnCube problem.now)) }
{
    let rows = problem.rows.copy(alloc)?;
    let literals = problem.literals.copy(alloc)?;
    match Cube::new(rows, literals) {
        Err(_) => Ok(None),
        Ok(cube) => {
            cube.known();
            let problem = cube.problem(alloc)?;
            Ok(Some(problem))
        }
    }
}

/// A cube alone, reduced.
fn own_cubes(alloc: Global, shape: &Shape, own: &Problem) -> Result<List<Cube>, AllocError>
    requires fits { Fits shape.now own.now }
    requires cube { IsCube own.now }
    ensures { IfOk result (λ r. (q : Problem) × (r ≡ q ∷ []) × IsReducedCube shape.now own.now q) }
{
    let cube = reduced_cube(alloc, shape, own)?;
    let mut cubes = List::new(alloc);
    cubes.push(cube)?;
    Ok(cubes)
}

/// The cube of a case of a problem.
fn case_cube(
    alloc: Global,
    shape: &Shape,
    problem: &Problem,
    case: &Case,
) -> Result<Cube, AllocError>
    requires { IsCaseIn shape.now problem.now case.now }
    ensures { IfOk result (IsCubeFor shape.now case.now) }
{
    case.known();
    let full = cube_of(alloc, problem, case)?;
    reduced_cube(alloc, shape, &full)
}

/// The cubes of the cases of a problem, without those that others cover.
fn case_cubes(
    alloc: Global,
    shape: &Shape,
    problem: &Problem,
    cases: &[Case],
) -> Result<List<Cube>, AllocError>
    requires { (c : CaseParts) → IsAmong cases.now c → IsCaseIn shape.now problem.now c }
    ensures { IfOk result (AreCubesTo shape.now cases.now (length cases.now)) }
{
    let mut cubes = List::new(alloc);
    for case in cases {
        let cube = case_cube(alloc, shape, problem, case)?;
        cubes = admit(alloc, cubes, cube)?;
    }
    Ok(cubes)
}

/// The cubes of a problem whose literals do not clash.
fn cubes_of(
    alloc: Global,
    shape: &Shape,
    problem: &Problem,
    closure: Closure,
) -> Result<List<Cube>, AllocError>
    requires fits { Fits shape.now problem.now }
    requires closure { IsClosureOf shape.now problem.now closure }
    ensures cover { IfOk result (IsCover shape.now problem.now) }
    ensures tidy { IfOk result (AreTidy shape.now) }
{
    closure.known();
    if let Some(own) = own_cube(alloc, problem)? {
        return own_cubes(alloc, shape, &own);
    }
    let cases = cases_of(alloc, closure)?;
    case_cubes(alloc, shape, problem, cases.as_slice())
}

/// A cover of a problem that fits the shape: cubes without its data parameters that say of the rest just what it says. None of
/// them clashes or has a literal twice or one that follows from its others, and none has all the literals of another. A problem
/// whose literals name no data parameter is answered by one cube of its own literals, or by none where they clash.
///
/// The definition of a cover is that of S. Gulwani and M. Musuvathi, "Cover algorithms and their combination" (2008).
pub fn cover(
    alloc: Global,
    shape: &Shape,
    problem: &Problem,
    count: &mut CoverCount,
) -> Result<List<Cube>, AllocError>
    requires { Fits shape.now problem.now }
    ensures cover { IfOk result (IsCover shape.now problem.now) }
    ensures tidy { IfOk result (AreTidy shape.now) }
    ensures count { count.new.n ≡ min (count.old.n + 1) (2 ^ 64 - 1) }
{
    count.rise();
    shape.known();
    match Closure::of(alloc, shape, problem)? {
        None => Ok(List::new(alloc)),
        Some(closure) => cubes_of(alloc, shape, problem, closure),
    }
}

/// The cover of a problem whose literals were asserted already and do not clash.
pub fn cover_from(
    alloc: Global,
    shape: &Shape,
    problem: &Problem,
    closure: Closure,
    count: &mut CoverCount,
) -> Result<List<Cube>, AllocError>
    requires fits { Fits shape.now problem.now }
    requires closure { IsClosureOf shape.now problem.now closure }
    ensures cover { IfOk result (IsCover shape.now problem.now) }
    ensures tidy { IfOk result (AreTidy shape.now) }
    ensures count { count.new.n ≡ min (count.old.n + 1) (2 ^ 64 - 1) }
{
    count.rise();
    cubes_of(alloc, shape, problem, closure)
}
