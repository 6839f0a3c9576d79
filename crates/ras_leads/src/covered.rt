ghost use Rattle.std.specs.Prelude.{◌≡◌, ◌<◌, ◌≤◌, length, slice_get, Some, IfOk, OnOk, All};
ghost use Rattle.ras_logic.specs.Formulas.{Fits};
ghost use Rattle.ras_system.specs.declared.transition.Transition as declared;
ghost use Rattle.ras_system.specs.Preimages.{preimage};
ghost use Rattle.ras_cubes.specs.Reduced.{IsOnce};
ghost use Rattle.ras_cover.specs.Covers.{AreTidy};
ghost use Rattle.ras_leads.specs.Covered.{AreMetWhereLeading, AreCubesOfSome, CountsOpen};
ghost use Rattle.ras_leads.specs.Gathered.{CountsOne, IsTidyCover, AreGathered};

use crate::gathering::gather;
use ras_closure::Closure;
use ras_cover::{CoverCount, cover_from};
use ras_logic::{Cube, List, Problem, Shape};
use ras_preimage::pre;
use ras_system::System;
use std::alloc::{AllocError, Global};

/// The cover of a problem, which counts where its literals do not clash.
fn open_cover(
    alloc: Global,
    shape: &Shape,
    problem: &Problem,
    count: &mut CoverCount,
) -> Result<List<Cube>, AllocError>
    requires { Fits shape.now problem.now }
    ensures cover { IfOk result (IsTidyCover shape.now problem.now) }
    ensures count { OnOk result (CountsOne shape.now.schema problem.now count.old.n count.new.n) }
    ensures rises { count.old.n ≤ count.new.n }
{
    // that it is a number of 64 bits bounds what it rises to
    let _before = count.n;
    shape.known();
    match Closure::of(alloc, shape, problem)? {
        None => Ok(List::new(alloc)),
        Some(closure) => {
            closure.known();
            cover_from(alloc, shape, problem, closure, count)
        }
    }
}

/// The cubes of the covers of problems, each once.
fn covers_of(
    alloc: Global,
    shape: &Shape,
    problems: List<Problem>,
    count: &mut CoverCount,
) -> Result<List<Cube>, AllocError>
    requires { All (Fits shape.now) problems }
    ensures cubes { IfOk result (AreGathered shape.now problems) }
    ensures count { OnOk result (CountsOpen shape.now.schema problems count.old.n count.new.n) }
    ensures rises { count.old.n ≤ count.new.n }
{
    // that it is a number of 64 bits bounds what it rises to
    let _before = count.n;
    let mut cubes = List::new(alloc);
    for problem in problems.into_vec() {
        let cover = open_cover(alloc, shape, &problem, count)?;
        gather(&mut cubes, cover)?;
    }
    Ok(cubes)
}

/// Cubes that a state of a database meets exactly where, in some database that extends it, a step by the transition of that
/// number leads from the state to one that meets the given cube. None of them clashes, none has a literal twice, and no two are
/// literally equal. The count rises by one for each problem of the preimage whose literals do not clash; it may have risen
/// where memory is wanting.
pub fn pre_covered(
    alloc: Global,
    system: &System,
    transition: u16,
    cube: &Cube,
    count: &mut CoverCount,
) -> Result<List<Cube>, AllocError>
    requires number { transition < length system.now.transitions }
    requires fits { Fits system.now.shape cube.now }
    ensures exact { IfOk result (AreMetWhereLeading system.now transition cube.now) }
    ensures cubes { IfOk result (λ cubes. (t : declared.Transition) → slice_get system.now.transitions transition ≡ Some t → AreCubesOfSome system.now.shape (preimage t cube.now) cubes) }
    ensures tidy { IfOk result (AreTidy system.now.shape) }
    ensures once { IfOk result (λ cubes. IsOnce cubes) }
    ensures count { OnOk result ((t : declared.Transition) → slice_get system.now.transitions transition ≡ Some t → CountsOpen system.now.shape.schema (preimage t cube.now) count.old.n count.new.n) }
    ensures rises { count.old.n ≤ count.new.n }
{
    system.known();
    cube.known();
    let problems = pre(alloc, system, transition, cube)?;
    covers_of(alloc, system.shape(), problems, count)
}
