//! Chains, made from the goal backwards by covered preimages.
ghost use Rattle.std.specs.Prelude.{◌≡◌, IfSome};
ghost use Rattle.ras_concrete_tests.specs.Backwards.{IsSomeChain, IsBefore, AreBefore};

use ras_core::Link;
use ras_cover::CoverCount;
use ras_leads::pre_covered;
use ras_logic::{Cube, List, Plain, Shared, cube_fits};
use ras_system::System;
use std::alloc::Global;

/// The number of a transition, and that of one of the cubes that lead by it into the next one.
pub type Lead = (u16, usize);

fn shared(alloc: Global, cube: &Cube) -> Option<Shared<Cube>>
    ensures { IfSome result (λ c. c ≡ cube.now) }
{
    let copy = cube.copy(alloc).ok()?;
    Shared::new(alloc, copy).ok()
}

/// The chain of a goal alone.
fn goal_alone(alloc: Global, system: &System, number: usize) -> Option<Vec<Link>>
    ensures { IfSome result (λ links. IsSomeChain system.now links.items) }
{
    let cube = shared(alloc, system.goals().get(number)?)?;
    let goal = Link {
        cube,
        transition: None,
    };
    match Vec::from_array(alloc, [goal]) {
        Ok(links) => Some(links),
        Err(_) => None,
    }
}

/// Cubes whose states all lead by the transition into the given one.
fn cubes_before(alloc: Global, system: &System, transition: u16, cube: &Cube) -> Option<List<Cube>>
    ensures { IfSome result (AreBefore system.now transition cube.now) }
{
    let Some(_) = system.transitions().get(usize::from(transition)) else {
        return None;
    };
    if !cube_fits(system.shape(), cube) {
        return None;
    }
    let mut count = CoverCount { n: 0 };
    match pre_covered(alloc, system, transition, cube, &mut count) {
        Ok(cubes) => Some(cubes),
        Err(_) => None,
    }
}

/// One of these cubes.
fn cube_before(alloc: Global, system: &System, lead: Lead, cube: &Cube) -> Option<Shared<Cube>>
    ensures { IfSome result (IsBefore system.now lead.0 cube.now) }
{
    let cubes = cubes_before(alloc, system, lead.0, cube)?;
    shared(alloc, cubes.as_slice().get(lead.1)?)
}

/// The chain with such a cube before its first one.
fn one_before(alloc: Global, system: &System, links: Vec<Link>, lead: Lead) -> Option<Vec<Link>>
    requires { IsSomeChain system.now links.items }
    ensures { IfSome result (λ longer. IsSomeChain system.now longer.items) }
{
    system.known();
    let mut longer = links;
    let cube = cube_before(alloc, system, lead, longer.first()?.cube.get())?;
    let link = Link {
        cube,
        transition: Some(lead.0),
    };
    match longer.insert(0, link) {
        Ok(()) => Some(longer),
        Err(_) => None,
    }
}

/// The chain to the goal of this number. Its steps are told from the last one back to the first.
pub fn chain_back(alloc: Global, system: &System, goal: usize, leads: &[Lead]) -> Option<Vec<Link>>
    ensures { IfSome result (λ links. IsSomeChain system.now links.items) }
{
    let mut links = goal_alone(alloc, system, goal)?;
    for lead in leads {
        links = one_before(alloc, system, links, *lead)?;
    }
    Some(links)
}
