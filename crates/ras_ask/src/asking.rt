ghost use Rattle.std.specs.Prelude.{◌≡◌, ◌<◌, ◌≤◌, length, slice_get, Some, All, IfOk};
ghost use Rattle.std.specs.List.{AllZip};
ghost use Rattle.ras_logic.specs.Formulas.{Fits};
ghost use Rattle.ras_logic.specs.Refutations.{Closes};
ghost use Rattle.ras_reasons.specs.Naming.{NamesBelow, AreNamed};
ghost use Rattle.ras_store.specs.Holding.{named_cubes};
ghost use Rattle.ras_ask.specs.Asking.{IsAsked, ArePlaces};

use ras_entail::{Entail, entails};
use ras_logic::{Cube, List, Shared, Tree};
use ras_reasons::named_formulas;
use ras_steps::Witness;
use ras_store::{Named, Store};
use ras_system::System;
use std::alloc::{AllocError, Global};

/// What the kept entries say of a cube.
#[derive(Drop)]
pub enum Asked {
    /// Its states are among those of these kept entries.
    Covered(Vec<Named>),
    /// This one of its states meets no entry.
    New(Witness),
}

/// The cubes of named entries. Each costs a pointer.
fn cubes_of(alloc: Global, names: &[Named]) -> Result<List<Shared<Cube>>, AllocError>
    ensures { IfOk result (λ cubes. cubes ≡ named_cubes names.now) }
{
    let mut cubes = List::new(alloc);
    for named in names {
        cubes.push(named.cube.another()?)?;
    }
    Ok(cubes)
}

/// The names at these places.
fn names_at(alloc: Global, names: &[Named], places: &[u32]) -> Result<Vec<Named>, AllocError>
    requires { All (λ k. k < length names.now) places.now }
    ensures { IfOk result (λ picked. ArePlaces names.now places.now picked.items) }
{
    let mut picked = Vec::new(alloc);
    for place in places {
        let named = &names[*place as usize];
        picked.push(Named {
            number: named.number,
            cube: named.cube.another()?,
        })?;
    }
    Ok(picked)
}

/// What the kept entries of the store say of a cube. The reasons are the kept entries that the tree of the answer names, and no
/// others.
pub fn ask(alloc: Global, system: &System, store: &Store, cube: &Cube) -> Result<Asked, AllocError>
    requires system { store.now.system ≡ system.now }
    requires fits { Fits system.now.shape cube.now }
    ensures { IfOk result (IsAsked store.now cube.now) }
{
    system.known();
    store.known();
    let names = store.kept()?;
    let cubes = cubes_of(alloc, names.as_slice())?;
    let premise = cube.problem(alloc)?;
    match entails(alloc, system.shape(), &premise, cubes.as_slice())? {
        Entail::Yes(tree) => {
            let places = named_formulas(alloc, &tree, cubes.len() as u32)?;
            Ok(Asked::Covered(names_at(alloc, names.as_slice(), places.as_slice())?))
        }
        Entail::Escape(witness) => Ok(Asked::New(witness)),
    }
}
