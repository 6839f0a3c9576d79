ghost use Rattle.std.specs.Prelude.{◌≡◌, ◌<◌, ◌≤◌, [], ◌∷◌, length, IfOk, MatchOption, All};
ghost use Rattle.ras_logic.specs.Formulas.{Fits, IsCube};
ghost use Rattle.ras_logic.specs.Refutations.{AreRowsOf};
ghost use Rattle.ras_known.specs.Knowledge.{IsKnown};
ghost use Rattle.ras_entail.specs.Scans.{AddsMap, AddsMaps, AddsInstances, IsHeld, IsHeldIn, AreEnough};

use crate::judging::{Standing, has_failing, judge};
use ras_known::Known;
use ras_logic::{Cube, List, Shared};
use ras_row_maps::row_maps;
use ras_sat::Instance;
use std::alloc::{AllocError, Global};

/// The formulas of a list are cubes.
pub fn are_cubes(list: &[Shared<Cube>])
    ensures { All IsCube list.now }
{
    for cube in list {
        cube.get().known();
    }
}

/// The instance of a cube under these rows, if all its literals are known to hold; else it is added, if none is known to
/// fail.
fn scan_map(
    alloc: Global,
    known: &Known<'_>,
    cube: &Cube,
    formula: u32,
    rows: List<u32>,
    instances: &mut Vec<Instance>,
) -> Result<Option<Instance>, AllocError>
    requires known { IsKnown known.now }
    requires fits { Fits known.now.shape.now cube.now }
    requires rows { AreRowsOf known.now.premise.now.rows cube.now.rows rows }
    ensures { IfOk result (λ o. MatchOption o (AddsMap known.now.shape.now known.now.premise.now cube.now formula rows instances.old.items instances.new.items) (IsHeld known.now.shape.now known.now.premise.now cube.now formula)) }
{
    match judge(alloc, known, cube, rows.as_slice())? {
        Standing::Fails => Ok(None),
        Standing::Holds => Ok(Some(Instance { formula, rows })),
        Standing::Open => {
            instances.push(Instance { formula, rows })?;
            Ok(None)
        }
    }
}

/// The first instance of a cube under these row maps of which all literals are known to hold; else those of which none is
/// known to fail are added.
fn scan_maps(
    alloc: Global,
    known: &Known<'_>,
    cube: &Cube,
    formula: u32,
    maps: List<List<u32>>,
    instances: &mut Vec<Instance>,
) -> Result<Option<Instance>, AllocError>
    requires known { IsKnown known.now }
    requires fits { Fits known.now.shape.now cube.now }
    requires maps { All (AreRowsOf known.now.premise.now.rows cube.now.rows) maps }
    ensures { IfOk result (λ o. MatchOption o (AddsMaps known.now.shape.now known.now.premise.now cube.now formula maps instances.old.items instances.new.items) (IsHeld known.now.shape.now known.now.premise.now cube.now formula)) }
{
    for rows in maps.into_vec() {
        let held = scan_map(alloc, known, cube, formula, rows, instances)?;
        if held.is_some() {
            return Ok(held);
        }
    }
    Ok(None)
}

/// The same of one more cube of the list. Where a literal fails whichever rows are chosen, no row map is made.
fn scan_cube(
    alloc: Global,
    known: &Known<'_>,
    list: &[Shared<Cube>],
    number: u32,
    instances: &mut Vec<Instance>,
) -> Result<Option<Instance>, AllocError>
    requires known { IsKnown known.now }
    requires fit { All (Fits known.now.shape.now) list.now }
    requires within { number < length list.now }
    ensures { IfOk result (λ o. MatchOption o (AddsInstances known.now.shape.now known.now.premise.now list.now number instances.old.items instances.new.items) (IsHeldIn known.now.shape.now known.now.premise.now list.now)) }
{
    // its contract says how many rows there are at most
    let _rows = known.premise.rows.len();
    let cube = list[number as usize].get();
    if has_failing(known, cube) {
        return Ok(None);
    }
    let maps = row_maps(alloc, cube.rows(), known.premise.rows.as_slice())?;
    scan_maps(alloc, known, cube, number, maps, instances)
}

/// This instance alone.
fn alone(alloc: Global, instance: Instance) -> Result<Vec<Instance>, AllocError>
    ensures { IfOk result (λ found. found.items ≡ instance ∷ []) }
{
    let mut found = Vec::new(alloc);
    found.push(instance)?;
    Ok(found)
}

/// Instances of a list's cubes, and enough of them: wherever the premise holds and each of them is falsified, every
/// instance is. Where the literals of one are all known to hold, it is enough alone; else no literal of any is known to
/// fail.
pub fn instances_of(
    alloc: Global,
    known: &Known<'_>,
    list: &[Shared<Cube>],
) -> Result<Vec<Instance>, AllocError>
    requires known { IsKnown known.now }
    requires fit { All (Fits known.now.shape.now) list.now }
    requires few { length list.now ≤ 4294967295 }
    ensures { IfOk result (λ found. AreEnough known.now.shape.now known.now.premise.now list.now found.items) }
{
    let mut instances = Vec::new(alloc);
    for number in 0..list.len() as u32 {
        match scan_cube(alloc, known, list, number, &mut instances)? {
            Some(held) => return alone(alloc, held),
            None => {}
        }
    }
    Ok(instances)
}
