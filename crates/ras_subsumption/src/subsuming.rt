ghost use Rattle.std.specs.Prelude.{◌≡◌, ◌<◌, length, slice_get, Some, All, IfOk, IfNone, IfSome, MatchOption};
ghost use Rattle.ras_logic.specs.Formulas.{Fits};
ghost use Rattle.ras_row_maps.specs.RowMaps.{AreRowMaps};
ghost use Rattle.ras_known.specs.Knowledge.{IsKnown};
ghost use Rattle.ras_subsumption.specs.Subsumption.{IsFirstMap, NoneEntails};
ghost use Rattle.ras_subsumption.specs.Places.{IsFirstPlace, HasNoPlace};
ghost use Rattle.ras_subsumption.specs.Widened.{IsWidened};

use crate::holding::all_hold_under;
use crate::widening::widened;
use ras_closure::Closure;
use ras_known::{Known, all_apart};
use ras_logic::{Cube, List, Shape};
use ras_row_maps::row_maps;
use std::alloc::{AllocError, Global};

/// The place of the first of these row maps under which the other cube holds wherever the widened premise does.
fn first_place(
    alloc: Global,
    known: &Known<'_>,
    cube: &Cube,
    other: &Cube,
    maps: &[List<u32>],
) -> Result<Option<usize>, AllocError>
    requires known { IsKnown known.now }
    requires widened { IsWidened known.now.shape.now cube.now other.now known.now.premise.now }
    requires cube { Fits known.now.shape.now cube.now }
    requires other { Fits known.now.shape.now other.now }
    requires maps { AreRowMaps other.now.rows cube.now.rows maps.now }
    ensures { IfOk result (λ o. MatchOption o (HasNoPlace known.now.shape.now cube.now other.now maps.now) (IsFirstPlace known.now.shape.now cube.now other.now maps.now)) }
{
    cube.known();
    other.known();
    for (place, map) in maps.iter().enumerate() {
        if all_hold_under(alloc, known, other, map.as_slice())? {
            return Ok(Some(place));
        }
    }
    Ok(None)
}

/// The place of the first of all row maps under which the other cube holds wherever the cube does. Where the cube never
/// holds, it is the first of all.
fn find_place(
    alloc: Global,
    shape: &Shape,
    cube: &Cube,
    other: &Cube,
    maps: &[List<u32>],
) -> Result<Option<usize>, AllocError>
    requires cube { Fits shape.now cube.now }
    requires other { Fits shape.now other.now }
    requires maps { AreRowMaps other.now.rows cube.now.rows maps.now }
    requires some { 0 < length maps.now }
    ensures { IfOk result (λ o. MatchOption o (HasNoPlace shape.now cube.now other.now maps.now) (IsFirstPlace shape.now cube.now other.now maps.now)) }
{
    shape.known();
    cube.known();
    let premise = widened(alloc, shape, cube, other)?;
    match Closure::of(alloc, shape, &premise)? {
        None => Ok(Some(0)),
        Some(closure) => {
            let apart = all_apart(alloc, shape, &premise, &closure)?;
            let known = Known {
                shape,
                premise: &premise,
                closure: &closure,
                apart: &apart,
            };
            first_place(alloc, &known, cube, other, maps)
        }
    }
}

/// The map at a place.
fn map_at(maps: List<List<u32>>, place: usize) -> List<u32>
    requires { place < length maps }
    ensures { slice_get maps place ≡ Some result }
{
    maps.into_vec().remove(place)
}

/// The first row map, in lexicographic order, under which every literal of the other cube holds wherever the cube does: for
/// each row of the other cube in order a row of the cube, of the same relation and none twice. None where there is none.
///
/// One closure of the cube serves all maps and literals. Where some relation has fewer rows in the cube than in the other
/// one it takes no memory.
pub fn one_entails(
    alloc: Global,
    shape: &Shape,
    cube: &Cube,
    other: &Cube,
) -> Result<Option<List<u32>>, AllocError>
    requires cube { Fits shape.now cube.now }
    requires other { Fits shape.now other.now }
    ensures some { IfOk result (λ o. IfSome o (IsFirstMap shape.now cube.now other.now)) }
    ensures none { IfOk result (λ o. IfNone o (NoneEntails shape.now cube.now other.now)) }
{
    cube.known();
    let maps = row_maps(alloc, other.rows(), cube.rows())?;
    if maps.len() == 0 {
        return Ok(None);
    }
    match find_place(alloc, shape, cube, other, maps.as_slice())? {
        None => Ok(None),
        Some(place) => Ok(Some(map_at(maps, place))),
    }
}
