//! What is done to the parts of a store.
ghost use Rattle.std.specs.Prelude.{◌≡◌, ◌<◌, length, set, get_or, slice_get, Some, None, IfOk, OnOk, vec_len, vec_capacity};
ghost use Rattle.ras_store.specs.Stores.{next_serial};
ghost use Rattle.ras_store.specs.Stored.{IsReadyAt};

use crate::found::Found;
use ras_logic::{Cube, Shared};
use ras_steps::Witness;
use std::alloc::AllocError;

/// The pointer for the ticket of an entry that is free.
pub fn take_ready(ready: &mut Vec<Option<Shared<Cube>>>, number: usize) -> Shared<Cube>
    requires { IsReadyAt ready.old.items number }
    ensures cube { slice_get ready.old.items number ≡ Some (Some result) }
    ensures taken { ready.new.items ≡ set ready.old.items number None }
{
    match ready[number].take() {
        Some(cube) => cube,
        None => unreachable!(),
    }
}

/// The pointer for the next ticket of an entry.
pub fn put_ready(ready: &mut Vec<Option<Shared<Cube>>>, number: usize, cube: Shared<Cube>)
    requires { number < length ready.old.items }
    ensures { ready.new.items ≡ set ready.old.items number (Some cube) }
{
    ready[number] = Some(cube);
}

/// The next ticket of an entry carries another serial number.
pub fn renew_serial(serials: &mut Vec<u32>, number: usize)
    requires { number < length serials.old.items }
    ensures { serials.new.items ≡ set serials.old.items number (next_serial (get_or serials.old.items number 0)) }
{
    serials[number] = serials[number].wrapping_add(1);
}

/// Room for one more in each of the lists that stand beside the entries.
pub fn make_room_beside(
    witnesses: &mut Vec<Witness>,
    serials: &mut Vec<u32>,
    ready: &mut Vec<Option<Shared<Cube>>>,
) -> Result<(), AllocError>
    ensures witnesses { witnesses.new.items ≡ witnesses.old.items }
    ensures serials { serials.new.items ≡ serials.old.items }
    ensures ready { ready.new.items ≡ ready.old.items }
    ensures witnesses_room { OnOk result (vec_len witnesses.new < vec_capacity witnesses.new) }
    ensures serials_room { OnOk result (vec_len serials.new < vec_capacity serials.new) }
    ensures ready_room { OnOk result (vec_len ready.new < vec_capacity ready.new) }
{
    witnesses.reserve(1)?;
    serials.reserve(1)?;
    ready.reserve(1)
}

/// Two owners more of a cube.
pub fn two_owners(cube: &Shared<Cube>) -> Result<(Shared<Cube>, Shared<Cube>), AllocError>
    ensures first { IfOk result (λ owners. owners.0 ≡ cube.now) }
    ensures second { IfOk result (λ owners. owners.1 ≡ cube.now) }
{
    Ok((cube.another()?, cube.another()?))
}

/// Three owners more of a cube.
pub fn three_owners(
    cube: &Shared<Cube>,
) -> Result<(Shared<Cube>, Shared<Cube>, Shared<Cube>), AllocError>
    ensures first { IfOk result (λ owners. owners.0 ≡ cube.now) }
    ensures second { IfOk result (λ owners. owners.1 ≡ cube.now) }
    ensures third { IfOk result (λ owners. owners.2 ≡ cube.now) }
{
    let (first, second) = two_owners(cube)?;
    Ok((first, second, cube.another()?))
}

/// The hit or the spill is now this.
pub fn put_found(place: &mut Option<Found>, found: Found)
    ensures { place.new ≡ Some found }
{
    *place = Some(found);
}
