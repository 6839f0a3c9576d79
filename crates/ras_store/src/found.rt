use ras_core::Origin;
use ras_logic::{Cube, Shared};
use ras_steps::Witness;

/// A hit or a spill: a cube with its origin and the state that was found to meet it.
#[derive(Drop)]
pub struct Found {
    pub cube: Shared<Cube>,
    pub origin: Origin,
    pub witness: Witness,
}
