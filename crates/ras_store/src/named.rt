use ras_logic::{Cube, Shared};

/// An entry as a worker knows it: by its number and its cube. It may have been dropped since.
#[derive(Drop)]
pub struct Named {
    pub number: u32,
    pub cube: Shared<Cube>,
}
