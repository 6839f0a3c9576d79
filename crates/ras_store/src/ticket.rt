use ras_logic::{Cube, Shared};

/// The leave to work on an entry, as long as the entry is kept and taken with this serial number.
#[derive(Drop)]
pub struct Ticket {
    pub entry: u32,
    pub serial: u32,
    pub cube: Shared<Cube>,
}
