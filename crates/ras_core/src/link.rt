use ras_logic::{Cube, Shared};

/// A cube of a chain from an entry to a goal, with the transition by which its states lead into the next cube; the last cube
/// is a goal and has none.
#[derive(Drop)]
pub struct Link {
    pub cube: Shared<Cube>,
    pub transition: Option<u16>,
}
