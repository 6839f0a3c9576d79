use ras_logic::List;
use ras_system::{Choice, State};

/// A state, and the choices of the steps that are made from it one after another.
#[derive(Debug, Drop)]
pub struct Run {
    pub start: State,
    pub choices: List<Choice>,
}
