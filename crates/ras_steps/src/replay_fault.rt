use crate::step_fault::StepFault;
use thiserror::Error;

/// The first step of a run that is refused, by its number, and why.
#[derive(Clone, Copy, Debug, PartialEq, Eq, Error)]
#[error("step {at}: {fault}")]
pub struct ReplayFault {
    pub at: u32,
    pub fault: StepFault,
}
