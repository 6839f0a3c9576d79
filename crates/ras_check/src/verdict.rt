use ras_safety::SafeFault;
use ras_spent::SpentFault;
use ras_violation::ViolationFault;
use thiserror::Error;

/// What is wrong with an evidence first.
#[derive(Clone, Copy, Debug, PartialEq, Eq, Error)]
pub enum Invalid {
    /// With an evidence of safety.
    #[error(transparent)]
    Safe(SafeFault),
    /// With an evidence of a violation.
    #[error(transparent)]
    Violation(ViolationFault),
    /// With an evidence of a spent budget.
    #[error(transparent)]
    Spent(SpentFault),
}

/// What the judge says of an evidence.
#[derive(Clone, Copy, Debug, PartialEq, Eq)]
pub enum Verdict {
    /// It is good.
    Valid,
    /// It is not, with its first fault.
    Invalid(Invalid),
}
