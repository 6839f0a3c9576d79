use thiserror::Error;

/// Why rows and literals are no cube.
#[derive(Clone, Copy, Debug, PartialEq, Eq, Error)]
pub enum CubeFault {
    #[error("a data parameter in literal {literal}")]
    Param { literal: u32 },
}
