//! The cube of a case: what its facts say of the terms without data parameters that stand for its terms. What goes in is a
//! case of a problem, or a cube; what comes out is the cube of the case, or one without what follows from the rest. The layer
//! above uses the contracts of `cube_of` and `reduced_cube`.
#![tactic(auto)]

mod cubes;
mod reducing;

pub use cubes::cube_of;
pub use reducing::reduced_cube;
