//! What the tests are made of: shapes, terms, literals, rows, cubes and problems, each from numbers.
#![tactic(auto)]

mod fitting;
mod formulas;
mod shapes;

pub use fitting::formulas_fit;
pub use formulas::{Said, cube, literals, problem, rows, shared_cubes, term};
pub use shapes::{Sizes, shape, sorts};
