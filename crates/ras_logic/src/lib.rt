//! Schemas, databases and formulas over them. What goes in are numbers; what comes out are types that hold only what
//! makes sense, with the words of `specs/` for what they mean: a layer above uses the sort of a term (`sort_of`), what
//! fits a shape (`fits`), and the definitions of truth, clash and refutation.
#![tactic(auto)]

mod cube;
mod cube_fault;
mod cycles;
mod function;
mod ids;
mod kind;
mod law;
mod literal;
mod places;
mod plain;
mod problem;
mod raw_db;
mod schema;
mod schema_fault;
mod seq;
mod shape;
mod shape_fault;
mod shared;
mod sorting;
mod term;
mod tree;
mod truth;
mod values;

pub use cube::Cube;
pub use cube_fault::CubeFault;
pub use cycles::{Arrow, leads};
pub use function::FunDecl;
pub use ids::{ConstId, FunId, RelId, SortId, VarId};
pub use kind::Kind;
pub use law::{a_clash_has_no_model, a_closed_tree_is_sound, acyclic_is_without_a_cycle};
pub use literal::Literal;
pub use plain::Plain;
pub use problem::Problem;
pub use raw_db::RawDb;
pub use schema::Schema;
pub use schema_fault::SchemaFault;
pub use seq::{List, Rows, Seq};
pub use shape::Shape;
pub use shape_fault::ShapeFault;
pub use shared::Shared;
pub use sorting::{cube_fits, fits, literal_fits, sort_of, sort_of_base};
pub use term::{Base, Term};
pub use tree::{Node, Tree};
pub use truth::{Valued, constant_value, holds, number_at, value};
pub use values::Values;
