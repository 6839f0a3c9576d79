ghost use Rattle.std.specs.Prelude.{◌≡◌, ◌↔◌, ℕ, ◌<◌, IsTrue, length, slice_get, Some, IfOk, IfErr};
ghost use Rattle.ras_logic.specs.Schemas.{IsSchema};
ghost use Rattle.ras_logic.specs.SchemaFaults.{HasSchemaLimits, IsSchemaFault};

use crate::cycles::first_cycle;
use crate::function::FunDecl;
use crate::ids::{ConstId, FunId, SortId};
use crate::kind::Kind;
use crate::places::{first_bad_function, first_bad_sort};
use crate::plain::Plain;
use crate::schema_fault::SchemaFault;
use crate::seq::List;
use std::alloc::{AllocError, Global};
use std::marker::Model;

/// Sorts, functions and constants, with no chain of functions that returns to a sort.
#[derive(Debug, Drop)]
pub struct Schema {
    sorts: u16,
    functions: List<FunDecl>,
    constants: List<SortId>,
}

impl Model for Schema {
    ghost use Rattle.ras_logic.specs.Schemas.{SchemaParts, IsSchema};
    ghost use Rattle.ras_logic.specs.SchemaFaults.{HasSchemaLimits};

    ghost Value = { SchemaParts };

    ghost view = { λ s. record { sorts = s.sorts; functions = s.functions; constants = s.constants } };

    ghost invariant = { λ s. IsSchema (record { sorts = s.sorts; functions = s.functions; constants = s.constants }) × HasSchemaLimits (record { sorts = s.sorts; functions = s.functions; constants = s.constants }) };
}

impl Schema {
    /// A schema of at most 64 sorts, 256 functions and 256 constants, or the first fault. It takes no memory.
    pub fn new(
        sorts: u16,
        functions: List<FunDecl>,
        constants: List<SortId>,
    ) -> Result<Schema, SchemaFault>
        ensures value { IfOk result (λ s. s ≡ record { sorts = sorts; functions = functions; constants = constants }) }
        ensures schema { IfOk result IsSchema }
        ensures limits { IfOk result HasSchemaLimits }
        ensures fault { IfErr result (IsSchemaFault (record { sorts = sorts; functions = functions; constants = constants })) }
    {
        if sorts > 64 {
            return Err(SchemaFault::TooMany { kind: Kind::Sort });
        }
        if functions.len() > 256 {
            return Err(SchemaFault::TooMany {
                kind: Kind::Function,
            });
        }
        if constants.len() > 256 {
            return Err(SchemaFault::TooMany {
                kind: Kind::Constant,
            });
        }
        if let Some(place) = first_bad_function(functions.as_slice(), sorts) {
            return Err(SchemaFault::BadSort {
                kind: Kind::Function,
                place,
            });
        }
        if let Some(place) = first_bad_sort(constants.as_slice(), sorts) {
            return Err(SchemaFault::BadSort {
                kind: Kind::Constant,
                place,
            });
        }
        if let Some(n) = first_cycle(functions.as_slice(), sorts) {
            return Err(SchemaFault::Cycle {
                function: FunId { n },
            });
        }
        Ok(Schema {
            sorts,
            functions,
            constants,
        })
    }

    /// What every schema is.
    pub fn known(&self)
        ensures schema { IsSchema self.now }
        ensures limits { HasSchemaLimits self.now }
    {
        let _ = &self.functions;
    }

    pub fn sort_count(&self) -> u16
        ensures { result ≡ self.now.sorts }
    {
        self.sorts
    }

    pub fn function_count(&self) -> u16
        ensures { result ≡ length self.now.functions }
    {
        self.functions.len() as u16
    }

    pub fn constant_count(&self) -> u16
        ensures { result ≡ length self.now.constants }
    {
        self.constants.len() as u16
    }

    pub fn functions(&self) -> &[FunDecl]
        ensures { result.now ≡ self.now.functions }
    {
        self.functions.as_slice()
    }

    pub fn constants(&self) -> &[SortId]
        ensures { result.now ≡ self.now.constants }
    {
        self.constants.as_slice()
    }

    pub fn function(&self, function: FunId) -> FunDecl
        requires { function.n < length self.now.functions }
        ensures { slice_get self.now.functions function.n ≡ Some result }
    {
        self.functions.as_slice()[function.n as usize]
    }

    pub fn constant(&self, constant: ConstId) -> SortId
        requires { constant.n < length self.now.constants }
        ensures { slice_get self.now.constants constant.n ≡ Some result }
    {
        self.constants.as_slice()[constant.n as usize]
    }
}

impl Plain for Schema {
    fn copy(&self, alloc: Global) -> Result<Schema, AllocError> {
        Ok(Schema {
            sorts: self.sorts,
            functions: self.functions.copy(alloc)?,
            constants: self.constants.copy(alloc)?,
        })
    }

    fn equal(&self, other: &Schema) -> bool {
        self.sorts == other.sorts
            && self.functions.equal(&other.functions)
            && self.constants.equal(&other.constants)
    }
}
