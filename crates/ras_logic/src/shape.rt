ghost use Rattle.std.specs.Prelude.{◌≡◌, ◌<◌, ◌≤◌, length, slice_get, Some, All, IfOk, IfErr};
ghost use Rattle.ras_logic.specs.Shapes.{IsShape};
ghost use Rattle.ras_logic.specs.ShapeFaults.{HasShapeLimits, IsShapeFault};

use crate::ids::{RelId, SortId, VarId};
use crate::kind::Kind;
use crate::places::{first_bad_column, first_bad_sort, first_without_column, has_wide};
use crate::plain::Plain;
use crate::schema::Schema;
use crate::seq::List;
use crate::shape_fault::ShapeFault;
use std::alloc::{AllocError, Global};
use std::marker::Model;

/// A schema, artifact variables and artifact relations.
#[derive(Debug, Drop)]
pub struct Shape {
    schema: Schema,
    vars: List<SortId>,
    relations: List<List<SortId>>,
}

impl Model for Shape {
    ghost use Rattle.ras_logic.specs.Shapes.{ShapeParts};

    ghost Value = { ShapeParts };

    ghost use Rattle.ras_logic.specs.Shapes.{IsShape};
    ghost use Rattle.ras_logic.specs.SchemaFaults.{HasSchemaLimits};
    ghost use Rattle.ras_logic.specs.ShapeFaults.{HasShapeLimits};

    ghost view = { λ s. record { schema = s.schema; vars = s.vars; relations = s.relations } };

    ghost invariant = { λ s. IsShape (record { schema = s.schema; vars = s.vars; relations = s.relations })
        × HasSchemaLimits s.schema × HasShapeLimits (record { schema = s.schema; vars = s.vars; relations = s.relations }) };
}

impl Shape {
    ghost use Rattle.ras_logic.specs.SchemaFaults.{HasSchemaLimits};

    /// A shape of at most 64 variables and 16 relations, each of 1 to 32 columns, or the first fault. It takes no memory.
    pub fn new(
        schema: Schema,
        vars: List<SortId>,
        relations: List<List<SortId>>,
    ) -> Result<Shape, ShapeFault>
        ensures value { IfOk result (λ s. s ≡ record { schema = schema; vars = vars; relations = relations }) }
        ensures shape { IfOk result IsShape }
        ensures limits { IfOk result HasShapeLimits }
        ensures fault { IfErr result (IsShapeFault (record { schema = schema; vars = vars; relations = relations })) }
    {
        if vars.len() > 64 {
            return Err(ShapeFault::TooMany {
                kind: Kind::Variable,
            });
        }
        if relations.len() > 16 {
            return Err(ShapeFault::TooMany {
                kind: Kind::Relation,
            });
        }
        if has_wide(relations.as_slice()) {
            return Err(ShapeFault::TooMany { kind: Kind::Column });
        }
        schema.known();
        let sorts = schema.sort_count();
        if let Some(place) = first_bad_sort(vars.as_slice(), sorts) {
            return Err(ShapeFault::BadSort {
                kind: Kind::Variable,
                place,
            });
        }
        if let Some(place) = first_bad_column(relations.as_slice(), sorts) {
            return Err(ShapeFault::BadSort {
                kind: Kind::Column,
                place,
            });
        }
        if let Some(n) = first_without_column(relations.as_slice()) {
            return Err(ShapeFault::NoColumn {
                relation: RelId { n },
            });
        }
        Ok(Shape {
            schema,
            vars,
            relations,
        })
    }

    /// What every shape is.
    pub fn known(&self)
        ensures shape { IsShape self.now }
        ensures schema_limits { HasSchemaLimits self.now.schema }
        ensures limits { HasShapeLimits self.now }
    {
        let _ = &self.vars;
    }

    pub fn schema(&self) -> &Schema
        ensures { result.now ≡ self.now.schema }
    {
        &self.schema
    }

    pub fn var_count(&self) -> u16
        ensures { result ≡ length self.now.vars }
    {
        self.vars.len() as u16
    }

    pub fn relation_count(&self) -> u16
        ensures { result ≡ length self.now.relations }
    {
        self.relations.len() as u16
    }

    pub fn vars(&self) -> &[SortId]
        ensures { result.now ≡ self.now.vars }
    {
        self.vars.as_slice()
    }

    pub fn relations(&self) -> &[List<SortId>]
        ensures { result.now ≡ self.now.relations }
    {
        self.relations.as_slice()
    }

    pub fn var_sort(&self, var: VarId) -> SortId
        requires { var.n < length self.now.vars }
        ensures { slice_get self.now.vars var.n ≡ Some result }
    {
        self.vars.as_slice()[var.n as usize]
    }

    pub fn columns(&self, relation: RelId) -> &[SortId]
        requires { relation.n < length self.now.relations }
        ensures { slice_get self.now.relations relation.n ≡ Some result.now }
    {
        self.relations.as_slice()[relation.n as usize].as_slice()
    }
}

impl Plain for Shape {
    fn copy(&self, alloc: Global) -> Result<Shape, AllocError> {
        Ok(Shape {
            schema: self.schema.copy(alloc)?,
            vars: self.vars.copy(alloc)?,
            relations: self.relations.copy(alloc)?,
        })
    }

    fn equal(&self, other: &Shape) -> bool {
        self.schema.equal(&other.schema)
            && self.vars.equal(&other.vars)
            && self.relations.equal(&other.relations)
    }
}
