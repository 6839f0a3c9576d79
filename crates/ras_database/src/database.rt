ghost use Rattle.std.specs.Prelude.{◌≡◌, IfOk, IfErr, OnOk};
ghost use Rattle.ras_logic.specs.Databases.{IsDatabase};
ghost use Rattle.ras_database.specs.DatabaseFaults.{IsDatabaseFault};

use crate::checking::{constant_fault, length_fault, table_fault};
use crate::db_fault::DbFault;
use ras_logic::{Plain, RawDb, Schema};
use std::alloc::{AllocError, Global};
use std::marker::Model;

/// A database of some schema. Which schema it is of is no part of the value: a call that takes both says so.
#[derive(Debug, Drop)]
pub struct Database {
    raw: RawDb,
}

impl Model for Database {
    ghost use Rattle.ras_logic.specs.declared.raw_db.RawDb.{RawDb};

    ghost Value = { RawDb };

    ghost view = { λ d. d.raw };
}

impl Database {
    /// The database of these numbers, or their first fault. A table lists the images of the elements from 1 on. It takes no
    /// memory.
    pub fn new(schema: &Schema, raw: RawDb) -> Result<Database, DbFault>
        ensures value { IfOk result (λ d. d ≡ raw) }
        ensures database { OnOk result (IsDatabase schema.now raw) }
        ensures fault { IfErr result (IsDatabaseFault schema.now raw) }
    {
        if let Some(fault) = length_fault(schema, &raw) {
            return Err(fault);
        }
        if let Some(fault) = table_fault(schema, &raw) {
            return Err(fault);
        }
        if let Some(fault) = constant_fault(schema, &raw) {
            return Err(fault);
        }
        Ok(Database { raw })
    }

    pub fn raw(&self) -> &RawDb
        ensures { result.now ≡ self.now }
    {
        &self.raw
    }
}

impl Plain for Database {
    fn copy(&self, alloc: Global) -> Result<Database, AllocError> {
        Ok(Database {
            raw: self.raw.copy(alloc)?,
        })
    }

    fn equal(&self, other: &Database) -> bool {
        self.raw.equal(&other.raw)
    }
}
