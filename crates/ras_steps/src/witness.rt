use ras_database::Database;
use ras_logic::Plain;
use ras_system::State;
use std::alloc::{AllocError, Global};

/// A database and a state of it.
#[derive(Debug, Drop)]
pub struct Witness {
    pub db: Database,
    pub state: State,
}

impl Plain for Witness {
    fn copy(&self, alloc: Global) -> Result<Witness, AllocError> {
        Ok(Witness {
            db: self.db.copy(alloc)?,
            state: self.state.copy(alloc)?,
        })
    }

    fn equal(&self, other: &Witness) -> bool {
        self.db.equal(&other.db) && self.state.equal(&other.state)
    }
}
