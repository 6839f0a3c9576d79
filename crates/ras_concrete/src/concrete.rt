use ras_database::Database;
use ras_steps::Run;

/// A database and a run in it.
#[derive(Debug, Drop)]
pub struct Concrete {
    pub db: Database,
    pub run: Run,
}
