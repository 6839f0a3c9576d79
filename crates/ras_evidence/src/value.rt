use ras_logic::{Cube, List, RawDb, Shared, Tree};
use ras_steps::Run;

/// A formula that a search kept, with a database and a run from a state that meets it to an unsafe one.
#[derive(Drop)]
pub struct Entry {
    pub cube: Shared<Cube>,
    pub db: RawDb,
    pub run: Run,
}

/// What a verdict rests on. Its numbers need not fit any system.
#[derive(Drop)]
pub enum Evidence {
    /// Formulas that no run leaves, and a refutation by cases for each obligation.
    Safe {
        formulas: List<Shared<Cube>>,
        trees: List<Tree>,
    },
    /// A run from an initial state to an unsafe one.
    Unsafe {
        db: RawDb,
        run: Run,
    },
    /// The formulas that spent the budget, and the one that came after them.
    Unknown {
        entries: List<Entry>,
        spill: Entry,
    },
}
