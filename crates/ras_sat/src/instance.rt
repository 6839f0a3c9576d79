use ras_logic::List;

/// A formula, by its place in a list, and for each of its rows in order a row of a premise.
#[derive(Debug, Drop)]
pub struct Instance {
    pub formula: u32,
    pub rows: List<u32>,
}
