use ras_logic::List;

/// What a step chooses: a transition, a row number for each row parameter, an element for each data parameter.
#[derive(Debug, Drop)]
pub struct Choice {
    pub transition: u16,
    pub rows: List<u32>,
    pub values: List<u32>,
}
