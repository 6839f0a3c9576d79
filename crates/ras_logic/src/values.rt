use crate::seq::List;

/// The elements that artifact variables, the cells of named rows and data parameters stand for.
#[derive(Debug, Drop)]
pub struct Values {
    pub vars: List<u32>,
    pub rows: List<List<u32>>,
    pub params: List<u32>,
}
