use ras_lexer::Text;
use ras_logic::RelId;
use ras_names::Names;

/// What may be named at a place: the names of the file, the rows there with the relation of each, and the data parameters.
#[derive(Drop)]
pub(crate) struct Scope<'a> {
    pub(crate) names: &'a Names,
    pub(crate) rows: &'a [Text],
    pub(crate) relations: &'a [RelId],
    pub(crate) params: &'a [Text],
}
