ghost use Rattle.std.specs.Prelude.{◌≡◌, [], ◌∷◌, position, Some, is_some, IfOk, IfSome};
ghost use Rattle.std.specs.Str.{bytes_eq};
ghost use Rattle.ras_names.specs.Checks.{declared_checks, used_check, is_among};
ghost use Rattle.ras_scope.specs.Placing.{placed_name};
ghost use Rattle.ras_scope.specs.Answering.{Answers};
ghost use Rattle.ras_scope.specs.Finding.{Finds};
ghost use Rattle.ras_scope.specs.Columns.{column_names, column_sorts};

use crate::fault::{SpecError, fault};
use crate::name_set::NameSet;
use crate::table::Table;
use ras_lexer::Text;
use ras_logic::{FunDecl, FunId, RelId, SortId};
use ras_names::SpecKind;
use ras_syntax::Name;

/// What the items above declare, kind by kind, and their shared names in one set.
#[derive(Drop)]
pub struct Declared {
    pub shared: NameSet,
    pub sorts: NameSet,
    pub functions: Table<FunDecl>,
    pub constants: Table<SortId>,
    pub vars: Table<SortId>,
    pub relations: NameSet,
    /// The columns of each relation, with their sorts.
    pub columns: Vec<Table<SortId>>,
}

/// A name is the next of its kind, of which there are `count` above: it is within the limit, and not among these.
pub fn check_name(names: &NameSet, limit: usize, count: usize, name: &Name) -> Result<(), SpecError>
    ensures { Answers (declared_checks limit count names.now (placed_name name.now)) result }
{
    if count >= limit {
        return fault(name.at, SpecKind::TooMany);
    }
    if names.has(&name.text) {
        return fault(name.at, SpecKind::DuplicateName);
    }
    Ok(())
}

/// The number that a name is used for.
pub fn find_number(names: &NameSet, name: &Name) -> Result<u16, SpecError>
    ensures checks { Answers (used_check names.now (placed_name name.now) ∷ []) result }
    ensures number { IfOk result (λ n. position (bytes_eq name.now.text) names.now ≡ Some n) }
{
    match names.number(&name.text) {
        Some(n) => Ok(n),
        None => fault(name.at, SpecKind::UnknownName),
    }
}

/// The sort that a name is used for.
pub fn find_sort(sorts: &NameSet, name: &Name) -> Result<SortId, SpecError>
    ensures checks { Answers (used_check sorts.now (placed_name name.now) ∷ []) result }
    ensures number { IfOk result (λ s. position (bytes_eq name.now.text) sorts.now ≡ Some s.n) }
{
    match sorts.number(&name.text) {
        Some(n) => Ok(SortId { n }),
        None => fault(name.at, SpecKind::UnknownName),
    }
}

impl Declared {
    /// The function that a name is used for, and its sorts.
    pub fn function(&self, name: &Name) -> Result<(FunId, FunDecl), SpecError>
        ensures checks { Answers (used_check self.now.functions.names (placed_name name.now) ∷ []) result }
        ensures found { IfOk result (λ f. Finds self.now.functions.names self.now.functions.values.items name.now.text (f.0.n, f.1)) }
    {
        match self.functions.find(&name.text) {
            Some((n, decl)) => Ok((FunId { n }, decl)),
            None => fault(name.at, SpecKind::UnknownName),
        }
    }

    /// The relation that a name is used for.
    pub fn relation(&self, name: &Name) -> Result<RelId, SpecError>
        ensures checks { Answers (used_check self.now.relations (placed_name name.now) ∷ []) result }
        ensures number { IfOk result (λ r. position (bytes_eq name.now.text) self.now.relations ≡ Some r.n) }
    {
        match self.relations.number(&name.text) {
            Some(n) => Ok(RelId { n }),
            None => fault(name.at, SpecKind::UnknownName),
        }
    }

    /// The number of a column of a relation, and its sort.
    fn find_column(&self, relation: RelId, name: &Text) -> Option<(u16, SortId)>
        ensures found { IfSome result (Finds (column_names self.now.columns.items relation.n) (column_sorts self.now.columns.items relation.n) name.now) }
        ensures known { is_some result ≡ is_among (column_names self.now.columns.items relation.n) name.now }
    {
        match self.columns.get(relation.n as usize) {
            Some(columns) => columns.find(name),
            None => None,
        }
    }

    /// The column of a relation that a name is used for, and its sort.
    pub fn column(&self, relation: RelId, name: &Name) -> Result<(u16, SortId), SpecError>
        ensures checks { Answers (used_check (column_names self.now.columns.items relation.n) (placed_name name.now) ∷ []) result }
        ensures found { IfOk result (Finds (column_names self.now.columns.items relation.n) (column_sorts self.now.columns.items relation.n) name.now.text) }
    {
        match self.find_column(relation, &name.text) {
            Some(found) => Ok(found),
            None => fault(name.at, SpecKind::UnknownName),
        }
    }
}
