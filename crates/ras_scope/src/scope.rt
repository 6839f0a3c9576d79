ghost use Rattle.std.specs.Prelude.{◌≡◌, [], ◌∷◌, Some, is_some, length, option_map, IfOk, IfSome};
ghost use Rattle.ras_logic.specs.declared.term.Base.TheVariants as base;
ghost use Rattle.ras_names.specs.Checks.{used_check, is_among, declared_of};
ghost use Rattle.ras_names.specs.TermChecks as checks;
ghost use Rattle.ras_names.specs.StepChecks.{target_checks, target_sort};
ghost use Rattle.ras_numbering.specs.TermValues.{plain_value, row_number, column_number};
ghost use Rattle.ras_numbering.specs.FileValues.{target_value};
ghost use Rattle.ras_scope.specs.Placing.{placed_name};
ghost use Rattle.ras_scope.specs.Finding.{Finds};
ghost use Rattle.ras_scope.specs.Answering.{Answers};
ghost use Rattle.ras_scope.specs.Scopes.{each_names, plain_names, row_names};
ghost use Rattle.ras_scope.specs.Seeing.{Sees, each_relations, row_relations};
ghost use Rattle.ras_scope.specs.Sorting.{IsSortOf};

use crate::declared::Declared;
use crate::fault::{SpecError, fault};
use crate::table::Table;
use ras_lexer::Text;
use ras_logic::{Base, ConstId, RelId, SortId, VarId};
use ras_names::SpecKind;
use ras_syntax::Name;
use ras_system::Target;

/// The row of an `each`, which has the number behind the row parameters.
#[derive(Clone, Copy)]
pub struct EachRow {
    pub name: Text,
    pub relation: RelId,
}

/// What may be named at a place: what the file declares, the rows, the data parameters, and the row of an `each`.
#[derive(Clone, Copy)]
pub struct Scope<'a> {
    pub declared: &'a Declared,
    pub rows: &'a Table<RelId>,
    pub params: &'a Table<SortId>,
    pub each: Option<EachRow>,
}

impl<'a> Scope<'a> {
    /// The same scope inside an `each` with this row.
    pub fn with_row(&self, row: EachRow) -> Scope<'a>
        ensures { result ≡ record self.now { each = Some row } }
    {
        Scope {
            declared: self.declared,
            rows: self.rows,
            params: self.params,
            each: Some(row),
        }
    }

    /// The number of the row of the `each`, and its relation.
    fn find_each(&self, name: &Text) -> Option<(u16, RelId)>
        ensures known { is_some result ≡ is_among (each_names self.now.each) name.now }
        ensures number { IfSome result (λ r. r.0 ≡ length self.now.rows.now.names) }
        ensures name { IfSome result (λ r. each_names self.now.each ≡ name.now ∷ []) }
        ensures relation { IfSome result (λ r. each_relations self.now.each ≡ r.1 ∷ []) }
    {
        match self.each {
            Some(each) => {
                if *name == each.name {
                    return Some((self.rows.names().count(), each.relation));
                }
                None
            }
            None => None,
        }
    }

    /// The number of a row, and its relation.
    fn row(&self, name: &Name) -> Result<(u16, RelId), SpecError>
        ensures checks { Answers (used_check (row_names self.now) (placed_name name.now) ∷ []) result }
        ensures found { IfOk result (Finds (row_names self.now) (row_relations self.now) name.now.text) }
    {
        if let Some(found) = self.rows.find(&name.text) {
            return Ok(found);
        }
        match self.find_each(&name.text) {
            Some(found) => Ok(found),
            None => fault(name.at, SpecKind::UnknownName),
        }
    }

    /// The numbers of row and column of the cell `row.column`, and its sort.
    fn find_cell(&self, row: &Name, column: &Name) -> Result<(u16, u16, SortId), SpecError>
        ensures checks { (seen : checks.Scope) → Sees self.now seen → Answers (checks.cell_checks seen (placed_name row.now) (placed_name column.now)) result }
        ensures row { (seen : checks.Scope) → Sees self.now seen → IfOk result (λ c. c.0 ≡ row_number seen (placed_name row.now)) }
        ensures column { (seen : checks.Scope) → Sees self.now seen → IfOk result (λ c. c.1 ≡ column_number seen (placed_name row.now) (placed_name column.now)) }
        ensures sort { (seen : checks.Scope) → Sees self.now seen → IfOk result (λ c. IsSortOf seen.file (checks.cell_sort seen (placed_name row.now) (placed_name column.now)) (Some c.2)) }
    {
        let (m, relation) = self.row(row)?;
        let (n, sort) = self.declared.column(relation, column)?;
        Ok((m, n, sort))
    }

    /// The cell `row.column`, and its sort.
    pub fn cell(&self, row: &Name, column: &Name) -> Result<(Base, SortId), SpecError>
        ensures checks { (seen : checks.Scope) → Sees self.now seen → Answers (checks.cell_checks seen (placed_name row.now) (placed_name column.now)) result }
        ensures value { (seen : checks.Scope) → Sees self.now seen
            → IfOk result (λ c. c.0 ≡ base.Cell (row_number seen (placed_name row.now)) (column_number seen (placed_name row.now) (placed_name column.now))) }
        ensures sort { (seen : checks.Scope) → Sees self.now seen → IfOk result (λ c. IsSortOf seen.file (checks.cell_sort seen (placed_name row.now) (placed_name column.now)) (Some c.1)) }
    {
        let (row, column, sort) = self.find_cell(row, column)?;
        Ok((Base::Cell { row, column }, sort))
    }

    /// The constant, variable or data parameter that a name alone is, and its sort.
    pub fn plain(&self, name: &Name) -> Result<(Base, SortId), SpecError>
        ensures checks { Answers (used_check (plain_names self.now) (placed_name name.now) ∷ []) result }
        ensures value { (seen : checks.Scope) → Sees self.now seen → IfOk result (λ p. p.0 ≡ plain_value seen name.now.text) }
        ensures sort { (seen : checks.Scope) → Sees self.now seen → IfOk result (λ p. IsSortOf seen.file (declared_of (checks.plain_names seen) name.now.text) (Some p.1)) }
    {
        if let Some((n, sort)) = self.declared.constants.find(&name.text) {
            return Ok((Base::Constant(ConstId { n }), sort));
        }
        if let Some((n, sort)) = self.declared.vars.find(&name.text) {
            return Ok((Base::Var(VarId { n }), sort));
        }
        match self.params.find(&name.text) {
            Some((n, sort)) => Ok((Base::Param(n), sort)),
            None => fault(name.at, SpecKind::UnknownName),
        }
    }

    /// The variable, or the cell of a row, that an update names, and its sort.
    pub fn target(&self, name: &Name, column: Option<&Name>) -> Result<(Target, SortId), SpecError>
        ensures checks { (seen : checks.Scope) → Sees self.now seen → Answers (target_checks seen (placed_name name.now) (option_map (λ c. placed_name c.now) column.entry)) result }
        ensures value { (seen : checks.Scope) → Sees self.now seen → IfOk result (λ t. t.0 ≡ target_value seen (placed_name name.now) (option_map (λ c. placed_name c.now) column.entry)) }
        ensures sort { (seen : checks.Scope) → Sees self.now seen
            → IfOk result (λ t. IsSortOf seen.file (target_sort seen (placed_name name.now) (option_map (λ c. placed_name c.now) column.entry)) (Some t.1)) }
    {
        match column {
            Some(column) => {
                let (row, column, sort) = self.find_cell(name, column)?;
                Ok((Target::Cell { row, column }, sort))
            }
            None => match self.declared.vars.find(&name.text) {
                Some((n, sort)) => Ok((Target::Var(VarId { n }), sort)),
                None => fault(name.at, SpecKind::UnknownName),
            },
        }
    }
}
