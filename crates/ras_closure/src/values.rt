ghost use Rattle.std.specs.Prelude.{◌≡◌, ℕ, ◌+◌, ◌<◌, ◌≤◌, length, get_or, [], MatchOption, IfOk};
ghost use Rattle.ras_logic.specs.declared.term.Base.TheVariants.{Cell, Param};
ghost use Rattle.ras_closure.specs.Values.{AreElementsOf, AreRowsWith, AreModelValues, base_of, AreElementsTo};
ghost use Rattle.ras_closure.specs.Elements.{number};

use crate::term_table::TermTable;
use ras_logic::{Base, List, RelId, Values};
use std::alloc::{AllocError, Global};

/// Bases of one kind, by index: the variables, the cells of a row, or the data parameters.
#[derive(Clone, Copy, Debug)]
pub enum Bases {
    Vars,
    Cells { row: usize },
    Params,
}

/// The index of a base among those of one kind.
fn index_of(bases: Bases, base: Base) -> Option<usize>
    ensures { MatchOption result ((k : ℕ) → base ≡ base_of bases k → ⊥) (λ k. base ≡ base_of bases k) }
{
    match (bases, base) {
        (Bases::Vars, Base::Var(var)) => Some(var.n as usize),
        (Bases::Cells { row }, Base::Cell { row: of, column }) if of as usize == row => {
            Some(column as usize)
        }
        (Bases::Params, Base::Param(param)) => Some(param as usize),
        _ => None,
    }
}

/// Notes the element of a term that is one of the bases.
fn note_element(table: &TermTable, numbers: &[u32], bases: Bases, elements: &mut [u32], i: usize)
    requires long { length numbers.now ≡ length table.now.terms }
    requires within { i < length table.now.terms }
    requires elements { AreElementsTo table.now.terms numbers.now (base_of bases) (length elements.old) i elements.old }
    ensures { AreElementsTo table.now.terms numbers.now (base_of bases) (length elements.old) (i + 1) elements.new }
{
    let term = table.term(i);
    let functions = term.path.len();
    if functions > 0 {
        return;
    }
    let Some(k) = index_of(bases, term.base) else {
        return;
    };
    if k >= elements.len() {
        return;
    }
    elements[k] = numbers[i];
}

/// The elements of the first of the bases, undef where a base is no term.
fn elements_of(
    alloc: Global,
    table: &TermTable,
    numbers: &[u32],
    bases: Bases,
    count: usize,
) -> Result<List<u32>, AllocError>
    requires long { length numbers.now ≡ length table.now.terms }
    requires few { count ≤ 4294967295 }
    ensures { IfOk result (AreElementsOf table.now.terms (number numbers.now) (base_of bases) count) }
{
    let mut elements = vec![in alloc; 0; count]?;
    for i in 0..table.len() {
        note_element(table, numbers, bases, &mut elements, i);
    }
    Ok(List::from_vec(elements))
}

/// The elements of the data parameters, undef where one is no term.
pub fn param_elements(
    alloc: Global,
    table: &TermTable,
    numbers: &[u32],
) -> Result<List<u32>, AllocError>
    requires { length numbers.now ≡ length table.now.terms }
    ensures { IfOk result (AreElementsOf table.now.terms (number numbers.now) Param (length table.now.problem.params)) }
{
    elements_of(alloc, table, numbers, Bases::Params, table.param_count())
}

/// How many columns a relation has.
fn width_of(table: &TermTable, r: RelId) -> usize
    ensures width { result ≡ length (get_or table.now.shape.relations r.n []) }
    ensures few { result ≤ 4294967295 }
{
    match table.shape().relations().get(r.n as usize) {
        Some(columns) => columns.len(),
        None => 0,
    }
}

/// The elements of the cells of each named row.
fn rows(alloc: Global, table: &TermTable, numbers: &[u32]) -> Result<List<List<u32>>, AllocError>
    requires { length numbers.now ≡ length table.now.terms }
    ensures all { IfOk result (λ r. length r ≡ length table.now.problem.rows) }
    ensures rows { IfOk result (AreRowsWith table.now.shape table.now.problem.rows table.now.terms (number numbers.now)) }
{
    let mut all = List::new(alloc);
    let relations = table.rows();
    for k in 0..relations.len() {
        let columns = width_of(table, relations[k]);
        let cells = elements_of(alloc, table, numbers, Bases::Cells { row: k }, columns)?;
        all.push(cells)?;
    }
    Ok(all)
}

/// The values of the variables, rows and data parameters.
pub fn values(alloc: Global, table: &TermTable, numbers: &[u32]) -> Result<Values, AllocError>
    requires { length numbers.now ≡ length table.now.terms }
    ensures { IfOk result (AreModelValues table.now.shape table.now.problem.rows table.now.problem.params table.now.terms (number numbers.now)) }
{
    let vars = elements_of(alloc, table, numbers, Bases::Vars, table.var_count())?;
    let rows = rows(alloc, table, numbers)?;
    let params = param_elements(alloc, table, numbers)?;
    Ok(Values { vars, rows, params })
}
