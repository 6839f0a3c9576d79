ghost use Rattle.std.specs.Prelude.{◌≡◌, ◌++◌, ◌<◌, ◌≤◌, true, IfOk, OnOk, None, All, length, slice_index_or};
ghost use Rattle.ras_logic.specs.declared.literal.Literal.TheVariants as literal;
ghost use Rattle.ras_logic.specs.Terms.{base_term};
ghost use Rattle.ras_logic.specs.Formulas.{Fits};
ghost use Rattle.ras_logic.specs.Shapes.{IsRelation};
ghost use Rattle.ras_system.specs.Obligations.{initial_literal as the_literal, undef_literal as the_undef_literal, initial_vars, undef_row, undef_cells, at_start};

use ras_logic::{Base, Cube, List, Literal, Problem, RelId, SortId, Term, VarId};
use ras_system::System;
use std::alloc::{AllocError, Global};

/// That two bases are the same.
fn same(alloc: Global, left: Base, right: Base) -> Literal
    ensures { result ≡ literal.Equal (base_term left) (base_term right) true }
{
    Literal::Equal {
        left: Term {
            base: left,
            path: List::new(alloc),
        },
        right: Term {
            base: right,
            path: List::new(alloc),
        },
        same: true,
    }
}

/// That a variable is the same as its initial constant, or as undef where none is declared.
fn initial_literal(alloc: Global, system: &System, var: VarId) -> Literal
    requires { var.n < length system.now.shape.vars }
    ensures { result ≡ the_literal system.now var.n (slice_index_or system.now.initial var.n None) }
{
    system.known();
    match system.initial_of(var) {
        Some(constant) => same(alloc, Base::Var(var), Base::Constant(constant)),
        None => {
            let sort = system.shape().var_sort(var);
            same(alloc, Base::Var(var), Base::Undef(sort))
        }
    }
}

/// That a cell is undef.
fn undef_literal(alloc: Global, row: u16, column: u16, sort: SortId) -> Literal
    ensures { result ≡ the_undef_literal row column sort }
{
    same(alloc, Base::Cell { row, column }, Base::Undef(sort))
}

/// Adds the initial value of each variable.
fn add_initial_values(
    alloc: Global,
    system: &System,
    literals: &mut List<Literal>,
) -> Result<(), AllocError>
    ensures { OnOk result (literals.new ≡ literals.old ++ initial_vars system.now) }
{
    system.known();
    for n in 0..system.shape().var_count() {
        literals.push(initial_literal(alloc, system, VarId { n }))?;
    }
    Ok(())
}

/// Adds that each cell of a row is undef.
fn add_undef_row(
    alloc: Global,
    system: &System,
    row: u16,
    relation: RelId,
    literals: &mut List<Literal>,
) -> Result<(), AllocError>
    requires { IsRelation system.now.shape relation }
    ensures { OnOk result (literals.new ≡ literals.old ++ undef_row system.now row relation) }
{
    let shape = system.shape();
    shape.known();
    let columns = shape.columns(relation);
    for column in 0..columns.len() as u16 {
        literals.push(undef_literal(alloc, row, column, columns[column as usize]))?;
    }
    Ok(())
}

/// Adds that each cell of these rows is undef.
fn add_undef_cells(
    alloc: Global,
    system: &System,
    rows: &[RelId],
    literals: &mut List<Literal>,
) -> Result<(), AllocError>
    requires relations { All (IsRelation system.now.shape) rows.now }
    requires few { length rows.now ≤ 65535 }
    ensures { OnOk result (literals.new ≡ literals.old ++ undef_cells system.now rows.now) }
{
    for row in 0..rows.len() as u16 {
        add_undef_row(alloc, system, row, rows[row as usize], literals)?;
    }
    Ok(())
}

/// The premise that a cube holds of an initial state: its literals, the initial value of each variable, and that each cell
/// of its rows is undef.
pub fn initial_premise(alloc: Global, system: &System, cube: &Cube) -> Result<Problem, AllocError>
    requires { Fits system.now.shape cube.now }
    ensures premise { IfOk result (λ p. p ≡ at_start system.now cube.now) }
    ensures fits { IfOk result (Fits system.now.shape) }
{
    system.known();
    cube.known();
    let mut premise = cube.problem(alloc)?;
    add_initial_values(alloc, system, &mut premise.literals)?;
    add_undef_cells(alloc, system, cube.rows(), &mut premise.literals)?;
    Ok(premise)
}
