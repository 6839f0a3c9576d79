ghost use Rattle.std.specs.Prelude.{◌≡◌, ◌≤◌, ◌++◌, length, All, IfOk, OnOk};
ghost use Rattle.ras_logic.specs.Terms.{base_term};
ghost use Rattle.ras_subsumption.specs.Widened.{row_base, over_row, itself as the_itself, IsTrivial, HasOver, HasOverRows, HasSidesOver, AddsTrivial, IsWidened};

use ras_logic::{Base, Cube, List, Literal, Plain, Problem, RelId, Shape, Term, sort_of};
use std::alloc::{AllocError, Global};

/// The same base, with this row in place of the row that it names.
fn with_row(base: Base, row: u16) -> Base
    ensures { base_term result ≡ row_base row base }
{
    match base {
        Base::Cell { column, .. } => Base::Cell { row, column },
        Base::Var(v) => Base::Var(v),
        Base::Constant(c) => Base::Constant(c),
        Base::Undef(s) => Base::Undef(s),
        Base::Param(p) => Base::Param(p),
    }
}

/// The same term, over this row in place of the row that it names.
fn over_row(alloc: Global, term: &Term, row: u16) -> Result<Term, AllocError>
    ensures { IfOk result (λ t. t ≡ over_row row term.now) }
{
    let path = term.path.copy(alloc)?;
    Ok(Term {
        base: with_row(term.base, row),
        path,
    })
}

/// That a term is itself.
fn itself(alloc: Global, term: Term) -> Result<Literal, AllocError>
    ensures { IfOk result (λ l. l ≡ the_itself term) }
{
    let right = term.copy(alloc)?;
    Ok(Literal::Equal {
        left: term,
        right,
        same: true,
    })
}

/// Adds that a term over this row is itself, if it has a sort.
fn add_over(
    alloc: Global,
    shape: &Shape,
    rows: &[RelId],
    term: &Term,
    row: u16,
    literals: &mut List<Literal>,
) -> Result<(), AllocError>
    ensures adds { OnOk result (AddsTrivial shape.now rows.now literals.old literals.new) }
    ensures found { OnOk result (HasOver shape.now rows.now literals.new term.now row) }
{
    let term = over_row(alloc, term, row)?;
    if sort_of(shape, rows, &[], &term).is_some() {
        literals.push(itself(alloc, term)?)?;
    }
    Ok(())
}

/// Adds that a term is itself, over each row in place of the row that it names.
fn add_term(
    alloc: Global,
    shape: &Shape,
    rows: &[RelId],
    term: &Term,
    literals: &mut List<Literal>,
) -> Result<(), AllocError>
    requires { length rows.now ≤ 65535 }
    ensures adds { OnOk result (AddsTrivial shape.now rows.now literals.old literals.new) }
    ensures found { OnOk result (HasOverRows shape.now rows.now literals.new term.now) }
{
    add_over(alloc, shape, rows, term, 0, literals)?;
    for row in 1..rows.len() {
        add_over(alloc, shape, rows, term, row as u16, literals)?;
    }
    Ok(())
}

/// Adds that both sides of a literal are themselves, over each row in place of the rows that they name.
fn add_sides(
    alloc: Global,
    shape: &Shape,
    rows: &[RelId],
    literal: &Literal,
    literals: &mut List<Literal>,
) -> Result<(), AllocError>
    requires { length rows.now ≤ 65535 }
    ensures adds { OnOk result (AddsTrivial shape.now rows.now literals.old literals.new) }
    ensures found { OnOk result (HasSidesOver shape.now rows.now literals.new literal.now) }
{
    add_term(alloc, shape, rows, literal.left(), literals)?;
    add_term(alloc, shape, rows, literal.right(), literals)?;
    Ok(())
}

/// That the sides of all literals are themselves, over each row in place of the rows that they name.
fn all_sides(
    alloc: Global,
    shape: &Shape,
    rows: &[RelId],
    literals: &[Literal],
) -> Result<List<Literal>, AllocError>
    requires { length rows.now ≤ 65535 }
    ensures trivial { IfOk result (All (IsTrivial shape.now rows.now)) }
    ensures sides { IfOk result (λ more. All (HasSidesOver shape.now rows.now more) literals.now) }
{
    let mut more = List::new(alloc);
    for literal in literals {
        add_sides(alloc, shape, rows, literal, &mut more)?;
    }
    Ok(more)
}

/// More literals, after those that are there.
fn append(literals: &mut List<Literal>, more: List<Literal>) -> Result<(), AllocError>
    ensures { OnOk result (literals.new ≡ literals.old ++ more) }
{
    for literal in more.into_vec() {
        literals.push(literal)?;
    }
    Ok(())
}

/// The cube, with trivial literals about the terms of the other one over the cube's rows.
pub fn widened(
    alloc: Global,
    shape: &Shape,
    cube: &Cube,
    other: &Cube,
) -> Result<Problem, AllocError>
    ensures { IfOk result (IsWidened shape.now cube.now other.now) }
{
    cube.known();
    let mut problem = cube.problem(alloc)?;
    let more = all_sides(alloc, shape, cube.rows(), other.literals())?;
    append(&mut problem.literals, more)?;
    Ok(problem)
}
