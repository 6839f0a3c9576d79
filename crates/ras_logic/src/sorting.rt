ghost use Rattle.std.specs.Prelude.{◌≡◌, ◌↔◌, IsTrue, All};
ghost use Rattle.ras_logic.specs.Terms.{sort_of as the_sort, sort_of_base as the_base_sort, sort_after as the_next_sort, sort_along};
ghost use Rattle.ras_logic.specs.Formulas.{Fits, LiteralFits};

use crate::cube::Cube;
use crate::ids::{FunId, RelId, SortId};
use crate::literal::Literal;
use crate::problem::Problem;
use crate::schema::Schema;
use crate::shape::Shape;
use crate::term::{Base, Term};

/// The sort of a base, where its numbers name something.
pub fn sort_of_base(shape: &Shape, rows: &[RelId], params: &[SortId], base: Base) -> Option<SortId>
    ensures { result ≡ the_base_sort shape.now rows.now params.now base }
{
    match base {
        Base::Var(v) => shape.vars().get(v.n as usize).copied(),
        Base::Cell { row, column } => {
            let relation = rows.get(row as usize)?;
            let columns = shape.relations().get(relation.n as usize)?;
            columns.as_slice().get(column as usize).copied()
        }
        Base::Constant(c) => shape.schema().constants().get(c.n as usize).copied(),
        Base::Undef(s) => {
            if s.n < shape.schema().sort_count() {
                Some(s)
            } else {
                None
            }
        }
        Base::Param(p) => params.get(p as usize).copied(),
    }
}

/// The target of a function, where it is one and its source is the sort.
fn sort_after(schema: &Schema, f: FunId, sort: SortId) -> Option<SortId>
    ensures { result ≡ the_next_sort schema.now f sort }
{
    let decl = schema.functions().get(f.n as usize)?;
    if decl.source.n == sort.n {
        Some(decl.target)
    } else {
        None
    }
}

/// The sort that a path leads to.
#[tactic(auto, using(crate::proofs::TermSorts::sort_along_rest))]
fn sort_after_path(schema: &Schema, path: &[FunId], start: SortId) -> Option<SortId>
    ensures { result ≡ sort_along schema.now path.now start }
{
    let mut sort = start;
    for f in path {
        sort = sort_after(schema, *f, sort)?;
    }
    Some(sort)
}

/// The sort of a term: none where a number names nothing, or a function's source is another sort.
pub fn sort_of(shape: &Shape, rows: &[RelId], params: &[SortId], term: &Term) -> Option<SortId>
    ensures { result ≡ the_sort shape.now rows.now params.now term.now }
{
    let start = sort_of_base(shape, rows, params, term.base)?;
    sort_after_path(shape.schema(), term.path.as_slice(), start)
}

/// Whether both sides of a literal have one and the same sort.
pub fn literal_fits(shape: &Shape, rows: &[RelId], params: &[SortId], literal: &Literal) -> bool
    ensures { IsTrue result ↔ LiteralFits shape.now rows.now params.now literal.now }
{
    match literal {
        Literal::Equal { left, right, .. } => {
            match (
                sort_of(shape, rows, params, left),
                sort_of(shape, rows, params, right),
            ) {
                (Some(s), Some(t)) => s.n == t.n,
                _ => false,
            }
        }
    }
}

/// Whether every row and sort of a problem exists, and every literal fits. It takes no memory.
pub fn fits(shape: &Shape, problem: &Problem) -> bool
    ensures { IsTrue result ↔ Fits shape.now problem.now }
{
    parts_fit(
        shape,
        problem.rows.as_slice(),
        problem.params.as_slice(),
        problem.literals.as_slice(),
    )
}

/// Whether every row of a cube exists, and every literal fits. It takes no memory.
pub fn cube_fits(shape: &Shape, cube: &Cube) -> bool
    ensures { IsTrue result ↔ Fits shape.now cube.now }
{
    cube.known();
    parts_fit(shape, cube.rows(), &[], cube.literals())
}

fn parts_fit(shape: &Shape, rows: &[RelId], params: &[SortId], literals: &[Literal]) -> bool
    ensures { IsTrue result ↔ Fits shape.now (record { rows = rows.now; params = params.now; literals = literals.now }) }
{
    let sorts = shape.schema().sort_count();
    let relations = shape.relation_count();
    rows.iter().all(|r| r.n < relations)
        && params.iter().all(|s| s.n < sorts)
        && all_literals_fit(shape, rows, params, literals)
}

fn all_literals_fit(shape: &Shape, rows: &[RelId], params: &[SortId], literals: &[Literal]) -> bool
    ensures { IsTrue result ↔ All (LiteralFits shape.now rows.now params.now) literals.now }
{
    for literal in literals {
        if !literal_fits(shape, rows, params, literal) {
            return false;
        }
    }
    true
}
