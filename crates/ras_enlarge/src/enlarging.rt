ghost use Rattle.std.specs.Prelude.{◌≡◌, ◌≤◌, ◌<◌, ◌↔◌, ℕ, [], List, length, slice_get, Some, None, IfOk, MatchOption, IsTrue};
ghost use Rattle.ras_logic.specs.declared.ids.SortId.{SortId};
ghost use Rattle.ras_logic.specs.declared.problem.Problem.{Problem};
ghost use Rattle.ras_logic.specs.Databases.{IsDatabase, size_of};
ghost use Rattle.ras_logic.specs.Formulas.{Fits};
ghost use Rattle.ras_logic.specs.Truth.{AreValues, AllHold};
ghost use Rattle.ras_closure.specs.Elements.{number};
ghost use Rattle.ras_cover.specs.Covers.{bare, HasExtension, IsCover, IsExtension, SatisfiesAny};
ghost use Rattle.ras_cubes.specs.Dues.{IsCubeOf};
ghost use Rattle.ras_cover.specs.Extensions.{AreNumbersFor, IsDbOver};
ghost use Rattle.ras_split.specs.Standing.{CaseParts};
ghost use Rattle.ras_enlarge.specs.Numbers.{size_in};
ghost use Rattle.ras_enlarge.specs.Enlarged.{IsMissed, AreMissed, IsCaseOver, IsExtensionOfSome};

use crate::filling::fill;
use crate::numbering::{Numbers, number_terms};
use crate::tables::tables_over;
use ras_closure::{Closure, Model, param_elements};
use ras_cubes::cube_of;
use ras_database::{Database, holds};
use ras_logic::{List, Literal, Plain, Problem, RawDb, Shape, Values};
use ras_split::{Case, cases_of};
use std::alloc::{AllocError, Global};

/// The elements of the terms of a case whose cube holds, and the sizes of the sorts of the larger database.
fn numbers_for(
    alloc: Global,
    case: &Case,
    db: &Database,
    values: &Values,
) -> Result<Numbers, AllocError>
    requires { IsDatabase case.now.closure.table.shape.schema db.now }
    ensures long { IfOk result (λ e. length e.numbers.items ≡ length case.now.closure.table.terms) }
    ensures sorts { IfOk result (λ e. length e.sizes.items ≡ case.now.closure.table.shape.schema.sorts) }
    ensures numbers { IfOk result (λ e. AreNumbersFor case.now.closure case.now.terms db.now values.now (number e.numbers.items) (size_in e.sizes.items)) }
{
    case.known();
    let mut numbers = number_terms(alloc, case, db, values)?;
    fill(case.closure().table(), &mut numbers.sizes);
    Ok(numbers)
}

/// The larger database in which the terms have these elements.
fn larger(
    alloc: Global,
    case: &Case,
    db: &Database,
    numbers: &[u32],
    sizes: Vec<u32>,
) -> Result<RawDb, AllocError>
    requires long { length numbers.now ≡ length case.now.closure.table.terms }
    requires sorts { length sizes.items ≡ case.now.closure.table.shape.schema.sorts }
    requires database { IsDatabase case.now.closure.table.shape.schema db.now }
    requires grows { (s : SortId) → s.n < case.now.closure.table.shape.schema.sorts → size_of db.now s ≤ size_in sizes.items s }
    ensures { IfOk result (λ e. IsDbOver case.now.closure.table db.now (number numbers.now) (size_in sizes.items) e) }
{
    case.known();
    let tables = tables_over(alloc, case.closure().table(), db, numbers, &sizes)?;
    let constants = db.raw().constants.copy(alloc)?;
    Ok(RawDb {
        sizes: List::from_vec(sizes),
        tables,
        constants,
    })
}

/// A larger database and values that satisfy the problem of a case whose cube holds.
fn enlarge(
    alloc: Global,
    case: &Case,
    db: &Database,
    values: &Values,
    cube: &Problem,
) -> Result<Model, AllocError>
    requires case { IsCaseOver case.now db.now values.now }
    requires cube { IsCubeOf case.now.closure case.now.terms cube.now }
    requires hold { AllHold db.now values.now cube.now.literals }
    ensures { IfOk result (λ m. IsExtension case.now.closure.table.shape case.now.closure.table.problem db.now values.now m.db m.values) }
{
    case.known();
    let made = numbers_for(alloc, case, db, values)?;
    let Numbers { numbers, sizes } = made;
    let db = larger(alloc, case, db, &numbers, sizes)?;
    let params = param_elements(alloc, case.closure().table(), &numbers)?;
    let vars = values.vars.copy(alloc)?;
    let rows = values.rows.copy(alloc)?;
    Ok(Model {
        db,
        values: Values { vars, rows, params },
    })
}

fn all_hold(db: &Database, values: &Values, literals: &[Literal]) -> bool
    ensures { IsTrue result ↔ AllHold db.now values.now literals.now }
{
    literals.iter().all(|l| holds(db, values, l))
}

/// The same for any case: none where its cube does not hold.
fn enlarge_case(
    alloc: Global,
    problem: &Problem,
    case: &Case,
    db: &Database,
    values: &Values,
) -> Result<Option<Model>, AllocError>
    requires problem { case.now.closure.table.problem ≡ problem.now }
    requires case { IsCaseOver case.now db.now values.now }
    ensures { IfOk result (λ o. MatchOption o (IsMissed db.now values.now case.now) (λ m. IsExtension case.now.closure.table.shape problem.now db.now values.now m.db m.values)) }
{
    case.known();
    let cube = cube_of(alloc, problem, case)?;
    if !all_hold(db, values, cube.literals.as_slice()) {
        return Ok(None);
    }
    let model = enlarge(alloc, case, db, values, &cube)?;
    Ok(Some(model))
}

/// The same for the first of some cases whose cube holds.
fn enlarge_first(
    alloc: Global,
    problem: &Problem,
    cases: &[Case],
    db: &Database,
    values: &Values,
) -> Result<Option<Model>, AllocError>
    requires cases { (k : ℕ) (c : CaseParts) → slice_get cases.now k ≡ Some c → IsCaseOver c db.now values.now × (c.closure.table.problem ≡ problem.now) }
    ensures { IfOk result (λ o. MatchOption o (AreMissed cases.now (length cases.now) db.now values.now) (λ m. IsExtensionOfSome cases.now problem.now db.now values.now m.db m.values)) }
{
    for case in cases {
        if let Some(model) = enlarge_case(alloc, problem, case, db, values)? {
            return Ok(Some(model));
        }
    }
    Ok(None)
}

/// The values of the variables and rows alone.
fn without_params(alloc: Global, values: &Values) -> Result<Values, AllocError>
    ensures { IfOk result (λ r. r ≡ bare values.now) }
{
    Ok(Values {
        vars: values.vars.copy(alloc)?,
        rows: values.rows.copy(alloc)?,
        params: List::new(alloc),
    })
}

/// A database that extends this one, and values in it that satisfy the problem and agree with these on variables and rows: none
/// exactly where these meet no cube of a cover. A sort grows by one element for each class of it in which there is no term
/// without data parameters, and by one more only where an image under a total function is missing and no element is there. A
/// sort that would need more than 4,294,967,295 elements is refused as want of memory.
pub fn extend(
    alloc: Global,
    shape: &Shape,
    problem: &Problem,
    db: &Database,
    values: &Values,
) -> Result<Option<Model>, AllocError>
    requires fits { Fits shape.now problem.now }
    requires database { IsDatabase shape.now.schema db.now }
    requires values { AreValues shape.now db.now problem.now.rows [] (bare values.now) }
    ensures extension { IfOk result (λ o. MatchOption o (HasExtension shape.now problem.now db.now values.now → ⊥) (λ m. IsExtension shape.now problem.now db.now values.now m.db m.values)) }
    ensures none { IfOk result (λ o. (cubes : List Problem) → IsCover shape.now problem.now cubes → (o ≡ None) ↔ (SatisfiesAny shape.now db.now (bare values.now) cubes → ⊥)) }
{
    shape.known();
    let bare = without_params(alloc, values)?;
    let Some(closure) = Closure::of(alloc, shape, problem)? else {
        return Ok(None);
    };
    let cases = cases_of(alloc, closure)?;
    enlarge_first(alloc, problem, cases.as_slice(), db, &bare)
}
