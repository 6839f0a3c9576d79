use ras_fixture::{Said, Sizes, cube, literals, rows, shape, sorts, term};
use ras_logic::{Base, Cube, List, Plain, Problem, RelId, Rows, SortId, VarId};
use ras_preimage::pre;
use ras_system::{Assign, Bulk, System, Target, Transition, Update};
use std::alloc::{AllocError, Global};
use std::test::Fail;

// One sort, a variable of it, and a relation with one column of it.
const ONE_CELL: Sizes = Sizes {
    sorts: 1,
    functions: &[],
    constants: &[],
    vars: &[0],
    relations: &[&[0]],
};

const UNDEF: Base = Base::Undef(SortId { n: 0 });

// That the cell of the one row is undef.
const UNDEF_ROW: Said = Said {
    rows: &[0],
    params: &[],
    literals: &[((Base::Cell { row: 0, column: 0 }, &[]), (UNDEF, &[]), true)],
};

// That the cell of the row behind the one that the step names is undef.
const UNDEF_NEXT_ROW: Said = Said {
    rows: &[],
    params: &[],
    literals: &[((Base::Cell { row: 1, column: 0 }, &[]), (UNDEF, &[]), true)],
};

fn bulk(alloc: Global) -> Result<Bulk, AllocError> {
    let mut assigns = List::new(alloc);
    let term = term(alloc, UNDEF, &[])?;
    assigns.push(Assign { column: 0, term })?;
    Ok(Bulk {
        relation: RelId { n: 0 },
        condition: literals(alloc, UNDEF_NEXT_ROW.literals)?,
        assigns,
    })
}

/// A step with something of each kind: the variable becomes undef, and rows that are undef become so again.
fn transition(alloc: Global) -> Result<Transition, AllocError> {
    let mut guard = List::new(alloc);
    guard.push(List::new(alloc))?;
    let mut updates = List::new(alloc);
    let target = Target::Var(VarId { n: 0 });
    let term = term(alloc, UNDEF, &[])?;
    updates.push(Update { target, term })?;
    let mut cases = List::new(alloc);
    cases.push(bulk(alloc)?)?;
    Ok(Transition {
        rows: rows(alloc, &[0])?,
        params: sorts(alloc, &[0])?,
        guard,
        updates,
        bulk: cases,
    })
}

fn system(alloc: Global) -> Result<System, Fail> {
    let shape = shape(alloc, ONE_CELL).ok_or("a shape")?;
    let mut initial = List::new(alloc);
    initial.push(None)?;
    let mut transitions = List::new(alloc);
    transitions.push(transition(alloc)?)?;
    let mut goals = List::new(alloc);
    goals.push(Cube::new(Rows::new(alloc), List::new(alloc))?)?;
    Ok(System::new(shape, initial, transitions, goals)?)
}

#[test]
fn a_copy_of_a_system_is_the_same(rt: HostRuntime) -> Result<(), Fail> {
    let system = system(rt.alloc())?;
    let copy = system.copy(rt.alloc())?;
    assert!(rt; copy.equal(&system));
    Ok(())
}

fn preimage(alloc: Global) -> Result<Option<List<Problem>>, Fail> {
    let system = system(alloc)?;
    if system.transitions().is_empty() {
        return Ok(None);
    }
    let Some(cube) = cube(alloc, UNDEF_ROW) else {
        return Ok(None);
    };
    Ok(Some(pre(alloc, &system, 0, &cube)?))
}

// The row was the named one, or another that took the case, or another that did not.
#[test]
fn a_preimage_has_a_problem_for_each_choice(rt: HostRuntime) -> Result<(), Fail> {
    let problems = preimage(rt.alloc())?.ok_or("a transition and a cube")?;
    assert_eq!(rt; problems.len(), 3);
    let last = problems.as_slice().last().ok_or("a problem")?;
    assert_eq!(rt; last.literals.len(), 2);
    Ok(())
}
