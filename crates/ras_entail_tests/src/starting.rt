use crate::said::{A, B, F_X, G_X, MAPPED, PLAIN, R, Told, UNDEF, UNDEF_IMAGE, X, over};
use ras_entail::initial_meets;
use ras_fixture::{Sizes, cube, shape};
use ras_logic::{ConstId, Cube, List, cube_fits};
use ras_steps::Witness;
use ras_system::System;
use std::alloc::Global;
use std::test::Fail;

// The initial value of x, a cube, and of an initial state that meets it how many rows it has of each relation: none where there is no
// such state.
struct Row {
    name: &'static str,
    shape: Sizes,
    initial: Option<ConstId>,
    cube: Told,
    rows: Option<&'static [usize]>,
}

const AT_A: Option<ConstId> = Some(ConstId { n: 0 });

const ROWS: &[Row] = &[
    Row {
        name: "the constant at the start",
        shape: PLAIN,
        initial: AT_A,
        cube: (&[], &[(X, A, true), (X, UNDEF, false)]),
        rows: Some(&[0, 0]),
    },
    Row {
        name: "another constant than at the start",
        shape: PLAIN,
        initial: AT_A,
        cube: (&[], &[(X, B, true)]),
        rows: None,
    },
    Row {
        name: "undef at the start",
        shape: PLAIN,
        initial: None,
        cube: (&[], &[(X, UNDEF, true)]),
        rows: Some(&[0, 0]),
    },
    Row {
        name: "not undef, which is at the start",
        shape: PLAIN,
        initial: None,
        cube: (&[], &[(X, UNDEF, false)]),
        rows: None,
    },
    Row {
        name: "rows of undef",
        shape: PLAIN,
        initial: None,
        cube: (&[1, 0, 1], &[(R, X, true)]),
        rows: Some(&[1, 2]),
    },
    Row {
        name: "a row of a constant",
        shape: PLAIN,
        initial: AT_A,
        cube: (&[0], &[(R, X, true)]),
        rows: None,
    },
    Row {
        name: "the total image of undef",
        shape: MAPPED,
        initial: None,
        cube: (&[], &[(F_X, UNDEF_IMAGE, true)]),
        rows: Some(&[0, 0]),
    },
    Row {
        name: "a total image of undef that is not undef",
        shape: MAPPED,
        initial: None,
        cube: (&[], &[(F_X, UNDEF_IMAGE, false)]),
        rows: None,
    },
    Row {
        name: "a nullable image of undef that is not undef",
        shape: MAPPED,
        initial: None,
        cube: (&[], &[(G_X, UNDEF_IMAGE, false)]),
        rows: None,
    },
    Row {
        name: "no total image of a constant",
        shape: MAPPED,
        initial: AT_A,
        cube: (&[], &[(F_X, UNDEF_IMAGE, true)]),
        rows: None,
    },
    Row {
        name: "no nullable image of a constant, and a total one",
        shape: MAPPED,
        initial: AT_A,
        cube: (&[], &[(G_X, UNDEF_IMAGE, true), (F_X, UNDEF_IMAGE, false)]),
        rows: Some(&[0, 0]),
    },
];

// The system of this shape without steps.
fn system(alloc: Global, sizes: Sizes, value: Option<ConstId>) -> Option<System> {
    let mut initial = List::new(alloc);
    initial.push(value).ok()?;
    let shape = shape(alloc, sizes)?;
    System::new(shape, initial, List::new(alloc), List::new(alloc)).ok()
}

fn state_of(alloc: Global, system: &System, cube: &Cube) -> Option<Option<Witness>> {
    if !cube_fits(system.shape(), cube) {
        return None;
    }
    initial_meets(alloc, system, cube).ok()
}

fn has_rows(witness: &Witness, rows: &[usize]) -> bool {
    let relations = witness.state.relations.as_slice();
    relations
        .iter()
        .map(|rows| rows.len())
        .eq(rows.iter().copied())
}

fn is_as_wanted(found: &Option<Witness>, wanted: Option<&[usize]>) -> bool {
    match (found, wanted) {
        (Some(witness), Some(rows)) => has_rows(witness, rows),
        (None, None) => true,
        _ => false,
    }
}

fn agrees(alloc: Global, row: &Row) -> Option<bool> {
    let system = system(alloc, row.shape, row.initial)?;
    let cube = cube(alloc, over(row.cube))?;
    let found = state_of(alloc, &system, &cube)?;
    Some(is_as_wanted(&found, row.rows))
}

#[test]
fn an_initial_state_meets_the_cube_or_none_does(rt: HostRuntime) -> Result<(), Fail> {
    for row in ROWS {
        let name = row.name;
        assert_eq!(rt; agrees(rt.alloc(), row), Some(true), "{name}");
    }
    Ok(())
}
