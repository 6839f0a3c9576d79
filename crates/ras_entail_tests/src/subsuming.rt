use crate::said::{A, B, F_A, F_R, F_X, MAPPED, PLAIN, Q, R, Told, UNDEF, X, over};
use ras_fixture::{Sizes, cube, shape};
use ras_logic::{Cube, List, Shape, cube_fits};
use ras_subsumption::one_entails;
use std::alloc::Global;
use std::test::Fail;

// A cube, another one, and the first row map by which the other holds wherever the cube does.
struct Row {
    name: &'static str,
    shape: Sizes,
    cube: Told,
    other: Told,
    map: Option<&'static [u32]>,
}

const ROWS: &[Row] = &[
    Row {
        name: "a constant is not the other one",
        shape: PLAIN,
        cube: (&[], &[(X, B, true)]),
        other: (&[], &[(X, A, false)]),
        map: Some(&[]),
    },
    Row {
        name: "what is not undef may be any constant",
        shape: PLAIN,
        cube: (&[], &[(X, UNDEF, false)]),
        other: (&[], &[(X, B, true)]),
        map: None,
    },
    Row {
        name: "rows that are exchanged",
        shape: PLAIN,
        cube: (&[0, 0], &[(R, A, true), (Q, B, true)]),
        other: (&[0, 0], &[(R, B, true), (Q, A, true)]),
        map: Some(&[1, 0]),
    },
    Row {
        name: "the first of six maps",
        shape: PLAIN,
        cube: (&[0, 0, 0], &[]),
        other: (&[0, 0], &[]),
        map: Some(&[0, 1]),
    },
    Row {
        name: "the second of three rows",
        shape: PLAIN,
        cube: (&[0, 0, 0], &[(R, A, true), (Q, B, true)]),
        other: (&[0], &[(R, B, true)]),
        map: Some(&[1]),
    },
    Row {
        name: "more rows than the cube has",
        shape: PLAIN,
        cube: (&[0, 1], &[]),
        other: (&[0, 0], &[]),
        map: None,
    },
    Row {
        name: "a cube that never holds",
        shape: PLAIN,
        cube: (&[0, 0], &[(X, A, true), (X, B, true)]),
        other: (&[0, 0], &[(R, B, true)]),
        map: Some(&[0, 1]),
    },
    Row {
        name: "a term that the cube lacks",
        shape: MAPPED,
        cube: (&[1, 0], &[(Q, A, true)]),
        other: (&[0], &[(F_R, F_A, true)]),
        map: Some(&[1]),
    },
    Row {
        name: "other images of what differs",
        shape: MAPPED,
        cube: (&[], &[(F_X, F_A, false)]),
        other: (&[], &[(X, A, false)]),
        map: Some(&[]),
    },
    Row {
        name: "what differs may have one image",
        shape: MAPPED,
        cube: (&[], &[(X, A, false)]),
        other: (&[], &[(F_X, F_A, false)]),
        map: None,
    },
];

fn map_of(alloc: Global, shape: &Shape, cube: &Cube, other: &Cube) -> Option<Option<List<u32>>> {
    if !cube_fits(shape, cube) || !cube_fits(shape, other) {
        return None;
    }
    one_entails(alloc, shape, cube, other).ok()
}

fn agrees(alloc: Global, row: &Row) -> Option<bool> {
    let shape = shape(alloc, row.shape)?;
    let one = cube(alloc, over(row.cube))?;
    let other = cube(alloc, over(row.other))?;
    let map = map_of(alloc, &shape, &one, &other)?;
    Some(map.as_ref().map(|map| map.as_slice()) == row.map)
}

#[test]
fn one_cube_entails_another_by_the_first_map(rt: HostRuntime) -> Result<(), Fail> {
    for row in ROWS {
        let name = row.name;
        assert_eq!(rt; agrees(rt.alloc(), row), Some(true), "{name}");
    }
    Ok(())
}
