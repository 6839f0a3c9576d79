use ras_fixture::rows;
use ras_logic::{List, RelId};
use ras_row_maps::row_maps;
use std::alloc::Global;
use std::test::Fail;

// The relations of rows and of other rows, how many row maps there are, and the last of them.
struct Row {
    name: &'static str,
    from: &'static [u16],
    to: &'static [u16],
    count: usize,
    last: Option<&'static [u32]>,
}

const ROWS: &[Row] = &[
    Row {
        name: "eight rows of eight relations",
        from: &[0, 1, 2, 3, 4, 5, 6, 7],
        to: &[7, 6, 5, 4, 3, 2, 1, 0],
        count: 1,
        last: Some(&[7, 6, 5, 4, 3, 2, 1, 0]),
    },
    Row {
        name: "eight rows of one relation",
        from: &[0; 8],
        to: &[0; 8],
        count: 40_320,
        last: Some(&[7, 6, 5, 4, 3, 2, 1, 0]),
    },
    Row {
        name: "two of three rows",
        from: &[0, 0],
        to: &[0, 0, 0],
        count: 6,
        last: Some(&[2, 1]),
    },
    Row {
        name: "rows of another relation among them",
        from: &[0, 1],
        to: &[1, 0, 1],
        count: 2,
        last: Some(&[1, 2]),
    },
    Row {
        name: "too few rows of one relation",
        from: &[0, 0],
        to: &[0, 1],
        count: 0,
        last: None,
    },
    Row {
        name: "no row",
        from: &[],
        to: &[0],
        count: 1,
        last: Some(&[]),
    },
];

fn maps_of(alloc: Global, from: &[RelId], to: &[RelId]) -> Option<List<List<u32>>> {
    if to.len() > 65_535 {
        return None;
    }
    row_maps(alloc, from, to).ok()
}

fn agrees(alloc: Global, row: &Row) -> Option<bool> {
    let from = rows(alloc, row.from).ok()?;
    let to = rows(alloc, row.to).ok()?;
    let maps = maps_of(alloc, from.as_slice(), to.as_slice())?;
    let last = maps.as_slice().last().map(|map| map.as_slice());
    Some(maps.len() == row.count && last == row.last)
}

#[test]
fn row_maps_are_as_many_as_they_should_be(rt: HostRuntime) -> Result<(), Fail> {
    for row in ROWS {
        let name = row.name;
        assert_eq!(rt; agrees(rt.alloc(), row), Some(true), "{name}");
    }
    Ok(())
}
