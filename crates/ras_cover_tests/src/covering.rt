use crate::holding::{is_met_by, literals_of};
use crate::said::{
    C, CHAIN, D, E, F_C, F_D, F_E, FAR_E, G_E, Held, KEPT, Literals, NO_SOURCE, NULLABLE, TOTAL,
    UNDEF, X, Y, list, problem_of, raw,
};
use ras_cover::{CoverCount, cover};
use ras_database::Database;
use ras_fixture::{Sizes, shape};
use ras_logic::{Cube, List, Problem, Shape, fits};
use std::alloc::Global;
use std::test::Fail;

// A problem, a database, for values of x and y whether the cover holds, and how many cubes and literals it has: each was worked
// out by hand.
struct Row {
    name: &'static str,
    shape: Sizes,
    problem: Literals,
    db: Held,
    holds: &'static [(&'static [u32], bool)],
    cubes: usize,
    literals: usize,
}

const ONE_EACH: Held = Held {
    sizes: &[1, 1],
    tables: &[&[1], &[1]],
    constants: &[],
};

// The constant of sort 0 is its first element, whose image is the second one.
const CONSTANT: Held = Held {
    sizes: &[2, 2],
    tables: &[&[2, 1]],
    constants: &[1],
};

const ROWS: &[Row] = &[
    Row {
        name: "two total images",
        shape: TOTAL,
        problem: Literals {
            params: &[0],
            said: &[(F_E, X, true), (G_E, Y, true)],
        },
        db: ONE_EACH,
        holds: &[
            (&[0, 0], true),
            (&[0, 1], false),
            (&[1, 0], false),
            (&[1, 1], true),
        ],
        cubes: 2,
        literals: 4,
    },
    Row {
        name: "two nullable images",
        shape: NULLABLE,
        problem: Literals {
            params: &[0],
            said: &[(F_E, X, true), (G_E, Y, true)],
        },
        db: ONE_EACH,
        holds: &[
            (&[0, 0], true),
            (&[0, 1], true),
            (&[1, 0], true),
            (&[1, 1], true),
        ],
        cubes: 1,
        literals: 0,
    },
    Row {
        name: "a total image of what is not undef",
        shape: TOTAL,
        problem: Literals {
            params: &[0],
            said: &[(F_E, X, true), (E, UNDEF, false)],
        },
        db: ONE_EACH,
        holds: &[
            (&[0, 0], false),
            (&[0, 1], false),
            (&[1, 0], true),
            (&[1, 1], true),
        ],
        cubes: 1,
        literals: 1,
    },
    Row {
        name: "two that differ, where there is nothing",
        shape: TOTAL,
        problem: Literals {
            params: &[0, 0],
            said: &[(E, D, false)],
        },
        db: NO_SOURCE,
        holds: &[
            (&[0, 0], true),
            (&[0, 1], true),
            (&[1, 0], true),
            (&[1, 1], true),
        ],
        cubes: 1,
        literals: 0,
    },
    Row {
        name: "two that differ, of one total image",
        shape: TOTAL,
        problem: Literals {
            params: &[0, 0],
            said: &[(F_E, X, true), (F_D, X, true), (E, D, false)],
        },
        db: ONE_EACH,
        holds: &[
            (&[0, 0], false),
            (&[0, 1], false),
            (&[1, 0], true),
            (&[1, 1], true),
        ],
        cubes: 1,
        literals: 1,
    },
    Row {
        name: "the image of what a variable stands for",
        shape: KEPT,
        problem: Literals {
            params: &[0, 1],
            said: &[(E, X, true), (F_E, D, true), (D, Y, true)],
        },
        db: CONSTANT,
        holds: &[
            (&[0, 0], true),
            (&[0, 1], false),
            (&[1, 1], false),
            (&[1, 2], true),
            (&[2, 1], true),
            (&[2, 2], false),
        ],
        cubes: 1,
        literals: 1,
    },
    Row {
        name: "a parameter that no literal names",
        shape: KEPT,
        problem: Literals {
            params: &[0],
            said: &[(X, UNDEF, false)],
        },
        db: CONSTANT,
        holds: &[(&[0, 0], false), (&[1, 0], true), (&[2, 1], true)],
        cubes: 1,
        literals: 1,
    },
    Row {
        name: "the image of a constant",
        shape: KEPT,
        problem: Literals {
            params: &[0, 1],
            said: &[(F_C, D, true), (D, Y, true), (C, X, true)],
        },
        db: CONSTANT,
        holds: &[
            (&[1, 2], true),
            (&[1, 1], false),
            (&[2, 2], false),
            (&[0, 0], false),
        ],
        cubes: 1,
        literals: 2,
    },
    Row {
        name: "a chain of total functions",
        shape: CHAIN,
        problem: Literals {
            params: &[0],
            said: &[(FAR_E, X, true), (E, UNDEF, false)],
        },
        db: Held {
            sizes: &[0, 0, 0, 0, 1],
            tables: &[&[], &[], &[], &[]],
            constants: &[],
        },
        holds: &[(&[0], false), (&[1], true)],
        cubes: 1,
        literals: 1,
    },
    Row {
        name: "literals that clash",
        shape: TOTAL,
        problem: Literals {
            params: &[0],
            said: &[(E, UNDEF, true), (F_E, X, true), (F_E, X, false)],
        },
        db: ONE_EACH,
        holds: &[(&[0, 0], false), (&[1, 1], false)],
        cubes: 0,
        literals: 0,
    },
];

fn cubes_of(alloc: Global, shape: &Shape, problem: &Problem) -> Option<List<Cube>> {
    if !fits(shape, problem) {
        return None;
    }
    let mut count = CoverCount { n: 0 };
    cover(alloc, shape, problem, &mut count).ok()
}

fn agrees(alloc: Global, row: &Row) -> Option<bool> {
    let shape = shape(alloc, row.shape)?;
    let problem = problem_of(alloc, row.problem).ok()?;
    let db = Database::new(shape.schema(), raw(alloc, row.db).ok()?).ok()?;
    let cubes = cubes_of(alloc, &shape, &problem)?;
    if cubes.len() != row.cubes || literals_of(cubes.as_slice()) != row.literals {
        return Some(false);
    }
    for (vars, wanted) in row.holds {
        if is_met_by(alloc, &db, vars, &[], cubes.as_slice())? != *wanted {
            return Some(false);
        }
    }
    Some(true)
}

#[test]
fn a_cover_holds_where_it_should(rt: HostRuntime) -> Result<(), Fail> {
    let alloc = rt.alloc();
    for row in ROWS {
        let name = row.name;
        assert_eq!(rt; agrees(alloc, row), Some(true), "{name}");
    }
    Ok(())
}
