ghost use Rattle.std.specs.Prelude.{◌≡◌, ◌<◌, length};

use crate::holding::{is_met_by, literals_of};
use crate::said::{Held, Side, UNDEF, X, raw};
use crate::systems::{Step, system};
use ras_cover::CoverCount;
use ras_database::Database;
use ras_fixture::{Said, Sizes, cube, shape};
use ras_leads::pre_covered;
use ras_logic::{Base, Cube, List, SortId, VarId, cube_fits};
use ras_system::Target;
use std::alloc::Global;
use std::test::Fail;

// Values of variables and rows in a database, and whether some cube holds there.
struct At {
    db: &'static Held,
    vars: &'static [u32],
    rows: &'static [&'static [u32]],
    holds: bool,
}

// A system, the number of a step and a cube, how many cubes lead into it, how many literals they have, how many covers were
// made, and where the cubes hold: each was worked out by hand.
struct Row {
    name: &'static str,
    shape: Sizes,
    steps: &'static [Step],
    step: u16,
    cube: Said,
    cubes: usize,
    literals: usize,
    count: u64,
    at: &'static [At],
}

const FREE: Sizes = Sizes {
    sorts: 1,
    functions: &[],
    constants: &[],
    vars: &[0],
    relations: &[],
};

const P: Side = (Base::Param(0), &[]);

// x becomes something.
const PICK: &[Step] = &[Step {
    rows: &[],
    params: &[0],
    guard: &[(P, UNDEF, false)],
    updates: &[(Target::Var(VarId { n: 0 }), P)],
}];

const PICKED: Said = Said {
    rows: &[],
    params: &[],
    literals: &[(X, UNDEF, false)],
};

const NO_ELEMENT: Held = Held {
    sizes: &[0],
    tables: &[],
    constants: &[],
};

// Users and jobs, the owner of each job, and applications for jobs that somebody handles.
const HIRING: Sizes = Sizes {
    sorts: 2,
    functions: &[(1, 0, true)],
    constants: &[],
    vars: &[],
    relations: &[&[1, 0]],
};

const NO_JOB: Side = (Base::Undef(SortId { n: 1 }), &[]);

const NO_USER: Side = UNDEF;

const JOB: Side = (Base::Param(0), &[]);

const OWNER: Side = (Base::Param(0), &[0]);

const USER: Side = (Base::Param(1), &[]);

const JOB_OF: Side = (Base::Cell { row: 0, column: 0 }, &[]);

const OWNER_OF: Side = (Base::Cell { row: 0, column: 0 }, &[0]);

const HANDLER_OF: Side = (Base::Cell { row: 0, column: 1 }, &[]);

const JOB_CELL: Target = Target::Cell { row: 0, column: 0 };

const HANDLER_CELL: Target = Target::Cell { row: 0, column: 1 };

// An application for no job becomes one for a job, with its owner; or it is withdrawn.
const APPLY_WITHDRAW: &[Step] = &[
    Step {
        rows: &[0],
        params: &[1],
        guard: &[(JOB_OF, NO_JOB, true), (JOB, NO_JOB, false)],
        updates: &[(JOB_CELL, JOB), (HANDLER_CELL, OWNER)],
    },
    Step {
        rows: &[0],
        params: &[],
        guard: &[(JOB_OF, NO_JOB, false)],
        updates: &[(JOB_CELL, NO_JOB), (HANDLER_CELL, NO_USER)],
    },
];

// The same, but any user may handle it.
const ANY_USER: &[Step] = &[Step {
    rows: &[0],
    params: &[1, 0],
    guard: &[
        (JOB_OF, NO_JOB, true),
        (JOB, NO_JOB, false),
        (USER, NO_USER, false),
    ],
    updates: &[(JOB_CELL, JOB), (HANDLER_CELL, USER)],
}];

// Somebody handles an application who does not own its job.
const MISHANDLED: Said = Said {
    rows: &[0],
    params: &[],
    literals: &[(HANDLER_OF, OWNER_OF, false)],
};

// The first of two users owns the job.
const ONE_JOB: Held = Held {
    sizes: &[2, 1],
    tables: &[&[1]],
    constants: &[],
};

const NO_JOBS: Held = Held {
    sizes: &[1, 0],
    tables: &[&[]],
    constants: &[],
};

const ROWS: &[Row] = &[
    Row {
        name: "something is picked",
        shape: FREE,
        steps: PICK,
        step: 0,
        cube: PICKED,
        cubes: 1,
        literals: 0,
        count: 1,
        at: &[At {
            db: &NO_ELEMENT,
            vars: &[0],
            rows: &[],
            holds: true,
        }],
    },
    Row {
        name: "another application is mishandled, where one can apply",
        shape: HIRING,
        steps: APPLY_WITHDRAW,
        step: 0,
        cube: MISHANDLED,
        cubes: 1,
        literals: 2,
        count: 1,
        at: &[
            At {
                db: &ONE_JOB,
                vars: &[],
                rows: &[&[0, 0], &[1, 2]],
                holds: true,
            },
            At {
                db: &ONE_JOB,
                vars: &[],
                rows: &[&[0, 0], &[1, 1]],
                holds: false,
            },
            At {
                db: &ONE_JOB,
                vars: &[],
                rows: &[&[1, 1], &[1, 2]],
                holds: false,
            },
            At {
                db: &NO_JOBS,
                vars: &[],
                rows: &[&[0, 0], &[0, 1]],
                holds: true,
            },
        ],
    },
    Row {
        name: "another application is mishandled, where one can withdraw",
        shape: HIRING,
        steps: APPLY_WITHDRAW,
        step: 1,
        cube: MISHANDLED,
        cubes: 1,
        literals: 2,
        count: 1,
        at: &[
            At {
                db: &ONE_JOB,
                vars: &[],
                rows: &[&[1, 1], &[1, 2]],
                holds: true,
            },
            At {
                db: &ONE_JOB,
                vars: &[],
                rows: &[&[1, 2], &[1, 1]],
                holds: false,
            },
            At {
                db: &ONE_JOB,
                vars: &[],
                rows: &[&[0, 0], &[1, 2]],
                holds: false,
            },
        ],
    },
    Row {
        name: "an application can be mishandled, or another one is",
        shape: HIRING,
        steps: ANY_USER,
        step: 0,
        cube: MISHANDLED,
        cubes: 2,
        literals: 3,
        count: 2,
        at: &[
            At {
                db: &NO_JOBS,
                vars: &[],
                rows: &[&[0, 0], &[0, 0]],
                holds: true,
            },
            At {
                db: &ONE_JOB,
                vars: &[],
                rows: &[&[1, 1], &[0, 0]],
                holds: false,
            },
        ],
    },
];

// The cubes that lead into the row's cube, and how many covers were made.
fn leading(alloc: Global, row: &Row) -> Option<(List<Cube>, u64)> {
    let system = system(alloc, row.shape, row.steps)?;
    let cube = cube(alloc, row.cube)?;
    if usize::from(row.step) >= system.transitions().len() || !cube_fits(system.shape(), &cube) {
        return None;
    }
    let mut count = CoverCount { n: 0 };
    let cubes = pre_covered(alloc, &system, row.step, &cube, &mut count).ok()?;
    Some((cubes, count.n))
}

fn agrees_at(alloc: Global, sizes: Sizes, cubes: &[Cube], at: &At) -> Option<bool> {
    let shape = shape(alloc, sizes)?;
    let db = Database::new(shape.schema(), raw(alloc, *at.db).ok()?).ok()?;
    Some(is_met_by(alloc, &db, at.vars, at.rows, cubes)? == at.holds)
}

fn agrees(alloc: Global, row: &Row) -> Option<bool> {
    let (cubes, count) = leading(alloc, row)?;
    if cubes.len() != row.cubes || literals_of(cubes.as_slice()) != row.literals {
        return Some(false);
    }
    for at in row.at {
        if !agrees_at(alloc, row.shape, cubes.as_slice(), at)? {
            return Some(false);
        }
    }
    Some(count == row.count)
}

#[test]
fn cubes_lead_by_a_step_where_they_should(rt: HostRuntime) -> Result<(), Fail> {
    let alloc = rt.alloc();
    for row in ROWS {
        let name = row.name;
        assert_eq!(rt; agrees(alloc, row), Some(true), "{name}");
    }
    Ok(())
}
