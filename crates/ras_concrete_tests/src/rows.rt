use crate::chaining::{Lead, chain_back};
use crate::following::{concretised, last_of, witness};
use ras_concrete::Concrete;
use ras_fixture::{Said, Sizes};
use ras_logic::{Base, Plain, SortId, VarId};
use ras_system::{State, System, Target};
use ras_system_fixture::{
    ANY_USER, Case, FREE, HIRING, Held, MISHANDLED, PICK, PICKED, Side, Step, UNDEF, X, Y, raw,
    state, system,
};
use std::alloc::Global;

// The values of the variables, and the rows of each relation.
#[derive(Clone, Copy)]
struct Cells {
    vars: &'static [u32],
    rows: &'static [&'static [&'static [u32]]],
}

// A system with a goal, a chain to it, from its last step back, a state of its first cube, the sizes of the sorts of the larger
// database, and the last state, where there is one choice of it.
struct Row {
    name: &'static str,
    shape: Sizes,
    steps: &'static [Step],
    goal: Said,
    leads: &'static [Lead],
    db: Held,
    first: Cells,
    sizes: &'static [u32],
    last: Option<Cells>,
}

const P: Side = (Base::Param(0), &[]);

const Z: Side = (Base::Var(VarId { n: 2 }), &[]);

const X_OF: Target = Target::Var(VarId { n: 0 });

const Y_OF: Target = Target::Var(VarId { n: 1 });

const Z_OF: Target = Target::Var(VarId { n: 2 });

const NO_ELEMENT: Held = Held {
    sizes: &[0],
    tables: &[],
    constants: &[],
};

const THREE: Sizes = Sizes {
    sorts: 1,
    functions: &[],
    constants: &[],
    vars: &[0, 0, 0],
    relations: &[],
};

// x becomes something new, where it is undef; or the values of the variables move on by one.
const PICK_ROTATE: &[Step] = &[
    Step {
        rows: &[],
        params: &[0],
        guard: &[&[
            (X, UNDEF, true),
            (P, X, false),
            (P, Y, false),
            (P, Z, false),
        ]],
        updates: &[(X_OF, P)],
        bulk: &[],
    },
    Step {
        rows: &[],
        params: &[],
        guard: &[&[]],
        updates: &[(X_OF, Y), (Y_OF, Z), (Z_OF, X)],
        bulk: &[],
    },
];

const ALL_PICKED: Said = Said {
    rows: &[],
    params: &[],
    literals: &[(X, UNDEF, false), (Y, UNDEF, false), (Z, UNDEF, false)],
};

// Seats, with the name and the guest of each.
const SEATS: Sizes = Sizes {
    sorts: 2,
    functions: &[],
    constants: &[],
    vars: &[],
    relations: &[&[1, 0]],
};

const NO_NAME: Side = (Base::Undef(SortId { n: 1 }), &[]);

const NAME: Side = (Base::Cell { row: 0, column: 0 }, &[]);

const GUEST: Side = (Base::Cell { row: 0, column: 1 }, &[]);

const OTHER_NAME: Side = (Base::Cell { row: 1, column: 0 }, &[]);

const OTHER_GUEST: Side = (Base::Cell { row: 1, column: 1 }, &[]);

// Somebody takes a seat that has a name and no guest; or the guest of a seat takes all such seats.
const TAKE_SPREAD: &[Step] = &[
    Step {
        rows: &[0],
        params: &[0],
        guard: &[&[
            (NAME, NO_NAME, false),
            (GUEST, UNDEF, true),
            (P, UNDEF, false),
        ]],
        updates: &[(Target::Cell { row: 0, column: 1 }, P)],
        bulk: &[],
    },
    Step {
        rows: &[0],
        params: &[],
        guard: &[&[(GUEST, UNDEF, false)]],
        updates: &[],
        bulk: &[Case {
            relation: 0,
            condition: &[(OTHER_NAME, NO_NAME, false), (OTHER_GUEST, UNDEF, true)],
            assigns: &[(1, GUEST)],
        }],
    },
];

// Two seats with names have one guest.
const TWO_TAKEN: Said = Said {
    rows: &[0, 0],
    params: &[],
    literals: &[
        (NAME, NO_NAME, false),
        (OTHER_NAME, NO_NAME, false),
        (GUEST, OTHER_GUEST, true),
        (GUEST, UNDEF, false),
    ],
};

const TWO: Sizes = Sizes {
    sorts: 1,
    functions: &[],
    constants: &[],
    vars: &[0, 0],
    relations: &[],
};

// y becomes what x is, where that is something, or what x is not.
const SAME_OR_OTHER: &[Step] = &[Step {
    rows: &[],
    params: &[0],
    guard: &[&[(P, X, true), (P, UNDEF, false)], &[(P, X, false)]],
    updates: &[(Y_OF, P)],
    bulk: &[],
}];

const SECOND_PICKED: Said = Said {
    rows: &[],
    params: &[],
    literals: &[(Y, UNDEF, false)],
};

const ROWS: &[Row] = &[
    Row {
        name: "something is picked where there is nothing",
        shape: FREE,
        steps: PICK,
        goal: PICKED,
        leads: &[(0, 0)],
        db: NO_ELEMENT,
        first: Cells {
            vars: &[0],
            rows: &[],
        },
        sizes: &[1],
        last: Some(Cells {
            vars: &[1],
            rows: &[],
        }),
    },
    Row {
        name: "a goal is met at once",
        shape: FREE,
        steps: PICK,
        goal: PICKED,
        leads: &[],
        db: Held {
            sizes: &[2],
            tables: &[],
            constants: &[],
        },
        first: Cells {
            vars: &[2],
            rows: &[],
        },
        sizes: &[2],
        last: Some(Cells {
            vars: &[2],
            rows: &[],
        }),
    },
    Row {
        name: "any user handles an application",
        shape: HIRING,
        steps: ANY_USER,
        goal: MISHANDLED,
        leads: &[(0, 0)],
        db: Held {
            sizes: &[0, 0],
            tables: &[&[]],
            constants: &[],
        },
        first: Cells {
            vars: &[],
            rows: &[&[&[0, 0]]],
        },
        sizes: &[2, 1],
        last: None,
    },
    Row {
        name: "five steps, of which three find nothing new to pick",
        shape: THREE,
        steps: PICK_ROTATE,
        goal: ALL_PICKED,
        leads: &[(0, 0), (1, 0), (0, 0), (1, 0), (0, 0)],
        db: NO_ELEMENT,
        first: Cells {
            vars: &[0, 0, 0],
            rows: &[],
        },
        sizes: &[3],
        last: Some(Cells {
            vars: &[3, 1, 2],
            rows: &[],
        }),
    },
    Row {
        name: "a guest takes all seats that have a name",
        shape: SEATS,
        steps: TAKE_SPREAD,
        goal: TWO_TAKEN,
        leads: &[(1, 0), (0, 0)],
        db: Held {
            sizes: &[0, 2],
            tables: &[],
            constants: &[],
        },
        first: Cells {
            vars: &[],
            rows: &[&[&[1, 0], &[0, 0], &[2, 0]]],
        },
        sizes: &[1, 2],
        last: Some(Cells {
            vars: &[],
            rows: &[&[&[1, 1], &[0, 0], &[2, 1]]],
        }),
    },
    Row {
        name: "the second way is open where the first is not",
        shape: TWO,
        steps: SAME_OR_OTHER,
        goal: SECOND_PICKED,
        leads: &[(0, 1)],
        db: NO_ELEMENT,
        first: Cells {
            vars: &[0, 0],
            rows: &[],
        },
        sizes: &[1],
        last: Some(Cells {
            vars: &[0, 1],
            rows: &[],
        }),
    },
];

fn state_of(alloc: Global, cells: Cells) -> Option<State> {
    state(alloc, cells.vars, cells.rows).ok()
}

fn run_of(alloc: Global, system: &System, row: &Row) -> Option<Concrete> {
    let first = state_of(alloc, row.first)?;
    let witness = witness(system, raw(alloc, row.db).ok()?, first)?;
    let links = chain_back(alloc, system, 0, row.leads)?;
    concretised(alloc, system, &links, witness)
}

// Whether the last state is this one, where one is told.
fn is_last(alloc: Global, last: &State, wanted: Option<Cells>) -> Option<bool> {
    match wanted {
        Some(cells) => Some(last.equal(&state_of(alloc, cells)?)),
        None => Some(true),
    }
}

fn agrees(alloc: Global, row: &Row) -> Option<bool> {
    let system = system(alloc, row.shape, row.steps, &[row.goal])?;
    let concrete = run_of(alloc, &system, row)?;
    let last = last_of(alloc, &system, &concrete)?;
    Some(concrete.db.raw().sizes.as_slice() == row.sizes && is_last(alloc, &last, row.last)?)
}

#[test]
fn a_chain_is_followed_in_a_database_that_is_no_larger_than_it_should_be(rt: HostRuntime) {
    let alloc = rt.alloc();
    for row in ROWS {
        let name = row.name;
        assert_eq!(rt; agrees(alloc, row), Some(true), "{name}");
    }
}
