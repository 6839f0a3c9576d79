ghost use Rattle.std.specs.Prelude.{◌≡◌, length};

use crate::said::{
    CHAIN, D, E, F_E, FAR_E, G_E, Held, Literals, NO_SOURCE, TOTAL, UNDEF, X, Y, list, problem_of,
    raw,
};
use crate::systems::system;
use ras_closure::Model;
use ras_database::Database;
use ras_enlarge::extend;
use ras_fixture::Sizes;
use ras_logic::{List, Plain, Problem, RawDb, Values, fits};
use ras_steps::state_fits;
use ras_system::{State, System};
use std::alloc::Global;
use std::test::Fail;

// A problem, a database, values of the variables, and the sizes of the sorts of the larger database, where there is one.
struct Row {
    name: &'static str,
    shape: Sizes,
    problem: Literals,
    db: Held,
    vars: &'static [u32],
    sizes: Option<&'static [u32]>,
}

const NOTHING: Held = Held {
    sizes: &[0, 0],
    tables: &[&[], &[]],
    constants: &[],
};

const TWO_IMAGES: Literals = Literals {
    params: &[0],
    said: &[(F_E, X, true), (G_E, Y, true)],
};

const ROWS: &[Row] = &[
    Row {
        name: "one image is undef, the other is not",
        shape: TOTAL,
        problem: TWO_IMAGES,
        db: NO_SOURCE,
        vars: &[0, 1],
        sizes: None,
    },
    Row {
        name: "neither image is undef",
        shape: TOTAL,
        problem: TWO_IMAGES,
        db: NO_SOURCE,
        vars: &[1, 1],
        sizes: Some(&[1, 1]),
    },
    Row {
        name: "two that differ",
        shape: TOTAL,
        problem: Literals {
            params: &[1, 1],
            said: &[(E, D, false)],
        },
        db: NOTHING,
        vars: &[0, 0],
        sizes: Some(&[0, 2]),
    },
    Row {
        name: "a missing total image",
        shape: TOTAL,
        problem: Literals {
            params: &[0],
            said: &[(E, UNDEF, false)],
        },
        db: NOTHING,
        vars: &[0, 0],
        sizes: Some(&[1, 1]),
    },
    Row {
        name: "a chain of total functions",
        shape: CHAIN,
        problem: Literals {
            params: &[0],
            said: &[(FAR_E, X, true)],
        },
        db: Held {
            sizes: &[0, 0, 0, 0, 1],
            tables: &[&[], &[], &[], &[]],
            constants: &[],
        },
        vars: &[1],
        sizes: Some(&[1, 1, 1, 1, 1]),
    },
];

fn model_of(
    alloc: Global,
    system: &System,
    problem: &Problem,
    raw: RawDb,
    state: &State,
) -> Option<Option<Model>> {
    let Ok(db) = Database::new(system.shape().schema(), raw) else {
        return None;
    };
    if !state_fits(system, &db, state) || !fits(system.shape(), problem) {
        return None;
    }
    if problem.rows.len() > 0 {
        return None;
    }
    let values = Values {
        vars: state.vars.copy(alloc).ok()?,
        rows: List::new(alloc),
        params: List::new(alloc),
    };
    extend(alloc, system.shape(), problem, &db, &values).ok()
}

// Whether the sizes of the answer are these; none where there is to be no answer.
fn sizes_are(model: &Option<Model>, wanted: Option<&[u32]>) -> bool {
    match model {
        None => wanted.is_none(),
        Some(model) => wanted == Some(model.db.sizes.as_slice()),
    }
}

fn agrees(alloc: Global, row: &Row) -> Option<bool> {
    let system = system(alloc, row.shape, &[])?;
    let problem = problem_of(alloc, row.problem).ok()?;
    let raw = raw(alloc, row.db).ok()?;
    let state = State {
        vars: list(alloc, row.vars).ok()?,
        relations: List::new(alloc),
    };
    let model = model_of(alloc, &system, &problem, raw, &state)?;
    Some(sizes_are(&model, row.sizes))
}

#[test]
fn an_extension_is_no_larger_than_it_should_be(rt: HostRuntime) -> Result<(), Fail> {
    let alloc = rt.alloc();
    for row in ROWS {
        let name = row.name;
        assert_eq!(rt; agrees(alloc, row), Some(true), "{name}");
    }
    Ok(())
}
