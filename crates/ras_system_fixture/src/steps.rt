use ras_fixture::{Said, Sizes, cube, literals, rows, shape, sorts, term};
use ras_logic::{Base, ConstId, Cube, List, Literal, RelId};
use ras_system::{Assign, Bulk, System, Target, Transition, Update};
use std::alloc::{AllocError, Global};

/// A side of a literal: a base, and the functions of its path, from the inside out.
pub type Side = (Base, &'static [u16]);

/// A case of a bulk update: the relation of its rows, the literals of its condition, and the columns that it assigns.
#[derive(Clone, Copy)]
pub struct Case {
    pub relation: u16,
    pub condition: &'static [(Side, Side, bool)],
    pub assigns: &'static [(u16, Side)],
}

/// The relations of the rows, the sorts of the data parameters, the literals of each disjunct of the guard, the updates, and
/// the cases of the bulk updates.
#[derive(Clone, Copy)]
pub struct Step {
    pub rows: &'static [u16],
    pub params: &'static [u16],
    pub guard: &'static [&'static [(Side, Side, bool)]],
    pub updates: &'static [(Target, Side)],
    pub bulk: &'static [Case],
}

fn updates(alloc: Global, said: &[(Target, Side)]) -> Result<List<Update>, AllocError> {
    let mut updates = List::new(alloc);
    for (target, side) in said {
        let term = term(alloc, side.0, side.1)?;
        updates.push(Update {
            target: *target,
            term,
        })?;
    }
    Ok(updates)
}

fn assigns(alloc: Global, said: &[(u16, Side)]) -> Result<List<Assign>, AllocError> {
    let mut assigns = List::new(alloc);
    for (column, side) in said {
        let term = term(alloc, side.0, side.1)?;
        assigns.push(Assign {
            column: *column,
            term,
        })?;
    }
    Ok(assigns)
}

fn bulk(alloc: Global, cases: &[Case]) -> Result<List<Bulk>, AllocError> {
    let mut bulk = List::new(alloc);
    for case in cases {
        bulk.push(Bulk {
            relation: RelId { n: case.relation },
            condition: literals(alloc, case.condition)?,
            assigns: assigns(alloc, case.assigns)?,
        })?;
    }
    Ok(bulk)
}

fn guard(
    alloc: Global,
    disjuncts: &[&'static [(Side, Side, bool)]],
) -> Result<List<List<Literal>>, AllocError> {
    let mut guard = List::new(alloc);
    for disjunct in disjuncts {
        guard.push(literals(alloc, disjunct)?)?;
    }
    Ok(guard)
}

fn transition(alloc: Global, step: &Step) -> Result<Transition, AllocError> {
    Ok(Transition {
        rows: rows(alloc, step.rows)?,
        params: sorts(alloc, step.params)?,
        guard: guard(alloc, step.guard)?,
        updates: updates(alloc, step.updates)?,
        bulk: bulk(alloc, step.bulk)?,
    })
}

fn transitions(alloc: Global, steps: &[Step]) -> Result<List<Transition>, AllocError> {
    let mut transitions = List::new(alloc);
    for step in steps {
        transitions.push(transition(alloc, step)?)?;
    }
    Ok(transitions)
}

// Undef at the start for each of the variables.
fn initial(alloc: Global, vars: &[u16]) -> Result<List<Option<ConstId>>, AllocError> {
    let mut initial = List::new(alloc);
    for _var in vars {
        initial.push(None)?;
    }
    Ok(initial)
}

fn goals(alloc: Global, said: &[Said]) -> Option<List<Cube>> {
    let mut goals = List::new(alloc);
    for goal in said {
        goals.push(cube(alloc, *goal)?).ok()?;
    }
    Some(goals)
}

/// The system of this shape with these steps and goals, in which each variable is undef at the start.
pub fn system(alloc: Global, sizes: Sizes, steps: &[Step], said: &[Said]) -> Option<System> {
    let initial = initial(alloc, sizes.vars).ok()?;
    let transitions = transitions(alloc, steps).ok()?;
    let goals = goals(alloc, said)?;
    let shape = shape(alloc, sizes)?;
    System::new(shape, initial, transitions, goals).ok()
}
