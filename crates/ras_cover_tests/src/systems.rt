//! Systems in short words, each without goals.
use crate::said::Side;
use ras_fixture::{Sizes, literals, rows, shape, sorts, term};
use ras_logic::{ConstId, List};
use ras_system::{System, Target, Transition, Update};
use std::alloc::{AllocError, Global};

/// The relations of the rows, the sorts of the data parameters, the literals of the guard, and the updates.
#[derive(Clone, Copy)]
pub struct Step {
    pub rows: &'static [u16],
    pub params: &'static [u16],
    pub guard: &'static [(Side, Side, bool)],
    pub updates: &'static [(Target, Side)],
}

fn updates(alloc: Global, said: &[(Target, Side)]) -> Result<List<Update>, AllocError> {
    let mut updates = List::new(alloc);
    for (target, side) in said {
        let term = term(alloc, side.0, side.1)?;
        updates.push(Update {
            target: *target,
            term,
        })?;
    }
    Ok(updates)
}

fn transition(alloc: Global, step: &Step) -> Result<Transition, AllocError> {
    let mut guard = List::new(alloc);
    guard.push(literals(alloc, step.guard)?)?;
    Ok(Transition {
        rows: rows(alloc, step.rows)?,
        params: sorts(alloc, step.params)?,
        guard,
        updates: updates(alloc, step.updates)?,
        bulk: List::new(alloc),
    })
}

fn transitions(alloc: Global, steps: &[Step]) -> Result<List<Transition>, AllocError> {
    let mut transitions = List::new(alloc);
    for step in steps {
        transitions.push(transition(alloc, step)?)?;
    }
    Ok(transitions)
}

// Undef at the start for each of the variables.
fn initial(alloc: Global, vars: &[u16]) -> Result<List<Option<ConstId>>, AllocError> {
    let mut initial = List::new(alloc);
    for _var in vars {
        initial.push(None)?;
    }
    Ok(initial)
}

/// The system of this shape with these steps.
pub fn system(alloc: Global, sizes: Sizes, steps: &[Step]) -> Option<System> {
    let initial = initial(alloc, sizes.vars).ok()?;
    let transitions = transitions(alloc, steps).ok()?;
    let shape = shape(alloc, sizes)?;
    System::new(shape, initial, transitions, List::new(alloc)).ok()
}
