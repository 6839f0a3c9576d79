ghost use Rattle.std.specs.Prelude.{◌≡◌, map, All, IfOk, IfErr};
ghost use Rattle.ras_logic.specs.Shapes.{IsShape};
ghost use Rattle.ras_logic.specs.SchemaFaults.{HasSchemaLimits};
ghost use Rattle.ras_logic.specs.ShapeFaults.{HasShapeLimits};
ghost use Rattle.ras_system.specs.SystemFaults.{first_fault as system_fault};
ghost use Rattle.ras_bundles.specs.Bundles.{IsPlainSystem};
ghost use Rattle.ras_bundles.specs.SystemTexts.{IsWrittenSystem};
ghost use Rattle.ras_bundles.specs.Numbers.{function_named, sort_named, constant_named, variable_sort, variable_initial, literals_of, update_named, transition_named, schema_named, shape_named, system_named, numbers_of};
ghost use Rattle.ras_bundles.specs.Judging.{HasShortSorts, IsShort, HasShortSort, HasShortInitial, IsShortInitial, HasShortTarget, HasShortTargets, AnswersFirstFault};

use crate::fault::BundleError;
use crate::shape_lines::judge_shape;
use crate::step_lines::judge_steps;
use crate::system_lines::{FunctionLine, SystemLines, TransitionLines, UpdateLine, VariableLine};
use ras_logic::{
    ConstId, FunDecl, List, Literal, Plain, Problem, Rows, Schema, Shape, SortId, VarId,
};
use ras_system::{System, Target, Transition, Update};
use std::alloc::{AllocError, Global};

fn functions_of(alloc: Global, lines: &[FunctionLine]) -> Result<List<FunDecl>, AllocError>
    requires { All HasShortSorts lines.now }
    ensures { IfOk result (λ fs. fs ≡ map function_named lines.now) }
{
    let mut functions = List::new(alloc);
    for line in lines {
        functions.push(FunDecl {
            source: SortId {
                n: line.source as u16,
            },
            target: SortId {
                n: line.target as u16,
            },
            total: line.total,
        })?;
    }
    Ok(functions)
}

fn sorts_of(alloc: Global, numbers: &[u32]) -> Result<List<SortId>, AllocError>
    requires { All IsShort numbers.now }
    ensures { IfOk result (λ sorts. sorts ≡ map sort_named numbers.now) }
{
    let mut sorts = List::new(alloc);
    for number in numbers {
        sorts.push(SortId { n: *number as u16 })?;
    }
    Ok(sorts)
}

fn variable_sorts(alloc: Global, lines: &[VariableLine]) -> Result<List<SortId>, AllocError>
    requires { All HasShortSort lines.now }
    ensures { IfOk result (λ sorts. sorts ≡ map variable_sort lines.now) }
{
    let mut sorts = List::new(alloc);
    for line in lines {
        sorts.push(SortId {
            n: line.sort as u16,
        })?;
    }
    Ok(sorts)
}

fn initial_constant(initial: Option<u32>) -> Option<ConstId>
    requires { IsShortInitial initial }
    ensures { result ≡ constant_named initial }
{
    match initial {
        None => None,
        Some(number) => Some(ConstId { n: number as u16 }),
    }
}

fn initial_constants(
    alloc: Global,
    lines: &[VariableLine],
) -> Result<List<Option<ConstId>>, AllocError>
    requires { All HasShortInitial lines.now }
    ensures { IfOk result (λ initial. initial ≡ map variable_initial lines.now) }
{
    let mut constants = List::new(alloc);
    for line in lines {
        constants.push(initial_constant(line.initial))?;
    }
    Ok(constants)
}

fn guard_of(alloc: Global, cubes: &[Problem]) -> Result<List<List<Literal>>, AllocError>
    ensures { IfOk result (λ guard. guard ≡ map literals_of cubes.now) }
{
    let mut guard = List::new(alloc);
    for cube in cubes {
        guard.push(cube.literals.copy(alloc)?)?;
    }
    Ok(guard)
}

fn updates_of(alloc: Global, lines: &[UpdateLine]) -> Result<List<Update>, AllocError>
    requires { All HasShortTarget lines.now }
    ensures { IfOk result (λ updates. updates ≡ map update_named lines.now) }
{
    let mut updates = List::new(alloc);
    for line in lines {
        let target = Target::Var(VarId {
            n: line.target as u16,
        });
        let term = line.term.copy(alloc)?;
        updates.push(Update { target, term })?;
    }
    Ok(updates)
}

fn transition_of(alloc: Global, lines: &TransitionLines) -> Result<Transition, AllocError>
    requires { HasShortTargets lines.now }
    ensures { IfOk result (λ t. t ≡ transition_named lines.now) }
{
    Ok(Transition {
        rows: Rows::new(alloc),
        params: List::new(alloc),
        guard: guard_of(alloc, lines.guard.as_slice())?,
        updates: updates_of(alloc, lines.updates.as_slice())?,
        bulk: List::new(alloc),
    })
}

fn transitions_of(alloc: Global, lines: &[TransitionLines]) -> Result<List<Transition>, AllocError>
    requires { All HasShortTargets lines.now }
    ensures { IfOk result (λ ts. ts ≡ map transition_named lines.now) }
{
    let mut transitions = List::new(alloc);
    for line in lines {
        transitions.push(transition_of(alloc, line)?)?;
    }
    Ok(transitions)
}

/// The shape that numbers without a fault name.
fn shape_of(alloc: Global, lines: &SystemLines) -> Result<Shape, AllocError>
    requires schema { HasSchemaLimits (schema_named lines.now) }
    requires limits { HasShapeLimits (shape_named lines.now) }
    requires shape { IsShape (shape_named lines.now) }
    ensures { IfOk result (λ shape. shape ≡ shape_named lines.now) }
{
    let functions = functions_of(alloc, lines.functions.as_slice())?;
    let constants = sorts_of(alloc, lines.constants.sorts.as_slice())?;
    let vars = variable_sorts(alloc, lines.variables.as_slice())?;
    let schema = match Schema::new(lines.sorts as u16, functions, constants) {
        Ok(schema) => schema,
        Err(_) => unreachable!(),
    };
    match Shape::new(schema, vars, List::new(alloc)) {
        Ok(shape) => Ok(shape),
        Err(_) => unreachable!(),
    }
}

/// The system that numbers without a fault name.
fn system_of(alloc: Global, shape: Shape, lines: SystemLines) -> Result<System, AllocError>
    requires shape { shape ≡ shape_named lines }
    requires plain { IsPlainSystem (system_named lines) }
    ensures { IfOk result (λ system. system ≡ system_named lines) }
{
    let initial = initial_constants(alloc, lines.variables.as_slice())?;
    let transitions = transitions_of(alloc, lines.transitions.as_slice())?;
    let SystemLines { goals, .. } = lines;
    match System::new(shape, initial, transitions, goals) {
        Ok(system) => Ok(system),
        Err(_) => unreachable!(),
    }
}

/// The system that the numbers denote, or the first line in which something is wrong.
pub fn denoted(alloc: Global, lines: SystemLines) -> Result<System, BundleError>
    requires { IsWrittenSystem lines }
    ensures numbers { IfOk result (λ system. numbers_of system ≡ lines) }
    ensures plain { IfOk result IsPlainSystem }
    ensures fault { IfErr result (AnswersFirstFault lines) }
{
    let next = judge_shape(&lines)?;
    let shape = shape_of(alloc, &lines)?;
    judge_steps(&shape, &lines, next)?;
    Ok(system_of(alloc, shape, lines)?)
}
