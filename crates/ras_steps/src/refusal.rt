//! Why a transition has no step by a choice, the first fault.
ghost use Rattle.std.specs.Prelude.{◌≡◌, ◌↔◌, ℕ, ◌<◌, length, IsTrue, IfNone, IfSome};
ghost use Rattle.ras_steps.specs.StepFaults.{HasCounts, IsRowInside, IsValueInside, Repeats, AreApartBefore, IsFirstNot, GuardHolds, HasStep, IsFaultOf};

use crate::sight::{Sight, rows_of};
use crate::step_fault::StepFault;
use crate::truth::guard_holds;
use ras_database::Database;
use ras_logic::number_at;
use ras_system::{Choice, State, Transition};

/// Two row parameters with one row of one relation.
#[derive(Clone, Copy)]
struct Repeat {
    first: u32,
    second: u32,
}

/// The first row parameter that has no row of its relation.
fn row_outside(state: &State, transition: &Transition, choice: &Choice) -> Option<u32>
    requires { HasCounts transition.now choice.now }
    ensures none { IfNone result ((k : ℕ) → IsRowInside state.now transition.now choice.now k) }
    ensures first { IfSome result (IsFirstNot (IsRowInside state.now transition.now choice.now) (length transition.now.rows)) }
{
    let relations = transition.rows.as_slice();
    let chosen = choice.rows.as_slice();
    for k in 0..relations.len() {
        if chosen[k] as usize >= rows_of(state, relations[k]).len() {
            return Some(k as u32);
        }
    }
    None
}

/// Whether a row parameter has the relation and the row of an earlier one.
fn repeats(transition: &Transition, choice: &Choice, first: usize, second: usize) -> bool
    requires counts { HasCounts transition.now choice.now }
    requires earlier { first < second }
    requires within { second < length transition.now.rows }
    ensures { IsTrue result ↔ Repeats transition.now choice.now first second }
{
    let relations = transition.rows.as_slice();
    let chosen = choice.rows.as_slice();
    relations[first].n == relations[second].n && chosen[first] == chosen[second]
}

/// The first row parameter that a later one repeats.
fn repeated_by(transition: &Transition, choice: &Choice, second: usize) -> Option<u32>
    requires counts { HasCounts transition.now choice.now }
    requires within { second < length transition.now.rows }
    ensures none { IfNone result ((first : ℕ) → ¬ Repeats transition.now choice.now first second) }
    ensures some { IfSome result (λ first. Repeats transition.now choice.now first second) }
{
    let _room = transition.rows.len();
    for first in 0..second {
        if repeats(transition, choice, first, second) {
            return Some(first as u32);
        }
    }
    None
}

/// The first row parameter that repeats an earlier one.
fn row_repeated(transition: &Transition, choice: &Choice) -> Option<Repeat>
    requires { HasCounts transition.now choice.now }
    ensures none { IfNone result (AreApartBefore transition.now choice.now (length transition.now.rows)) }
    ensures earlier { IfSome result (λ r. AreApartBefore transition.now choice.now r.second) }
    ensures first { IfSome result (λ r. Repeats transition.now choice.now r.first r.second) }
{
    for second in 0..transition.rows.len() {
        if let Some(first) = repeated_by(transition, choice, second) {
            return Some(Repeat {
                first,
                second: second as u32,
            });
        }
    }
    None
}

/// The first data parameter whose value is no element of its sort.
fn value_outside(db: &Database, transition: &Transition, choice: &Choice) -> Option<u32>
    requires { HasCounts transition.now choice.now }
    ensures none { IfNone result ((k : ℕ) → IsValueInside db.now transition.now choice.now k) }
    ensures first { IfSome result (IsFirstNot (IsValueInside db.now transition.now choice.now) (length transition.now.params)) }
{
    let sorts = transition.params.as_slice();
    let values = choice.values.as_slice();
    for k in 0..sorts.len() {
        if values[k] > number_at(db.raw().sizes.as_slice(), sorts[k].n as usize) {
            return Some(k as u32);
        }
    }
    None
}

/// Whether some disjunct of the guard holds of the chosen rows and values.
fn passes_guard(db: &Database, transition: &Transition, state: &State, choice: &Choice) -> bool
    ensures { IsTrue result ↔ GuardHolds db.now transition.now state.now choice.now }
{
    let relations = transition.rows.as_slice();
    let chosen = choice.rows.as_slice();
    let values = choice.values.as_slice();
    let sight = Sight::new(state, relations, chosen, values);
    guard_holds(db, &sight, transition.guard.as_slice())
}

/// Whether there are a row and a value for each parameter.
fn has_counts(transition: &Transition, choice: &Choice) -> bool
    ensures { IsTrue result ↔ HasCounts transition.now choice.now }
{
    choice.rows.len() == transition.rows.len() && choice.values.len() == transition.params.len()
}

/// The first fault of a choice for a transition.
pub fn refusal(
    db: &Database,
    transition: &Transition,
    state: &State,
    choice: &Choice,
) -> Option<StepFault>
    ensures none { IfNone result (HasStep db.now transition.now state.now choice.now) }
    ensures first { IfSome result (IsFaultOf db.now transition.now state.now choice.now) }
{
    if !has_counts(transition, choice) {
        return Some(StepFault::WrongCount);
    }
    if let Some(row) = row_outside(state, transition, choice) {
        return Some(StepFault::RowOutside { row });
    }
    if let Some(repeat) = row_repeated(transition, choice) {
        return Some(StepFault::RowRepeated {
            first: repeat.first,
            second: repeat.second,
        });
    }
    if let Some(value) = value_outside(db, transition, choice) {
        return Some(StepFault::ValueOutside { value });
    }
    if !passes_guard(db, transition, state, choice) {
        return Some(StepFault::GuardFalse);
    }
    None
}
