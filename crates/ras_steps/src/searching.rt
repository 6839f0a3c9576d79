//! The walk over the choices of rows: row by row, the numbers in order, and no further where a literal fails.
ghost use Rattle.std.specs.Prelude.{◌≡◌, ◌↔◌, ℕ, List, ◌+◌, ◌<◌, ◌≤◌, [], length, slice_set, take, IsTrue, IfNone, IfSome};
ghost use Rattle.std.specs.Bool.{OnTrue, OnFalse};
ghost use Rattle.ras_logic.specs.Truth.{holds as the_truth};
ghost use Rattle.ras_system.specs.States.{values_at};
ghost use Rattle.ras_steps.specs.Choosing.{MeetsBy, IsFirstChoice};
ghost use Rattle.ras_steps.specs.Searching.{cube_of, rows_to as the_rows_to, due_at as the_due, DueHold, IsNew, Passes, StandsAt, widths, turns_left};

use crate::sight::{Sight, holds, rows_of};
use ras_database::Database;
use ras_logic::{Base, Literal, RelId};
use ras_system::State;

/// How many of the first rows a base needs.
fn rows_to(base: Base) -> usize
    ensures { result ≡ the_rows_to base }
{
    match base {
        Base::Cell { row, .. } => row as usize + 1,
        _ => 0,
    }
}

/// The number of chosen rows at which a literal is judged.
fn due_at(rows: &[RelId], literal: &Literal) -> usize
    ensures { result ≡ the_due rows.now literal.now }
{
    match literal {
        Literal::Equal { left, right, .. } => {
            rows.len().min(rows_to(left.base).max(rows_to(right.base)))
        }
    }
}

/// Whether a literal holds, if it is judged at as many rows as are chosen.
fn passes(db: &Database, state: &State, rows: &[RelId], chosen: &[u32], literal: &Literal) -> bool
    ensures { IsTrue result ↔ (the_due rows.now literal.now ≡ length chosen.now → IsTrue (the_truth db.now (values_at state.now rows.now chosen.now []) literal.now)) }
{
    if due_at(rows, literal) != chosen.len() {
        return true;
    }
    let sight = Sight::new(state, rows, chosen, &[]);
    holds(db, &sight, literal)
}

/// Whether the literals that are judged at as many rows as are chosen hold.
fn due_hold(
    db: &Database,
    state: &State,
    rows: &[RelId],
    literals: &[Literal],
    chosen: &[u32],
) -> bool
    ensures { IsTrue result ↔ DueHold db.now state.now rows.now literals.now chosen.now }
{
    for literal in literals {
        if !passes(db, state, rows, chosen, literal) {
            return false;
        }
    }
    true
}

/// Whether the number at a place is that of no earlier row of the same relation.
fn is_new(rows: &[RelId], numbers: &[u32], place: usize) -> bool
    requires within { place < length rows.now }
    requires room { length rows.now ≤ length numbers.now }
    ensures { IsTrue result ↔ IsNew rows.now numbers.now place }
{
    for i in 0..place {
        if rows[i].n == rows[place].n && numbers[i] == numbers[place] {
            return false;
        }
    }
    true
}

/// Whether the number at a place is new, and the literals that are judged with it hold.
fn fits(
    db: &Database,
    state: &State,
    rows: &[RelId],
    literals: &[Literal],
    numbers: &[u32],
    place: usize,
) -> bool
    requires within { place < length rows.now }
    requires room { length rows.now ≤ length numbers.now }
    ensures { IsTrue result ↔ Passes db.now state.now rows.now literals.now numbers.now place }
{
    is_new(rows, numbers, place) && due_hold(db, state, rows, literals, &numbers[..place + 1])
}

/// Puts a number at a place.
fn put(numbers: &mut Vec<u32>, place: usize, x: u32)
    requires { place < length numbers.old.items }
    ensures { numbers.new.items ≡ slice_set numbers.old.items place x }
{
    numbers[place] = x;
}

/// One turn of the walk: the number at a place is tried. The place at which the walk stands then, or none where all choices
/// are tried.
fn turn(
    db: &Database,
    state: &State,
    rows: &[RelId],
    literals: &[Literal],
    numbers: &mut Vec<u32>,
    place: usize,
) -> Option<usize>
    requires at { StandsAt db.now state.now rows.now literals.now numbers.old.items place }
    requires within { place < length rows.now }
    ensures on { IfSome result (StandsAt db.now state.now rows.now literals.now numbers.new.items) }
    ensures nearer { IfSome result (λ next. turns_left (widths state.now rows.now) numbers.new.items next + next < turns_left (widths state.now rows.now) numbers.old.items place + place) }
    ensures none { IfNone result ((other : List ℕ) → ¬ MeetsBy db.now state.now (cube_of rows.now literals.now) other) }
    ensures length { length numbers.new.items ≡ length numbers.old.items }
{
    let relation = rows[place];
    let here = numbers[place];
    if here as usize >= rows_of(state, relation).len() {
        if place == 0 {
            return None;
        }
        let before = place - 1;
        let last = numbers[before];
        let _room = rows_of(state, rows[before]);
        put(numbers, before, last + 1);
        return Some(before);
    }
    if !fits(db, state, rows, literals, numbers.as_slice(), place) {
        put(numbers, place, here + 1);
        return Some(place);
    }
    if place + 1 == rows.len() {
        return Some(place + 1);
    }
    put(numbers, place + 1, 0);
    Some(place + 1)
}

/// Whether some choice of rows makes the literals hold; then the first numbers are the first such choice.
pub fn search(
    db: &Database,
    state: &State,
    rows: &[RelId],
    literals: &[Literal],
    numbers: &mut Vec<u32>,
) -> bool
    requires { length rows.now ≤ length numbers.old.items }
    ensures found { OnTrue result (IsFirstChoice db.now state.now (cube_of rows.now literals.now) (take (length rows.now) numbers.new.items)) }
    ensures none { OnFalse result ((other : List ℕ) → ¬ MeetsBy db.now state.now (cube_of rows.now literals.now) other) }
    ensures length { length numbers.new.items ≡ length numbers.old.items }
{
    if !due_hold(db, state, rows, literals, &[]) {
        return false;
    }
    if rows.len() > 0 {
        put(numbers, 0, 0);
    }
    let mut place = 0;
    while place < rows.len() {
        match turn(db, state, rows, literals, numbers, place) {
            Some(next) => place = next,
            None => return false,
        }
    }
    true
}
