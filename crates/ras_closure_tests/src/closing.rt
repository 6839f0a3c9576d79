use ras_closure::{Closure, Model, param_elements};
use ras_fixture::{Sizes, shape, term};
use ras_logic::{Base, List, Literal, Problem, Rows, SortId, fits};
use std::alloc::{AllocError, Global};
use std::test::Fail;

const PARCEL: SortId = SortId { n: 0 };

// Each parcel has a shelf.
const SHELVES: Sizes = Sizes {
    sorts: 2,
    functions: &[(0, 1, true)],
    constants: &[],
    vars: &[],
    relations: &[],
};

// Parcels whose shelves are terms of the problem, though nothing is said of them.
fn parcels(alloc: Global, count: u16) -> Result<Problem, AllocError> {
    let mut params = List::new(alloc);
    let mut literals = List::new(alloc);
    for number in 0..count {
        params.push(PARCEL)?;
        literals.push(Literal::Equal {
            left: term(alloc, Base::Param(number), &[0])?,
            right: term(alloc, Base::Param(number), &[0])?,
            same: true,
        })?;
    }
    Ok(Problem {
        rows: Rows::new(alloc),
        params,
        literals,
    })
}

fn join(alloc: Global, closure: &mut Closure, number: u16, next: u16) -> Option<()> {
    let left = closure.term(&term(alloc, Base::Param(number), &[]).ok()?)?;
    let right = closure.term(&term(alloc, Base::Param(next), &[]).ok()?)?;
    if !closure.are_of_one_sort(left, right) {
        return None;
    }
    closure.add_same(left, right).ok()
}

// Each parcel is the one before it.
fn join_all(alloc: Global, closure: &mut Closure, count: u16) -> Option<()> {
    for next in 1..count {
        join(alloc, closure, next - 1, next)?;
    }
    Some(())
}

fn have_one_shelf(alloc: Global, closure: &Closure, number: u16) -> Option<bool> {
    let left = closure.term(&term(alloc, Base::Param(0), &[0]).ok()?)?;
    let right = closure.term(&term(alloc, Base::Param(number), &[0]).ok()?)?;
    Some(closure.same(left, right))
}

fn is_one_class(alloc: Global, closure: &Closure, count: u16) -> Option<bool> {
    for number in 1..count {
        if !have_one_shelf(alloc, closure, number)? {
            return Some(false);
        }
    }
    Some(true)
}

// The steps that a chain takes, where its shelves are one then.
fn chain_steps(alloc: Global, closure: &mut Closure, count: u16) -> Option<u64> {
    join_all(alloc, closure, count)?;
    if !is_one_class(alloc, closure, count)? {
        return None;
    }
    Some(closure.steps())
}

fn steps(alloc: Global, count: u16) -> Option<u64> {
    let shape = shape(alloc, SHELVES)?;
    let problem = parcels(alloc, count).ok()?;
    if !fits(&shape, &problem) {
        return None;
    }
    let mut closure = Closure::with(alloc, &shape, &problem).ok()?;
    chain_steps(alloc, &mut closure, count)
}

// How many entries of its tables a closure looks at is counted: at least one for each parcel, and no more than grows with the
// square of the chain's length.
#[test]
fn a_chain_of_up_to_400_parcels_takes_a_square_number_of_steps(
    rt: HostRuntime,
) -> Result<(), Fail> {
    let mut half = u64::MAX;
    for count in [50, 100, 200, 400] {
        let steps = steps(rt.alloc(), count).ok_or("one shelf")?;
        assert!(rt; u64::from(count) <= steps, "{count} parcels are joined");
        assert!(rt; steps <= half.saturating_mul(4), "{count} parcels");
        half = steps;
    }
    Ok(())
}

fn parcels_of(alloc: Global, closure: &Closure) -> Option<List<u32>> {
    let table = closure.table();
    let numbers = vec![in alloc; 7; table.len()].ok()?;
    param_elements(alloc, table, &numbers).ok()
}

fn model(alloc: Global, closure: &Closure) -> Option<Model> {
    if closure.clash().is_some() {
        return None;
    }
    closure.model(alloc).ok()
}

fn has_small_model(alloc: Global, closure: &Closure) -> Option<bool> {
    let copy = closure.copy(alloc).ok()?;
    let model = model(alloc, &copy)?;
    Some(model.db.sizes.as_slice() == [2, 2].as_slice())
}

fn is_made(alloc: Global, closure: &Closure) -> Option<bool> {
    let parcels = parcels_of(alloc, closure)?;
    Some(parcels.as_slice() == [7, 7].as_slice() && has_small_model(alloc, closure)?)
}

fn two_parcels_are_made(alloc: Global) -> Option<bool> {
    let shape = shape(alloc, SHELVES)?;
    let problem = parcels(alloc, 2).ok()?;
    if !fits(&shape, &problem) {
        return None;
    }
    let closure = Closure::of(alloc, &shape, &problem).ok()??;
    is_made(alloc, &closure)
}

#[test]
fn a_closure_its_copy_and_a_model_are_made(rt: HostRuntime) {
    assert_eq!(rt; two_parcels_are_made(rt.alloc()), Some(true));
}
