use ras_fixture::{Said, Sizes, cube, shape};
use ras_logic::{Base, List, Plain, RawDb, Shared};
use std::test::Fail;

// Each person of the second sort has one of the first, and there is a variable.
const OWNERS: Sizes = Sizes {
    sorts: 2,
    functions: &[(1, 0, true)],
    constants: &[],
    vars: &[1],
    relations: &[],
};

// One row, whose second cell is not the image of its first.
const A_ROW: Said = Said {
    rows: &[0],
    params: &[],
    literals: &[(
        (Base::Cell { row: 0, column: 1 }, &[]),
        (Base::Cell { row: 0, column: 0 }, &[0]),
        false,
    )],
};

#[test]
fn a_cube_its_copy_and_its_problem_are_made(rt: HostRuntime) -> Result<(), Fail> {
    let alloc = rt.alloc();
    let cube = cube(alloc, A_ROW).ok_or("a cube")?;
    let copy = cube.copy(alloc)?;
    assert!(rt; copy.equal(&cube));
    let problem = copy.problem(alloc)?;
    assert_eq!(rt; problem.literals.len(), 1);
    Ok(())
}

#[test]
fn a_literal_is_made_of_other_rows(rt: HostRuntime) -> Result<(), Fail> {
    let alloc = rt.alloc();
    let cube = cube(alloc, A_ROW).ok_or("a cube")?;
    let literal = cube.literals().first().ok_or("a literal")?;
    let other = literal.with_rows(alloc, &[2])?.opposite();
    assert_eq!(rt; other.left().base, Base::Cell { row: 2, column: 1 });
    assert!(rt; other.says_same());
    Ok(())
}

#[test]
fn a_shared_cube_gets_another_owner(rt: HostRuntime) -> Result<(), Fail> {
    let alloc = rt.alloc();
    let cube = cube(alloc, A_ROW).ok_or("a cube")?;
    let shared = Shared::new(alloc, cube)?;
    let another = shared.another()?;
    assert!(rt; another.get().equal(shared.get()));
    Ok(())
}

#[test]
fn a_shape_and_a_database_are_copied(rt: HostRuntime) -> Result<(), Fail> {
    let alloc = rt.alloc();
    let shape = shape(alloc, OWNERS).ok_or("a shape")?;
    let copy = shape.copy(alloc)?;
    assert!(rt; copy.equal(&shape));
    let db = RawDb {
        sizes: List::new(alloc),
        tables: List::new(alloc),
        constants: List::new(alloc),
    };
    let copy = db.copy(alloc)?;
    assert!(rt; copy.equal(&db));
    Ok(())
}
