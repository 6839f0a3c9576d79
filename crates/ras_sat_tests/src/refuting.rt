use ras_fixture::{Said, Sizes, problem, shape, shared_cubes};
use ras_logic::{Base, List, Node, SortId, Tree, VarId};
use ras_refute::closes;
use std::alloc::{AllocError, Global};
use std::test::Fail;

// One variable for a person.
const PERSON: Sizes = Sizes {
    sorts: 1,
    functions: &[],
    constants: &[],
    vars: &[0],
    relations: &[],
};

// That the variable is a person, and not undef.
const IS_PERSON: Said = Said {
    rows: &[],
    params: &[],
    literals: &[(
        (Base::Var(VarId { n: 0 }), &[]),
        (Base::Undef(SortId { n: 0 }), &[]),
        false,
    )],
};

/// A tree of splits by formula 0 with one child each, and a leaf.
fn chain(alloc: Global, splits: u32) -> Result<Tree, AllocError> {
    let mut nodes = List::new(alloc);
    for _ in 0..splits {
        nodes.push(Node::Split {
            formula: 0,
            rows: List::new(alloc),
            children: 1,
        })?;
    }
    nodes.push(Node::Leaf)?;
    Ok(Tree { nodes })
}

#[test]
fn a_deep_tree_closes(rt: HostRuntime) -> Result<(), Fail> {
    let alloc = rt.alloc();
    let shape = shape(alloc, PERSON).ok_or("a shape")?;
    let premise = problem(alloc, IS_PERSON)?;
    let formulas = shared_cubes(alloc, &[IS_PERSON]).ok_or("a formula")?;
    let tree = chain(alloc, 20_000)?;
    assert!(rt; tree.whole());
    assert!(rt; closes(alloc, &shape, &premise, &formulas, &tree).is_ok());
    Ok(())
}
