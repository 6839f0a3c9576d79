use ras_fixture::{Sizes, formulas_fit, shape, term};
use ras_logic::{
    Base, ConstId, Cube, List, Literal, Node, Problem, Rows, Shape, Shared, Tree, VarId, fits,
};
use ras_sat::{Decision, Instance, are_instances, decide};
use std::alloc::{AllocError, Global};
use std::test::Fail;

// One person is a constant, and 64 are variables.
const PEOPLE: Sizes = Sizes {
    sorts: 1,
    functions: &[],
    constants: &[0],
    vars: &[0; 64],
    relations: &[],
};

// That a variable is the constant, or that it is not.
fn literal(alloc: Global, var: u16, same: bool) -> Result<Literal, AllocError> {
    Ok(Literal::Equal {
        left: term(alloc, Base::Var(VarId { n: var }), &[])?,
        right: term(alloc, Base::Constant(ConstId { n: 0 }), &[])?,
        same,
    })
}

fn literals(alloc: Global, said: &[(u16, bool)]) -> Result<List<Literal>, AllocError> {
    let mut literals = List::new(alloc);
    for (var, same) in said {
        literals.push(literal(alloc, *var, *same)?)?;
    }
    Ok(literals)
}

fn premise(alloc: Global, said: &[(u16, bool)]) -> Option<Problem> {
    Some(Problem {
        rows: Rows::new(alloc),
        params: List::new(alloc),
        literals: literals(alloc, said).ok()?,
    })
}

fn formula(alloc: Global, said: &[(u16, bool)]) -> Option<Shared<Cube>> {
    let cube = Cube::new(Rows::new(alloc), literals(alloc, said).ok()?).ok()?;
    Shared::new(alloc, cube).ok()
}

// The formulas of these numbers, which have no rows.
fn instances(alloc: Global, formulas: &[u32]) -> Option<Vec<Instance>> {
    let mut instances = Vec::new(alloc);
    for formula in formulas {
        instances
            .push(Instance {
                formula: *formula,
                rows: List::new(alloc),
            })
            .ok()?;
    }
    Some(instances)
}

fn decide_over(
    alloc: Global,
    shape: &Shape,
    premise: &Problem,
    formulas: &[Shared<Cube>],
    instances: &[Instance],
) -> Option<Decision> {
    if !fits(shape, premise)
        || !formulas_fit(shape, formulas)
        || !are_instances(premise, formulas, instances)
    {
        return None;
    }
    decide(alloc, shape, premise, formulas, instances).ok()
}

fn answer(
    alloc: Global,
    said: &[(u16, bool)],
    formulas: &[Shared<Cube>],
    numbers: &[u32],
) -> Option<Decision> {
    let shape = shape(alloc, PEOPLE)?;
    let premise = premise(alloc, said)?;
    let instances = instances(alloc, numbers)?;
    decide_over(alloc, &shape, &premise, formulas, &instances)
}

// Whether the splits of a tree are by these formulas, in preorder.
fn is_split_by(tree: &Tree, expected: &[u32]) -> bool {
    let mut next: usize = 0;
    for node in tree.nodes.as_slice() {
        if let Node::Split { formula, .. } = node {
            if expected.get(next) != Some(formula) {
                return false;
            }
            next = next.saturating_add(1);
        }
    }
    next == expected.len()
}

fn is_refuted_by(decision: &Decision, expected: &[u32]) -> bool {
    match decision {
        Decision::Refuted(tree) => is_split_by(tree, expected),
        Decision::Model(_) => false,
    }
}

const FORMULAS: &[&[(u16, bool)]] = &[
    &[(1, false), (2, false)],
    &[(3, false), (4, false), (5, false)],
    &[(3, true)],
    &[(4, true)],
    &[(5, true)],
    &[(1, true)],
    &[(2, true)],
];

fn formulas(alloc: Global) -> Option<Vec<Shared<Cube>>> {
    let mut formulas = Vec::new(alloc);
    for said in FORMULAS {
        formulas.push(formula(alloc, said)?).ok()?;
    }
    Some(formulas)
}

fn order_is(
    alloc: Global,
    formulas: &[Shared<Cube>],
    numbers: &[u32],
    expected: &[u32],
) -> Option<bool> {
    let decision = answer(alloc, &[], formulas, numbers)?;
    Some(is_refuted_by(&decision, expected))
}

// Instances in their order, and the formulas of the splits.
const ORDERS: &[(&[u32], &[u32])] = &[
    (&[0, 1, 2, 3, 4], &[1, 2, 3, 4]),
    (&[1, 0, 2, 3, 4, 5, 6], &[0, 5, 6]),
];

#[test]
fn instances_with_the_fewest_literals_are_split_on_and_idle_ones_are_not(
    rt: HostRuntime,
) -> Result<(), Fail> {
    let formulas = formulas(rt.alloc()).ok_or("formulas")?;
    for (numbers, expected) in ORDERS {
        assert_eq!(rt;
            order_is(rt.alloc(), &formulas, numbers, expected),
            Some(true)
        );
    }
    Ok(())
}

fn numbers(alloc: Global, count: u32) -> Option<Vec<u32>> {
    let mut numbers = Vec::new(alloc);
    for number in 0..count {
        numbers.push(number).ok()?;
    }
    Some(numbers)
}

// Links of a chain: where a variable is the constant, the next one is too.
fn links(alloc: Global, count: u16) -> Option<Vec<Shared<Cube>>> {
    let mut links = Vec::new(alloc);
    for number in 0..count {
        let next = number.saturating_add(1);
        links
            .push(formula(alloc, &[(number, true), (next, false)])?)
            .ok()?;
    }
    Some(links)
}

fn chain_is_refuted(alloc: Global, links: &[Shared<Cube>], numbers: &[u32]) -> Option<bool> {
    let decision = answer(alloc, &[(0, true), (60, false)], links, numbers)?;
    Some(is_refuted_by(&decision, numbers))
}

#[test]
fn a_chain_is_refuted_link_by_link(rt: HostRuntime) -> Result<(), Fail> {
    let links = links(rt.alloc(), 60).ok_or("links")?;
    let numbers = numbers(rt.alloc(), 60).ok_or("numbers")?;
    assert_eq!(rt; chain_is_refuted(rt.alloc(), &links, &numbers), Some(true));
    Ok(())
}

// Pairs of variables of which one must be the constant.
fn pairs(alloc: Global, count: u16) -> Option<Vec<Shared<Cube>>> {
    let mut pairs = Vec::new(alloc);
    for number in 0..count {
        let other = number.saturating_add(count);
        pairs
            .push(formula(alloc, &[(number, false), (other, false)])?)
            .ok()?;
    }
    Some(pairs)
}

fn has_model(alloc: Global, pairs: &[Shared<Cube>], numbers: &[u32]) -> Option<bool> {
    match answer(alloc, &[], pairs, numbers)? {
        Decision::Refuted(_) => Some(false),
        Decision::Model(_) => Some(true),
    }
}

#[test]
fn independent_instances_are_falsified_one_by_one(rt: HostRuntime) -> Result<(), Fail> {
    let pairs = pairs(rt.alloc(), 30).ok_or("pairs")?;
    let numbers = numbers(rt.alloc(), 30).ok_or("numbers")?;
    assert_eq!(rt; has_model(rt.alloc(), &pairs, &numbers), Some(true));
    Ok(())
}
