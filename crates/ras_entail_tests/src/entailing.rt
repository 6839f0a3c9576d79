use crate::said::{A, B, MAPPED, PLAIN, Q, R, Told, UNDEF, X, over};
use ras_entail::{Entail, entails};
use ras_fixture::{Said, Sizes, formulas_fit, problem, shape, shared_cubes};
use ras_logic::{Cube, Problem, Shape, Shared, fits};
use ras_steps::Witness;
use std::alloc::Global;
use std::test::Fail;

// A tree with this many nodes; or a state that escapes, with this many rows of each relation, in a database with this many elements
// of each sort.
enum Answer {
    Yes {
        nodes: usize,
    },
    Escape {
        rows: &'static [usize],
        sizes: &'static [u32],
    },
}

// A premise, a list of cubes, and whether the premise is among them: each was worked out by hand.
struct Row {
    name: &'static str,
    shape: Sizes,
    premise: Told,
    list: &'static [Told],
    answer: Answer,
}

const ROWS: &[Row] = &[
    Row {
        name: "what is not undef may be any constant",
        shape: PLAIN,
        premise: (&[], &[(X, UNDEF, false)]),
        list: &[(&[], &[(X, B, true)])],
        answer: Answer::Escape {
            rows: &[0, 0],
            sizes: &[3],
        },
    },
    Row {
        name: "a constant is not the other one",
        shape: PLAIN,
        premise: (&[], &[(X, B, true)]),
        list: &[(&[], &[(X, A, false)])],
        answer: Answer::Yes { nodes: 2 },
    },
    Row {
        name: "undef or not undef",
        shape: PLAIN,
        premise: (&[], &[]),
        list: &[(&[], &[(X, UNDEF, true)]), (&[], &[(X, UNDEF, false)])],
        answer: Answer::Yes { nodes: 3 },
    },
    Row {
        name: "rows that are exchanged",
        shape: PLAIN,
        premise: (&[0, 0], &[(R, A, true), (Q, B, true)]),
        list: &[(&[0, 0], &[(R, B, true), (Q, A, true)])],
        answer: Answer::Yes { nodes: 3 },
    },
    Row {
        name: "more rows than the premise has",
        shape: PLAIN,
        premise: (&[0, 1], &[(R, A, true)]),
        list: &[(&[0, 0], &[])],
        answer: Answer::Escape {
            rows: &[1, 1],
            sizes: &[2],
        },
    },
    Row {
        name: "a premise that clashes",
        shape: PLAIN,
        premise: (&[], &[(X, A, true), (X, B, true)]),
        list: &[(&[], &[(X, A, true)])],
        answer: Answer::Yes { nodes: 1 },
    },
    Row {
        name: "an empty list",
        shape: PLAIN,
        premise: (&[1, 1], &[(R, A, true), (Q, A, true), (X, A, true)]),
        list: &[],
        answer: Answer::Escape {
            rows: &[0, 2],
            sizes: &[2],
        },
    },
    Row {
        name: "no literals and no rows",
        shape: PLAIN,
        premise: (&[0], &[(R, A, false)]),
        list: &[(&[], &[(X, A, true)]), (&[], &[])],
        answer: Answer::Yes { nodes: 1 },
    },
    Row {
        name: "no literals and a row that there is",
        shape: PLAIN,
        premise: (&[1], &[]),
        list: &[(&[1], &[])],
        answer: Answer::Yes { nodes: 1 },
    },
    Row {
        name: "no literals and a row that there is not",
        shape: PLAIN,
        premise: (&[1], &[(R, A, true), (X, A, true)]),
        list: &[(&[0], &[])],
        answer: Answer::Escape {
            rows: &[0, 1],
            sizes: &[2],
        },
    },
    Row {
        name: "a spare element for the images",
        shape: MAPPED,
        premise: (&[], &[(X, UNDEF, false)]),
        list: &[],
        answer: Answer::Escape {
            rows: &[0, 0],
            sizes: &[3, 1],
        },
    },
];

fn answer_of(
    alloc: Global,
    shape: &Shape,
    premise: &Problem,
    list: &[Shared<Cube>],
) -> Option<Entail> {
    if !fits(shape, premise) || !formulas_fit(shape, list) || list.len() > 65_535 {
        return None;
    }
    entails(alloc, shape, premise, list).ok()
}

fn is_like(witness: &Witness, rows: &[usize], sizes: &[u32]) -> bool {
    let relations = witness.state.relations.as_slice();
    let counts = relations.iter().map(|rows| rows.len());
    counts.eq(rows.iter().copied()) && witness.db.raw().sizes.as_slice() == sizes
}

fn is_as_wanted(answer: &Entail, wanted: &Answer) -> bool {
    match (answer, wanted) {
        (Entail::Yes(tree), Answer::Yes { nodes }) => tree.nodes.len() == *nodes,
        (Entail::Escape(witness), Answer::Escape { rows, sizes }) => is_like(witness, rows, sizes),
        _ => false,
    }
}

fn all_over(alloc: Global, list: &[Told]) -> Option<Vec<Said>> {
    let mut all = Vec::new(alloc);
    for told in list {
        all.push(over(*told)).ok()?;
    }
    Some(all)
}

fn agrees(alloc: Global, row: &Row) -> Option<bool> {
    let shape = shape(alloc, row.shape)?;
    let premise = problem(alloc, over(row.premise)).ok()?;
    let list = shared_cubes(alloc, &all_over(alloc, row.list)?)?;
    let answer = answer_of(alloc, &shape, &premise, &list)?;
    Some(is_as_wanted(&answer, &row.answer))
}

#[test]
fn a_premise_is_among_the_cubes_or_a_state_escapes(rt: HostRuntime) -> Result<(), Fail> {
    for row in ROWS {
        let name = row.name;
        assert_eq!(rt; agrees(rt.alloc(), row), Some(true), "{name}");
    }
    Ok(())
}
