ghost use Rattle.std.specs.Prelude.{◌≡◌, ◌≤◌, ◌<◌, ◌^◌, ◌↔◌, List, length, map, All, IfOk, OnOk, ◌∷◌, ◌++◌, flat_map, slice_get, Some};
ghost use Rattle.ras_logic.specs.declared.raw_db.RawDb as database;
ghost use Rattle.ras_logic.specs.Formulas.{Fits};
ghost use Rattle.ras_system.specs.declared.state.State as state;
ghost use Rattle.ras_system.specs.declared.transition.Transition as declared;
ghost use Rattle.ras_system.specs.States.{IsState, MeetsAny};
ghost use Rattle.ras_system.specs.Preimages.{preimage as the_preimage, preimage_problem, unmatched as the_unmatched};
ghost use Rattle.ras_system.specs.Preimages as choice;
ghost use Rattle.ras_backwards.specs.Leading.{LeadsIn};
ghost use Rattle.ras_preimage.specs.Parts.{row_of, way_of, in_problem, problem_of, problems_of};
ghost use Rattle.ras_preimage.specs.declared.ways.Way as way;
ghost use Rattle.ras_preimage.specs.declared.unmatched_rows.UnmatchedRow as unmatched_row;

use crate::combining::combinations;
use crate::matching::matchings;
use crate::replacing::literal_before;
use crate::sources::{Source, sources};
use crate::unmatched_rows::{UnmatchedRow, unmatched_rows};
use crate::ways::Way;
use ras_backwards::{a_preimage_fits, a_preimage_is_exact};
use ras_logic::{Cube, List, Literal, Plain, Problem, RelId, Rows, Shared};
use ras_system::{System, Transition};
use std::alloc::{AllocError, Global};

/// The rows of a problem: the row parameters, and then the unmatched rows.
fn rows_of(alloc: Global, params: &Rows, unmatched: &[UnmatchedRow]) -> Result<Rows, AllocError>
    ensures { IfOk result (λ rows. rows ≡ params.now ++ map (λ (u : unmatched_row.UnmatchedRow). u.relation) unmatched.now) }
{
    let mut rows = params.copy(alloc)?;
    for row in unmatched {
        rows.push(row.relation)?;
    }
    Ok(rows)
}

fn add_copies(
    alloc: Global,
    literals: &[Literal],
    all: &mut List<Literal>,
) -> Result<(), AllocError>
    ensures { OnOk result (all.new ≡ all.old ++ literals.now) }
{
    for literal in literals {
        all.push(literal.copy(alloc)?)?;
    }
    Ok(())
}

/// The literals of the disjunct, and then those of the ways.
fn literals_first(
    alloc: Global,
    disjunct: &List<Literal>,
    ways: &[Shared<Way>],
) -> Result<List<Literal>, AllocError>
    ensures { IfOk result (λ l. l ≡ disjunct.now ++ flat_map (λ (w : way.Way). w.literals) ways.now) }
{
    let mut literals = disjunct.copy(alloc)?;
    for way in ways {
        add_copies(alloc, way.get().literals.as_slice(), &mut literals)?;
    }
    Ok(literals)
}

fn problem(
    alloc: Global,
    transition: &Transition,
    cube: &Cube,
    unmatched: &[UnmatchedRow],
    disjunct: &List<Literal>,
    ways: &[Shared<Way>],
    sources: &[Source],
) -> Result<Problem, AllocError>
    ensures { IfOk result (λ p. p ≡ problem_of transition.now cube.now unmatched.now disjunct.now ways.now sources.now) }
{
    let updated = transition.rows.len() as u16;
    let rows = rows_of(alloc, &transition.rows, unmatched)?;
    let params = transition.params.copy(alloc)?;
    let mut literals = literals_first(alloc, disjunct, ways)?;
    for literal in cube.literals() {
        literals.push(literal_before(alloc, transition, updated, sources, literal)?)?;
    }
    Ok(Problem {
        rows,
        params,
        literals,
    })
}

/// Adds the problems of a matching and a disjunct.
fn add_of_disjunct(
    alloc: Global,
    transition: &Transition,
    cube: &Cube,
    matched: &[Option<u16>],
    unmatched: &[UnmatchedRow],
    disjunct: &List<Literal>,
    combinations: &[List<Shared<Way>>],
    problems: &mut List<Problem>,
) -> Result<(), AllocError>
    requires unmatched { map row_of unmatched.now ≡ the_unmatched (length transition.now.rows) cube.now.rows matched.now }
    ensures { OnOk result ((choices : List (List choice.CaseChoice)) → map (map (way_of transition.now.bulk)) combinations.now ≡ map (map (in_problem (length transition.now.rows))) choices
        → problems.new ≡ problems.old ++ map (preimage_problem transition.now cube.now matched.now disjunct.now) choices) }
{
    for ways in combinations {
        let sources = sources(alloc, matched, ways.as_slice())?;
        problems.push(problem(
            alloc,
            transition,
            cube,
            unmatched,
            disjunct,
            ways.as_slice(),
            sources.as_slice(),
        )?)?;
    }
    Ok(())
}

/// Adds the problems of a matching, disjunct by disjunct.
fn add_of_guard(
    alloc: Global,
    transition: &Transition,
    cube: &Cube,
    matched: &[Option<u16>],
    unmatched: &[UnmatchedRow],
    combinations: &[List<Shared<Way>>],
    problems: &mut List<Problem>,
) -> Result<(), AllocError>
    requires unmatched { map row_of unmatched.now ≡ the_unmatched (length transition.now.rows) cube.now.rows matched.now }
    requires combinations { map (map (way_of transition.now.bulk)) combinations.now ≡ map (map (in_problem (length transition.now.rows)))
        (choice.case_choices transition.now.bulk (the_unmatched (length transition.now.rows) cube.now.rows matched.now)) }
    ensures { OnOk result (problems.new ≡ problems.old ++ problems_of transition.now cube.now matched.now) }
{
    for disjunct in transition.guard.as_slice() {
        add_of_disjunct(
            alloc,
            transition,
            cube,
            matched,
            unmatched,
            disjunct,
            combinations,
            problems,
        )?;
    }
    Ok(())
}

/// Adds the problems of a matching.
fn add_of_matching(
    alloc: Global,
    transition: &Transition,
    cube: &Cube,
    matched: &[Option<u16>],
    problems: &mut List<Problem>,
) -> Result<(), AllocError>
    ensures { OnOk result (problems.new ≡ problems.old ++ problems_of transition.now cube.now matched.now) }
{
    let updated = transition.rows.len() as u16;
    cube.known();
    let unmatched = unmatched_rows(alloc, updated, cube.rows(), matched)?;
    let combinations = combinations(
        alloc,
        updated,
        unmatched.as_slice(),
        transition.bulk.as_slice(),
    )?;
    add_of_guard(
        alloc,
        transition,
        cube,
        matched,
        unmatched.as_slice(),
        combinations.as_slice(),
        problems,
    )
}

/// The list of the preimage of a cube under a transition.
pub fn preimage(
    alloc: Global,
    transition: &Transition,
    cube: &Cube,
) -> Result<List<Problem>, AllocError>
    ensures { IfOk result (λ problems. problems ≡ the_preimage transition.now cube.now) }
{
    let mut problems = List::new(alloc);
    for matching in matchings(alloc, transition.rows.as_slice(), cube.rows())?.as_slice() {
        add_of_matching(
            alloc,
            transition,
            cube,
            matching.matched.as_slice(),
            &mut problems,
        )?;
    }
    Ok(problems)
}

/// The list of the preimage of a cube under the transition of that number: in every database, a state has a step by the
/// transition to a state that meets the cube exactly where it meets a problem of the list.
pub fn pre(
    alloc: Global,
    system: &System,
    transition: u16,
    cube: &Cube,
) -> Result<List<Problem>, AllocError>
    requires { transition < length system.now.transitions }
    ensures list { IfOk result (λ problems. (t : declared.Transition) → slice_get system.now.transitions transition ≡ Some t → problems ≡ the_preimage t cube.now) }
    ensures fit { IfOk result (λ problems. Fits system.now.shape cube.now → All (Fits system.now.shape) problems) }
    ensures exact { IfOk result (λ problems. Fits system.now.shape cube.now → (d : database.RawDb) (s : state.State) → IsState system.now.shape d s
        → (LeadsIn system.now d s transition cube.now ↔ MeetsAny d s problems)) }
{
    system.known();
    cube.known();
    a_preimage_is_exact();
    a_preimage_fits();
    let problems = preimage(alloc, &system.transitions()[transition as usize], cube)?;
    Ok(problems)
}
