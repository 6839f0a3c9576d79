ghost use Rattle.std.specs.Prelude.{◌≡◌, ◌<◌, ◌≤◌, ◌^◌, length, map, IfOk, OnOk, [], ◌∷◌, ◌++◌, flat_map, filter, cond, nat_eq, None, get_or};
ghost use Rattle.ras_logic.specs.declared.literal.Literal as literal;
ghost use Rattle.ras_logic.specs.Formulas.{replace};
ghost use Rattle.ras_system.specs.declared.bulk.Bulk as bulk_case;
ghost use Rattle.ras_system.specs.Preimages.{renumbered_row, case_choices_from};
ghost use Rattle.ras_preimage.specs.Parts.{way_of, in_problem, refused_too, taken, taking_none};

use crate::renumbering::{refused, renumbered};
use ras_logic::{List, Literal, Plain, RelId};
use ras_system::Bulk;
use std::alloc::{AllocError, Global};

/// What an unmatched row takes: the bulk case of that number, or none; and the literals that hold of it then, under its number
/// in the problem.
#[derive(Debug, Drop)]
pub struct Way {
    pub number: u16,
    pub case: Option<u32>,
    pub literals: List<Literal>,
}

/// Adds the refusals that begin with these literals and refuse one literal more of the condition.
fn add_refusals(
    alloc: Global,
    updated: u16,
    number: u16,
    condition: &[Literal],
    literals: &List<Literal>,
    all: &mut List<List<Literal>>,
) -> Result<(), AllocError>
    ensures { OnOk result (all.new ≡ all.old ++ refused_too updated number condition.now literals.now) }
{
    for literal in condition {
        let mut more = literals.copy(alloc)?;
        more.push(refused(alloc, updated, number, literal)?)?;
        all.push(more)?;
    }
    Ok(())
}

fn refusals(
    alloc: Global,
    updated: u16,
    number: u16,
    condition: &[Literal],
    before: &[List<Literal>],
) -> Result<List<List<Literal>>, AllocError>
    ensures { IfOk result (λ l. l ≡ flat_map (refused_too updated number condition.now) before.now) }
{
    let mut all = List::new(alloc);
    for literals in before {
        add_refusals(alloc, updated, number, condition, literals, &mut all)?;
    }
    Ok(all)
}

/// The way that takes a case: the earlier ones are refused by these literals, and its condition holds.
fn way_of_case(
    alloc: Global,
    updated: u16,
    number: u16,
    case: u32,
    condition: &[Literal],
    before: &List<Literal>,
) -> Result<Way, AllocError>
    ensures { IfOk result (λ w. w ≡ taken updated number case condition.now before.now) }
{
    let mut literals = before.copy(alloc)?;
    for literal in condition {
        literals.push(renumbered(alloc, updated, number, literal)?)?;
    }
    Ok(Way {
        number,
        case: Some(case),
        literals,
    })
}

fn add_ways(
    alloc: Global,
    updated: u16,
    number: u16,
    case: u32,
    condition: &[Literal],
    before: &[List<Literal>],
    ways: &mut List<Way>,
) -> Result<(), AllocError>
    ensures { OnOk result (ways.new ≡ ways.old ++ map (taken updated number case condition.now) before.now) }
{
    for literals in before {
        ways.push(way_of_case(alloc, updated, number, case, condition, literals)?)?;
    }
    Ok(())
}

/// Adds the ways that take the case, if it is of the relation, and refuses it.
fn add_case(
    alloc: Global,
    updated: u16,
    number: u16,
    relation: RelId,
    case: u32,
    bulk: &Bulk,
    before: &mut List<List<Literal>>,
    ways: &mut List<Way>,
) -> Result<(), AllocError>
    ensures ways { OnOk result (ways.new ≡ ways.old ++ cond (nat_eq bulk.now.relation.n relation.n) (map (taken updated number case bulk.now.condition) before.old) []) }
    ensures before { OnOk result (before.new ≡ cond (nat_eq bulk.now.relation.n relation.n) (flat_map (refused_too updated number bulk.now.condition) before.old) before.old) }
{
    if bulk.relation != relation {
        return Ok(());
    }
    let condition = bulk.condition.as_slice();
    add_ways(
        alloc,
        updated,
        number,
        case,
        condition,
        before.as_slice(),
        ways,
    )?;
    *before = refusals(alloc, updated, number, condition, before.as_slice())?;
    Ok(())
}

/// Adds the ways that take no case: each of these literals refuses all of them.
fn add_none(
    number: u16,
    refused: List<List<Literal>>,
    ways: &mut List<Way>,
) -> Result<(), AllocError>
    ensures { OnOk result (ways.new ≡ ways.old ++ map (taking_none number) refused) }
{
    for literals in refused.into_vec() {
        ways.push(Way {
            number,
            case: None,
            literals,
        })?;
    }
    Ok(())
}

/// The ways of an unmatched row of that relation, in order: each case after those before it, and last none.
pub fn ways_of(
    alloc: Global,
    updated: u16,
    number: u16,
    relation: RelId,
    bulk: &[Bulk],
) -> Result<List<Way>, AllocError>
    requires { length bulk.now < 2 ^ 32 }
    ensures { IfOk result (λ ws. map (way_of bulk.now) ws ≡ map (in_problem updated)
        (case_choices_from number [] (filter (λ (b : bulk_case.Bulk). nat_eq b.relation.n relation.n) bulk.now))) }
{
    let mut before = List::new(alloc);
    before.push(List::new(alloc))?;
    let mut ways = List::new(alloc);
    for i in 0..bulk.len() {
        add_case(
            alloc,
            updated,
            number,
            relation,
            i as u32,
            &bulk[i],
            &mut before,
            &mut ways,
        )?;
    }
    add_none(number, before, &mut ways)?;
    Ok(ways)
}
