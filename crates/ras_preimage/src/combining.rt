ghost use Rattle.std.specs.Prelude.{◌≡◌, ◌<◌, ◌^◌, List, length, map, IfOk, OnOk, [], ◌∷◌, ◌++◌, flat_map};
ghost use Rattle.ras_system.specs.Preimages.{case_choices};
ghost use Rattle.ras_preimage.specs.Parts.{way_of, in_problem, row_of};
ghost use Rattle.ras_preimage.specs.declared.ways.Way as declared;

use crate::unmatched_rows::UnmatchedRow;
use crate::ways::{Way, ways_of};
use ras_logic::{List, Shared};
use ras_system::Bulk;
use std::alloc::{AllocError, Global};

fn copied(alloc: Global, ways: &[Shared<Way>]) -> Result<List<Shared<Way>>, AllocError>
    ensures { IfOk result (λ l. l ≡ ways.now) }
{
    let mut copy = List::new(alloc);
    for way in ways {
        copy.push(way.another()?)?;
    }
    Ok(copy)
}

fn shared(alloc: Global, ways: List<Way>) -> Result<List<Shared<Way>>, AllocError>
    ensures { IfOk result (λ l. l ≡ ways) }
{
    let mut all = List::new(alloc);
    for way in ways.into_vec() {
        all.push(Shared::new(alloc, way)?)?;
    }
    Ok(all)
}

/// Adds the combinations that begin with this one and have one way more. The last one takes the place of what is begun.
fn add_next(
    alloc: Global,
    ways: &[Shared<Way>],
    begun: List<Shared<Way>>,
    all: &mut List<List<Shared<Way>>>,
) -> Result<(), AllocError>
    ensures { OnOk result (all.new ≡ all.old ++ map (λ (w : declared.Way). begun ++ w ∷ []) ways.now) }
{
    let Some((last, earlier)) = ways.split_last() else {
        return Ok(());
    };
    for way in earlier {
        let mut more = copied(alloc, begun.as_slice())?;
        more.push(way.another()?)?;
        all.push(more)?;
    }
    let mut begun = begun;
    begun.push(last.another()?)?;
    all.push(begun)?;
    Ok(())
}

fn next(
    alloc: Global,
    ways: &[Shared<Way>],
    combinations: List<List<Shared<Way>>>,
) -> Result<List<List<Shared<Way>>>, AllocError>
    ensures { IfOk result (λ l. l ≡ flat_map (λ (begun : List declared.Way). map (λ (w : declared.Way). begun ++ w ∷ []) ways.now) combinations) }
{
    let mut all = List::new(alloc);
    for begun in combinations.into_vec() {
        add_next(alloc, ways, begun, &mut all)?;
    }
    Ok(all)
}

/// The combinations of a way for each unmatched row, in order.
pub fn combinations(
    alloc: Global,
    updated: u16,
    unmatched: &[UnmatchedRow],
    bulk: &[Bulk],
) -> Result<List<List<Shared<Way>>>, AllocError>
    requires { length bulk.now < 2 ^ 32 }
    ensures { IfOk result (λ l. map (map (way_of bulk.now)) l ≡ map (map (in_problem updated)) (case_choices bulk.now (map row_of unmatched.now))) }
{
    let mut all = List::new(alloc);
    all.push(List::new(alloc))?;
    for row in unmatched {
        let ways = shared(
            alloc,
            ways_of(alloc, updated, row.number, row.relation, bulk)?,
        )?;
        all = next(alloc, ways.as_slice(), all)?;
    }
    Ok(all)
}
