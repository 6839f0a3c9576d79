ghost use Rattle.std.specs.Prelude.{List};
ghost use Rattle.ras_lines.specs.Fronts.{Front, Reads, times};
ghost use Rattle.ras_lines.specs.Numbers.{behind_blank, announced};

use crate::stop::Stop;
use crate::words::Words;
use ras_logic::Seq;
use std::alloc::Global;

/// What is spelled within a line.
pub trait Spelled: Drop {
    ghost use Rattle.std.specs.Prelude.{ℕ, List};
    ghost use Rattle.ras_lines.specs.Fronts.{Front};

    // the value that the bytes begin with
    ghost first: { List ℕ → Front ℕ Self };

    /// Reads the value that comes next.
    fn read(words: &mut Words<'_>, alloc: Global) -> Result<Self, Stop>
        ensures { Reads first words.old.rest.now words.new.rest.now result };
}

/// As many values as this have memory from the start: most rows, literals and paths are few.
const FEW: u32 = 4;

/// Reads as many values as are announced, each behind a blank. What is only announced takes no room beyond that of a few.
#[tactic(auto, using(crate::proofs::Loops::times_laws))]
fn several<T: Spelled, const ROOM: usize>(
    words: &mut Words<'_>,
    alloc: Global,
    count: u32,
) -> Result<Seq<T, ROOM>, Stop>
    ensures { Reads (times (behind_blank T.first) count) words.old.rest.now words.new.rest.now result }
{
    let mut items = Seq::with_capacity(alloc, count.min(FEW) as usize)?;
    for _ in 0..count {
        words.fixed(b" ")?;
        let item = T::read(words, alloc)?;
        items.push(item)?;
    }
    Ok(items)
}

/// Reads a count and as many values, each behind a blank.
pub fn counted<T: Spelled, const ROOM: usize>(
    words: &mut Words<'_>,
    alloc: Global,
) -> Result<Seq<T, ROOM>, Stop>
    ensures { Reads (announced T.first) words.old.rest.now words.new.rest.now result }
{
    let count = words.next_number()?;
    several(words, alloc, count)
}
