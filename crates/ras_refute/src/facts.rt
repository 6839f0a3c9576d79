ghost use Rattle.std.specs.Prelude.{◌≡◌, ◌↔◌, ◌<◌, length, nat_eq, not, IsTrue, MatchOption};
ghost use Rattle.ras_logic.specs.Literals.{same_of};
ghost use Rattle.ras_refute.specs.Tables.{AreAllSides};
ghost use Rattle.ras_refute.specs.Classes.{class, RespectFacts, IsViolated};

use crate::entry::Pair;
use crate::table::Table;
use ras_logic::Literal;

/// Whether a fact is of this kind, those that say the same or those that say not the same, and the classes of its sides are
/// not as it says.
fn is_violated(fact: &Literal, pair: Pair, classes: &[u32], same: bool) -> bool
    requires left { pair.left < length classes.now }
    requires right { pair.right < length classes.now }
    ensures { IsTrue result ↔ ((same_of fact.now ≡ same) × (nat_eq (class classes.now pair.left) (class classes.now pair.right) ≡ not same)) }
{
    let together = classes[pair.left as usize] == classes[pair.right as usize];
    fact.says_same() == same && together != same
}

/// The sides of the first fact of this kind, those that say the same or those that say not the same, whose classes are not
/// as it says.
pub fn find_violated_fact(
    facts: &[Literal],
    table: &Table,
    classes: &[u32],
    same: bool,
) -> Option<Pair>
    requires numbers { AreAllSides table.now.entries facts.now table.now.sides }
    requires as_many { length classes.now ≡ length table.now.entries }
    ensures { MatchOption result (RespectFacts facts.now table.now.sides classes.now same) (IsViolated facts.now table.now.sides classes.now same) }
{
    let sides = table.sides.as_slice();
    for k in 0..facts.len() {
        let pair = sides[k];
        if is_violated(&facts[k], pair, classes, same) {
            return Some(pair);
        }
    }
    None
}
