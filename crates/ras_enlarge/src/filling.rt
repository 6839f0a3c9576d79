ghost use Rattle.std.specs.Prelude.{◌≡◌, ℕ, ◌<◌, ◌≤◌, length, MatchOption};
ghost use Rattle.ras_logic.specs.declared.ids.SortId.{SortId};
ghost use Rattle.ras_cover.specs.Extensions.{AreFilled};
ghost use Rattle.ras_enlarge.specs.Numbers.{size_in, IsEmptyTarget};

use ras_closure::TermTable;
use ras_logic::{FunId, SortId};

/// A sort without elements to which a total function has to map one.
fn empty_target(table: &TermTable, sizes: &[u32]) -> Option<SortId>
    requires { length sizes.now ≡ table.now.shape.schema.sorts }
    ensures { MatchOption result (AreFilled table.now (size_in sizes.now)) (IsEmptyTarget sizes.now) }
{
    table.known();
    for k in 0..table.function_count() {
        let decl = table.function(FunId { n: k as u16 });
        let has_source = sizes[decl.source.n as usize] > 0;
        let has_target = sizes[decl.target.n as usize] > 0;
        if decl.total && has_source && !has_target {
            return Some(decl.target);
        }
    }
    None
}

/// One element in each sort that has none and to which a total function has to map one: an image is missing there.
pub fn fill(table: &TermTable, sizes: &mut Vec<u32>)
    requires { length sizes.old.items ≡ table.now.shape.schema.sorts }
    ensures long { length sizes.new.items ≡ length sizes.old.items }
    ensures grows { (s : SortId) → size_in sizes.old.items s ≤ size_in sizes.new.items s }
    ensures filled { AreFilled table.now (size_in sizes.new.items) }
{
    while let Some(sort) = empty_target(table, sizes) {
        sizes[sort.n as usize] = 1;
    }
}
