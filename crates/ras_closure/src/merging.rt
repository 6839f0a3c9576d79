ghost use Rattle.std.specs.Prelude.{◌≡◌, ◌≢◌, ℕ, ◌<◌, ◌≤◌, length, sum, MatchOption};
ghost use Rattle.ras_closure.specs.Classes.{class, Coarsens};
ghost use Rattle.ras_closure.specs.Partitions.{AreClassesOf, ArePartial, MustBeSame};
ghost use Rattle.ras_closure.specs.Verdicts.{AreUnbroken, AreClashing};
ghost use Rattle.ras_closure.specs.Merging.{AreDisequal, HasNoDisequality, HaveNoDisequality, MayMerge, AreConflicting};

use crate::clash::Clash;
use crate::classes::Classes;
use crate::marks::Marks;
use crate::steps::Steps;
use crate::term_table::TermTable;

/// The term and one of the class that were asserted apart.
fn find_disequality_from(marks: &Marks, classes: &Classes, i: usize, other: u32) -> Option<Clash>
    requires width { marks.now.width ≡ length classes.now }
    requires few { length classes.now < 4294967295 }
    requires within { i < length classes.now }
    ensures { MatchOption result (HasNoDisequality marks.now classes.now i other marks.now.width) (λ q. AreDisequal marks.now classes.now (class classes.now i) other q.left.n q.right.n) }
{
    for j in 0..marks.width() {
        if classes.of(j) == other {
            if marks.is_apart(i, j) {
                return Some(Clash::between(i, j));
            }
            if marks.is_apart(j, i) {
                return Some(Clash::between(j, i));
            }
        }
    }
    None
}

/// A term of each class that were asserted apart.
fn find_disequality(marks: &Marks, classes: &Classes, a: u32, b: u32) -> Option<Clash>
    requires width { marks.now.width ≡ length classes.now }
    requires few { length classes.now < 4294967295 }
    ensures { MatchOption result (HaveNoDisequality marks.now classes.now a b marks.now.width) (λ q. AreDisequal marks.now classes.now a b q.left.n q.right.n) }
{
    for i in 0..marks.width() {
        if classes.of(i) == a {
            if let Some(clash) = find_disequality_from(marks, classes, i, b) {
                return Some(clash);
            }
        }
    }
    None
}

/// What speaks against one class of two: they have undefs or constants both, or terms that were asserted apart. The terms
/// of the smaller class are compared with those of the other.
fn find_conflict(
    table: &TermTable,
    marks: &Marks,
    classes: &Classes,
    steps: &mut Steps,
    to: u32,
    from: u32,
) -> Option<Clash>
    requires width { marks.now.width ≡ length classes.now }
    requires few { length classes.now < 4294967295 }
    ensures { MatchOption result (MayMerge table.now marks.now classes.now to from) (AreConflicting table.now marks.now classes.now to from) }
{
    if (from as usize) < table.rigid_count() {
        return Some(Clash::between(to as usize, from as usize));
    }
    let to_size = classes.size(to);
    let from_size = classes.size(from);
    let terms = table.len();
    steps.add(terms.saturating_mul(to_size.min(from_size).saturating_add(3)));
    if to_size < from_size {
        find_disequality(marks, classes, to, from)
    } else {
        find_disequality(marks, classes, from, to)
    }
}

/// Makes one class of two terms' classes, with the smaller number; and what speaks against it.
pub fn merge(
    table: &TermTable,
    marks: &Marks,
    classes: &mut Classes,
    steps: &mut Steps,
    left: usize,
    right: usize,
) -> Option<Clash>
    requires classes { AreClassesOf table.now marks.now classes.old }
    requires pair { MustBeSame table.now marks.now left right }
    requires differ { class classes.old left ≢ class classes.old right }
    ensures partial { ArePartial table.now marks.now classes.new }
    ensures coarser { Coarsens classes.old classes.new }
    ensures merged { class classes.new left ≡ class classes.new right }
    ensures fewer { sum classes.new < sum classes.old }
    ensures clash { MatchOption result (AreUnbroken table.now marks.now classes.old → AreUnbroken table.now marks.now classes.new) (λ q. AreClashing table.now marks.now q.left.n q.right.n) }
{
    table.known();
    let left_class = classes.of(left);
    let right_class = classes.of(right);
    let to = left_class.min(right_class);
    let from = left_class.max(right_class);
    let clash = find_conflict(table, marks, classes, steps, to, from);
    steps.add(table.len());
    classes.relabel(from, to);
    clash
}
