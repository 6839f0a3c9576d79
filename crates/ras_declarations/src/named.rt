//! Names with what stands behind their colons: columns, rows and data parameters. Each is the next of its kind and
//! new among the names above, and what stands behind its colon is one of others.

ghost use Rattle.std.specs.Prelude.{◌≡◌, [], ◌∷◌, ◌++◌, true, length, map, List, All, IfOk, OnOk};
ghost use Rattle.ras_names.specs.Placed.{Declared as Item};
ghost use Rattle.ras_names.specs.Checks.{for_each, for_each_from, is_among, declared_texts, declared_checks, used_check};
ghost use Rattle.ras_numbering.specs.Numbers.{number_in};
ghost use Rattle.ras_scope.specs.Placing.{placed_name, placed_column, placed_comma, placed_row, placed_param};
ghost use Rattle.ras_scope.specs.Answering.{Answers};
ghost use Rattle.ras_declarations.specs.Naming.{named_checks, IsOneOf};

use ras_logic::{RelId, SortId};
use ras_names::SpecKind;
use ras_scope::declared::{check_name, find_number};
use ras_scope::fault::{SpecError, fault};
use ras_scope::name_set::NameSet;
use ras_scope::table::Table;
use ras_syntax::{Column, CommaColumn, Name, Param, Row};
use std::alloc::Global;

/// A name, and the name behind its colon.
pub trait Named {
    ghost use Rattle.ras_names.specs.Placed.{Declared};

    ghost placed: { Self → Declared };

    /// The name.
    fn name(&self) -> &Name
        ensures { placed_name result.now ≡ (placed self.now).name };

    /// The name behind the colon.
    fn of(&self) -> &Name
        ensures { placed_name result.now ≡ (placed self.now).of };
}

impl Named for Column {
    ghost placed = { placed_column };

    fn name(&self) -> &Name {
        &self.name
    }

    fn of(&self) -> &Name {
        &self.sort
    }
}

impl Named for CommaColumn {
    ghost placed = { placed_comma };

    fn name(&self) -> &Name {
        &self.column.name
    }

    fn of(&self) -> &Name {
        &self.column.sort
    }
}

impl Named for Row {
    ghost placed = { placed_row };

    fn name(&self) -> &Name {
        &self.name
    }

    fn of(&self) -> &Name {
        &self.relation
    }
}

impl Named for Param {
    ghost placed = { placed_param };

    fn name(&self) -> &Name {
        &self.name
    }

    fn of(&self) -> &Name {
        &self.sort
    }
}

/// What has a number among those of its kind.
pub trait Numbered: Copy {
    ghost use Rattle.std.specs.Prelude.{ℕ};

    ghost with_number: { ℕ → Self };

    /// The one with this number.
    fn with_number(n: u16) -> Self
        ensures { result ≡ with_number n };
}

impl Numbered for SortId {
    ghost with_number = { λ n. record { n = n } };

    fn with_number(n: u16) -> SortId {
        SortId { n }
    }
}

impl Numbered for RelId {
    ghost with_number = { λ n. record { n = n } };

    fn with_number(n: u16) -> RelId {
        RelId { n }
    }
}

/// A name is the next of its kind, of which there are `count` above: it is within the limit, and in neither set.
fn check_inner(
    above: &NameSet,
    more: &NameSet,
    limit: usize,
    count: usize,
    name: &Name,
) -> Result<(), SpecError>
    ensures { Answers (declared_checks limit count (above.now ++ more.now) (placed_name name.now)) result }
{
    check_name(above, limit, count, name)?;
    if more.has(&name.text) {
        return fault(name.at, SpecKind::DuplicateName);
    }
    Ok(())
}

/// A name is the next of its own: it is within the limit, and in none of the sets.
fn check_new(
    above: &NameSet,
    more: &NameSet,
    own: &NameSet,
    limit: usize,
    name: &Name,
) -> Result<(), SpecError>
    ensures { Answers (declared_checks limit (length own.now) ((above.now ++ more.now) ++ own.now) (placed_name name.now)) result }
{
    check_inner(above, more, limit, own.len(), name)?;
    if own.has(&name.text) {
        return fault(name.at, SpecKind::DuplicateName);
    }
    Ok(())
}

/// The names from which those of a kind differ, those of what may stand behind the colon, and how many there are at most.
#[derive(Clone, Copy)]
pub struct Naming<'a> {
    pub above: &'a NameSet,
    pub more: &'a NameSet,
    pub used: &'a NameSet,
    pub limit: usize,
}

/// One name more.
pub fn add_named<N: Named, T: Numbered>(
    naming: &Naming,
    table: &mut Table<T>,
    item: &N,
) -> Result<(), SpecError>
    ensures checks { Answers (declared_checks naming.now.limit (length table.old.names) ((naming.now.above.now ++ naming.now.more.now) ++ table.old.names) (N.placed item.now).name ++ used_check naming.now.used.now (N.placed item.now).of ∷ []) result }
    ensures names { OnOk result (table.new.names ≡ table.old.names ++ (N.placed item.now).name.text ∷ []) }
    ensures values { OnOk result (table.new.values.items ≡ table.old.values.items ++ T.with_number (number_in naming.now.used.now (N.placed item.now).of.text) ∷ []) }
    ensures known { OnOk result (IsOneOf naming.now.used.now (N.placed item.now)) }
{
    let name = item.name();
    check_new(naming.above, naming.more, table.names(), naming.limit, name)?;
    let number = find_number(naming.used, item.of())?;
    table.add(name.text, T::with_number(number))?;
    Ok(())
}

/// More names, one after the other.
pub fn add_all_named<N: Named, T: Numbered>(
    naming: &Naming,
    table: &mut Table<T>,
    items: &[N],
) -> Result<(), SpecError>
    ensures checks { (before : List Item) → table.old.names ≡ declared_texts before
        → Answers (for_each_from (length before) (named_checks naming.now.limit (naming.now.above.now ++ naming.now.more.now) naming.now.used.now (before ++ map N.placed items.now)) (map N.placed items.now)) result }
    ensures names { OnOk result (table.new.names ≡ table.old.names ++ declared_texts (map N.placed items.now)) }
    ensures values { OnOk result (table.new.values.items ≡ table.old.values.items ++ map (λ d. T.with_number (number_in naming.now.used.now d.of.text)) (map N.placed items.now)) }
    ensures known { OnOk result (All (IsOneOf naming.now.used.now) (map N.placed items.now)) }
{
    for item in items {
        add_named(naming, table, item)?;
    }
    Ok(())
}

/// All names of a kind.
pub fn read_named<N: Named, T: Numbered>(
    alloc: Global,
    naming: &Naming,
    items: &[N],
) -> Result<Table<T>, SpecError>
    ensures checks { Answers (for_each (named_checks naming.now.limit (naming.now.above.now ++ naming.now.more.now) naming.now.used.now (map N.placed items.now)) (map N.placed items.now)) result }
    ensures names { IfOk result (λ t. t.names ≡ declared_texts (map N.placed items.now)) }
    ensures values { IfOk result (λ t. t.values.items ≡ map (λ d. T.with_number (number_in naming.now.used.now d.of.text)) (map N.placed items.now)) }
    ensures known { OnOk result (All (IsOneOf naming.now.used.now) (map N.placed items.now)) }
{
    let mut table = Table::new(alloc);
    add_all_named(naming, &mut table, items)?;
    Ok(table)
}
