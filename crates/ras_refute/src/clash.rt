ghost use Rattle.std.specs.Prelude.{◌≡◌, ◌↔◌, ◌<◌, ◌+◌, ◌⊎◌, length, slice_get, Some, IsTrue, IfOk};
ghost use Rattle.std.specs.Bool.{OnTrue, OnFalse};
ghost use Rattle.ras_logic.specs.Clashes.{FactsClash};
ghost use Rattle.ras_refute.specs.Tables.{AreAllSides};
ghost use Rattle.ras_refute.specs.Clashing.{HasViolated, HasDistinct, AreBounded, AreNamed};

use crate::entry::{Entry, Rigid, are_same, as_rigid};
use crate::facts::find_violated_fact;
use crate::rules::least_classes;
use crate::table::Table;
use ras_logic::{Literal, Schema};
use std::alloc::{AllocError, Global};

/// Whether both sides of a fact that says not the same are in one class.
fn has_violated(facts: &[Literal], table: &Table, classes: &[u32]) -> bool
    requires numbers { AreAllSides table.now.entries facts.now table.now.sides }
    requires as_many { length classes.now ≡ length table.now.entries }
    ensures { IsTrue result ↔ HasViolated facts.now table.now.sides classes.now }
{
    find_violated_fact(facts, table, classes, false).is_some()
}

/// Notes an undef or a constant as that of its class; whether another one was noted for the class.
fn note_rigid(
    table: &Table,
    classes: &[u32],
    named: &mut [Option<Rigid>],
    i: usize,
    entry: Entry,
) -> bool
    requires bounded { AreBounded table.now.entries classes.now }
    requires here { slice_get table.now.entries i ≡ Some entry }
    requires named { AreNamed table.now.entries classes.now named.old i }
    ensures distinct { OnTrue result (HasDistinct table.now.entries classes.now) }
    ensures named { OnFalse result (AreNamed table.now.entries classes.now named.new (i + 1)) }
{
    // only the contract speaks of it
    let _table = table;
    let Some(rigid) = as_rigid(entry) else {
        return false;
    };
    let class = classes[i] as usize;
    match named[class] {
        None => {
            named[class] = Some(rigid);
            false
        }
        Some(other) => {
            if are_same(other, rigid) {
                return false;
            }
            true
        }
    }
}

/// Whether two distinct constants, or a constant and undef, are in one class. For each class one of them is noted, so that
/// the look over the terms compares no two of them that aren't in one class.
fn has_distinct(alloc: Global, table: &Table, classes: &[u32]) -> Result<bool, AllocError>
    requires { AreBounded table.now.entries classes.now }
    ensures { IfOk result (λ b. IsTrue b ↔ HasDistinct table.now.entries classes.now) }
{
    let mut named = vec![in alloc; None; classes.len()]?;
    for (i, entry) in table.entries.as_slice().iter().enumerate() {
        if note_rigid(table, classes, &mut named, i, *entry) {
            return Ok(true);
        }
    }
    Ok(false)
}

/// Whether facts clash in classes.
fn has_clash(
    alloc: Global,
    facts: &[Literal],
    table: &Table,
    classes: &[u32],
) -> Result<bool, AllocError>
    requires numbers { AreAllSides table.now.entries facts.now table.now.sides }
    requires bounded { AreBounded table.now.entries classes.now }
    ensures { IfOk result (λ b. IsTrue b ↔ (HasViolated facts.now table.now.sides classes.now ⊎ HasDistinct table.now.entries classes.now)) }
{
    if has_violated(facts, table, classes) {
        return Ok(true);
    }
    has_distinct(alloc, table, classes)
}

/// Whether facts clash. The terms are both sides of each fact with their prefixes, each constant, and each sort's undef. In
/// one class are both sides of a fact that says the same, images by one function of terms of one class, undef and the
/// image of a term of undef's class, and undef and a term whose image by a total function is in undef's class. The facts
/// clash where both sides of a fact that says not the same are in one class, or two constants, or a constant and undef.
pub fn clashes(alloc: Global, schema: &Schema, facts: &[Literal]) -> Result<bool, AllocError>
    ensures { IfOk result (λ b. IsTrue b ↔ FactsClash schema.now facts.now) }
{
    schema.known();
    let table = Table::new(alloc, schema, facts)?;
    let classes = least_classes(alloc, schema, facts, &table)?;
    has_clash(alloc, facts, &table, &classes)
}
