//! Entries by their numbers and cubes.
ghost use Rattle.std.specs.Prelude.{◌≡◌, ◌≤◌, drop, length, IfOk};
ghost use Rattle.ras_store.specs.Holding.{named_from, kept_from, numbers_of};

use crate::named::Named;
use ras_core::Entry;
use ras_logic::List;
use std::alloc::{AllocError, Global};

/// An entry with its number.
fn name(number: usize, entry: &Entry) -> Result<Named, AllocError>
    requires { number ≤ 4294967295 }
    ensures { IfOk result (λ n. n ≡ record { number = number; cube = entry.now.cube }) }
{
    Ok(Named {
        number: number as u32,
        cube: entry.cube().another()?,
    })
}

/// The entries from this number on.
pub fn names_from(alloc: Global, entries: &[Entry], from: u32) -> Result<Vec<Named>, AllocError>
    requires { length entries.now ≤ 4294967295 }
    ensures { IfOk result (λ names. names.items ≡ named_from from (drop from entries.now)) }
{
    let mut names = Vec::new(alloc);
    for number in (from as usize)..entries.len() {
        names.push(name(number, &entries[number])?)?;
    }
    Ok(names)
}

/// The entries that are kept.
pub fn kept_names(alloc: Global, entries: &[Entry]) -> Result<Vec<Named>, AllocError>
    requires { length entries.now ≤ 4294967295 }
    ensures { IfOk result (λ names. names.items ≡ kept_from 0 entries.now) }
{
    let mut names = Vec::new(alloc);
    for number in 0..entries.len() {
        let entry = &entries[number];
        if entry.is_kept() {
            names.push(name(number, entry)?)?;
        }
    }
    Ok(names)
}

/// The numbers of named entries.
pub fn numbers(alloc: Global, names: &[Named]) -> Result<List<u32>, AllocError>
    ensures { IfOk result (λ numbers. numbers ≡ numbers_of names.now) }
{
    let mut numbers = List::new(alloc);
    for named in names {
        numbers.push(named.number)?;
    }
    Ok(numbers)
}
