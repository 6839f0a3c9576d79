ghost use Rattle.std.specs.Prelude.{◌≡◌, ◌≤◌, ℕ, [], length, slice_get, Some, MatchOption, IfOk, IfSome, OnOk};
ghost use Rattle.ras_refute.specs.declared.entry.Entry.TheVariants.{Root};
ghost use Rattle.ras_refute.specs.Tables.{IsTable, HasFixed, IsFixedPlace, EntryFits, AddsEntry, AddsTerm, AddsFact, AddsFacts, AddsUndefs, AddsConstants};

use crate::entry::{Entry, Pair};
use ras_logic::{Base, ConstId, List, Literal, Schema, SortId, Term};
use std::alloc::{AllocError, Global};

/// The terms that facts speak of, each once and after the term of which it is an image, and for each fact its two sides.
/// The undef of every sort and the constants come first, so that their places are known.
#[derive(Debug, Drop)]
pub struct Table {
    pub entries: List<Entry>,
    pub sides: List<Pair>,
}

/// The number of an entry.
fn position(entries: &[Entry], entry: Entry) -> Option<u32>
    requires { length entries.now ≤ 4294967295 }
    ensures { MatchOption result ((i : ℕ) → ¬ (slice_get entries.now i ≡ Some entry)) (λ i. slice_get entries.now i ≡ Some entry) }
{
    for (i, other) in entries.iter().enumerate() {
        if *other == entry {
            return Some(i as u32);
        }
    }
    None
}

/// The number of an entry, which is added where it is not there.
fn place(entries: &mut List<Entry>, entry: Entry) -> Result<u32, AllocError>
    requires table { IsTable entries.old }
    requires fits { EntryFits entries.old entry }
    ensures { IfOk result (AddsEntry entries.old entries.new entry) }
{
    if let Some(i) = position(entries.as_slice(), entry) {
        return Ok(i);
    }
    let i = entries.len();
    entries.push(entry)?;
    Ok(i as u32)
}

/// The number of an undef or a constant of the schema.
fn fixed_place(schema: &Schema, base: Base) -> Option<u32>
    ensures { IfSome result (IsFixedPlace schema.now base) }
{
    let sorts = schema.sort_count();
    match base {
        Base::Undef(s) if s.n < sorts => Some(u32::from(s.n)),
        Base::Constant(c) if c.n < schema.constant_count() => {
            Some(u32::from(sorts) + u32::from(c.n))
        }
        _ => None,
    }
}

/// The number of a base, which is added where it is not there.
fn place_base(schema: &Schema, entries: &mut List<Entry>, base: Base) -> Result<u32, AllocError>
    requires table { IsTable entries.old }
    requires fixed { HasFixed schema.now entries.old }
    ensures { IfOk result (AddsEntry entries.old entries.new (Root base)) }
{
    match fixed_place(schema, base) {
        Some(number) => Ok(number),
        None => place(entries, Entry::Root(base)),
    }
}

/// The number of a term, which is added with its prefixes where it is not there.
fn place_term(schema: &Schema, entries: &mut List<Entry>, term: &Term) -> Result<u32, AllocError>
    requires table { IsTable entries.old }
    requires fixed { HasFixed schema.now entries.old }
    ensures { IfOk result (AddsTerm entries.old entries.new term.now) }
{
    let mut at = place_base(schema, entries, term.base)?;
    for function in term.path.as_slice() {
        at = place(
            entries,
            Entry::Image {
                of: at,
                function: *function,
            },
        )?;
    }
    Ok(at)
}

/// The numbers of a fact's sides, which are added with their prefixes where they are not there.
fn place_fact(
    schema: &Schema,
    entries: &mut List<Entry>,
    fact: &Literal,
) -> Result<Pair, AllocError>
    requires table { IsTable entries.old }
    requires fixed { HasFixed schema.now entries.old }
    ensures { IfOk result (AddsFact entries.old entries.new fact.now) }
{
    let left = place_term(schema, entries, fact.left())?;
    let right = place_term(schema, entries, fact.right())?;
    Ok(Pair { left, right })
}

/// The numbers of the sides of all facts.
fn place_facts(
    alloc: Global,
    schema: &Schema,
    entries: &mut List<Entry>,
    facts: &[Literal],
) -> Result<List<Pair>, AllocError>
    requires table { IsTable entries.old }
    requires fixed { HasFixed schema.now entries.old }
    ensures { IfOk result (AddsFacts entries.old entries.new facts.now) }
{
    let mut sides = List::new(alloc);
    for fact in facts {
        sides.push(place_fact(schema, entries, fact)?)?;
    }
    Ok(sides)
}

/// Puts the undef of every sort into the empty table.
fn place_undefs(entries: &mut List<Entry>, sorts: u16) -> Result<(), AllocError>
    requires { entries.old ≡ [] }
    ensures { OnOk result (AddsUndefs sorts entries.new) }
{
    for n in 0..sorts {
        entries.push(Entry::Root(Base::Undef(SortId { n })))?;
    }
    Ok(())
}

/// Puts every constant behind the undefs.
fn place_constants(entries: &mut List<Entry>, sorts: u16, count: u16) -> Result<(), AllocError>
    requires { AddsUndefs sorts entries.old }
    ensures { OnOk result (AddsConstants sorts count entries.old entries.new) }
{
    // only the contract speaks of it
    let _sorts = sorts;
    for n in 0..count {
        entries.push(Entry::Root(Base::Constant(ConstId { n })))?;
    }
    Ok(())
}

impl Table {
    ghost use Rattle.std.specs.Prelude.{IfOk};
    ghost use Rattle.ras_refute.specs.Tables.{IsTableOf};

    /// The terms of the facts with their prefixes, beside the undef of every sort and the constants.
    pub fn new(alloc: Global, schema: &Schema, facts: &[Literal]) -> Result<Table, AllocError>
        ensures { IfOk result (IsTableOf schema.now facts.now) }
    {
        let mut entries = List::new(alloc);
        let sorts = schema.sort_count();
        place_undefs(&mut entries, sorts)?;
        place_constants(&mut entries, sorts, schema.constant_count())?;
        let sides = place_facts(alloc, schema, &mut entries, facts)?;
        Ok(Table { entries, sides })
    }
}
