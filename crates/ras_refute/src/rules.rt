ghost use Rattle.std.specs.Prelude.{◌≡◌, ◌<◌, ◌≤◌, ℕ, List, length, slice_get, IfOk, IfSome, MatchOption};
ghost use Rattle.ras_logic.specs.declared.literal.Literal.{Literal};
ghost use Rattle.ras_logic.specs.Schemas.{SchemaParts, HasSorts};
ghost use Rattle.ras_refute.specs.Tables.{IsTable, HasUndefs, IsTableOf};
ghost use Rattle.ras_refute.specs.Classes.{IsImage, RespectImages, RespectUndef, RespectRulesAt, AreClosed, IsCongruentImage, IsDue, ArePartial, AreLeast};

use crate::classes::{separate, unite};
use crate::entry::{Entry, Pair};
use crate::facts::find_violated_fact;
use crate::table::Table;
use ras_logic::{FunDecl, FunId, Literal, Schema};
use std::alloc::{AllocError, Global};

/// Two terms of different classes that belong in one, and the term at which a look over all terms goes on.
#[derive(Clone, Copy, Debug)]
struct Pending {
    pair: Pair,
    at: u32,
}

/// The image by the same function of a term of the same class, in another class.
fn find_congruent_image(
    table: &Table,
    classes: &[u32],
    i: u32,
    of: u32,
    function: FunId,
) -> Option<u32>
    requires table { IsTable table.now.entries }
    requires as_many { length classes.now ≡ length table.now.entries }
    requires image { IsImage table.now.entries i of function }
    ensures { MatchOption result (RespectImages table.now.entries classes.now i of function) (IsCongruentImage table.now.entries classes.now i of function) }
{
    let entries = table.entries.as_slice();
    for j in 0..entries.len() {
        if let Entry::Image {
            of: other,
            function: by,
        } = entries[j]
        {
            if by.n == function.n
                && classes[other as usize] == classes[of as usize]
                && classes[j] != classes[i as usize]
            {
                return Some(j as u32);
            }
        }
    }
    None
}

/// A function of the schema.
fn declared(schema: &Schema, function: FunId) -> Option<FunDecl>
    ensures known { result ≡ slice_get schema.now.functions function.n }
    ensures sorts { IfSome result (HasSorts schema.now.sorts) }
{
    schema.known();
    schema.functions().get(function.n as usize).copied()
}

/// Two terms of different classes that a rule for undef puts together.
fn find_pending_undef(
    schema: &Schema,
    table: &Table,
    classes: &[u32],
    i: u32,
    of: u32,
    function: FunId,
) -> Option<Pair>
    requires table { IsTable table.now.entries }
    requires undefs { HasUndefs schema.now.sorts table.now.entries }
    requires as_many { length classes.now ≡ length table.now.entries }
    requires image { IsImage table.now.entries i of function }
    ensures { MatchOption result (RespectUndef schema.now classes.now i of function) (λ pair. (facts : List Literal) → IsDue schema.now facts table.now classes.now pair) }
{
    let decl = declared(schema, function)?;
    let source = decl.source.n as u32;
    let target = decl.target.n as u32;
    if classes[of as usize] == classes[source as usize] {
        if classes[i as usize] != classes[target as usize] {
            return Some(Pair {
                left: i,
                right: target,
            });
        }
    } else if decl.total && classes[i as usize] == classes[target as usize] {
        return Some(Pair {
            left: of,
            right: source,
        });
    }
    None
}

/// Two terms of different classes that a rule puts together for the term `i`.
fn find_pending_at(schema: &Schema, table: &Table, classes: &[u32], i: u32) -> Option<Pair>
    requires table { IsTable table.now.entries }
    requires undefs { HasUndefs schema.now.sorts table.now.entries }
    requires as_many { length classes.now ≡ length table.now.entries }
    requires within { i < length table.now.entries }
    ensures { MatchOption result (RespectRulesAt schema.now table.now.entries classes.now i) (λ pair. (facts : List Literal) → IsDue schema.now facts table.now classes.now pair) }
{
    match table.entries.as_slice()[i as usize] {
        Entry::Root(_) => None,
        Entry::Image { of, function } => {
            if let Some(pair) = find_pending_undef(schema, table, classes, i, of, function) {
                return Some(pair);
            }
            let other = find_congruent_image(table, classes, i, of, function)?;
            Some(Pair {
                left: i,
                right: other,
            })
        }
    }
}

/// Two terms of different classes that a rule puts together for one of the terms from `first` to before `end`.
fn find_pending_among(
    schema: &Schema,
    table: &Table,
    classes: &[u32],
    first: u32,
    end: u32,
) -> Option<Pending>
    requires table { IsTable table.now.entries }
    requires undefs { HasUndefs schema.now.sorts table.now.entries }
    requires as_many { length classes.now ≡ length table.now.entries }
    requires end { end ≤ length table.now.entries }
    ensures { MatchOption result ((i : ℕ) → i < end → first ≤ i → RespectRulesAt schema.now table.now.entries classes.now i) (λ pending. (pending.at < end) × ((facts : List Literal) → IsDue schema.now facts table.now classes.now pending.pair)) }
{
    for at in first..end {
        if let Some(pair) = find_pending_at(schema, table, classes, at) {
            return Some(Pending { pair, at });
        }
    }
    None
}

/// Two terms of different classes that a fact or a rule puts together. The look over the terms begins at the term `first`.
fn find_pending(
    schema: &Schema,
    facts: &[Literal],
    table: &Table,
    classes: &[u32],
    first: u32,
) -> Option<Pending>
    requires table { IsTableOf schema.now facts.now table.now }
    requires as_many { length classes.now ≡ length table.now.entries }
    requires first { first ≤ length table.now.entries }
    ensures { MatchOption result (AreClosed schema.now facts.now table.now classes.now) (λ pending. (pending.at ≤ length table.now.entries) × IsDue schema.now facts.now table.now classes.now pending.pair) }
{
    if let Some(pair) = find_violated_fact(facts, table, classes, true) {
        return Some(Pending { pair, at: first });
    }
    let end = table.entries.len() as u32;
    if let Some(pending) = find_pending_among(schema, table, classes, first, end) {
        return Some(pending);
    }
    find_pending_among(schema, table, classes, 0, first)
}

/// Puts classes together until no fact and no rule asks for more. Each look over the terms goes on where the last one found
/// two, since to begin anew would cost a look over all of them for each two classes.
fn close(schema: &Schema, facts: &[Literal], table: &Table, classes: &mut [u32])
    requires { ArePartial schema.now facts.now table.now classes.old }
    ensures { AreLeast schema.now facts.now table.now classes.new }
{
    schema.known();
    let mut first = 0;
    while let Some(pending) = find_pending(schema, facts, table, classes, first) {
        unite(
            classes,
            pending.pair.left as usize,
            pending.pair.right as usize,
        );
        first = pending.at;
    }
}

/// The classes of the least relation that has what the facts say and is closed under the rules.
pub fn least_classes(
    alloc: Global,
    schema: &Schema,
    facts: &[Literal],
    table: &Table,
) -> Result<Vec<u32>, AllocError>
    requires { IsTableOf schema.now facts.now table.now }
    ensures { IfOk result (λ v. AreLeast schema.now facts.now table.now v.items) }
{
    let mut classes = separate(alloc, table.entries.len())?;
    close(schema, facts, table, &mut classes);
    Ok(classes)
}
