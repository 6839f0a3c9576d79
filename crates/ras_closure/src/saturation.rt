ghost use Rattle.std.specs.Prelude.{◌≡◌, ◌↔◌, ℕ, ◌<◌, ◌≤◌, length, IsTrue, MatchOption};
ghost use Rattle.ras_closure.specs.Classes.{class, Coarsens};
ghost use Rattle.ras_closure.specs.Numbered.{IsImageLink};
ghost use Rattle.ras_closure.specs.Rules.{IsPendingPair, AreUndefRules, IsSaturated};
ghost use Rattle.ras_closure.specs.Signatures.{AreSignaturesOf, IsImageOf, RecordsImage, RecordsImageAt};
ghost use Rattle.ras_closure.specs.Partitions.{AreBelow, AreClassesOf, ArePartial, MustBeSame, IsRest};
ghost use Rattle.ras_closure.specs.Verdicts.{AreUnbroken, IsVerdict};

use crate::clash::Clash;
use crate::classes::Classes;
use crate::link::Link;
use crate::marks::Marks;
use crate::merging::merge;
use crate::pair::Pair;
use crate::signatures::Signatures;
use crate::steps::Steps;
use crate::term_table::TermTable;
use ras_logic::FunId;

/// Two terms that one of the rules for undef puts together.
fn find_pending_undef(
    table: &TermTable,
    classes: &Classes,
    i: usize,
    of: usize,
    function: FunId,
) -> Option<Pair>
    requires long { length classes.now ≡ length table.now.terms }
    requires within { i < length table.now.terms }
    requires link { IsImageLink table.now.links i of function }
    ensures { MatchOption result (AreUndefRules table.now classes.now i of function) (λ p. IsPendingPair table.now classes.now p.left p.right) }
{
    table.known();
    let decl = table.function(function);
    let source = decl.source.n as usize;
    let target = decl.target.n as usize;
    let argument = classes.of(of);
    let undef_argument = classes.of(source);
    let image = classes.of(i);
    let undef_image = classes.of(target);
    if argument == undef_argument {
        if image != undef_image {
            return Some(Pair {
                left: i,
                right: target,
            });
        }
    } else if decl.total && image == undef_image {
        return Some(Pair {
            left: of,
            right: source,
        });
    }
    None
}

/// Whether a term is an image by the function of a term of the class.
fn is_image_of(table: &TermTable, classes: &Classes, function: FunId, class: u32, k: usize) -> bool
    requires long { length classes.now ≡ length table.now.terms }
    ensures { IsTrue result ↔ IsImageOf table.now classes.now function class k }
{
    table.known();
    match table.links().get(k) {
        Some(Link::Image { of, function: by }) => {
            by.n == function.n && classes.of(*of as usize) == class
        }
        _ => false,
    }
}

/// The image that is recorded for the function and the class: the image `i` where none is.
fn find_congruent_image(
    table: &TermTable,
    classes: &Classes,
    signatures: &mut Signatures,
    function: FunId,
    class: u32,
    i: usize,
) -> usize
    requires long { length classes.now ≡ length table.now.terms }
    requires width { signatures.old.width ≡ length table.now.terms }
    requires functions { signatures.old.functions ≡ length table.now.shape.schema.functions }
    requires below { class < length table.now.terms }
    requires image { IsImageOf table.now classes.now function class i }
    ensures { RecordsImage table.now classes.now signatures.old signatures.new function class result }
{
    table.known();
    signatures.known();
    let congruent = signatures.image(function.n as usize, class as usize) as usize;
    if is_image_of(table, classes, function, class, congruent) {
        return congruent;
    }
    signatures.put(function.n as usize, class as usize, i as u32);
    i
}

/// Two terms of different classes that a rule on the image `i` puts together.
fn find_pending_at(
    table: &TermTable,
    classes: &Classes,
    signatures: &mut Signatures,
    i: usize,
) -> Option<Pair>
    requires below { AreBelow table.now classes.now }
    requires width { signatures.old.width ≡ length table.now.terms }
    requires functions { signatures.old.functions ≡ length table.now.shape.schema.functions }
    requires within { i < length table.now.terms }
    ensures found { MatchOption result (RecordsImageAt table.now classes.now signatures.old signatures.new i) (λ p. IsPendingPair table.now classes.now p.left p.right) }
    ensures width { signatures.new.width ≡ signatures.old.width }
    ensures functions { signatures.new.functions ≡ signatures.old.functions }
{
    table.known();
    match table.link(i) {
        Link::Base => None,
        Link::Image { of, function } => {
            if let Some(pair) = find_pending_undef(table, classes, i, of as usize, function) {
                return Some(pair);
            }
            let argument = classes.of(of as usize);
            let congruent = find_congruent_image(table, classes, signatures, function, argument, i);
            let image = classes.of(i);
            let congruent_image = classes.of(congruent);
            if image == congruent_image {
                return None;
            }
            Some(Pair {
                left: i,
                right: congruent,
            })
        }
    }
}

/// Two terms of different classes that a rule puts together. It looks once at each image.
fn find_pending_pair(
    table: &TermTable,
    classes: &Classes,
    signatures: &mut Signatures,
) -> Option<Pair>
    requires below { AreBelow table.now classes.now }
    requires width { signatures.old.width ≡ length table.now.terms }
    requires functions { signatures.old.functions ≡ length table.now.shape.schema.functions }
    ensures found { MatchOption result (IsSaturated table.now classes.now) (λ p. IsPendingPair table.now classes.now p.left p.right) }
    ensures width { signatures.new.width ≡ signatures.old.width }
    ensures functions { signatures.new.functions ≡ signatures.old.functions }
{
    table.known();
    for i in 0..table.len() {
        if let Some(pair) = find_pending_at(table, classes, signatures, i) {
            return Some(pair);
        }
    }
    None
}

/// Merges classes until no rule asks for more; and what speaks against it, the first that was found.
pub fn saturate(
    table: &TermTable,
    marks: &Marks,
    classes: &mut Classes,
    signatures: &mut Signatures,
    steps: &mut Steps,
    before: Option<Clash>,
) -> Option<Clash>
    requires classes { AreClassesOf table.now marks.now classes.old }
    requires signatures { AreSignaturesOf table.now signatures.old }
    requires verdict { IsVerdict table.now marks.now classes.old before }
    ensures rest { IsRest table.now marks.now classes.old classes.new }
    ensures verdict { IsVerdict table.now marks.now classes.new result }
    ensures signatures { AreSignaturesOf table.now signatures.new }
{
    table.known();
    let mut clash = before;
    steps.add(table.len());
    while let Some(pair) = find_pending_pair(table, classes, signatures) {
        let found = merge(table, marks, classes, steps, pair.left, pair.right);
        clash = clash.or(found);
        steps.add(table.len());
    }
    clash
}

/// Puts two terms in one class; and what speaks against it.
fn join(
    table: &TermTable,
    marks: &Marks,
    classes: &mut Classes,
    steps: &mut Steps,
    left: usize,
    right: usize,
) -> Option<Clash>
    requires classes { AreClassesOf table.now marks.now classes.old }
    requires pair { MustBeSame table.now marks.now left right }
    requires unbroken { AreUnbroken table.now marks.now classes.old }
    ensures partial { ArePartial table.now marks.now classes.new }
    ensures coarser { Coarsens classes.old classes.new }
    ensures merged { class classes.new left ≡ class classes.new right }
    ensures verdict { IsVerdict table.now marks.now classes.new result }
{
    if classes.of(left) == classes.of(right) {
        return None;
    }
    merge(table, marks, classes, steps, left, right)
}

/// Puts two terms in one class, with all that follows; and what speaks against it, the first that was found.
pub fn unite(
    table: &TermTable,
    marks: &Marks,
    classes: &mut Classes,
    signatures: &mut Signatures,
    steps: &mut Steps,
    left: usize,
    right: usize,
) -> Option<Clash>
    requires classes { AreClassesOf table.now marks.now classes.old }
    requires signatures { AreSignaturesOf table.now signatures.old }
    requires pair { MustBeSame table.now marks.now left right }
    requires unbroken { AreUnbroken table.now marks.now classes.old }
    ensures rest { IsRest table.now marks.now classes.old classes.new }
    ensures merged { class classes.new left ≡ class classes.new right }
    ensures verdict { IsVerdict table.now marks.now classes.new result }
    ensures signatures { AreSignaturesOf table.now signatures.new }
{
    let clash = join(table, marks, classes, steps, left, right);
    saturate(table, marks, classes, signatures, steps, clash)
}
