ghost use Rattle.std.specs.Prelude.{◌<◌, ◌^◌, length, IfSome};
ghost use Rattle.std.specs.Bool.{OnTrue};
ghost use Rattle.ras_system.specs.Evidence.{IsGoodSafe};
ghost use Rattle.ras_evidence.specs.EvidenceTexts.{IsEvidenceText};
ghost use Rattle.ras_check.specs.Judging.{IsComplete, IsGood};

use ras_certify::{certify, good_evidence_has_obligations_that_hold};
use ras_check::{Verdict, a_text_is_complete, check};
use ras_evidence::{Evidence, read_evidence};
use ras_file::read_file;
use ras_logic::{Cube, List, Shared, Tree};
use ras_system::System;
use ras_writing::write_evidence;
use std::alloc::Global;

/// The evidence of a text.
fn evidence_of(alloc: Global, text: &[u8]) -> Option<Evidence>
    ensures { IfSome result (IsEvidenceText text.now) }
{
    match read_evidence(alloc, text) {
        Ok(read) => Some(read.evidence),
        Err(_) => None,
    }
}

/// Whether the evidence is judged good.
fn is_valid(alloc: Global, system: &System, evidence: &Evidence) -> bool
    requires { IsComplete evidence.now }
    ensures { OnTrue result (IsGood system.now evidence.now) }
{
    match check(alloc, system, evidence) {
        Ok(Verdict::Valid) => true,
        _ => false,
    }
}

/// The formulas once more, each by a pointer.
fn shared(alloc: Global, formulas: &[Shared<Cube>]) -> Option<List<Shared<Cube>>> {
    let mut list = List::new(alloc);
    for formula in formulas {
        let another = formula.another().ok()?;
        list.push(another).ok()?;
    }
    Some(list)
}

/// The text of an evidence of safety.
fn text_of(alloc: Global, formulas: &[Shared<Cube>], trees: List<Tree>) -> Option<Vec<u8>> {
    let formulas = shared(alloc, formulas)?;
    write_evidence(alloc, &Evidence::Safe { formulas, trees }, None).ok()
}

/// Whether the text is that of an evidence which is judged good.
fn is_text_of_valid(alloc: Global, system: &System, text: &[u8]) -> bool {
    a_text_is_complete();
    match evidence_of(alloc, text) {
        Some(evidence) => is_valid(alloc, system, &evidence),
        None => false,
    }
}

/// Trees for the formulas of a good evidence of safety.
fn trees_for(
    alloc: Global,
    system: &System,
    formulas: &List<Shared<Cube>>,
    trees: &List<Tree>,
) -> Option<List<Tree>>
    requires { IsGoodSafe system.now formulas.now trees.now }
{
    system.known();
    good_evidence_has_obligations_that_hold();
    certify(alloc, system, formulas.as_slice()).ok()
}

/// Whether the formulas of a good evidence of safety get trees with which they are judged good again.
fn is_certified(alloc: Global, system: &System, evidence: &Evidence) -> bool
    requires { IsGood system.now evidence.now }
{
    let Evidence::Safe { formulas, trees } = evidence else {
        return false;
    };
    let Some(trees) = trees_for(alloc, system, formulas, trees) else {
        return false;
    };
    match text_of(alloc, formulas.as_slice(), trees) {
        Some(text) => is_text_of_valid(alloc, system, &text),
        None => false,
    }
}

/// Whether this is so of the evidence of a text for the system of a file.
fn is_certified_again(alloc: Global, file: &[u8], text: &[u8]) -> bool
    requires { length file.now < 2 ^ 32 }
{
    a_text_is_complete();
    let Ok(spec) = read_file(alloc, file) else {
        return false;
    };
    let Some(evidence) = evidence_of(alloc, text) else {
        return false;
    };
    is_valid(alloc, &spec.system, &evidence) && is_certified(alloc, &spec.system, &evidence)
}

#[test]
fn formulas_are_certified(rt: HostRuntime) {
    let systems = [
        (
            b"system two; sort A; const a : A; const b : A; const c : A; var x : A = a; step go { when x = b; x := c; } unsafe { when x = c; }".as_slice(),
            b"evidence 1 safe\nformulas 2\ncube 0 1 v0=c2\ncube 0 1 v0=c1\ntrees 5\ntree leaf\ntree leaf\ntree split 0 0 1 leaf\ntree split 1 0 1 leaf\ntree leaf\nend\n".as_slice(),
        ),
        (
            b"system hiring; sort User; sort Job; total owner : Job -> User; relation apps (job : Job, who : User);\nstep apply { row a : apps; param j : Job; when a.job = undef and j != undef; a.job := j; a.who := owner(j); }\nstep withdraw { row a : apps; when a.job != undef; a.job := undef; a.who := undef; }\nunsafe { row a : apps; when a.who != owner(a.job); }".as_slice(),
            b"evidence 1 safe\nformulas 1\ncube 1 0 1 r0.1!=r0.0/0\ntrees 6\ntree leaf\ntree split 0 1 0 1 leaf\ntree leaf\ntree split 0 1 1 1 leaf\ntree leaf\ntree split 0 1 1 1 leaf\nend\n".as_slice(),
        ),
        (
            b"system seats; sort U; const on : U; const off : U; relation seat (s : U);\nstep take { row a : seat; when a.s = undef; a.s := on; }\nstep clear { when true; each q : seat { if q.s = off { q.s := on; } } }\nunsafe { row a : seat; when a.s = off; }".as_slice(),
            b"evidence 1 safe\nformulas 1\ncube 1 0 1 r0.0=c1\ntrees 6\ntree leaf\ntree split 0 1 0 1 leaf\ntree leaf\ntree split 0 1 1 1 leaf\ntree leaf\ntree leaf\nend\n".as_slice(),
        ),
    ];
    for (file, text) in systems {
        assert!(rt; is_certified_again(rt.alloc(), file, text));
    }
}
