ghost use Rattle.std.specs.Prelude.{◌≡◌, ◌++◌, IfOk, OnOk};
ghost use Rattle.ras_check.specs.VerdictLines.{valid_text, tree_kind as the_kind, formula_text, node_text, obligation_text, safe_text, invalid_text};

use crate::verdict::Invalid;
use ras_evidence::Evidence;
use ras_refute::{TreeFault, TreeKind};
use ras_safety::SafeFault;
use ras_text::{put, put_word};
use std::alloc::{AllocError, Global};

/// The line that tells that an evidence is good.
pub fn valid_line(evidence: &Evidence) -> &'static [u8]
    ensures { result.now ≡ valid_text evidence.now }
{
    match evidence {
        Evidence::Safe { .. } => b"VALID SAFE\n",
        Evidence::Unsafe { .. } => b"VALID UNSAFE\n",
        Evidence::Unknown { .. } => b"VALID UNKNOWN\n",
    }
}

fn tree_kind(kind: TreeKind) -> &'static [u8]
    ensures { result.now ≡ the_kind kind }
{
    match kind {
        TreeKind::NoFormula => b"NO_FORMULA",
        TreeKind::Rows => b"ROWS",
        TreeKind::Children => b"CHILDREN",
        TreeKind::NoClash => b"NO_CLASH",
    }
}

fn put_formula(out: &mut Vec<u8>, number: u32) -> Result<(), AllocError>
    ensures { OnOk result (out.new.items ≡ out.old.items ++ formula_text number) }
{
    put(out, b"INVALID formula")?;
    put_word(out, number as u64)?;
    put(out, b" NOT_FITTING\n")
}

fn put_node(out: &mut Vec<u8>, fault: TreeFault) -> Result<(), AllocError>
    ensures { OnOk result (out.new.items ≡ out.old.items ++ node_text fault) }
{
    put(out, b" node")?;
    put_word(out, fault.node as u64)?;
    put(out, b" ")?;
    put(out, tree_kind(fault.kind))?;
    put(out, b"\n")
}

fn put_obligation(out: &mut Vec<u8>, number: u32, fault: TreeFault) -> Result<(), AllocError>
    ensures { OnOk result (out.new.items ≡ out.old.items ++ obligation_text number fault) }
{
    put(out, b"INVALID obligation")?;
    put_word(out, number as u64)?;
    put_node(out, fault)
}

fn put_fault(out: &mut Vec<u8>, fault: SafeFault) -> Result<(), AllocError>
    ensures { OnOk result (out.new.items ≡ out.old.items ++ safe_text fault) }
{
    match fault {
        SafeFault::Formula { number } => put_formula(out, number),
        SafeFault::Count => put(out, b"INVALID trees COUNT\n"),
        SafeFault::Obligation { number, fault } => put_obligation(out, number, fault),
    }
}

fn safe_line(alloc: Global, fault: SafeFault) -> Result<Vec<u8>, AllocError>
    ensures { IfOk result (λ text. text.items ≡ safe_text fault) }
{
    let mut text = Vec::new(alloc);
    put_fault(&mut text, fault)?;
    Ok(text)
}

/// The line that tells what is wrong with an evidence.
pub fn invalid_line(alloc: Global, invalid: &Invalid) -> Result<Vec<u8>, AllocError>
    ensures { IfOk result (λ text. text.items ≡ invalid_text invalid.now) }
{
    match invalid {
        Invalid::Safe(fault) => safe_line(alloc, *fault),
        Invalid::Violation(fault) => ras_violation::invalid_line(alloc, fault),
        Invalid::Spent(fault) => ras_spent::invalid_line(alloc, fault),
    }
}
