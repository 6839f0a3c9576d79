ghost use Rattle.std.specs.Prelude.{◌≡◌, ◌<◌, ◌^◌, ◌++◌, length, reverse, All, IfOk, IfErr, OnOk};
ghost use Rattle.ras_logic.specs.Clashes.{FactsClash};
ghost use Rattle.ras_logic.specs.Refutations.{children_facts};
ghost use Rattle.ras_refute.specs.Faults.{IsSplitBy, IsSplitFault, IsNodeFault, OnFault};
ghost use Rattle.ras_refute.specs.Walks.{AreOpen, EntersCase, waiting, StandsBefore, Passes};

use crate::cases::Cases;
use crate::chosen::are_rows_of;
use crate::clash::clashes;
use crate::tree_fault::{CloseError, TreeFault, TreeKind};
use ras_logic::{Cube, Literal, Node, Rows, Schema, Shared};
use std::alloc::{AllocError, Global};

/// The facts of a split's next case: those above the split, and the opposite of the case's literal.
fn enter_case(alloc: Global, facts: &mut Vec<Literal>, cases: Cases) -> Result<(), AllocError>
    requires next { cases.next < length cases.literals.now }
    requires small { All (λ k. k < 2 ^ 16) cases.rows.now }
    ensures { OnOk result (EntersCase cases.entry facts.old.items facts.new.items) }
{
    facts.truncate(cases.above);
    let literal = cases.literals[cases.next].with_rows(alloc, cases.rows)?;
    facts.push(literal.opposite())?;
    Ok(())
}

/// Goes on to the next case that is left.
fn next_case<'a>(
    alloc: Global,
    facts: &mut Vec<Literal>,
    splits: &mut Vec<Cases<'a>>,
) -> Result<(), AllocError>
    requires { AreOpen facts.old.items (reverse splits.old.items) }
    ensures { OnOk result (StandsBefore (waiting facts.old.items (reverse splits.old.items)) facts.new.items splits.new.items) }
{
    let Some(cases) = splits.pop() else {
        return Ok(());
    };
    enter_case(alloc, facts, cases)?;
    let next = cases.next + 1;
    if next < cases.literals.len() {
        splits.push(Cases { next, ..cases })?;
    }
    Ok(())
}

/// The formula of a split, or what is wrong with the split.
fn split_formula<'a>(
    rows: &Rows,
    formulas: &'a [Shared<Cube>],
    number: u32,
    chosen: &[u32],
    children: u32,
) -> Result<&'a Cube, TreeKind>
    ensures formula { IfOk result (λ f. IsSplitBy formulas.now rows.now number chosen.now children f.now) }
    ensures small { OnOk result (All (λ k. k < 2 ^ 16) chosen.now) }
    ensures fault { IfErr result (IsSplitFault formulas.now rows.now number chosen.now children) }
{
    let Some(shared) = formulas.get(number as usize) else {
        return Err(TreeKind::NoFormula);
    };
    let formula = shared.get();
    if !are_rows_of(rows.as_slice(), formula.rows(), chosen) {
        return Err(TreeKind::Rows);
    }
    if children as usize != formula.literals().len() {
        return Err(TreeKind::Children);
    }
    Ok(formula)
}

/// All cases of a split are left, where it has any.
fn open_split<'a>(
    facts: &[Literal],
    splits: &mut Vec<Cases<'a>>,
    literals: &'a [Literal],
    rows: &'a [u32],
) -> Result<(), AllocError>
    requires are_open { AreOpen facts.now (reverse splits.old.items) }
    requires small { All (λ k. k < 2 ^ 16) rows.now }
    ensures are_open { OnOk result (AreOpen facts.now (reverse splits.new.items)) }
    ensures waiting { OnOk result (waiting facts.now (reverse splits.new.items) ≡ children_facts (reverse facts.now) rows.now literals.now ++ waiting facts.now (reverse splits.old.items)) }
{
    if literals.is_empty() {
        return Ok(());
    }
    splits.push(Cases {
        above: facts.len(),
        literals,
        rows,
        next: 0,
    })?;
    Ok(())
}

/// Passes a leaf whose facts clash.
fn pass_leaf<'a>(
    alloc: Global,
    schema: &Schema,
    number: u32,
    facts: &mut Vec<Literal>,
    splits: &mut Vec<Cases<'a>>,
) -> Result<(), CloseError>
    requires { AreOpen facts.old.items (reverse splits.old.items) }
    ensures clash { OnOk result (FactsClash schema.now (reverse facts.old.items)) }
    ensures stands { OnOk result (StandsBefore (waiting facts.old.items (reverse splits.old.items)) facts.new.items splits.new.items) }
    ensures fault { IfErr result (λ e. OnFault e (λ f. (f ≡ record { node = number; kind = TreeKind.NoClash }) × ¬ FactsClash schema.now (reverse facts.old.items))) }
{
    if !clashes(alloc, schema, facts)? {
        return Err(CloseError::Fault(TreeFault {
            node: number,
            kind: TreeKind::NoClash,
        }));
    }
    next_case(alloc, facts, splits)?;
    Ok(())
}

/// Passes a split by a formula.
fn pass_split<'a>(
    alloc: Global,
    formula: &'a Cube,
    chosen: &'a [u32],
    facts: &mut Vec<Literal>,
    splits: &mut Vec<Cases<'a>>,
) -> Result<(), AllocError>
    requires are_open { AreOpen facts.old.items (reverse splits.old.items) }
    requires small { All (λ k. k < 2 ^ 16) chosen.now }
    ensures { OnOk result (StandsBefore (children_facts (reverse facts.old.items) chosen.now formula.now.literals ++ waiting facts.old.items (reverse splits.old.items)) facts.new.items splits.new.items) }
{
    open_split(facts, splits, formula.literals(), chosen)?;
    next_case(alloc, facts, splits)?;
    Ok(())
}

/// Passes the node of that number and goes on to the next, or says what is wrong with the node.
pub fn pass<'a>(
    alloc: Global,
    schema: &Schema,
    rows: &Rows,
    formulas: &'a [Shared<Cube>],
    number: u32,
    node: &'a Node,
    facts: &mut Vec<Literal>,
    splits: &mut Vec<Cases<'a>>,
) -> Result<(), CloseError>
    requires { AreOpen facts.old.items (reverse splits.old.items) }
    ensures passed { OnOk result (Passes schema.now formulas.now rows.now node.now facts.old.items splits.old.items facts.new.items splits.new.items) }
    ensures fault { IfErr result (λ e. OnFault e (λ f. (f.node ≡ number) × IsNodeFault schema.now formulas.now rows.now (reverse facts.old.items) node.now f.kind)) }
{
    match node {
        Node::Leaf => {
            pass_leaf(alloc, schema, number, facts, splits)?;
            Ok(())
        }
        Node::Split {
            formula,
            rows: chosen,
            children,
        } => match split_formula(rows, formulas, *formula, chosen.as_slice(), *children) {
            Err(kind) => Err(CloseError::Fault(TreeFault { node: number, kind })),
            Ok(cube) => {
                pass_split(alloc, cube, chosen.as_slice(), facts, splits)?;
                Ok(())
            }
        },
    }
}
