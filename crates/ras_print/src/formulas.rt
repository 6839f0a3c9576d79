ghost use Rattle.std.specs.Prelude.{◌≡◌, ◌++◌, map, codes, OnOk};
ghost use Rattle.ras_names.specs.Canonical.{term_text, literal_text, conjunction_text, joined};
ghost use Rattle.ras_print.specs.Lookup.{name_at, column_at};
ghost use Rattle.ras_print.specs.Items.{base_item, term_item, literal_item, conjunction_item};
ghost use Rattle.ras_print.specs.Scopes.{scope_of};
ghost use Rattle.ras_print.specs.Calls.{fronts, ends};

use crate::lookup::{column_at, name_at};
use crate::scope::Scope;
use ras_logic::{Base, FunId, List, Literal, Term};
use ras_names::Names;
use ras_text::put;
use std::alloc::AllocError;

/// What stands in front of a term: each function and a parenthesis, the last function first.
fn put_functions(out: &mut Vec<u8>, names: &Names, path: &[FunId]) -> Result<(), AllocError>
    ensures { OnOk result (out.new.items ≡ out.old.items ++ fronts names.now path.now) }
{
    let mut rest = path;
    while let Some((function, inside)) = rest.split_last() {
        put(
            out,
            name_at(names.functions.as_slice(), function.n as usize),
        )?;
        put(out, b"(")?;
        rest = inside;
    }
    Ok(())
}

/// The closing parentheses of as many functions.
fn put_ends(out: &mut Vec<u8>, path: &[FunId]) -> Result<(), AllocError>
    ensures { OnOk result (out.new.items ≡ out.old.items ++ ends path.now) }
{
    for _function in path {
        put(out, b")")?;
    }
    Ok(())
}

/// A base: a name, a row and its column, or `undef`.
fn put_base(out: &mut Vec<u8>, scope: &Scope, base: Base) -> Result<(), AllocError>
    ensures { OnOk result (out.new.items ≡ out.old.items ++ term_text (base_item (scope_of scope.now) base)) }
{
    match base {
        Base::Var(var) => put(out, name_at(scope.names.vars.as_slice(), var.n as usize)),
        Base::Cell { row, column } => put_cell(out, scope, row as usize, column as usize),
        Base::Constant(constant) => put(
            out,
            name_at(scope.names.constants.as_slice(), constant.n as usize),
        ),
        Base::Undef(_) => put(out, b"undef"),
        Base::Param(param) => put(out, name_at(scope.params, param as usize)),
    }
}

/// A term: its functions from the outside in, each with a parenthesis, then its base.
pub(crate) fn put_term(out: &mut Vec<u8>, scope: &Scope, term: &Term) -> Result<(), AllocError>
    ensures { OnOk result (out.new.items ≡ out.old.items ++ term_text (term_item (scope_of scope.now) term.now)) }
{
    let path = term.path.as_slice();
    put_functions(out, scope.names, path)?;
    put_base(out, scope, term.base)?;
    put_ends(out, path)
}

/// A literal: both terms and the sign between them.
fn put_literal(out: &mut Vec<u8>, scope: &Scope, literal: &Literal) -> Result<(), AllocError>
    ensures { OnOk result (out.new.items ≡ out.old.items ++ literal_text (literal_item (scope_of scope.now) literal.now)) }
{
    match literal {
        Literal::Equal { left, right, same } => {
            put_term(out, scope, left)?;
            if *same {
                put(out, b" = ")?;
            } else {
                put(out, b" != ")?;
            }
            put_term(out, scope, right)
        }
    }
}

/// A conjunction: its literals with `and` between them, or `true`.
#[tactic(auto, using(crate::proofs::Loops::joined_more))]
pub(crate) fn put_conjunction(
    out: &mut Vec<u8>,
    scope: &Scope,
    literals: &[Literal],
) -> Result<(), AllocError>
    ensures { OnOk result (out.new.items ≡ out.old.items ++ conjunction_text (conjunction_item (scope_of scope.now) literals.now)) }
{
    let Some((first, others)) = literals.split_first() else {
        return put(out, b"true");
    };
    put_literal(out, scope, first)?;
    for literal in others {
        put(out, b" and ")?;
        put_literal(out, scope, literal)?;
    }
    Ok(())
}

/// The disjuncts of a guard with `or` between them.
#[tactic(auto, using(crate::proofs::Loops::joined_more))]
pub(crate) fn put_disjuncts(
    out: &mut Vec<u8>,
    scope: &Scope,
    disjuncts: &[List<Literal>],
) -> Result<(), AllocError>
    ensures { OnOk result (out.new.items ≡ out.old.items ++ joined (codes " or ") (map conjunction_text (map (conjunction_item (scope_of scope.now)) disjuncts.now))) }
{
    let Some((first, others)) = disjuncts.split_first() else {
        return Ok(());
    };
    put_conjunction(out, scope, first.as_slice())?;
    for disjunct in others {
        put(out, b" or ")?;
        put_conjunction(out, scope, disjunct.as_slice())?;
    }
    Ok(())
}

/// A row and its column.
pub(crate) fn put_cell(
    out: &mut Vec<u8>,
    scope: &Scope,
    row: usize,
    column: usize,
) -> Result<(), AllocError>
    ensures { OnOk result (out.new.items ≡ out.old.items ++ (name_at scope.now.rows.now row ++ (codes "." ++ column_at scope.now.names.now scope.now.relations.now row column))) }
{
    put(out, name_at(scope.rows, row))?;
    put(out, b".")?;
    put(out, column_at(scope.names, scope.relations, row, column))
}
