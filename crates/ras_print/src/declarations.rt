ghost use Rattle.std.specs.Prelude.{◌≡◌, ◌++◌, flat_map, codes, Some, OnOk};
ghost use Rattle.ras_names.specs.Canonical.{declared_text, variable_line};
ghost use Rattle.ras_print.specs.Lookup.{name_at, constant_name};
ghost use Rattle.ras_print.specs.Printed.{numbered, numbered_list, sort_text, function_text, constant_text, variable_text, relation_column, relation_text};

use crate::lookup::{columns_at, name_at, relation_at};
use ras_lexer::Text;
use ras_logic::{ConstId, FunDecl, List, SortId, VarId};
use ras_names::Names;
use ras_system::System;
use ras_text::put;
use std::alloc::AllocError;

/// A name and what it is of.
pub(crate) fn put_declared(out: &mut Vec<u8>, name: &[u8], of: &[u8]) -> Result<(), AllocError>
    ensures { OnOk result (out.new.items ≡ out.old.items ++ declared_text name.now of.now) }
{
    put(out, name)?;
    put(out, b" : ")?;
    put(out, of)
}

/// The sorts, one a line.
pub(crate) fn put_sorts(out: &mut Vec<u8>, names: &[Text]) -> Result<(), AllocError>
    ensures { OnOk result (out.new.items ≡ out.old.items ++ flat_map sort_text names.now) }
{
    for name in names {
        put(out, b"sort ")?;
        put(out, name.bytes())?;
        put(out, b";\n")?;
    }
    Ok(())
}

fn put_function(
    out: &mut Vec<u8>,
    names: &Names,
    number: usize,
    function: FunDecl,
) -> Result<(), AllocError>
    ensures { OnOk result (out.new.items ≡ out.old.items ++ function_text names.now number function) }
{
    let sorts = names.sorts.as_slice();
    if function.total {
        put(out, b"total ")?;
    } else {
        put(out, b"nullable ")?;
    }
    put_declared(
        out,
        name_at(names.functions.as_slice(), number),
        name_at(sorts, function.source.n as usize),
    )?;
    put(out, b" -> ")?;
    put(out, name_at(sorts, function.target.n as usize))?;
    put(out, b";\n")
}

/// The functions, one a line.
pub(crate) fn put_functions(
    out: &mut Vec<u8>,
    names: &Names,
    functions: &[FunDecl],
) -> Result<(), AllocError>
    ensures { OnOk result (out.new.items ≡ out.old.items ++ numbered (function_text names.now) 0 functions.now) }
{
    for (number, function) in functions.iter().enumerate() {
        put_function(out, names, number, *function)?;
    }
    Ok(())
}

fn put_constant(
    out: &mut Vec<u8>,
    names: &Names,
    number: usize,
    sort: SortId,
) -> Result<(), AllocError>
    ensures { OnOk result (out.new.items ≡ out.old.items ++ constant_text names.now number sort) }
{
    put(out, b"const ")?;
    put_declared(
        out,
        name_at(names.constants.as_slice(), number),
        name_at(names.sorts.as_slice(), sort.n as usize),
    )?;
    put(out, b";\n")
}

/// The constants, one a line.
pub(crate) fn put_constants(
    out: &mut Vec<u8>,
    names: &Names,
    constants: &[SortId],
) -> Result<(), AllocError>
    ensures { OnOk result (out.new.items ≡ out.old.items ++ numbered (constant_text names.now) 0 constants.now) }
{
    for (number, sort) in constants.iter().enumerate() {
        put_constant(out, names, number, *sort)?;
    }
    Ok(())
}

fn put_variable(
    out: &mut Vec<u8>,
    names: &Names,
    number: usize,
    sort: SortId,
    initial: Option<ConstId>,
) -> Result<(), AllocError>
    ensures { OnOk result (out.new.items ≡ out.old.items ++ variable_line (record { name = name_at names.now.vars number; sort = name_at names.now.sorts sort.n; initial = constant_name names.now (Some initial) })) }
{
    put(out, b"var ")?;
    put_declared(
        out,
        name_at(names.vars.as_slice(), number),
        name_at(names.sorts.as_slice(), sort.n as usize),
    )?;
    if let Some(constant) = initial {
        put(out, b" = ")?;
        put(
            out,
            name_at(names.constants.as_slice(), constant.n as usize),
        )?;
    }
    put(out, b";\n")
}

/// The variables with the names of their initial constants, one a line.
pub(crate) fn put_variables(
    out: &mut Vec<u8>,
    system: &System,
    names: &Names,
) -> Result<(), AllocError>
    ensures { OnOk result (out.new.items ≡ out.old.items
        ++ numbered (variable_text names.now system.now.initial) 0 system.now.shape.vars) }
{
    system.known();
    let shape = system.shape();
    shape.known();
    for (number, sort) in shape.vars().iter().enumerate() {
        let initial = system.initial_of(VarId { n: number as u16 });
        put_variable(out, names, number, *sort, initial)?;
    }
    Ok(())
}

fn put_column(
    out: &mut Vec<u8>,
    names: &Names,
    columns: &[Text],
    number: usize,
    sort: SortId,
) -> Result<(), AllocError>
    ensures { OnOk result (out.new.items ≡ out.old.items ++ relation_column names.now columns.now number sort) }
{
    put_declared(
        out,
        name_at(columns, number),
        name_at(names.sorts.as_slice(), sort.n as usize),
    )
}

/// The columns of a relation with commas between them.
fn put_columns(
    out: &mut Vec<u8>,
    names: &Names,
    columns: &[Text],
    sorts: &[SortId],
) -> Result<(), AllocError>
    ensures { OnOk result (out.new.items ≡ out.old.items ++ numbered_list (relation_column names.now columns.now) (codes ", ") sorts.now) }
{
    let Some((first, others)) = sorts.split_first() else {
        return Ok(());
    };
    put_column(out, names, columns, 0, *first)?;
    for (number, sort) in others.iter().enumerate() {
        put(out, b", ")?;
        put_column(out, names, columns, number + 1, *sort)?;
    }
    Ok(())
}

fn put_relation(
    out: &mut Vec<u8>,
    names: &Names,
    number: usize,
    sorts: &[SortId],
) -> Result<(), AllocError>
    ensures { OnOk result (out.new.items ≡ out.old.items ++ relation_text names.now number sorts.now) }
{
    put(out, b"relation ")?;
    put(out, relation_at(names, number))?;
    put(out, b" (")?;
    put_columns(out, names, columns_at(names, number), sorts)?;
    put(out, b");\n")
}

/// The relations with their columns, one a line.
pub(crate) fn put_relations(
    out: &mut Vec<u8>,
    names: &Names,
    relations: &[List<SortId>],
) -> Result<(), AllocError>
    ensures { OnOk result (out.new.items ≡ out.old.items ++ numbered (relation_text names.now) 0 relations.now) }
{
    for (number, sorts) in relations.iter().enumerate() {
        put_relation(out, names, number, sorts.as_slice())?;
    }
    Ok(())
}
