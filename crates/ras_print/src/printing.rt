ghost use Rattle.std.specs.Prelude.{◌≡◌, IfOk};
ghost use Rattle.ras_syntax.specs.Grammar as grammar;
ghost use Rattle.ras_names.specs.Files.{FileDenotes};
ghost use Rattle.ras_names.specs.Canonical.{canonical_text};
ghost use Rattle.ras_print.specs.Printed.{printed};

use crate::declarations::{put_constants, put_functions, put_relations, put_sorts, put_variables};
use crate::goals::put_goals;
use crate::steps::put_steps;
use ras_names::Names;
use ras_system::System;
use ras_text::put;
use std::alloc::{AllocError, Global};

/// The lines of all items in the order of the grammar.
fn write(alloc: Global, system: &System, names: &Names) -> Result<Vec<u8>, AllocError>
    ensures { IfOk result (λ b. b.items ≡ printed system.now names.now) }
{
    let mut out = Vec::new(alloc);
    let schema = system.shape().schema();
    put(&mut out, b"system ")?;
    put(&mut out, names.system.bytes())?;
    put(&mut out, b";\n")?;
    put_sorts(&mut out, names.sorts.as_slice())?;
    put_functions(&mut out, names, schema.functions())?;
    put_constants(&mut out, names, schema.constants())?;
    put_variables(&mut out, system, names)?;
    put_relations(&mut out, names, system.shape().relations())?;
    put_steps(&mut out, alloc, names, system.transitions())?;
    put_goals(&mut out, names, system.goals())?;
    Ok(out)
}

/// The canonical text of a system with its names, which is that of each file that denotes the two; or want of memory. Names
/// that are not those of the system give a text without meaning.
pub fn print(alloc: Global, system: &System, names: &Names) -> Result<Vec<u8>, AllocError>
    ensures text { IfOk result (λ b. b.items ≡ printed system.now names.now) }
    ensures canonical { (file : grammar.File) → FileDenotes file system.now names.now → IfOk result (λ b. b.items ≡ canonical_text file) }
{
    write(alloc, system, names)
}
