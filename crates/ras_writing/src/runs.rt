ghost use Rattle.std.specs.Prelude.{◌≡◌, ◌++◌, List, OnOk};
ghost use Rattle.ras_writing.specs.Pieces as piece;

use crate::put::{Written, put_counted, put_number_section, put_numbers, put_section};
use ras_logic::{List, RawDb};
use ras_steps::Run;
use ras_system::Choice;
use ras_text::{put, put_number};
use std::alloc::AllocError;

/// The sizes, the tables and the constants.
pub fn put_database(out: &mut Vec<u8>, db: &RawDb) -> Result<(), AllocError>
    ensures { OnOk result (out.new.items ≡ out.old.items ++ piece.database db.now) }
{
    put_numbers(out, b"sizes", db.sizes.as_slice())?;
    put_number_section(out, b"tables", b"table", db.tables.as_slice())?;
    put_numbers(out, b"constants", db.constants.as_slice())
}

// the rows of a relation
impl Written for List<List<u32>> {
    ghost text = { piece.rows };

    fn write(&self, out: &mut Vec<u8>) -> Result<(), AllocError> {
        put_number_section(out, b"rows", b"row", self.as_slice())
    }
}

impl Written for Choice {
    ghost text = { piece.choice };

    fn write(&self, out: &mut Vec<u8>) -> Result<(), AllocError> {
        put(out, b"step ")?;
        put_number(out, u64::from(self.transition))?;
        put_counted(out, self.rows.as_slice())?;
        put_counted(out, self.values.as_slice())?;
        put(out, b"\n")
    }
}

/// The values of the variables, the rows of the relations, and the steps.
pub fn put_run(out: &mut Vec<u8>, run: &Run) -> Result<(), AllocError>
    ensures { OnOk result (out.new.items ≡ out.old.items ++ piece.run run.now) }
{
    put_numbers(out, b"vars", run.start.vars.as_slice())?;
    put_section(out, b"relations", run.start.relations.as_slice())?;
    put_section(out, b"steps", run.choices.as_slice())
}
