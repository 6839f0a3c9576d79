ghost use Rattle.std.specs.Prelude.{◌≡◌, ◌<◌, ℕ, Bool, false, length, IfOk};
ghost use Rattle.ras_closure.specs.Assertions.{is_marked};
ghost use Rattle.ras_closure.specs.Classes.{class};

use crate::classes::Classes;
use crate::marks::Marks;
use crate::signatures::Signatures;
use crate::term_table::TermTable;
use std::alloc::{AllocError, Global};

/// The memory for all assertions over the terms of a table.
#[derive(Drop)]
pub struct Room {
    pub marks: Marks,
    pub classes: Classes,
    pub signatures: Signatures,
}

impl Room {
    /// Nothing is asserted, and each term is in a class of its own.
    pub fn new(alloc: Global, table: &TermTable) -> Result<Room, AllocError>
        ensures width { IfOk result (λ r. r.marks.width ≡ length table.now.terms) }
        ensures none { IfOk result (λ r. (same : Bool) (i j : ℕ) → is_marked r.marks same i j ≡ false) }
        ensures long { IfOk result (λ r. length r.classes ≡ length table.now.terms) }
        ensures own { IfOk result (λ r. (k : ℕ) → k < length table.now.terms → class r.classes k ≡ k) }
        ensures signatures { IfOk result (λ r. r.signatures.width ≡ length table.now.terms) }
        ensures functions { IfOk result (λ r. r.signatures.functions ≡ length table.now.shape.schema.functions) }
    {
        table.known();
        let terms = table.len();
        let marks = Marks::new(alloc, terms)?;
        let classes = Classes::new(alloc, terms)?;
        let signatures = Signatures::new(alloc, table.function_count(), terms)?;
        Ok(Room {
            marks,
            classes,
            signatures,
        })
    }
}
