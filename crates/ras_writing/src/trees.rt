ghost use Rattle.std.specs.Prelude.{List};
ghost use Rattle.ras_writing.specs.Pieces as piece;

use crate::put::{Written, put_all, put_counted};
use ras_logic::{Node, Tree};
use ras_text::{put, put_number, put_word};
use std::alloc::AllocError;

impl Written for Node {
    ghost text = { piece.node };

    fn write(&self, out: &mut Vec<u8>) -> Result<(), AllocError> {
        match self {
            Node::Leaf => put(out, b" leaf"),
            Node::Split {
                formula,
                rows,
                children,
            } => {
                put(out, b" split ")?;
                put_number(out, u64::from(*formula))?;
                put_counted(out, rows.as_slice())?;
                put_word(out, u64::from(*children))
            }
        }
    }
}

impl Written for Tree {
    ghost text = { piece.tree };

    fn write(&self, out: &mut Vec<u8>) -> Result<(), AllocError> {
        put(out, b"tree")?;
        put_all(out, self.nodes.as_slice())?;
        put(out, b"\n")
    }
}
