ghost use Rattle.std.specs.Prelude.{length, IfOk};
ghost use Rattle.ras_reasons.specs.Naming.{NamesBelow, AreNamed};
ghost use Rattle.ras_reasons.specs.Marking.{IsMarking};

use ras_logic::{Node, Tree};
use std::alloc::{AllocError, Global};

/// For each of the first formulas whether a node names it.
fn marks_of(alloc: Global, nodes: &[Node], count: usize) -> Result<Vec<bool>, AllocError>
    requires { NamesBelow nodes.now count }
    ensures { IfOk result (λ marks. IsMarking nodes.now count marks.items) }
{
    let mut marks = vec![in alloc; false; count]?;
    for node in nodes {
        if let Node::Split { formula, .. } = node {
            marks[*formula as usize] = true;
        }
    }
    Ok(marks)
}

/// The numbers of the formulas that the tree names, in ascending order, each once. They are below the count. Its cost is that of
/// the nodes and of the count.
pub fn named_formulas(alloc: Global, tree: &Tree, count: u32) -> Result<Vec<u32>, AllocError>
    requires { NamesBelow tree.now.nodes count }
    ensures { IfOk result (λ numbers. AreNamed tree.now.nodes numbers.items) }
{
    let marks = marks_of(alloc, tree.nodes.as_slice(), count as usize)?;
    let mut numbers = Vec::new(alloc);
    for number in 0..count {
        if marks[number as usize] {
            numbers.push(number)?;
        }
    }
    Ok(numbers)
}
