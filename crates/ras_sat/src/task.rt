use crate::instance::Instance;
use ras_logic::{Cube, List, Literal, Problem, Shape, Shared};

/// What is to be decided, and for each instance the opposites of its literals.
#[derive(Clone, Copy)]
pub struct Task<'a> {
    pub shape: &'a Shape,
    pub premise: &'a Problem,
    pub formulas: &'a [Shared<Cube>],
    pub instances: &'a [Instance],
    pub opposites: &'a [List<Literal>],
}
