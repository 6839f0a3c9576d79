/// What a fault speaks of.
#[derive(Clone, Copy, Debug, PartialEq, Eq)]
pub enum Kind {
    Sort,
    Function,
    Constant,
    Variable,
    Relation,
    Column,
    Step,
    Row,
    Param,
    Case,
    Goal,
}
