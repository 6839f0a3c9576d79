use ras_logic::{Arrow, Cube, List, Problem, Term};

/// `function S T total` or `function S T nullable`: the numbers of two sorts.
#[derive(Clone, Copy, Debug, PartialEq, Eq)]
pub struct FunctionLine {
    pub source: u32,
    pub target: u32,
    pub total: bool,
}

impl Arrow for FunctionLine {
    ghost source = { λ f. f.source };

    ghost target = { λ f. f.target };

    fn source(&self) -> usize {
        self.source as usize
    }

    fn target(&self) -> usize {
        self.target as usize
    }
}

/// `variable S none` or `variable S C`: the numbers of a sort and of the initial constant.
#[derive(Clone, Copy, Debug, PartialEq, Eq)]
pub struct VariableLine {
    pub sort: u32,
    pub initial: Option<u32>,
}

/// `update V t`: the number of the variable, and its new term.
#[derive(Drop)]
pub struct UpdateLine {
    pub target: u32,
    pub term: Term,
}

/// A transition: the disjuncts of its guard as cubes, and its updates.
#[derive(Drop)]
pub struct TransitionLines {
    pub guard: List<Problem>,
    pub updates: List<UpdateLine>,
}

/// `consts K s1 .. sK`: the number of the sort of each constant.
#[derive(Drop)]
pub struct ConstantLine {
    pub sorts: List<u32>,
}

/// The system part of a bundle as it is written: numbers that need not name anything.
#[derive(Drop)]
pub struct SystemLines {
    pub sorts: u32,
    pub functions: List<FunctionLine>,
    pub constants: ConstantLine,
    pub variables: List<VariableLine>,
    pub transitions: List<TransitionLines>,
    pub goals: List<Cube>,
}
