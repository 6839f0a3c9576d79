use ras_lexer::Text;
use ras_logic::List;

/// All names of a specification, each list in the order of the numbers; the goals item by item.
#[derive(Debug, Drop)]
pub struct Names {
    pub system: Text,
    pub sorts: List<Text>,
    pub functions: List<Text>,
    pub constants: List<Text>,
    pub vars: List<Text>,
    pub relations: List<RelNames>,
    pub steps: List<StepNames>,
    pub goals: List<GoalNames>,
}

/// The names of a relation and of its columns.
#[derive(Debug, Drop)]
pub struct RelNames {
    pub name: Text,
    pub columns: List<Text>,
}

/// The names of a step, of its row and data parameters, and of the row of each `each`.
#[derive(Debug, Drop)]
pub struct StepNames {
    pub name: Text,
    pub rows: List<Text>,
    pub params: List<Text>,
    pub each: List<Text>,
}

/// The names of the rows of an unsafe item, and how many disjuncts it has, each of which is a goal.
#[derive(Debug, Drop)]
pub struct GoalNames {
    pub rows: List<Text>,
    pub disjuncts: u16,
}
