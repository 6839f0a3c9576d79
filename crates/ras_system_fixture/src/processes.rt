use crate::steps::{Side, Step};
use ras_fixture::{Said, Sizes};
use ras_logic::{Base, SortId, VarId};
use ras_system::Target;

pub const UNDEF: Side = (Base::Undef(SortId { n: 0 }), &[]);

/// The first two variables.
pub const X: Side = (Base::Var(VarId { n: 0 }), &[]);

pub const Y: Side = (Base::Var(VarId { n: 1 }), &[]);

/// One sort, with a variable.
pub const FREE: Sizes = Sizes {
    sorts: 1,
    functions: &[],
    constants: &[],
    vars: &[0],
    relations: &[],
};

const P: Side = (Base::Param(0), &[]);

/// The variable becomes something.
pub const PICK: &[Step] = &[Step {
    rows: &[],
    params: &[0],
    guard: &[&[(P, UNDEF, false)]],
    updates: &[(Target::Var(VarId { n: 0 }), P)],
    bulk: &[],
}];

/// It is something.
pub const PICKED: Said = Said {
    rows: &[],
    params: &[],
    literals: &[(X, UNDEF, false)],
};

/// Users and jobs, the owner of each job, and applications for jobs that somebody handles.
pub const HIRING: Sizes = Sizes {
    sorts: 2,
    functions: &[(1, 0, true)],
    constants: &[],
    vars: &[],
    relations: &[&[1, 0]],
};

const NO_JOB: Side = (Base::Undef(SortId { n: 1 }), &[]);

const NO_USER: Side = UNDEF;

const JOB: Side = P;

const OWNER: Side = (Base::Param(0), &[0]);

const USER: Side = (Base::Param(1), &[]);

const JOB_OF: Side = (Base::Cell { row: 0, column: 0 }, &[]);

const OWNER_OF: Side = (Base::Cell { row: 0, column: 0 }, &[0]);

const HANDLER_OF: Side = (Base::Cell { row: 0, column: 1 }, &[]);

const JOB_CELL: Target = Target::Cell { row: 0, column: 0 };

const HANDLER_CELL: Target = Target::Cell { row: 0, column: 1 };

/// An application for no job becomes one for a job, with its owner; or it is withdrawn.
pub const APPLY_WITHDRAW: &[Step] = &[
    Step {
        rows: &[0],
        params: &[1],
        guard: &[&[(JOB_OF, NO_JOB, true), (JOB, NO_JOB, false)]],
        updates: &[(JOB_CELL, JOB), (HANDLER_CELL, OWNER)],
        bulk: &[],
    },
    Step {
        rows: &[0],
        params: &[],
        guard: &[&[(JOB_OF, NO_JOB, false)]],
        updates: &[(JOB_CELL, NO_JOB), (HANDLER_CELL, NO_USER)],
        bulk: &[],
    },
];

/// The same without the second step, but any user may handle it.
pub const ANY_USER: &[Step] = &[Step {
    rows: &[0],
    params: &[1, 0],
    guard: &[&[
        (JOB_OF, NO_JOB, true),
        (JOB, NO_JOB, false),
        (USER, NO_USER, false),
    ]],
    updates: &[(JOB_CELL, JOB), (HANDLER_CELL, USER)],
    bulk: &[],
}];

/// Somebody handles an application who does not own its job.
pub const MISHANDLED: Said = Said {
    rows: &[0],
    params: &[],
    literals: &[(HANDLER_OF, OWNER_OF, false)],
};
