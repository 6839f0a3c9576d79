ghost use Rattle.std.specs.Prelude.{◌≡◌, None, length, IfOk, IfErr};
ghost use Rattle.ras_logic.specs.Shapes.{IsShape};
ghost use Rattle.ras_logic.specs.SchemaFaults.{HasSchemaLimits};
ghost use Rattle.ras_logic.specs.ShapeFaults.{HasShapeLimits};
ghost use Rattle.ras_system.specs.Systems.{SystemParts, IsSystem};
ghost use Rattle.ras_system.specs.SystemFaults.{HasSystemLimits};
ghost use Rattle.ras_names.specs.declared.names.Names as declared;
ghost use Rattle.ras_names.specs.Unplaced.{file_of};
ghost use Rattle.ras_names.specs.FileNames.{names_of};
ghost use Rattle.ras_names.specs.FileChecks as file_checks;
ghost use Rattle.ras_names.specs.FileChecks.{first_fault};
ghost use Rattle.ras_names.specs.Texts.{TokensDenote};
ghost use Rattle.ras_numbering.specs.FileValues.{system_value};
ghost use Rattle.ras_scope.specs.Placing.{placed_file};
ghost use Rattle.ras_scope.specs.Answering.{Answers};
ghost use Rattle.ras_scope.specs.Agreeing.{sorts_of_columns};
ghost use Rattle.ras_elab.specs.Elaborating.{ArePartsOf, named_columns, names_with, shape_with, IsFaultOf, IsMemory};

use crate::goals::read_goals;
use crate::law::a_tree_is_a_placed_file;
use crate::steps::read_steps;
use ras_declarations::declarations::read_declarations;
use ras_lexer::Text;
use ras_logic::{ConstId, Cube, FunDecl, List, Schema, Shape, SortId};
use ras_names::law::tokens_with_a_fault_denote_nothing;
use ras_names::{GoalNames, Names, RelNames, StepNames};
use ras_numbering::law::a_file_without_a_fault_denotes_its_value;
use ras_scope::declared::Declared;
use ras_scope::fault::SpecError;
use ras_scope::name_set::NameSet;
use ras_scope::table::Table;
use ras_syntax::{File, Tree};
use ras_system::{System, Transition};
use std::alloc::{AllocError, Global};

/// A system, and the names of its parts.
#[derive(Debug, Drop)]
pub struct Spec {
    /// The system, whose parts have numbers.
    pub system: System,
    /// The names that the specification gives to the parts, in the order of their numbers.
    pub names: Names,
}

/// What the items of a file say, kind by kind.
#[derive(Drop)]
struct Parts {
    declared: Declared,
    initial: List<Option<ConstId>>,
    transitions: List<Transition>,
    cubes: List<Cube>,
    steps: List<StepNames>,
    goals: List<GoalNames>,
}

/// The items of a file in order, or the first fault.
fn read_items(alloc: Global, file: &File) -> Result<Parts, SpecError>
    ensures checks { Answers (file_checks.checks (placed_file file.now)) result }
    ensures parts { IfOk result (ArePartsOf (placed_file file.now)) }
{
    let declarations = read_declarations(alloc, file)?;
    let mut declared = declarations.declared;
    let steps = read_steps(alloc, &mut declared, file)?;
    let goals = read_goals(alloc, &declared, file)?;
    Ok(Parts {
        declared,
        initial: declarations.initial,
        transitions: steps.transitions,
        cubes: goals.cubes,
        steps: steps.names,
        goals: goals.names,
    })
}

/// The relations, by the sorts of their columns and by their names.
#[derive(Drop)]
struct Relations {
    sorts: List<List<SortId>>,
    names: List<RelNames>,
}

/// The relations of these names, with these columns.
fn name_columns(
    alloc: Global,
    names: &NameSet,
    columns: &[Table<SortId>],
) -> Result<Relations, AllocError>
    requires { length names.now ≡ length columns.now }
    ensures sorts { IfOk result (λ r. r.sorts ≡ sorts_of_columns columns.now) }
    ensures names { IfOk result (λ r. r.names ≡ named_columns names.now columns.now) }
{
    let all = names.list(alloc)?;
    let mut relations = Relations {
        sorts: List::new(alloc),
        names: List::new(alloc),
    };
    for i in 0..columns.len() {
        let name = all.as_slice()[i];
        let table = &columns[i];
        let columns = table.names().list(alloc)?;
        relations.names.push(RelNames { name, columns })?;
        let sorts = table.values().to_vec(alloc)?;
        relations.sorts.push(List::from_vec(sorts))?;
    }
    Ok(relations)
}

/// All names: those of the declared parts, and these.
fn name_parts(
    alloc: Global,
    system: Text,
    declared: &Declared,
    relations: List<RelNames>,
    steps: List<StepNames>,
    goals: List<GoalNames>,
) -> Result<Names, AllocError>
    requires { relations ≡ named_columns declared.now.relations declared.now.columns.items }
    ensures { IfOk result (λ n. n ≡ names_with system declared.now steps goals) }
{
    let sorts = declared.sorts.list(alloc)?;
    let functions = declared.functions.names().list(alloc)?;
    let constants = declared.constants.names().list(alloc)?;
    let vars = declared.vars.names().list(alloc)?;
    Ok(Names {
        system,
        sorts,
        functions,
        constants,
        vars,
        relations,
        steps,
        goals,
    })
}

/// A shape whose parts have no fault.
fn new_shape(
    sorts: u16,
    functions: List<FunDecl>,
    constants: List<SortId>,
    vars: List<SortId>,
    relations: List<List<SortId>>,
) -> Shape
    requires shape { IsShape (shape_with sorts functions constants vars relations) }
    requires schema_limits { HasSchemaLimits (shape_with sorts functions constants vars relations).schema }
    requires limits { HasShapeLimits (shape_with sorts functions constants vars relations) }
    ensures { result ≡ shape_with sorts functions constants vars relations }
{
    let schema = Schema::new(sorts, functions, constants).unwrap();
    Shape::new(schema, vars, relations).unwrap()
}

/// A system whose parts have no fault.
fn new_system(
    shape: Shape,
    initial: List<Option<ConstId>>,
    transitions: List<Transition>,
    goals: List<Cube>,
) -> System
    requires system { IsSystem (record { shape = shape; initial = initial; transitions = transitions; goals = goals }) }
    requires limits { HasSystemLimits (record { shape = shape; initial = initial; transitions = transitions; goals = goals }) }
    ensures { result ≡ record { shape = shape; initial = initial; transitions = transitions; goals = goals } }
{
    System::new(shape, initial, transitions, goals).unwrap()
}

/// The system of the parts of a file without a fault.
fn assemble(alloc: Global, file: &File, parts: Parts) -> Result<Spec, AllocError>
    requires parts { ArePartsOf (placed_file file.now) parts }
    requires clear { first_fault (placed_file file.now) ≡ None }
    ensures system { IfOk result (λ s. s.system ≡ system_value (placed_file file.now)) }
    ensures names { IfOk result (λ s. s.names ≡ names_of (file_of (placed_file file.now))) }
{
    let Parts {
        declared,
        initial,
        transitions,
        cubes,
        steps,
        goals,
    } = parts;
    a_file_without_a_fault_denotes_its_value();
    let relations = name_columns(alloc, &declared.relations, declared.columns.as_slice())?;
    let names = name_parts(
        alloc,
        file.name.text,
        &declared,
        relations.names,
        steps,
        goals,
    )?;
    let sorts = declared.sorts.count();
    let functions = declared.functions.into_values();
    let constants = declared.constants.into_values();
    let vars = declared.vars.into_values();
    let shape = new_shape(sorts, functions, constants, vars, relations.sorts);
    Ok(Spec {
        system: new_system(shape, initial, transitions, cubes),
        names,
    })
}

/// The system that a tree denotes, with the names of its parts. Where the tree denotes none, its first fault of names and
/// sorts is named: the items in the order of the file, and within an item from left to right. Each name, sort and count is
/// judged where it stands, so that the first fault is the one that a reader of the text meets first.
pub fn elaborate(alloc: Global, tree: &Tree) -> Result<Spec, SpecError>
    ensures denotes { IfOk result (λ s. TokensDenote tree.now s.system s.names) }
    ensures fault { IfErr result (IsFaultOf tree.now) }
    ensures only { (system : SystemParts) (names : declared.Names) → TokensDenote tree.now system names → IfErr result IsMemory }
{
    a_tree_is_a_placed_file();
    a_file_without_a_fault_denotes_its_value();
    tokens_with_a_fault_denote_nothing();
    let file = &tree.file;
    let parts = read_items(alloc, file)?;
    let spec = assemble(alloc, file, parts)?;
    Ok(spec)
}
