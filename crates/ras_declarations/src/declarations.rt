ghost use Rattle.std.specs.Prelude.{◌≡◌, ℕ, ◌≤◌, [], ◌∷◌, ◌++◌, true, false, length, map, option_map, All, IfOk, OnOk};
ghost use Rattle.ras_logic.specs.Schemas.{HasSorts, IsSort};
ghost use Rattle.ras_names.specs.Placed as placed;
ghost use Rattle.ras_names.specs.Placed.{columns};
ghost use Rattle.ras_names.specs.Checks.{for_each, is_among, texts, declared_texts, declared_checks, used_check};
ghost use Rattle.ras_names.specs.TermChecks.{function_texts};
ghost use Rattle.ras_names.specs.StepChecks.{variable_texts, relation_texts};
ghost use Rattle.ras_names.specs.FileChecks.{sort_checks, above_functions, function_checks, above_constants, constant_checks, above_variables, initial_checks, variable_checks, above_relations, column_checks, relation_checks, above_steps};
ghost use Rattle.ras_numbering.specs.Numbers.{number_in, sort_named, declared_sort, constant_of_name};
ghost use Rattle.ras_numbering.specs.FileValues.{function_value, variable_value, initial_value, relation_value};
ghost use Rattle.ras_scope.specs.Placing.{placed_name, placed_function, placed_initial, placed_variable, placed_column, placed_relation, placed_file};
ghost use Rattle.ras_scope.specs.Answering.{Answers};
ghost use Rattle.ras_scope.specs.Agreeing.{Agrees, IsSortText, IsOfSort, HasSortTexts, names_of_columns, sorts_of_columns};
ghost use Rattle.ras_declarations.specs.Declaring.{AreAbove, AreSorts, AreFunctions, AreConstants, AreVariables, AreRelations, AreDeclarations, IsNothing, declaration_checks};

use crate::named::{Naming, add_all_named, add_named};
use ras_logic::{ConstId, FunDecl, FunId, List, SortId, leads};
use ras_names::SpecKind;
use ras_scope::declared::{Declared, check_name, find_sort};
use ras_scope::fault::{SpecError, fault};
use ras_scope::name_set::NameSet;
use ras_scope::table::Table;
use ras_syntax::{File, Function, Initial, Name, Relation, Totality, Variable};
use std::alloc::Global;

/// The sorts of a file, at most 64.
fn read_sorts(shared: &mut NameSet, sorts: &mut NameSet, file: &File) -> Result<(), SpecError>
    requires shared { shared.old ≡ [] }
    requires sorts { sorts.old ≡ [] }
    ensures checks { let p = placed_file file.now in Answers (for_each (sort_checks p) p.sorts) result }
    ensures sorts { OnOk result (AreSorts (placed_file file.now) shared.new sorts.new) }
{
    for sort in &file.sorts {
        let name = &sort.name;
        check_name(shared, 64, sorts.len(), name)?;
        shared.add(name.text)?;
        sorts.add(name.text)?;
    }
    Ok(())
}

/// What a function declares: a new name, sorts, and no cycle with the functions above.
fn read_function(
    shared: &NameSet,
    sorts: &NameSet,
    above: &Table<FunDecl>,
    function: &Function,
) -> Result<FunDecl, SpecError>
    requires few { length sorts.now ≤ 64 }
    requires known { All (HasSorts 64) above.now.values.items }
    ensures checks { (p : placed.File) (n : ℕ) → AreAbove p n shared.now sorts.now above.now → Answers (function_checks p n (placed_function function.now)) result }
    ensures value { (p : placed.File) → sorts.now ≡ texts p.sorts → IfOk result (λ d. d ≡ function_value p (placed_function function.now)) }
    ensures sorts { (p : placed.File) → sorts.now ≡ texts p.sorts → IfOk result (λ d. HasSortTexts p (placed_function function.now)) }
    ensures known { IfOk result (HasSorts 64) }
    ensures new { OnOk result (is_among shared.now function.now.name.text ≡ false) }
{
    let name = &function.name;
    check_name(shared, 256, above.names().len(), name)?;
    let source = find_sort(sorts, &function.source)?;
    let target = find_sort(sorts, &function.target)?;
    let sort_count = sorts.len();
    if leads(
        above.values(),
        sort_count,
        target.n as usize,
        source.n as usize,
    ) {
        let function = FunId {
            n: above.names().count(),
        };
        return fault(name.at, SpecKind::Cycle { function });
    }
    Ok(FunDecl {
        source,
        target,
        total: function.totality == Totality::Total,
    })
}

/// The functions of a file, at most 256.
fn read_functions(
    shared: &mut NameSet,
    sorts: &NameSet,
    functions: &mut Table<FunDecl>,
    file: &File,
) -> Result<(), SpecError>
    requires sorts { AreSorts (placed_file file.now) shared.old sorts.now }
    requires names { functions.old.names ≡ [] }
    requires values { functions.old.values.items ≡ [] }
    ensures checks { let p = placed_file file.now in Answers (for_each (function_checks p) p.functions) result }
    ensures functions { OnOk result (AreFunctions (placed_file file.now) shared.new functions.new) }
{
    for function in &file.functions {
        let decl = read_function(shared, sorts, functions, function)?;
        shared.add(function.name.text)?;
        functions.add(function.name.text, decl)?;
    }
    Ok(())
}

/// The sort behind the colon of a name, which is the next of its kind.
fn read_sorted(
    names: &NameSet,
    sorts: &NameSet,
    limit: usize,
    count: usize,
    name: &Name,
    sort: &Name,
) -> Result<SortId, SpecError>
    ensures checks { Answers (declared_checks limit count names.now (placed_name name.now) ++ used_check sorts.now (placed_name sort.now) ∷ []) result }
    ensures value { IfOk result (λ s. s ≡ record { n = number_in sorts.now sort.now.text }) }
    ensures known { OnOk result (is_among sorts.now sort.now.text ≡ true) }
    ensures new { OnOk result (is_among names.now name.now.text ≡ false) }
{
    check_name(names, limit, count, name)?;
    find_sort(sorts, sort)
}

/// The constants of a file, at most 256.
fn read_constants(
    shared: &mut NameSet,
    sorts: &NameSet,
    constants: &mut Table<SortId>,
    file: &File,
) -> Result<(), SpecError>
    requires sorts { sorts.now ≡ texts (placed_file file.now).sorts }
    requires shared { shared.old ≡ above_constants (placed_file file.now) }
    requires names { constants.old.names ≡ [] }
    requires values { constants.old.values.items ≡ [] }
    ensures checks { let p = placed_file file.now in Answers (for_each (constant_checks p) p.constants) result }
    ensures constants { OnOk result (AreConstants (placed_file file.now) constants.new) }
    ensures shared { OnOk result (shared.new ≡ above_variables (placed_file file.now)) }
{
    for constant in &file.constants {
        let name = &constant.name;
        let count = constants.names().len();
        let sort = read_sorted(shared, sorts, 256, count, name, &constant.sort)?;
        shared.add(name.text)?;
        constants.add(name.text, sort)?;
    }
    Ok(())
}

/// The initial constant of a variable of a sort, if one is named.
fn read_initial(
    constants: &Table<SortId>,
    sort: SortId,
    initial: &Option<Initial>,
) -> Result<Option<ConstId>, SpecError>
    ensures checks { (p : placed.File) (of : placed.Name) → AreConstants p constants.now → IsSortText p of.text → sort ≡ sort_named p of.text
        → Answers (initial_checks p of (option_map placed_initial initial.now)) result }
    ensures value { (p : placed.File) → constants.now.names ≡ declared_texts p.constants
        → IfOk result (λ c. c ≡ option_map (λ (i : placed.Initial). constant_of_name p i.constant) (option_map placed_initial initial.now)) }
{
    let initial = match initial {
        Some(initial) => initial,
        None => return Ok(None),
    };
    match constants.find(&initial.constant.text) {
        None => fault(initial.constant.at, SpecKind::UnknownName),
        Some((n, own)) => {
            if own != sort {
                return fault(initial.at, SpecKind::WrongSort);
            }
            Ok(Some(ConstId { n }))
        }
    }
}

/// What a variable declares: a new name, its sort, and its initial constant if one is named.
fn read_variable(
    shared: &NameSet,
    sorts: &NameSet,
    constants: &Table<SortId>,
    count: usize,
    variable: &Variable,
) -> Result<(SortId, Option<ConstId>), SpecError>
    ensures checks { (p : placed.File) → sorts.now ≡ texts p.sorts → AreConstants p constants.now
        → Answers (declared_checks 64 count shared.now (placed_name variable.now.name) ++ (used_check (texts p.sorts) (placed_name variable.now.sort) ∷ initial_checks p (placed_name variable.now.sort) (option_map placed_initial variable.now.initial))) result }
    ensures sort { (p : placed.File) → sorts.now ≡ texts p.sorts → IfOk result (λ v. v.0 ≡ variable_value p (placed_variable variable.now)) }
    ensures initial { (p : placed.File) → constants.now.names ≡ declared_texts p.constants → IfOk result (λ v. v.1 ≡ initial_value p (placed_variable variable.now)) }
    ensures known { OnOk result (is_among sorts.now variable.now.sort.text ≡ true) }
    ensures new { OnOk result (is_among shared.now variable.now.name.text ≡ false) }
{
    let sort = read_sorted(shared, sorts, 64, count, &variable.name, &variable.sort)?;
    let initial = read_initial(constants, sort, &variable.initial)?;
    Ok((sort, initial))
}

/// The variables of a file, at most 64, and the initial constant of each that has one.
fn read_variables(
    shared: &mut NameSet,
    sorts: &NameSet,
    constants: &Table<SortId>,
    vars: &mut Table<SortId>,
    initials: &mut List<Option<ConstId>>,
    file: &File,
) -> Result<(), SpecError>
    requires sorts { sorts.now ≡ texts (placed_file file.now).sorts }
    requires constants { AreConstants (placed_file file.now) constants.now }
    requires shared { shared.old ≡ above_variables (placed_file file.now) }
    requires names { vars.old.names ≡ [] }
    requires values { vars.old.values.items ≡ [] }
    requires initials { initials.old ≡ [] }
    ensures checks { let p = placed_file file.now in Answers (for_each (variable_checks p) p.variables) result }
    ensures variables { OnOk result (AreVariables (placed_file file.now) vars.new initials.new) }
    ensures shared { OnOk result (shared.new ≡ above_relations (placed_file file.now)) }
{
    for variable in &file.variables {
        let count = vars.names().len();
        let (sort, initial) = read_variable(shared, sorts, constants, count, variable)?;
        shared.add(variable.name.text)?;
        vars.add(variable.name.text, sort)?;
        initials.push(initial)?;
    }
    Ok(())
}

/// The columns of a relation, at most 32.
fn read_columns(
    alloc: Global,
    sorts: &NameSet,
    relation: &Relation,
) -> Result<Table<SortId>, SpecError>
    ensures checks { (p : placed.File) → sorts.now ≡ texts p.sorts
        → let all = columns (placed_relation relation.now) in Answers (for_each (column_checks p all) all) result }
    ensures names { IfOk result (λ t. t.names ≡ declared_texts (columns (placed_relation relation.now))) }
    ensures values { (p : placed.File) → sorts.now ≡ texts p.sorts → IfOk result (λ t. t.values.items ≡ relation_value p (placed_relation relation.now)) }
    ensures sorts { (p : placed.File) → sorts.now ≡ texts p.sorts → OnOk result (All (IsOfSort p) (columns (placed_relation relation.now))) }
{
    let none = NameSet::new(alloc);
    let naming = Naming {
        above: &none,
        more: &none,
        used: sorts,
        limit: 32,
    };
    let mut columns = Table::new(alloc);
    add_named(&naming, &mut columns, &relation.first)?;
    add_all_named(&naming, &mut columns, relation.others.as_slice())?;
    Ok(columns)
}

/// What a relation declares: a new name, and its columns.
fn read_relation(
    alloc: Global,
    shared: &NameSet,
    sorts: &NameSet,
    count: usize,
    relation: &Relation,
) -> Result<Table<SortId>, SpecError>
    ensures checks { (p : placed.File) → sorts.now ≡ texts p.sorts → let all = columns (placed_relation relation.now) in
        Answers (declared_checks 16 count shared.now (placed_name relation.now.name) ++ for_each (column_checks p all) all) result }
    ensures names { IfOk result (λ t. t.names ≡ declared_texts (columns (placed_relation relation.now))) }
    ensures values { (p : placed.File) → sorts.now ≡ texts p.sorts → IfOk result (λ t. t.values.items ≡ relation_value p (placed_relation relation.now)) }
    ensures sorts { (p : placed.File) → sorts.now ≡ texts p.sorts → OnOk result (All (IsOfSort p) (columns (placed_relation relation.now))) }
    ensures new { OnOk result (is_among shared.now relation.now.name.text ≡ false) }
{
    check_name(shared, 16, count, &relation.name)?;
    read_columns(alloc, sorts, relation)
}

/// The relations of a file, at most 16, and the columns of each.
fn read_relations(
    alloc: Global,
    shared: &mut NameSet,
    sorts: &NameSet,
    relations: &mut NameSet,
    columns: &mut Vec<Table<SortId>>,
    file: &File,
) -> Result<(), SpecError>
    requires sorts { sorts.now ≡ texts (placed_file file.now).sorts }
    requires shared { shared.old ≡ above_relations (placed_file file.now) }
    requires relations { relations.old ≡ [] }
    requires columns { columns.old.items ≡ [] }
    ensures checks { let p = placed_file file.now in Answers (for_each (relation_checks p) p.relations) result }
    ensures relations { OnOk result (AreRelations (placed_file file.now) relations.new columns.new.items) }
    ensures shared { OnOk result (shared.new ≡ above_steps (placed_file file.now)) }
{
    for relation in &file.relations {
        let table = read_relation(alloc, shared, sorts, relations.len(), relation)?;
        shared.add(relation.name.text)?;
        relations.add(relation.name.text)?;
        columns.push(table)?;
    }
    Ok(())
}

/// What the items above the steps declare, and the initial constants of the variables.
#[derive(Drop)]
pub struct Declarations {
    pub declared: Declared,
    pub initial: List<Option<ConstId>>,
}

/// Nothing declared.
fn nothing(alloc: Global) -> Declared
    ensures { IsNothing result }
{
    Declared {
        shared: NameSet::new(alloc),
        sorts: NameSet::new(alloc),
        functions: Table::new(alloc),
        constants: Table::new(alloc),
        vars: Table::new(alloc),
        relations: NameSet::new(alloc),
        columns: Vec::new(alloc),
    }
}

/// The items of a file above the steps.
pub fn read_declarations(alloc: Global, file: &File) -> Result<Declarations, SpecError>
    ensures checks { Answers (declaration_checks (placed_file file.now)) result }
    ensures items { IfOk result (AreDeclarations (placed_file file.now)) }
{
    let mut declared = nothing(alloc);
    let mut initial = List::new(alloc);
    read_sorts(&mut declared.shared, &mut declared.sorts, file)?;
    read_functions(
        &mut declared.shared,
        &declared.sorts,
        &mut declared.functions,
        file,
    )?;
    read_constants(
        &mut declared.shared,
        &declared.sorts,
        &mut declared.constants,
        file,
    )?;
    read_variables(
        &mut declared.shared,
        &declared.sorts,
        &declared.constants,
        &mut declared.vars,
        &mut initial,
        file,
    )?;
    read_relations(
        alloc,
        &mut declared.shared,
        &declared.sorts,
        &mut declared.relations,
        &mut declared.columns,
        file,
    )?;
    Ok(Declarations { declared, initial })
}
