ghost use Rattle.std.specs.Prelude.{◌≡◌, ℕ, List, ◌∷◌, ◌+◌, ◌≤◌, ◌<◌, ◌^◌, not, nat_lt, length, get_or, take, slice_get, Some, All, IfOk};
ghost use Rattle.std.specs.List.{list_all};
ghost use Rattle.ras_bundles.specs.declared.system_lines.FunctionLine.{FunctionLine};
ghost use Rattle.ras_bundles.specs.declared.system_lines.VariableLine.{VariableLine};
ghost use Rattle.ras_bundles.specs.Checks.{Check, first_of, count_checks, function_checks, constant_checks, variable_checks, is_known_initial as known_initial, is_sorted_initial as sorted_initial, each, shape_checks};
ghost use Rattle.ras_bundles.specs.Judging.{Judges, HasSmallSorts};

use crate::fault::{BundleError, BundleKind};
use crate::judging::{count_fault, judged};
use crate::system_lines::SystemLines;
use ras_logic::leads;

/// What is wrong in the line of a function, where nothing is in the lines of those above it.
fn function_fault(lines: &SystemLines, n: usize) -> Option<BundleKind>
    requires within { n < length lines.now.functions }
    requires sorts { lines.now.sorts ≤ 64 }
    requires above { All HasSmallSorts (take n lines.now.functions) }
    ensures fault { (d : FunctionLine) → result ≡ first_of (function_checks lines.now n (get_or lines.now.functions n d)) }
{
    let functions = lines.functions.as_slice();
    let f = functions[n];
    if !(f.source < lines.sorts && f.target < lines.sorts) {
        return Some(BundleKind::Range);
    }
    if leads(
        &functions[..n],
        lines.sorts as usize,
        f.target as usize,
        f.source as usize,
    ) {
        return Some(BundleKind::Cycle);
    }
    None
}

/// The lines of the functions.
fn function_lines(lines: &SystemLines, first: u64) -> Result<u64, BundleError>
    requires first { first ≤ 2 ^ 50 }
    requires sorts { lines.now.sorts ≤ 64 }
    ensures judges { Judges (each (function_checks lines.now) lines.now.functions) first result }
    ensures next { IfOk result (λ n. n ≤ first + 2 ^ 33) }
{
    let count = lines.functions.len();
    for n in 0..count {
        judged(first + n as u64, function_fault(lines, n))?;
    }
    Ok(first + count as u64)
}

fn are_sorts(numbers: &[u32], sorts: u32) -> bool
    ensures { result ≡ list_all (λ (n : ℕ). nat_lt n sorts) numbers.now }
{
    numbers.iter().all(|n| *n < sorts)
}

/// What is wrong in the line of the constants.
fn constant_fault(lines: &SystemLines) -> Option<BundleKind>
    ensures { result ≡ first_of (constant_checks lines.now) }
{
    let constants = lines.constants.sorts.as_slice();
    if constants.len() > 256 {
        return Some(BundleKind::Limit);
    }
    if !are_sorts(constants, lines.sorts) {
        return Some(BundleKind::Range);
    }
    None
}

fn is_known_initial(lines: &SystemLines, initial: Option<u32>) -> bool
    ensures { result ≡ known_initial lines.now initial }
{
    match initial {
        None => true,
        Some(c) => (c as usize) < lines.constants.sorts.len(),
    }
}

/// Whether the initial constant is of the sort.
fn is_sorted_initial(lines: &SystemLines, sort: u32, initial: Option<u32>) -> bool
    ensures { result ≡ sorted_initial lines.now sort initial }
{
    let Some(c) = initial else {
        return true;
    };
    match lines.constants.sorts.as_slice().get(c as usize) {
        Some(declared) => *declared == sort,
        None => false,
    }
}

/// What is wrong in the line of a variable.
fn variable_fault(lines: &SystemLines, n: usize) -> Option<BundleKind>
    requires { n < length lines.now.variables }
    ensures { (d : VariableLine) → result ≡ first_of (variable_checks lines.now (get_or lines.now.variables n d)) }
{
    let variable = lines.variables.as_slice()[n];
    if !(variable.sort < lines.sorts && is_known_initial(lines, variable.initial)) {
        return Some(BundleKind::Range);
    }
    if !is_sorted_initial(lines, variable.sort, variable.initial) {
        return Some(BundleKind::Sort);
    }
    None
}

/// The lines of the variables.
fn variable_lines(lines: &SystemLines, first: u64) -> Result<u64, BundleError>
    requires { first ≤ 2 ^ 50 }
    ensures judges { Judges (each (λ _. variable_checks lines.now) lines.now.variables) first result }
    ensures next { IfOk result (λ n. n ≤ first + 2 ^ 33) }
{
    let count = lines.variables.len();
    for n in 0..count {
        judged(first + n as u64, variable_fault(lines, n))?;
    }
    Ok(first + count as u64)
}

/// The lines from `bundle 1` to the variables.
pub fn judge_shape(lines: &SystemLines) -> Result<u64, BundleError>
    ensures judges { Judges (shape_checks lines.now) 1 result }
    ensures next { IfOk result (λ n. n ≤ 2 ^ 36) }
{
    let next = judged(1, None)?;
    let next = judged(next, count_fault(lines.sorts as usize, 64))?;
    let next = judged(next, count_fault(lines.functions.len(), 256))?;
    let next = function_lines(lines, next)?;
    let next = judged(next, constant_fault(lines))?;
    let next = judged(next, count_fault(lines.variables.len(), 64))?;
    variable_lines(lines, next)
}
