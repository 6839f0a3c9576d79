ghost use Rattle.std.specs.Prelude.{◌≡◌, ◌+◌, ◌^◌, ◌<◌, List, [], ◌∷◌, None, IfOk, OnOk};
ghost use Rattle.ras_bundles.specs.Checks.{Check, first_of, count_checks};
ghost use Rattle.ras_bundles.specs.Judging.{Judges};

use crate::fault::{BundleError, BundleKind};

/// The number of the line behind this one, or that something is wrong in it.
pub fn judged(line: u64, fault: Option<BundleKind>) -> Result<u64, BundleError>
    requires { line < 2 ^ 60 }
    ensures judges { (checks : List Check) → first_of checks ≡ fault → Judges (checks ∷ []) line result }
    ensures next { IfOk result (λ n. n ≡ line + 1) }
    ensures passes { OnOk result (fault ≡ None) }
{
    match fault {
        None => Ok(line + 1),
        Some(kind) => Err(BundleError::System { line, kind }),
    }
}

/// What is wrong with a count.
pub fn count_fault(count: usize, limit: usize) -> Option<BundleKind>
    ensures { result ≡ first_of (count_checks limit count) }
{
    if count > limit {
        return Some(BundleKind::Limit);
    }
    None
}
