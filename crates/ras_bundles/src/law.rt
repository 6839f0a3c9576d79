ghost use Rattle.std.specs.Prelude.{◌≡◌, ◌↔◌, ◌⊎◌, ℕ, ◌+◌, true, List, All, Some, None, length, map, take, slice_get};
ghost use Rattle.ras_logic.specs.Schemas.{HasSorts};
ghost use Rattle.ras_logic.specs.SchemaFaults.{HasCycle};
ghost use Rattle.ras_system.specs.Systems.{SystemParts};
ghost use Rattle.ras_evidence.specs.declared.value.Evidence.{Evidence};
ghost use Rattle.ras_bundles.specs.declared.system_lines.FunctionLine.{FunctionLine};
ghost use Rattle.ras_bundles.specs.declared.system_lines.SystemLines.{SystemLines};
ghost use Rattle.ras_bundles.specs.declared.fault.BundleError.{BundleError};
ghost use Rattle.ras_bundles.specs.SystemTexts.{system_lines, IsWrittenSystem};
ghost use Rattle.ras_bundles.specs.Numbers.{function_named, numbers_of};
ghost use Rattle.ras_bundles.specs.Checks.{leads, line_checks, first_fault};
ghost use Rattle.ras_bundles.specs.Bundles.{IsPlainSystem, BeginsWithSystem, IsBundle};
ghost use Rattle.ras_bundles.specs.BundleFaults.{IsBundleFault, IsFault};

/// There are as many lists of checks as lines.
pub fn each_line_has_its_checks()
    ensures { (numbers : SystemLines) → length (line_checks numbers) ≡ length (system_lines numbers) }
{}

/// Where the functions above a function have no cycle, one is told of it exactly where it closes one.
pub fn a_cycle_is_told_where_it_closes()
    ensures { (sorts : ℕ) (functions : List FunctionLine) (k : ℕ) (f : FunctionLine) → All (HasSorts sorts) (map function_named functions) → slice_get functions k ≡ Some f
        → (¬ HasCycle (map function_named (take k functions)))
        → ((leads (take k functions) sorts f.target f.source ≡ true) ↔ HasCycle (map function_named (take (k + 1) functions))) }
{}

/// Nothing is wrong in the lines of numbers exactly where they denote a system without relations and data parameters.
pub fn numbers_denote_a_system_or_have_a_fault()
    ensures { (numbers : SystemLines) → IsWrittenSystem numbers
        → ((first_fault numbers ≡ None) ↔ ((system : SystemParts) × IsPlainSystem system × (numbers_of system ≡ numbers))) }
{}

/// Bytes begin with one system at most, and what stands behind it is one.
pub fn bytes_begin_with_one_system()
    ensures { (bytes rest more : List ℕ) (behind other : List (List ℕ)) (s t : SystemParts) → BeginsWithSystem bytes s behind rest → BeginsWithSystem bytes t other more
        → (s ≡ t) × (behind ≡ other) × (rest ≡ more) }
{}

/// Bytes are the bundle of one system and one evidence at most.
pub fn bytes_are_one_bundle()
    ensures { (bytes : List ℕ) (s t : SystemParts) (e d : Evidence) (n m : ℕ) → IsBundle bytes s e n → IsBundle bytes t d m → (s ≡ t) × (e ≡ d) × (n ≡ m) }
{}

/// Bytes have one first fault at most.
pub fn bytes_have_one_bundle_fault()
    ensures { (bytes : List ℕ) (e f : BundleError) → IsFault e → IsFault f → IsBundleFault bytes e → IsBundleFault bytes f → e ≡ f }
{}

/// A bundle has no fault.
pub fn a_bundle_has_no_fault()
    ensures { (bytes : List ℕ) (s : SystemParts) (e : Evidence) (n : ℕ) (f : BundleError) → IsBundle bytes s e n → IsFault f → IsBundleFault bytes f → ⊥ }
{}

/// Any bytes are a bundle, or have a first fault.
pub fn bytes_are_a_bundle_or_have_a_fault()
    ensures { (bytes : List ℕ) → ((s : SystemParts) × (e : Evidence) × (n : ℕ) × IsBundle bytes s e n) ⊎ ((f : BundleError) × IsFault f × IsBundleFault bytes f) }
{}
