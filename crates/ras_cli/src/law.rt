//! What makes each answer the only one, as functions that do nothing.

ghost use Rattle.std.specs.Prelude.{◌≡◌, ◌⊎◌, ℕ, List};
ghost use Rattle.ras_outside.specs.Told as outside;
ghost use Rattle.ras_cli.specs.declared.outcome.Outcome as outcome;
ghost use Rattle.ras_cli.specs.Answers.{status_of, text_of};
ghost use Rattle.ras_cli.specs.Loads.{ToldToComeTo, Comes};

use ras_bundles::{a_bundle_has_no_fault, bytes_are_one_bundle, bytes_have_one_bundle_fault};
use ras_check::an_evidence_is_judged_in_one_way;
use ras_evidence::{a_text_has_no_fault, bytes_have_one_evidence, bytes_have_one_first_fault};
use ras_file::law::{
    a_text_denotes_one_system, a_text_has_one_fault, a_text_with_a_fault_denotes_nothing,
};
use ras_print::law::a_system_has_one_text;
use ras_violation::{a_fault_is_no_violation, a_violation_has_one_text, the_first_fault_is_one};

/// What comes of a call has the status and the text of what its told files come to, where no file could not be read.
pub(crate) fn told_files_come_to_one_answer()
    ensures { (words : List (List ℕ)) (told : List ℕ → outside.Told) (before after : List ℕ → ℕ) (o p : outcome.Outcome) → Comes words told before after o → ToldToComeTo words told p
        → (status_of o ≡ 50) ⊎ ((status_of o ≡ status_of p) × (text_of o ≡ text_of p)) }
{
    an_evidence_is_judged_in_one_way();
    a_fault_is_no_violation();
    the_first_fault_is_one();
    a_violation_has_one_text();
    bytes_have_one_evidence();
    bytes_have_one_first_fault();
    a_text_has_no_fault();
    bytes_are_one_bundle();
    bytes_have_one_bundle_fault();
    a_bundle_has_no_fault();
    a_text_denotes_one_system();
    a_text_has_one_fault();
    a_text_with_a_fault_denotes_nothing();
    a_system_has_one_text();
}
