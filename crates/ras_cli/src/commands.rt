ghost use Rattle.std.specs.Prelude.{ℕ, List, IfOk};
ghost use Rattle.ras_names.specs.Texts.{Denotes};
ghost use Rattle.ras_cli.specs.Words.{request_of, check_bundle, print as print_request, check as check_request, replay as replay_request};
ghost use Rattle.ras_cli.specs.Outcomes.{IsPrint};
ghost use Rattle.ras_cli.specs.Loads.{RequestComesTo, Loads, Ends, Leaves};

use crate::judging::{judged, judged_bundle, replayed};
use crate::loading::{Halt, LONGEST_EVIDENCE, load, load_pair, load_spec};
use crate::outcome::Outcome;
use crate::words::Task;
use ras_canonical::law::a_canonical_text_denotes_the_same;
use ras_check::a_text_is_complete;
use ras_elab::Spec;
use ras_outside::Shelf;
use ras_print::print;
use std::alloc::{AllocError, Global};

/// The evidence of a bundle is judged.
fn check_bundle<'a, H: Shelf>(
    alloc: Global,
    shelf: &mut H,
    bundle: &'a str,
) -> Result<Outcome<'a>, Halt<'a>>
    ensures comes { Ends result (RequestComesTo (Loads (H.told shelf.old) (H.faults shelf.old) (H.faults shelf.new)) (check_bundle bundle.now)) }
    ensures left { Leaves (H.told shelf.old) (H.told shelf.new) (H.faults shelf.old) (H.faults shelf.new) result }
{
    let bytes = load(alloc, shelf, bundle, LONGEST_EVIDENCE)?;
    Ok(judged_bundle(alloc, &bytes)?)
}

/// The canonical text of a specification.
fn printed<'a>(alloc: Global, spec: &Spec) -> Result<Outcome<'a>, AllocError>
    requires { (bytes : List ℕ) × Denotes bytes spec.now.system spec.now.names }
    ensures { IfOk result (IsPrint spec.now) }
{
    a_canonical_text_denotes_the_same();
    Ok(Outcome::Done(print(alloc, &spec.system, &spec.names)?))
}

/// A specification is printed in its canonical text.
fn print_file<'a, H: Shelf>(
    alloc: Global,
    shelf: &mut H,
    file: &'a str,
) -> Result<Outcome<'a>, Halt<'a>>
    ensures comes { Ends result (RequestComesTo (Loads (H.told shelf.old) (H.faults shelf.old) (H.faults shelf.new)) (print_request file.now)) }
    ensures left { Leaves (H.told shelf.old) (H.told shelf.new) (H.faults shelf.old) (H.faults shelf.new) result }
{
    let spec = load_spec(alloc, shelf, file)?;
    Ok(printed(alloc, &spec)?)
}

/// An evidence is judged for the system of a specification.
fn check_evidence<'a, H: Shelf>(
    alloc: Global,
    shelf: &mut H,
    file: &'a str,
    evidence: &'a str,
) -> Result<Outcome<'a>, Halt<'a>>
    ensures comes { Ends result (RequestComesTo (Loads (H.told shelf.old) (H.faults shelf.old) (H.faults shelf.new)) (check_request file.now evidence.now)) }
    ensures left { Leaves (H.told shelf.old) (H.told shelf.new) (H.faults shelf.old) (H.faults shelf.new) result }
{
    a_text_is_complete();
    let (spec, evidence) = load_pair(alloc, shelf, file, evidence)?;
    Ok(judged(alloc, &spec.system, &evidence)?)
}

/// The run of an evidence is written out, in the system of a specification.
fn replay<'a, H: Shelf>(
    alloc: Global,
    shelf: &mut H,
    file: &'a str,
    evidence: &'a str,
) -> Result<Outcome<'a>, Halt<'a>>
    ensures comes { Ends result (RequestComesTo (Loads (H.told shelf.old) (H.faults shelf.old) (H.faults shelf.new)) (replay_request file.now evidence.now)) }
    ensures left { Leaves (H.told shelf.old) (H.told shelf.new) (H.faults shelf.old) (H.faults shelf.new) result }
{
    let (spec, evidence) = load_pair(alloc, shelf, file, evidence)?;
    Ok(replayed(alloc, &spec.system, &evidence)?)
}

/// Carries out a command.
pub fn carried_out<'a, H: Shelf>(
    alloc: Global,
    shelf: &mut H,
    task: Task<'a>,
) -> Result<Outcome<'a>, Halt<'a>>
    ensures comes { Ends result (RequestComesTo (Loads (H.told shelf.old) (H.faults shelf.old) (H.faults shelf.new)) (request_of task.entry)) }
    ensures left { Leaves (H.told shelf.old) (H.told shelf.new) (H.faults shelf.old) (H.faults shelf.new) result }
{
    match task {
        Task::CheckBundle { bundle } => check_bundle(alloc, shelf, bundle),
        Task::Print { file } => print_file(alloc, shelf, file),
        Task::Check { file, evidence } => check_evidence(alloc, shelf, file, evidence),
        Task::Replay { file, evidence } => replay(alloc, shelf, file, evidence),
    }
}
