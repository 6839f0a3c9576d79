ghost use Rattle.std.specs.Prelude.{◌≡◌, ◌≢◌, ◌⊎◌, ◌≤◌, ℕ, List, IfOk, MatchResult};
ghost use Rattle.std.specs.Io.KnownBytes.{append_known};
ghost use Rattle.ras_outside.specs.Count.{Rose};
ghost use Rattle.ras_cli.specs.declared.outcome.Outcome.{Outcome};
ghost use Rattle.ras_cli.specs.Words.{texts, Request, Asks, IsNoCommand};
ghost use Rattle.ras_cli.specs.Putting.{PutsFront};
ghost use Rattle.ras_cli.specs.Answers.{status_of, text_of};
ghost use Rattle.ras_cli.specs.Loads.{CountsStand, IsUnread, StandOrRose, Comes, ToldToComeTo, IsCutOff};
ghost use Rattle.ras_cli.specs.Done.{IsDone};

use crate::commands::carried_out;
use crate::law::told_files_come_to_one_answer;
use crate::loading::Halt;
use crate::outcome::Outcome;
use crate::putting::put_text;
use crate::words::asked;
use ras_outside::{Shelf, Sink};
use std::alloc::{AllocError, Global};
use std::thread::Threads;

/// What comes of the words.
fn outcome<'a, H: Shelf>(
    alloc: Global,
    words: &'a [String],
    shelf: &mut H,
) -> Result<Outcome<'a>, AllocError>
    ensures comes { IfOk result (Comes (texts words.now) (H.told shelf.old) (H.faults shelf.old) (H.faults shelf.new)) }
    ensures held { (name : List ℕ) → H.told shelf.new name ≡ H.told shelf.old name }
    ensures grows { (name : List ℕ) → H.faults shelf.old name ≤ H.faults shelf.new name }
    ensures stands { MatchResult result (λ outcome. ¬ IsUnread outcome → CountsStand (H.faults shelf.old) (H.faults shelf.new)) (λ e. CountsStand (H.faults shelf.old) (H.faults shelf.new)) }
{
    let Some(task) = asked(words) else {
        return Ok(Outcome::NoCommand);
    };
    match carried_out(alloc, shelf, task) {
        Ok(outcome) => Ok(outcome),
        Err(Halt::Ended(outcome)) => Ok(outcome),
        Err(Halt::Memory(error)) => Err(error),
    }
}

/// Carries out the words of the command line: loads the files that they name from the shelf, an evidence only behind a
/// specification that denotes a system, does with them what the words ask for, writes one text to the sink in pieces of
/// 4,096 bytes, and answers the status.
///
/// | Status | Text | Comes |
/// |---|---|---|
/// | 0 | `VALID SAFE`, `VALID UNSAFE`, `VALID UNKNOWN` | of `check` where the evidence is good |
/// | 0 | the states of the run and the goal met | of `replay` where the evidence is a violation |
/// | 0 | the canonical text | of `print` where the file denotes a system |
/// | 30 | `REFUSED file AT P KIND` | where the specification denotes no system: its first fault |
/// | 30 | `REFUSED bundle LINE N KIND` | where the system part of the bundle denotes none: the line of its first fault |
/// | 31 | `REFUSED evidence LINE N KIND` | where no text of an evidence stands there: the line of its first fault |
/// | 31 | `REFUSED evidence LINE 1 NO_RUN` | of `replay` where the evidence is none of a violation |
/// | 31 | an `INVALID` line | where the evidence is not good: its first fault |
/// | 32 | `REFUSED long NAME` | where an evidence or a bundle is longer than the longest `Vec<u8>`, or a specification than 1,048,576 bytes |
/// | 40 | `REFUSED words` and the usage lines | where the words are of the form of no command |
/// | 50 | `REFUSED read NAME` | where the shelf failed |
/// | 51 | a front of a text | where the sink failed |
/// | 60 | none | where memory is wanting |
pub fn verify_quiet<R: Threads + Sync, H: Shelf, K: Sink>(
    rt: &R,
    alloc: Global,
    words: &[String],
    shelf: &mut H,
    out: &mut K,
) -> u8
    // What status 0 means, where the shelf tells of the files: a good evidence, and the system is safe, or is not, whichever
    // the evidence says.
    ensures done { result ≡ 0 → (request : Request) → Asks (texts words.now) request → IsDone (H.told shelf.old) request }

    // Each status comes of an outcome, whose text is written. The sink may fail, or memory be wanting.
    ensures whole { ¬ IsCutOff result → (o : Outcome) × Comes (texts words.now) (H.told shelf.old) (H.faults shelf.old) (H.faults shelf.new) o
        × (result ≡ status_of o) × (K.written out.new ≡ append_known (K.written out.old) (text_of o)) }
    ensures front { result ≡ 51 → (o : Outcome) × Comes (texts words.now) (H.told shelf.old) (H.faults shelf.old) (H.faults shelf.new) o
        × PutsFront (K.written out.old) (K.written out.new) (text_of o) }
    ensures nothing { result ≡ 60 → K.written out.new ≡ K.written out.old }
    ensures not_written { result ≡ 51 → Rose (K.faults out.old) (K.faults out.new) }

    // What the words and the told files come to is answered, where no load and no put fails and memory is not wanting.
    ensures every_no_command { IsNoCommand (texts words.now) → (result ≡ 40) ⊎ IsCutOff result }
    ensures every_told { (o : Outcome) → ToldToComeTo (texts words.now) (H.told shelf.old) o
        → ((result ≡ status_of o) × (K.written out.new ≡ append_known (K.written out.old) (text_of o))) ⊎ ((result ≡ 50) ⊎ IsCutOff result) }

    // What is left as it was: all that the shelf holds, its counts of faults where no load failed, and that of the sink where
    // no put did.
    ensures held { (name : List ℕ) → H.told shelf.new name ≡ H.told shelf.old name }
    ensures grows { (name : List ℕ) → H.faults shelf.old name ≤ H.faults shelf.new name }
    ensures stands { ¬ IsCutOff result → result ≢ 50 → CountsStand (H.faults shelf.old) (H.faults shelf.new) }
    ensures rose { StandOrRose (texts words.now) (H.faults shelf.old) (H.faults shelf.new) }
    ensures put { result ≢ 51 → K.faults out.new ≡ K.faults out.old }
{
    let _ = rt;
    told_files_come_to_one_answer();
    let Ok(outcome) = outcome(alloc, words, shelf) else {
        return 60;
    };
    let Ok(text) = outcome.text(alloc) else {
        return 60;
    };
    match put_text(out, &text) {
        Ok(()) => outcome.status(),
        Err(_) => 51,
    }
}
