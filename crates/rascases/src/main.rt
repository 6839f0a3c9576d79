//! The program `rascases`: lists of cases come in, as files of its folder; each case is carried out by `verify_quiet`, over files
//! and a sink in memory. The places of the cases that end otherwise than wanted go out, with what was wanted and what came, and
//! last a line with the numbers of cases that passed and failed. Where no more cases can be carried out, the standard error
//! tells why.
#![tactic(auto)]

mod case;
mod content;
mod line;
mod list;
mod report;

use crate::list::carry_out;
use crate::report::{Counts, Halt};
use ras_outside::{DirShelf, Shelf, Sink, StdSink};
use std::alloc::Global;
use std::process::ExitCode;
use std::thread::Threads;

/// The lists of cases.
const LISTS: [&'static str; 8] = [
    "words.cases",
    "refused_files.cases",
    "canonical_texts.cases",
    "refused_bundles.cases",
    "refused_evidences.cases",
    "judged_evidences.cases",
    "runs.cases",
    "broken_outside.cases",
];

/// The bytes that a list of cases may have.
const LONGEST_LIST: u64 = 1 << 24;

fn carry_out_lists<R: Threads + Sync, H: Shelf, K: Sink>(
    rt: &R,
    alloc: Global,
    shelf: &mut H,
    out: &mut K,
    counts: &mut Counts,
) -> Result<(), Halt> {
    for name in LISTS {
        let bytes = match shelf.load(alloc, name, LONGEST_LIST) {
            Ok(bytes) => bytes,
            Err(fault) => return Err(Halt::of_load(name, fault)),
        };
        carry_out(rt, alloc, name, &bytes, out, counts)?;
    }
    counts.put(alloc, out)
}

fn main(rt: HostRuntime) -> ExitCode {
    let mut shelf = DirShelf::new(rt);
    let mut out = StdSink::output(rt);
    let mut counts = Counts::new();
    match carry_out_lists(&rt, rt.alloc(), &mut shelf, &mut out, &mut counts) {
        Ok(()) if counts.failed == 0 => ExitCode::SUCCESS,
        Ok(()) => ExitCode::FAILURE,
        Err(halt) => {
            // the status tells of it too
            let _is_told = halt.put(&mut StdSink::error(rt));
            ExitCode::FAILURE
        }
    }
}
