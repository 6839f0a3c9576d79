//! The program `rasprove`: the words of the command line come in, and what `verify_quiet` writes and answers goes out, with the
//! files of the file system and the standard output.
#![tactic(auto)]

use ras_cli::verify_quiet;
use ras_outside::{DirShelf, StdSink};
use std::alloc::AllocError;
use std::process::ExitCode;
use std::{env, io};

/// The status where memory is wanting.
const NO_MEMORY: u8 = 60;

/// The words after the program's name. Words of which one is no text are refused like no words.
fn words(rt: HostRuntime) -> Result<Vec<String>, AllocError> {
    let mut words = Vec::new(rt.alloc());
    match env::args(&rt) {
        Ok(all) => {
            for word in all.skip(1) {
                words.push(word)?;
            }
        }
        Err(error) => {
            if error.kind() == io::ErrorKind::OutOfMemory {
                return Err(AllocError);
            }
        }
    }
    Ok(words)
}

fn main(rt: HostRuntime) -> ExitCode {
    let Ok(words) = words(rt) else {
        return ExitCode::from(NO_MEMORY);
    };
    let mut shelf = DirShelf::new(rt);
    let mut out = StdSink::output(rt);
    let status = verify_quiet(&rt, rt.alloc(), &words, &mut shelf, &mut out);
    ExitCode::from(status)
}
