ghost use Rattle.std.specs.Prelude.{◌≡◌, ◌≢◌, ℕ, ◌<◌, ◌≤◌, List, length, IfOk, Some, vec_len};
ghost use Rattle.ras_outside.specs.Told.{untold};

use crate::shelf::{LoadFault, Shelf};
use std::alloc::Global;
use std::fs;
use std::io::Read;
use std::marker::Model;
use std::rt::Files;

// The bytes of one read.
const PIECE: usize = 4096;

/// The files of the file system, by path. It tells nothing of what they hold.
#[derive(Drop)]
pub struct DirShelf<R: Files + Drop> {
    runtime: R,
    faults: u64,
}

// It is seen as its count of faults.
impl<R: Files + Drop> Model for DirShelf<R> {
    ghost use Rattle.std.specs.Prelude.{ℕ};

    ghost Value = { ℕ };

    ghost view = { λ s. s.faults };
}

impl<R: Files + Drop> DirShelf<R> {
    /// A shelf over the files that `rt` opens, which it keeps.
    pub fn new(rt: R) -> DirShelf<R>
        ensures { result ≡ 0 }
    {
        DirShelf {
            runtime: rt,
            faults: 0,
        }
    }
}

impl<R: Files + Drop> Shelf for DirShelf<R> {
    ghost told = { λ _ _. untold };

    ghost faults = { λ s _. s };

    fn load(&mut self, alloc: Global, name: &str, most: u64) -> Result<Vec<u8>, LoadFault> {
        let outcome = read_file(&self.runtime, alloc, name, most);
        if let Err(LoadFault::Failed) = outcome {
            self.faults = self.faults.saturating_add(1);
        }
        outcome
    }
}

fn read_file<R: Files>(rt: &R, alloc: Global, path: &str, most: u64) -> Result<Vec<u8>, LoadFault>
    ensures within { IfOk result (λ bytes. vec_len bytes ≤ most) }
{
    let mut file = fs::open(rt, path).map_err(|_| LoadFault::Failed)?;
    read_whole(alloc, &mut file, most)
}

// Reads to the end, and no more than `most` + 1 bytes. A read of no bytes is the end.
fn read_whole<F: Read>(alloc: Global, file: &mut F, most: u64) -> Result<Vec<u8>, LoadFault>
    ensures within { IfOk result (λ bytes. vec_len bytes ≤ most) }
    ensures bytes { IfOk result (λ bytes. (content : List ℕ)
        → F.remaining file.old ≡ Some content → bytes.items ≡ content) }
    ensures too_long { result ≡ Err LoadFault.TooLong → (content : List ℕ)
        → F.remaining file.old ≡ Some content → most < length content }
{
    let mut bytes = Vec::new(alloc);
    let mut piece = [0u8; PIECE];
    let mut left = most.saturating_add(1);
    while left > 0 {
        let room = left.min(PIECE as u64) as usize;
        let count = file
            .read(&mut piece[..room])
            .map_err(|_| LoadFault::Failed)?;
        if count == 0 {
            return Ok(bytes);
        }
        bytes
            .extend_from_slice(&piece[..count])
            .map_err(LoadFault::Memory)?;
        left -= count as u64;
    }
    Err(LoadFault::TooLong)
}

#[cfg(test)]
mod tests {
    use super::read_whole;
    use crate::LoadFault;
    use std::io;
    use std::io::{ErrorKind, Read};
    use std::test::Fail;

    // Gives its bytes two at a time, and then fails or is at its end.
    #[derive(Drop)]
    struct Pairs {
        bytes: &'static [u8],
        fails: bool,
    }

    impl Read for Pairs {
        fn read(&mut self, buf: &mut [u8]) -> io::Result<usize> {
            if self.bytes.is_empty() && self.fails {
                return Err(io::Error::from(ErrorKind::Other));
            }
            let count = self.bytes.len().min(buf.len()).min(2);
            let (front, rest) = self.bytes.split_at(count);
            buf[..count].copy_from_slice(front);
            self.bytes = rest;
            Ok(count)
        }
    }

    #[test]
    fn a_file_is_read_to_its_end_or_one_byte_past_the_limit(rt: HostRuntime) -> Result<(), Fail> {
        let cases = [
            (b"".as_slice(), 0, false, Ok(0)),
            (b"abcde".as_slice(), 5, false, Ok(5)),
            (b"abcde".as_slice(), u64::MAX, false, Ok(5)),
            (b"abcde".as_slice(), 4, false, Err(LoadFault::TooLong)),
            (b"abcde".as_slice(), 0, false, Err(LoadFault::TooLong)),
            (b"abcde".as_slice(), 5, true, Err(LoadFault::Failed)),
            (b"abcde".as_slice(), 4, true, Err(LoadFault::TooLong)),
        ];
        for (bytes, most, fails, expected) in cases {
            let mut reader = Pairs { bytes, fails };
            let read = read_whole(rt.alloc(), &mut reader, most);
            assert_eq!(rt;
                read.map(|read| read.len()),
                expected,
                "{bytes:?} up to {most}"
            );
        }
        Ok(())
    }
}
