ghost use Rattle.std.specs.Prelude.{◌≡◌, ◌≤◌, IfErr, OnOk, length, take, None};
ghost use Rattle.std.specs.Io.KnownBytes.{Appends};
ghost use Rattle.ras_outside.specs.SinkFault.{taken_of};

use crate::sink::{Sink, SinkFault};
use std::io;
use std::io::Write;
use std::marker::Model;

#[derive(Clone, Copy)]
enum Stream {
    Output,
    Error,
}

/// A standard stream of the process. It tells nothing of what was written.
#[derive(Drop)]
pub struct StdSink<R: Print + Eprint + Drop> {
    runtime: R,
    stream: Stream,
    faults: u64,
}

// It is seen as its count of faults.
impl<R: Print + Eprint + Drop> Model for StdSink<R> {
    ghost use Rattle.std.specs.Prelude.{ℕ};

    ghost Value = { ℕ };

    ghost view = { λ s. s.faults };
}

impl<R: Print + Eprint + Drop> StdSink<R> {
    /// The standard output.
    pub fn output(rt: R) -> StdSink<R>
        ensures { result ≡ 0 }
    {
        StdSink {
            runtime: rt,
            stream: Stream::Output,
            faults: 0,
        }
    }

    /// The standard error. It takes text alone: a put fails at the first bytes that are none.
    pub fn error(rt: R) -> StdSink<R>
        ensures { result ≡ 0 }
    {
        StdSink {
            runtime: rt,
            stream: Stream::Error,
            faults: 0,
        }
    }
}

impl<R: Print + Eprint + Drop> Sink for StdSink<R> {
    ghost written = { λ _. None };

    ghost faults = { λ s. s };

    fn put(&mut self, bytes: &[u8]) -> Result<(), SinkFault> {
        let outcome = match self.stream {
            Stream::Output => write_whole(&mut io::writer(&self.runtime), bytes),
            Stream::Error => write_whole(&mut ErrorWriter(&self.runtime), bytes),
        };
        if outcome.is_err() {
            self.faults = self.faults.saturating_add(1);
        }
        outcome
    }
}

// The standard error as a writer. It takes the text that a piece begins with.
#[derive(Drop)]
struct ErrorWriter<'a, R>(&'a R);

impl<R: Eprint> Write for ErrorWriter<'_, R> {
    fn write(&mut self, buf: &[u8]) -> io::Result<usize> {
        let text = leading_text(buf);
        self.0.eprint(text)?;
        Ok(text.len())
    }

    fn flush(&mut self) -> io::Result<()> {
        Ok(())
    }
}

fn leading_text(bytes: &[u8]) -> &str
    ensures { length result.now ≤ length bytes.now }
{
    match bytes.utf8_chunks().next() {
        Some(chunk) => chunk.valid(),
        None => "",
    }
}

// Writes all of the bytes, or as many as the writer takes before an error. A write that takes none
// is an error.
fn write_whole<W: Write>(writer: &mut W, bytes: &[u8]) -> Result<(), SinkFault>
    ensures ok { OnOk result (Appends (W.contents writer.old) (W.contents writer.new) bytes.now) }
    ensures taken { IfErr result (λ fault. taken_of fault ≤ length bytes.now) }
    ensures first { IfErr result (λ fault.
        Appends (W.contents writer.old) (W.contents writer.new) (take (taken_of fault) bytes.now)) }
{
    let mut taken = 0;
    while taken < bytes.len() {
        match writer.write(&bytes[taken..]) {
            Ok(0) | Err(_) => {
                return Err(SinkFault::Failed {
                    taken: taken as u64,
                });
            }
            Ok(count) => taken += count,
        }
    }
    Ok(())
}

#[cfg(test)]
mod tests {
    use super::{StdSink, leading_text, write_whole};
    use crate::{Sink, SinkFault};
    use std::fmt::Display;
    use std::io;
    use std::io::{ErrorKind, Write};

    // A runtime whose output is closed, and whose error stream takes all.
    #[derive(Clone, Copy)]
    struct ClosedOutput;

    impl Print for ClosedOutput {
        fn print<D: Display + Drop>(&self, _value: D) -> io::Result<()> {
            Err(io::Error::from(ErrorKind::BrokenPipe))
        }

        fn println<D: Display + Drop>(&self, _value: D) -> io::Result<()> {
            Err(io::Error::from(ErrorKind::BrokenPipe))
        }

        fn write_all(&self, _bytes: &[u8]) -> io::Result<()> {
            Err(io::Error::from(ErrorKind::BrokenPipe))
        }
    }

    impl Eprint for ClosedOutput {
        fn eprint<D: Display + Drop>(&self, _value: D) -> io::Result<()> {
            Ok(())
        }

        fn eprintln<D: Display + Drop>(&self, _value: D) -> io::Result<()> {
            Ok(())
        }
    }

    #[test]
    fn each_sink_writes_to_its_own_stream(rt: HostRuntime) {
        let mut output = StdSink::output(ClosedOutput);
        let mut error = StdSink::error(ClosedOutput);
        assert_eq!(rt; output.put(b"abc"), Err(SinkFault::Failed { taken: 0 }));
        assert_eq!(rt; output.put(b""), Ok(()));
        assert_eq!(rt; error.put(b"abc"), Ok(()));
    }

    // Takes two bytes at a time, and in the end none or an error.
    #[derive(Drop)]
    struct Pairs {
        room: usize,
        fails: bool,
    }

    impl Write for Pairs {
        fn write(&mut self, buf: &[u8]) -> io::Result<usize> {
            if self.room == 0 && self.fails {
                return Err(io::Error::from(ErrorKind::Other));
            }
            let count = self.room.min(buf.len()).min(2);
            self.room -= count;
            Ok(count)
        }

        fn flush(&mut self) -> io::Result<()> {
            Ok(())
        }
    }

    #[test]
    fn a_write_that_fails_or_takes_nothing_ends_the_put(rt: HostRuntime) {
        let cases = [
            (0, 0, Ok(())),
            (5, 5, Ok(())),
            (5, 9, Ok(())),
            (5, 0, Err(SinkFault::Failed { taken: 0 })),
            (5, 3, Err(SinkFault::Failed { taken: 3 })),
        ];
        for (len, room, expected) in cases {
            for fails in [false, true] {
                let mut writer = Pairs { room, fails };
                let put = write_whole(&mut writer, &b"abcde"[..len]);
                assert_eq!(rt; put, expected, "{len} bytes into room for {room}");
            }
        }
    }

    #[test]
    fn the_text_that_a_piece_begins_with_is_found(rt: HostRuntime) {
        for (bytes, text) in [
            (b"".as_slice(), ""),
            (b"ab\n".as_slice(), "ab\n"),
            (b"ab\xffcd".as_slice(), "ab"),
            (b"\xffcd".as_slice(), ""),
        ] {
            assert_eq!(rt; leading_text(bytes), text);
        }
    }
}
