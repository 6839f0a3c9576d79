ghost use Rattle.std.specs.Prelude.{◌≡◌, ◌≤◌, ℕ, length, take, OnOk, OnErr};
ghost use Rattle.std.specs.Io.KnownBytes.{append_known};
ghost use Rattle.ras_outside.specs.Count.{Rose};
ghost use Rattle.ras_cli.specs.Putting.{PutsFront};

use ras_outside::Sink;

/// How many bytes are put at a time.
const PIECE: usize = 4096;

/// A put failed, and a front of the text was put.
#[derive(Clone, Copy, Debug)]
pub struct CutOff;

/// Puts a text in pieces, the first of them first. Where a put fails a front of the text was put.
pub fn put_text<K: Sink>(out: &mut K, text: &[u8]) -> Result<(), CutOff>
    ensures whole { OnOk result (K.written out.new ≡ append_known (K.written out.old) text.now) }
    ensures front { OnErr result (PutsFront (K.written out.old) (K.written out.new) text.now) }
    ensures failed { OnErr result (Rose (K.faults out.old) (K.faults out.new)) }
    ensures stands { OnOk result (K.faults out.new ≡ K.faults out.old) }
{
    let mut at: usize = 0;
    while at < text.len() {
        let end = text.len().min(at + PIECE);
        match out.put(&text[at..end]) {
            Ok(()) => {}
            Err(_) => return Err(CutOff),
        }
        at = end;
    }
    Ok(())
}
