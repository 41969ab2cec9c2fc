// Input as a stream of bytes.
#![tactic(auto)]

ghost use Rattle.std.specs.Prelude.{ℕ, ◌≤◌, ◌<◌, length, take, IfOk, OnErr};
ghost use Rattle.std.specs.Io.KnownBytes.{Consumes, IsAtEnd};

use std::io;
use std::io::Read;

// Reads until the buffer is full or the stream ends, also where one read gives less than there is room for, and answers how many bytes
// stand at the buffer's start. After an error the bytes that were taken from the stream stand there.
pub fn read_full<S: Read>(stream: &mut S, buffer: &mut [u8]) -> io::Result<usize>
    ensures within { IfOk result (λ n. n ≤ length buffer.new) }
    ensures bytes { IfOk result (λ n. Consumes (S.remaining stream.old) (S.remaining stream.new) (take n buffer.new)) }
    ensures whole { IfOk result (λ n. n < length buffer.new → IsAtEnd (S.remaining stream.new)) }
    ensures err { OnErr result ((n : ℕ) × Consumes (S.remaining stream.old) (S.remaining stream.new) (take n buffer.new)) }
{
    let mut done = 0;
    // A turn goes on by as many bytes as its read gave, and the library's read_exact does not say how many came before the end.
    while done < buffer.len() {
        let read = stream.read(&mut buffer[done..])?;
        if read == 0 {
            return Ok(done);
        }
        done += read;
    }
    Ok(done)
}
