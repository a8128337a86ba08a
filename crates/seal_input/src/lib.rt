// Reads a tape from an input, as standard input.
#![tactic(auto)]

ghost use Rattle.std.specs.Prelude.{◌≡◌, ◌<◌, ◌≤◌, IfOk, length, take};
ghost use Rattle.std.specs.Io.KnownBytes.{Consumes, IsAtEnd};

use std::io;
use std::io::{ErrorKind, Read};

// Reads until the tape's room is full, the input ends or a read fails. The bytes read come first in the tape, and where room is left no byte of the
// input is. What the last two clauses say holds of an input whose bytes are known.
pub fn read_tape<R: Read>(input: &mut R, tape: &mut [u8]) -> io::Result<usize>
    ensures within { IfOk result (λ size. size ≤ length tape.new) }
    ensures bytes { IfOk result (λ size. Consumes (R.remaining input.old) (R.remaining input.new) (take size tape.new)) }
    ensures end { IfOk result (λ size. size < length tape.new → IsAtEnd (R.remaining input.new)) }
{
    // A `while`, as each turn goes on by what its read gave, and not by one.
    let mut size = 0;
    while size < tape.len() {
        let more = read_some(input, &mut tape[size..])?;
        if more == 0 {
            return Ok(size);
        }
        size += more;
    }
    Ok(size)
}

// One read, tried again where a signal cut it short. What the last try answers is the answer.
fn read_some<R: Read>(input: &mut R, room: &mut [u8]) -> io::Result<usize>
    ensures within { IfOk result (λ more. more ≤ length room.new) }
    ensures bytes { IfOk result (λ more. Consumes (R.remaining input.old) (R.remaining input.new) (take more room.new)) }
    ensures end { IfOk result (λ more. more ≡ 0 → 0 < length room.old → IsAtEnd (R.remaining input.new)) }
{
    for _ in 0..u64::MAX {
        match input.read(room) {
            Err(e) if e.kind() == ErrorKind::Interrupted => {}
            answer => return answer,
        }
    }
    input.read(room)
}
