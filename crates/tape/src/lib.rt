// The tape run: commands are read one after the other, and each TAKE writes the digest of what its own OPEN .. TAKE fed.
#![tactic(auto)]

ghost use Rattle.std.specs.Prelude.{cond, ◌≡◌, ◌+◌, ◌^◌, ◌≤◌, ◌<◌, leb, length};
ghost use Rattle.text.specs.Text.{over};
ghost use Rattle.tape.specs.Run.{run_into, output, ran_of, next_of, first_output};
ghost use Rattle.tape.specs.Standing.{Finishes, end_of, close_of};

use hash::Hash;
use reader::{Command, Reading};
use refusals::number_of;

// The count of digests, and the refusal's number and place, 0 and 0 where the tape stopped.
#[derive(Clone, Copy)]
pub struct Ran {
    pub digests: usize,
    pub refusal: u8,
    pub place: usize,
}

// A digest's width and the place after its TAKE, or the number and place with which the run ended before one.
#[derive(Clone, Copy)]
pub enum Next {
    Taken(u16, usize),
    Ended(u8, usize),
}

// Room for a digest.
pub fn blank() -> [u8; 64]
    ensures { 64 ≡ length result }
{
    [0; 64]
}

// The bytes that a TAKE writes: none where its digest does not fit.
fn fitting(size: usize, room: usize) -> usize
    ensures { (result ≤ 64) × (result ≤ room) × (size ≤ 64 → result ≡ cond (leb size room) size 0) }
{
    if 64 < size {
        return 0;
    }
    if size <= room { size } else { 0 }
}

// The digest of an open hash, and the place after its TAKE.
fn finish(hash: Hash, at: usize, out: &mut [u8]) -> Next
    requires { at + 1 < 2 ^ 64 }
    ensures { Finishes hash at out.old out.new result }
{
    let width = hash.width;
    let size = fitting(wide(width / 8), out.len());
    let mut digest = blank();
    let taken = hash.take(&mut digest[..size]);
    text::put(out, 0, &digest[..size]);
    if number_of(taken.result) != 0 {
        return Next::Ended(6, at);
    }
    Next::Taken(width, at + 1)
}

fn refused(reading: Reading) -> Next
    ensures { result ≡ end_of reading }
{
    match reading {
        Reading::Found(_, _) => Next::Ended(0, 0),
        Reading::Refused(number, place) => Next::Ended(number, place),
    }
}

// No open hash.
fn none() -> Hash
    ensures { result.width ≡ 0 }
{
    Hash {
        width: 0,
        bits: 0,
        state: [0; 32],
        tail: [0; 128],
    }
}

// The run from a place at which no hash is open, as far as its first TAKE, whose digest goes to the front of the output.
pub fn advance(tape: &[u8], from: usize, out: &mut [u8]) -> Next
    ensures { (result ≡ next_of (run_into (length out.old) tape.now from))
        × (out.new ≡ over out.old 0 (first_output (run_into (length out.old) tape.now from))) }
{
    let mut at = from;
    let mut hash = none();
    loop {
        let reading = reader::read(tape, at);
        let Reading::Found(command, after) = reading else {
            return refused(reading);
        };
        let step = commands::obey(hash, tape, command);
        let number = step.refusal;
        if number != 0 {
            return Next::Ended(number, at);
        }
        let fresh = step.hash;
        match command {
            Command::Take => return finish(hash, at, out),
            Command::Stop => return Next::Ended(0, 0),
            _ => {}
        }
        hash = fresh;
        at = after;
    }
}

fn closing(next: Next, digests: usize) -> Ran
    ensures { result ≡ close_of next digests }
{
    match next {
        Next::Taken(_, _) => Ran {
            digests: digests,
            refusal: 0,
            place: 0,
        },
        Next::Ended(number, place) => Ran {
            digests: digests,
            refusal: number,
            place: place,
        },
    }
}

// The whole run. Digests stand straight after each other at the front of the output; a refused command leaves those before it and the rest
// of the output as they are.
pub fn run(tape: &[u8], out: &mut [u8]) -> Ran
    ensures { (result ≡ ran_of (run_into (length out.old) tape.now 0))
        × (out.new ≡ over out.old 0 (output (run_into (length out.old) tape.now 0).entries)) }
{
    let mut at = 0;
    let mut used = 0;
    let mut digests = 0;
    loop {
        let found = advance(tape, at, &mut out[used..]);
        let Next::Taken(width, after) = found else {
            return closing(found, digests);
        };
        used += wide(width / 8);
        digests += 1;
        at = after;
    }
}

fn wide(x: u16) -> usize
    ensures { result ≡ x }
{
    x as usize
}
