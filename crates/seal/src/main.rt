// Reads a tape from standard input and prints its listing: a line for each digest, and a last line with the count of digests or the refusal.
// What is printed is worked out by the library; here it is only read and written. A read or a write that fails is reported on standard error, and
// the status is 0 even so.
#![tactic(auto)]

ghost use Rattle.std.specs.Prelude.{◌≡◌, IfSome, OnOk, length};
ghost use Rattle.std.specs.Io.KnownBytes.{Appends};
ghost use Rattle.listing.specs.Listing.{listing};

use std::io;
use std::io::{Read, Write};

// A read or a write that failed.
#[derive(Drop)]
enum Failure {
    Input(io::Error),
    Output(io::Error),
}

// One byte more than the longest tape, so that a longer one is found out.
fn room() -> [u8; 65537]
    ensures { 65537 ≡ length result }
{
    [0; 65537]
}

// Where the bytes of the input and of the output are known: unless it fails, the output grows by the listing of the input.
fn seal<R: Read, W: Write>(input: &mut R, output: &mut W) -> Result<(), Failure>
    ensures { OnOk result (IfSome (R.remaining input.old) (λ tape. Appends (W.contents output.old) (W.contents output.new) (listing tape))) }
{
    let mut tape = room();
    let size = seal_input::read_tape(input, &mut tape).map_err(Failure::Input)?;
    seal_output::print(output, &tape[..size]).map_err(Failure::Output)?;
    Ok(())
}

// Says what failed and why, as `seal: standard input: Is a directory`.
fn report(rt: &(impl Eprint + Alloc), what: &str, error: io::Error) -> io::Result<()> {
    let mut why = format!(in rt.alloc(); "{error}")?;
    // The system's words alone, without the error's number behind them.
    if let Some(end) = why.find(" (os error ") {
        why.truncate(end);
    }
    eprintln!(rt; "seal: {what}: {why}")
}

fn main(rt: HostRuntime) {
    let _ = match seal(&mut rt.stdin(), &mut rt.stdout()) {
        Ok(()) => Ok(()),
        Err(Failure::Input(error)) => report(&rt, "standard input", error),
        Err(Failure::Output(error)) => report(&rt, "standard output", error),
    };
}
