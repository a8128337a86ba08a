// Prints a tape's listing, each line as its TAKE is met.
#![tactic(auto)]

ghost use Rattle.std.specs.Prelude.{◌≡◌, ◌≤◌, OnOk, length};
ghost use Rattle.std.specs.Io.KnownBytes.{Appends};
ghost use Rattle.listing.specs.Listing.{sealed, first_line, listing};

use std::io;
use std::io::Write;

// The longest line has fewer bytes.
fn line_room() -> [u8; 192]
    ensures { 192 ≡ length result }
{
    [0; 192]
}

// Writes a line of the tape's listing, straight out. Tape, place and count say which: the one from this place, after so many digests.
fn write<W: Write>(out: &mut W, tape: &[u8], at: usize, count: u32, line: &[u8]) -> io::Result<()>
    requires { line.now ≡ first_line count (sealed tape.now at) }
    ensures { OnOk result (Appends (W.contents out.old) (W.contents out.new) line.now) }
{
    out.write_all(line)?;
    out.flush()
}

// A write that fails ends it.
fn print_lines<W: Write>(out: &mut W, tape: &[u8], text: &mut [u8]) -> io::Result<()>
    requires { (length tape.now ≤ 65537) × (length text.old ≡ 192) }
    ensures { OnOk result (Appends (W.contents out.old) (W.contents out.new) (listing tape.now)) }
{
    // A `loop`, as the last line tells the end: a `for` over the count would still keep the place by hand, and need an end of its own to run past.
    let mut at = 0;
    let mut count: u32 = 0;
    loop {
        let line = listing::next_line(tape, at, count, text);
        let end = line.length;
        write(out, tape, at, count, &text[..end])?;
        if !line.more {
            return Ok(());
        }
        at = line.next;
        count += 1;
    }
}

// The bytes of a writer whose bytes are known grow by the whole listing, unless a write fails.
pub fn print<W: Write>(out: &mut W, tape: &[u8]) -> io::Result<()>
    requires { length tape.now ≤ 65537 }
    ensures { OnOk result (Appends (W.contents out.old) (W.contents out.new) (listing tape.now)) }
{
    let mut text = line_room();
    print_lines(out, tape, &mut text)
}
