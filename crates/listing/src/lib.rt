// What `seal` prints, line by line.
#![tactic(auto)]

ghost use Rattle.std.specs.Prelude.{◌≡◌, ◌+◌, ◌≤◌, ◌<◌, length};
ghost use Rattle.text.specs.Text.{over};
ghost use Rattle.listing.specs.Listing.{sealed, line_of, text_of, last_line};
ghost use Rattle.listing.specs.Ending.{end_text, end_line};

use tape::Next;

// The line's bytes in the text, the place at which the next one starts, and whether there is a next one. `refusal` is 6 where the text lent
// is too short for any line, and then all else is 0.
#[derive(Clone, Copy)]
pub struct Line {
    pub refusal: u8,
    pub length: usize,
    pub next: usize,
    pub more: bool,
}

// The line from a place at which no hash is open, after so many digests.
pub fn next_line(tape: &[u8], at: usize, count: u32, text: &mut [u8]) -> Line
    ensures { (result ≡ line_of (length text.old) count (sealed tape.now at))
        × (text.new ≡ text_of text.old count (sealed tape.now at)) }
{
    if text.len() < 192 {
        return Line {
            refusal: 6,
            length: 0,
            next: 0,
            more: false,
        };
    }
    if 65536 < tape.len() {
        return last(Next::Ended(13, 65536), count, text);
    }
    let mut digest = tape::blank();
    let found = tape::advance(tape, at, &mut digest);
    let Next::Taken(width, next) = found else {
        return last(found, count, text);
    };
    let size = wide(width / 8);
    let length = lines::digest_line(text, above(count), width, &digest[..size]);
    Line {
        refusal: 0,
        length: length,
        next: next,
        more: true,
    }
}

// The last line.
fn last(end: Next, count: u32, text: &mut [u8]) -> Line
    requires { 192 ≤ length text.old }
    ensures { (result ≡ end_line end count) × (text.new ≡ over text.old 0 (end_text end count)) }
{
    match end {
        Next::Taken(_, _) => Line {
            refusal: 0,
            length: 0,
            next: 0,
            more: false,
        },
        Next::Ended(number, place) => {
            let length = ending(number, place, count, text);
            Line {
                refusal: 0,
                length: length,
                next: 0,
                more: false,
            }
        }
    }
}

fn ending(number: u8, place: usize, count: u32, text: &mut [u8]) -> usize
    requires { 192 ≤ length text.old }
    ensures { (result ≡ length (last_line count number place)) × (text.new ≡ over text.old 0 (last_line count number place)) }
{
    if number == 0 {
        return lines::done_line(text, count as usize);
    }
    lines::refused_line(text, number, place)
}

fn wide(x: u16) -> usize
    ensures { result ≡ x }
{
    x as usize
}

fn above(x: u32) -> usize
    ensures { result ≡ x + 1 }
{
    x as usize + 1
}
