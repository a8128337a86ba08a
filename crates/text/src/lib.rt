// Numbers and bytes as text, written into a lent text. Each writes at a place and answers the place after.
// Text and place stay two parameters: a cursor that holds both must be lent for each line too, and every clause would say `line.text` and `line.at`
// where it now says `text` and `at`.
#![tactic(auto)]

ghost use Rattle.std.specs.Prelude.{◌≡◌, [], ◌∷◌, ◌++◌, ◌+◌, ◌*◌, ◌≤◌, ◌<◌, length};
ghost use Rattle.text.specs.Text.{over, digits as digitsOf, decimal as decimalOf, glyph as glyphOf, hex as hexOf, digit_of};

pub fn put(text: &mut [u8], at: usize, s: &[u8]) -> usize
    requires { at + length s.now ≤ length text.old }
    ensures { (text.new ≡ over text.old at s.now) × (result ≡ at + length s.now) }
{
    let end = at + s.len();
    text[at..end].copy_from_slice(s);
    end
}

// A number and the byte after it.
pub fn decimal(text: &mut [u8], at: usize, n: u64, end: u8) -> usize
    requires { at + 21 ≤ length text.old }
    ensures { (text.new ≡ over text.old at (decimalOf n ++ (end ∷ [])))
        × (result ≡ at + length (decimalOf n ++ (end ∷ []))) × (result ≤ at + 21) }
{
    let next = digits(text, at, 20, n);
    text[next] = end;
    next + 1
}

fn digits(text: &mut [u8], at: usize, most: usize, n: u64) -> usize
    requires { at + most ≤ length text.old }
    ensures { (text.new ≡ over text.old at (digitsOf most n)) × (result ≡ at + length (digitsOf most n)) × (result ≤ at + most) }
{
    if most == 0 {
        return at;
    }
    if n < 10 {
        text[at] = digit(n);
        return at + 1;
    }
    let next = digits(text, at, most - 1, n / 10);
    text[next] = digit(n % 10);
    next + 1
}

pub fn digit(d: u64) -> u8
    requires { d < 10 }
    ensures { result ≡ 48 + d }
{
    b'0' + d as u8
}

// Bytes in hexadecimal and the byte after them.
pub fn hex(text: &mut [u8], at: usize, bytes: &[u8], end: u8) -> usize
    requires { at + 2 * length bytes.now + 1 ≤ length text.old }
    ensures { (text.new ≡ over text.old at (hexOf bytes.now ++ (end ∷ [])))
        × (result ≡ at + length (hexOf bytes.now ++ (end ∷ []))) × (result ≡ at + 2 * length bytes.now + 1) }
{
    for (i, b) in bytes.iter().enumerate() {
        text[at + 2 * i] = glyph(b / 16);
        text[at + 2 * i + 1] = glyph(b % 16);
    }
    let next = at + 2 * bytes.len();
    text[next] = end;
    next + 1
}

#[tactic(auto, unfolding(crate::specs::Text::glyph))]
fn glyph(d: u8) -> u8
    requires { d < 16 }
    ensures { result ≡ glyphOf d }
{
    if d < 10 { b'0' + d } else { b'a' - 10 + d }
}

// The value of a hexadecimal digit in lower case; 16 for any other character, and no Option: its clause and the definition `digit_of` say 16, so that
// a digit below k is a character whose value is below k.
#[tactic(auto, unfolding(crate::specs::Text::digit_of))]
pub fn digit_of(c: u8) -> u64
    ensures { (result ≡ digit_of c) × (result ≤ 16) }
{
    match c {
        b'0'..=b'9' => u64::from(c - b'0'),
        b'a'..=b'f' => u64::from(c - b'a') + 10,
        _ => 16,
    }
}
