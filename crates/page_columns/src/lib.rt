// The columns of a line, written into a lent text. Each writes at a place and answers the place after.
#![tactic(auto)]

ghost use Rattle.std.specs.Prelude.{◌≡◌, [], ◌∷◌, ◌++◌, ◌+◌, ◌≤◌, length, replicate};
ghost use Rattle.text.specs.Text.{over, decimal as decimalOf, hex as hexOf};
ghost use Rattle.ledger.specs.Page.{right as rightOf, left as left_of};

// The same byte so many times.
pub fn fill(text: &mut [u8], at: usize, count: usize, byte: u8) -> usize
    requires { at + count ≤ length text.old }
    ensures { (text.new ≡ over text.old at (replicate count byte)) × (result ≡ at + count) }
{
    let end = at + count;
    text[at..end].fill(byte);
    end
}

// A number at the right end of its columns, and a space. The digits are written apart first, as their number tells where they start.
pub fn number(text: &mut [u8], at: usize, columns: usize, n: u64) -> usize
    requires { (length (decimalOf n) ≤ columns) × (at + columns + 1 ≤ length text.old) }
    ensures { (text.new ≡ over text.old at (rightOf columns (decimalOf n) ++ (32 ∷ []))) × (result ≡ at + columns + 1) }
{
    let mut digits = [0u8; 21];
    let count = text::decimal(&mut digits, 0, n, b' ');
    let end = fill(text, at, columns + 1, b' ');
    let start = end - count;
    text::put(text, start, &digits[..count])
}

// Bytes in hexadecimal at the left end of 64 columns, and the end of the line. The byte that `text::hex` writes behind the digits is written again.
pub fn digits(text: &mut [u8], at: usize, bytes: &[u8]) -> usize
    requires { (length bytes.now ≤ 32) × (at + 65 ≤ length text.old) }
    ensures { (text.new ≡ over text.old at (left_of 64 (hexOf bytes.now) ++ (10 ∷ []))) × (result ≡ at + 65) }
{
    text::hex(text, at, bytes, b' ');
    let gap = 64 - 2 * bytes.len();
    let end = fill(text, at + 2 * bytes.len(), gap, b' ');
    text[end] = b'\n';
    end + 1
}
