// The lines that `seal` prints, written to the front of a lent text. Each answers its length.
#![tactic(auto)]

ghost use Rattle.std.specs.Prelude.{◌≡◌, ◌≤◌, length};
ghost use Rattle.text.specs.Text.{over};
ghost use Rattle.lines.specs.Lines.{digest_line, done_line, refused_line};

// Line k of the digests: `digest`, k, the width, the digest and its quote.
pub fn digest_line(text: &mut [u8], number: usize, width: u16, digest: &[u8]) -> usize
    requires { (192 ≤ length text.old) × (8 ≤ length digest.now) × (length digest.now ≤ 64) }
    ensures { (text.new ≡ over text.old 0 (digest_line number width digest.now))
        × (result ≡ length (digest_line number width digest.now)) }
{
    let next = text::put(text, 0, b"digest ");
    let next = text::decimal(text, next, number as u64, b' ');
    let next = text::decimal(text, next, u64::from(width), b' ');
    let next = text::hex(text, next, digest, b' ');
    let next = quote_text::write(text, next, digest);
    text[next] = b'\n';
    next + 1
}

pub fn done_line(text: &mut [u8], count: usize) -> usize
    requires { 192 ≤ length text.old }
    ensures { (text.new ≡ over text.old 0 (done_line count)) × (result ≡ length (done_line count)) }
{
    let next = text::put(text, 0, b"done ");
    text::decimal(text, next, count as u64, b'\n')
}

pub fn refused_line(text: &mut [u8], number: u8, place: usize) -> usize
    requires { 192 ≤ length text.old }
    ensures { (text.new ≡ over text.old 0 (refused_line number place)) × (result ≡ length (refused_line number place)) }
{
    let next = text::put(text, 0, b"refused ");
    let next = text::decimal(text, next, u64::from(number), b' ');
    let next = text::put(text, next, b"at ");
    text::decimal(text, next, place as u64, b'\n')
}
