// The lines of an entry that is not refused, written to the front of a lent text.
#![tactic(auto)]

ghost use Rattle.std.specs.Prelude.{◌≡◌, ◌≤◌, length};
ghost use Rattle.text.specs.Text.{over, decimal};
ghost use Rattle.ledger.specs.Page.{front as frontOf, entry_lines, print_refusal};

// The first 11 columns of an entry.
fn front(text: &mut [u8], number: u64, width: u16) -> usize
    requires { (length (decimal number) ≤ 6) × (length (decimal width) ≤ 3) × (11 ≤ length text.old) }
    ensures { (text.new ≡ over text.old 0 (frontOf number width)) × (result ≡ 11) }
{
    let next = page_columns::number(text, 0, 6, number);
    page_columns::number(text, next, 3, u64::from(width))
}

// All lines of an entry: one line holds the digits of 32 bytes.
pub fn print(text: &mut [u8], number: u64, width: u16, digest: &[u8])
    requires { print_refusal number width digest.now (length text.old) ≡ 0 }
    ensures { text.new ≡ over text.old 0 (entry_lines number width digest.now) }
{
    let at = front(text, number, width);
    if digest.len() <= 32 {
        page_columns::digits(text, at, digest);
        return;
    }
    let second = page_columns::digits(text, at, &digest[..32]);
    let rest = page_columns::fill(text, second, 11, b' ');
    page_columns::digits(text, rest, &digest[32..]);
}
