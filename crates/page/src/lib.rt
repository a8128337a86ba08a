// One entry of a page for the ledger binder. The definition of its lines stands in `ledger`.
#![tactic(auto)]

ghost use Rattle.std.specs.Prelude.{◌≡◌, length};
ghost use Rattle.hash.specs.Open.{written};
ghost use Rattle.refusals.specs.Numbers.{number_of};
ghost use Rattle.ledger.specs.Page.{entry_lines, entry_bytes, print_refusal};

use refusals::Refusal;

// The bytes of an entry's lines.
fn entry_bytes(width: u16) -> usize
    ensures { result ≡ entry_bytes width }
{
    if 2 * tail::digest_bytes(width) <= 64 {
        76
    } else {
        152
    }
}

// Whether an entry is printed into so many bytes.
fn refusal(number: u64, width: u16, digest: &[u8], room: usize) -> Result<(), Refusal>
    ensures { number_of result ≡ print_refusal number width digest.now room }
{
    if !expansion::is_width(width) {
        return Err(Refusal::Width);
    }
    let bytes = tail::digest_bytes(width);
    let lines = entry_bytes(width);
    if digest.len() != bytes {
        return Err(Refusal::Block);
    }
    if 999_999 < number {
        return Err(Refusal::Entry);
    }
    if room < lines {
        return Err(Refusal::Output);
    }
    Ok(())
}

// Prints one entry: its number, its width and its digest. Refusals 1, 7, 14, 6.
pub fn entry(number: u64, width: u16, digest: &[u8], out: &mut [u8]) -> Result<(), Refusal>
    ensures value { number_of result ≡ print_refusal number width digest.now (length out.old) }
    ensures out_after { out.new ≡ written (print_refusal number width digest.now (length out.old))
        (entry_lines number width digest.now) out.old }
{
    refusal(number, width, digest, out.len())?;
    page_lines::print(out, number, width, digest);
    Ok(())
}
