// The call that quotes a digest. The definition of a quote stands in `check_digits`.
#![tactic(auto)]

ghost use Rattle.std.specs.Prelude.{◌≡◌, length};
ghost use Rattle.hash.specs.Open.{written};
ghost use Rattle.refusals.specs.Numbers.{number_of};
ghost use Rattle.check_digits.specs.Quote.{quote as quoteOf};
ghost use Rattle.quote.specs.Call.{quote_refusal};

use refusals::Refusal;

// Whether a digest is quoted into so many bytes.
fn refusal(width: u16, digest: &[u8], room: usize) -> Result<(), Refusal>
    ensures { number_of result ≡ quote_refusal width digest.now room }
{
    if !expansion::is_width(width) {
        return Err(Refusal::Width);
    }
    let bytes = tail::digest_bytes(width);
    if digest.len() != bytes {
        return Err(Refusal::Block);
    }
    if room < 18 {
        return Err(Refusal::Output);
    }
    Ok(())
}

// Writes the quote of a digest. Refusals 1, 7, 6.
pub fn quote(width: u16, digest: &[u8], out: &mut [u8]) -> Result<(), Refusal>
    ensures value { number_of result ≡ quote_refusal width digest.now (length out.old) }
    ensures out_after { out.new ≡ written (quote_refusal width digest.now (length out.old))
        (quoteOf digest.now) out.old }
{
    refusal(width, digest, out.len())?;
    quote_text::write(out, 0, digest);
    Ok(())
}
