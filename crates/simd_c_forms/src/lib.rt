// The calls for C that hold a stored form: opened, fed, restored and taken. On a refusal each leaves all that it was lent as it was.
#![tactic(auto)]

ghost use Rattle.std.specs.Prelude.{◌≡◌};
ghost use Rattle.refusals.specs.Numbers.{number_of};
ghost use Rattle.hash.specs.Open.{take_answer, digest_of, written};
ghost use Rattle.hash.specs.Form.{form_of, store_refusal, store_answer, stored_by, restore_answer};
ghost use Rattle.simd_c_forms.specs.Calls.{stored, opened_hash, open_call, fed_from, feed_call, restore_call, take_call};

use hash::Hash;
use refusals::Refusal;

// The empty hash of a width, stored.
pub fn open_form(width: u16, form: &mut [u8]) -> Result<(), Refusal>
    ensures value { number_of result ≡ open_call width form.old }
    ensures form_after { form.new ≡ written (open_call width form.old) (form_of (opened_hash width)) form.old }
{
    Hash::at(width)?.write_form(form)
}

// A form restored, fed and stored again.
pub fn feed_form(form: &mut [u8], piece: &[u8], bits: u64, blocks: &mut u64) -> Result<(), Refusal>
    ensures value { number_of result ≡ feed_call form.old piece.now bits }
    ensures form_after { form.new ≡ written (feed_call form.old piece.now bits)
        (form_of (fed_from form.old piece.now bits).hash) form.old }
    ensures blocks_after { blocks.new ≡ stored (feed_call form.old piece.now bits)
        (fed_from form.old piece.now bits).blocks blocks.old }
{
    let mut hash = Hash::of_form(form)?;
    let fed = hash.absorb(piece, bits as usize)?;
    hash.write_form(form)?;
    *blocks = fed as u64;
    Ok(())
}

// What `Hash::write_form` does, not in line: there it would take a third more stack of the call, for copies of the hash's arrays.
#[inline(never)]
fn write(hash: &Hash, out: &mut [u8]) -> Result<(), Refusal>
    ensures { (stored_by hash.now result ≡ store_answer hash.now out.old)
        × (out.new ≡ written (store_refusal hash.now out.old) (form_of hash.now) out.old) }
{
    hash.write_form(out)
}

// A form, of today's size or the old one, restored and stored in another place.
pub fn restore_form(given: &[u8], out: &mut [u8]) -> Result<(), Refusal>
    ensures value { number_of result ≡ restore_call given.now out.old }
    ensures out_after { out.new ≡ written (restore_call given.now out.old)
        (form_of (restore_answer given.now).hash) out.old }
{
    write(&Hash::of_form(given)?, out)
}

// A form restored and taken.
pub fn take_form(form: &[u8], out: &mut [u8], blocks: &mut u64) -> Result<(), Refusal>
    ensures value { number_of result ≡ take_call form.now out.old }
    ensures out_after { out.new ≡ written (take_call form.now out.old)
        (digest_of (restore_answer form.now).hash) out.old }
    ensures blocks_after { blocks.new ≡ stored (take_call form.now out.old)
        (take_answer (restore_answer form.now).hash out.old).blocks blocks.old }
{
    let hash = Hash::of_form(form)?;
    let taken = hash.write_digest(out)?;
    *blocks = taken as u64;
    Ok(())
}
