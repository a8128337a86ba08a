// The door for C: each call is total, returns the refusal's number or 0, and on a refusal leaves all that it was lent as it was;
// a tape keeps the digests before the refused command, and its count and place are told.
// include/simd.h is its manual. The hash travels as its stored form.
#![tactic(auto)]

ghost use Rattle.std.specs.Prelude.{cond, ◌≡◌, length};
ghost use Rattle.simd.specs.Basic.{family_of};
ghost use Rattle.simd.specs.Message.{message as messageOf};
ghost use Rattle.simd.specs.Hash.{digest, compressions};
ghost use Rattle.hash.specs.Open.{take_answer, digest_of, written};
ghost use Rattle.hash.specs.Form.{form_of, restore_answer};
ghost use Rattle.digest.specs.Call.{digest_refusal};
ghost use Rattle.checkpoints.specs.Index.{index_of, corrected_index, corrected_digest, corrected_compressions};
ghost use Rattle.checkpoints.specs.Calls.{index_refusal, reindex_refusal};
ghost use Rattle.hmac_key.specs.Hmac.{tag as tagOfMessage};
ghost use Rattle.hmac.specs.Keyed.{take_answer as takeAnswerKeyed, check_answer, tag_of};
ghost use Rattle.hmac.specs.Form.{keyed_form, restore_answer as restoreKeyed};
ghost use Rattle.hmac_tag.specs.Call.{tag_refusal};
ghost use Rattle.pairs.specs.Answer.{answer};
ghost use Rattle.expansion.specs.Call.{expand_refusal, expand_output};
ghost use Rattle.stepping.specs.Call.{steps_refusal, steps_output, forward, backward};
ghost use Rattle.tape.specs.Run.{ran_of, output};
ghost use Rattle.text.specs.Text.{over};
ghost use Rattle.ledger.specs.Page.{entry_lines, print_refusal};
ghost use Rattle.check_digits.specs.Quote.{quote as quoteOf, is_right};
ghost use Rattle.quote.specs.Call.{quote_refusal};
ghost use Rattle.simd_c_forms.specs.Calls.{stored, opened_hash, open_call, fed_from, feed_call, restore_call, take_call};
ghost use Rattle.simd_c_hmac.specs.Calls.{opened_hmac, open_call as openKeyed, fed_from as fedKeyed, feed_call as feedKeyed, take_call as takeKeyed};
ghost use Rattle.simd_c_hmac.specs.Calls.{check_call, yes};
ghost use Rattle.simd_c_answers.specs.Calls.{refusal_of, verdict_after, block_after, run_within, placed};

use refusals::number_of;

#[unsafe(no_mangle)]
pub extern "C" fn simd_open(width: u16, form: &mut [u8]) -> u8
    ensures value { result ≡ open_call width form.old }
    ensures form_after { form.new ≡ written (open_call width form.old) (form_of (opened_hash width)) form.old }
{
    number_of(simd_c_forms::open_form(width, form))
}

#[unsafe(no_mangle)]
pub extern "C" fn simd_feed(form: &mut [u8], piece: &[u8], bits: u64, blocks: &mut u64) -> u8
    ensures value { result ≡ feed_call form.old piece.now bits }
    ensures form_after { form.new ≡ written (feed_call form.old piece.now bits)
        (form_of (fed_from form.old piece.now bits).hash) form.old }
    ensures blocks_after { blocks.new ≡ stored (feed_call form.old piece.now bits)
        (fed_from form.old piece.now bits).blocks blocks.old }
{
    number_of(simd_c_forms::feed_form(form, piece, bits, blocks))
}

#[unsafe(no_mangle)]
pub extern "C" fn simd_restore(given: &[u8], form: &mut [u8]) -> u8
    ensures value { result ≡ restore_call given.now form.old }
    ensures form_after { form.new ≡ written (restore_call given.now form.old)
        (form_of (restore_answer given.now).hash) form.old }
{
    number_of(simd_c_forms::restore_form(given, form))
}

#[unsafe(no_mangle)]
pub extern "C" fn simd_take(form: &[u8], out: &mut [u8], blocks: &mut u64) -> u8
    ensures value { result ≡ take_call form.now out.old }
    ensures out_after { out.new ≡ written (take_call form.now out.old)
        (digest_of (restore_answer form.now).hash) out.old }
    ensures blocks_after { blocks.new ≡ stored (take_call form.now out.old)
        (take_answer (restore_answer form.now).hash out.old).blocks blocks.old }
{
    number_of(simd_c_forms::take_form(form, out, blocks))
}

#[unsafe(no_mangle)]
pub extern "C" fn simd_hash(width: u16, message: &[u8], bits: u64, out: &mut [u8]) -> u8
    ensures value { result ≡ digest_refusal width message.now bits (length out.old) }
    ensures out_after { out.new ≡ written (digest_refusal width message.now bits (length out.old))
        (digest width (messageOf message.now bits)) out.old }
{
    number_of(digest::digest(width, message, bits as usize, out))
}

#[unsafe(no_mangle)]
pub extern "C" fn simd_index(
    width: u16,
    message: &[u8],
    bits: u64,
    index: &mut [u8],
    out: &mut [u8],
    blocks: &mut u64,
) -> u8
    ensures value { result ≡ index_refusal width message.now bits (length index.old) (length out.old) }
    ensures index_after { index.new
        ≡ written (index_refusal width message.now bits (length index.old) (length out.old))
        (index_of width (messageOf message.now bits)) index.old }
    ensures out_after { out.new
        ≡ written (index_refusal width message.now bits (length index.old) (length out.old))
        (digest width (messageOf message.now bits)) out.old }
    ensures blocks_after { blocks.new
        ≡ stored (index_refusal width message.now bits (length index.old) (length out.old))
        (compressions (family_of width) bits) blocks.old }
{
    number_of(index::index(width, message, bits as usize, index, out, blocks))
}

#[unsafe(no_mangle)]
pub extern "C" fn simd_reindex(
    width: u16,
    message: &[u8],
    bits: u64,
    old: &[u8],
    block: u64,
    index: &mut [u8],
    out: &mut [u8],
    blocks: &mut u64,
) -> u8
    ensures value { result
        ≡ reindex_refusal width message.now bits old.now block (length index.old) (length out.old) }
    ensures index_after { index.new
        ≡ written (reindex_refusal width message.now bits old.now block (length index.old) (length out.old))
        (corrected_index width old.now (messageOf message.now bits) block) index.old }
    ensures out_after { out.new
        ≡ written (reindex_refusal width message.now bits old.now block (length index.old) (length out.old))
        (corrected_digest width old.now (messageOf message.now bits) block) out.old }
    ensures blocks_after { blocks.new
        ≡ stored (reindex_refusal width message.now bits old.now block (length index.old) (length out.old))
        (corrected_compressions (family_of width) bits block) blocks.old }
{
    number_of(index::reindex(
        width,
        message,
        bits as usize,
        old,
        block,
        index,
        out,
        blocks,
    ))
}

#[unsafe(no_mangle)]
pub extern "C" fn simd_hmac_open(width: u16, key: &[u8], form: &mut [u8]) -> u8
    ensures value { result ≡ openKeyed width key.now form.old }
    ensures form_after { form.new ≡ written (openKeyed width key.now form.old)
        (keyed_form (opened_hmac width key.now)) form.old }
{
    number_of(simd_c_hmac::open_form(width, key, form))
}

#[unsafe(no_mangle)]
pub extern "C" fn simd_hmac_feed(form: &mut [u8], piece: &[u8], bits: u64, blocks: &mut u64) -> u8
    ensures value { result ≡ feedKeyed form.old piece.now bits }
    ensures form_after { form.new ≡ written (feedKeyed form.old piece.now bits)
        (keyed_form (fedKeyed form.old piece.now bits).hmac) form.old }
    ensures blocks_after { blocks.new ≡ stored (feedKeyed form.old piece.now bits)
        (fedKeyed form.old piece.now bits).blocks blocks.old }
{
    number_of(simd_c_hmac::feed_form(form, piece, bits, blocks))
}

#[unsafe(no_mangle)]
pub extern "C" fn simd_hmac_take(form: &[u8], tag: &mut [u8], blocks: &mut u64) -> u8
    ensures value { result ≡ takeKeyed form.now tag.old }
    ensures tag_after { tag.new ≡ written (takeKeyed form.now tag.old)
        (tag_of (restoreKeyed form.now).hmac) tag.old }
    ensures blocks_after { blocks.new ≡ stored (takeKeyed form.now tag.old)
        (takeAnswerKeyed (restoreKeyed form.now).hmac tag.old).blocks blocks.old }
{
    number_of(simd_c_hmac::take_form(form, tag, blocks))
}

#[unsafe(no_mangle)]
pub extern "C" fn simd_hmac_check(form: &[u8], tag: &[u8], right: &mut u64) -> u8
    ensures value { result ≡ check_call form.now tag.now }
    ensures right_after { right.new ≡ stored (check_call form.now tag.now)
        (yes (check_answer (restoreKeyed form.now).hmac tag.now).right) right.old }
{
    number_of(simd_c_hmac::check_form(form, tag, right))
}

#[unsafe(no_mangle)]
pub extern "C" fn simd_hmac(width: u16, key: &[u8], message: &[u8], bits: u64, tag: &mut [u8]) -> u8
    ensures value { result ≡ tag_refusal width key.now message.now bits (length tag.old) }
    ensures tag_after { tag.new
        ≡ written (tag_refusal width key.now message.now bits (length tag.old))
        (tagOfMessage width key.now (messageOf message.now bits)) tag.old }
{
    number_of(hmac_tag::tag(width, key, message, bits as usize, tag))
}

#[unsafe(no_mangle)]
pub extern "C" fn simd_expand(width: u16, last: bool, block: &[u8], out: &mut [u32]) -> u8
    ensures value { result ≡ expand_refusal width (length block.now) (length out.old) }
    ensures out_after { out.new ≡ expand_output width last block.now out.old }
{
    number_of(expansion::expand(width, last, block, out))
}

#[unsafe(no_mangle)]
pub extern "C" fn simd_steps(
    width: u16,
    last: bool,
    state: &[u8],
    block: &[u8],
    out: &mut [u8],
) -> u8
    ensures value { result ≡ steps_refusal width (length state.now) (length block.now) (length out.old) }
    ensures out_after { out.new ≡ steps_output forward width last state.now block.now out.old }
{
    number_of(stepping::run_steps(width, last, state, block, out))
}

#[unsafe(no_mangle)]
pub extern "C" fn simd_unsteps(
    width: u16,
    last: bool,
    state: &[u8],
    block: &[u8],
    out: &mut [u8],
) -> u8
    ensures value { result ≡ steps_refusal width (length state.now) (length block.now) (length out.old) }
    ensures out_after { out.new ≡ steps_output backward width last state.now block.now out.old }
{
    number_of(stepping::run_unsteps(width, last, state, block, out))
}

#[unsafe(no_mangle)]
pub extern "C" fn simd_compare(
    width: u16,
    a: &[u8],
    a_bits: u64,
    b: &[u8],
    b_bits: u64,
    verdict: &mut u64,
    block: &mut u64,
) -> u8
    ensures value { result ≡ refusal_of (answer width a.now a_bits b.now b_bits) }
    ensures verdict_after { verdict.new ≡ verdict_after (answer width a.now a_bits b.now b_bits) verdict.old }
    ensures block_after { block.new ≡ block_after (answer width a.now a_bits b.now b_bits) block.old }
{
    simd_c_answers::compare_messages(width, a, a_bits, b, b_bits, verdict, block)
}

#[unsafe(no_mangle)]
pub extern "C" fn simd_tape(tape: &[u8], out: &mut [u8], count: &mut u64, place: &mut u64) -> u8
    ensures value { result ≡ (ran_of (run_within tape.now out.old)).refusal }
    ensures out_after { out.new ≡ over out.old 0 (output (run_within tape.now out.old).entries) }
    ensures count_after { count.new ≡ (ran_of (run_within tape.now out.old)).digests }
    ensures place_after { place.new ≡ placed (ran_of (run_within tape.now out.old)).refusal
        (ran_of (run_within tape.now out.old)).place place.old }
{
    simd_c_answers::run_tape(tape, out, count, place)
}

#[unsafe(no_mangle)]
pub extern "C" fn simd_page_entry(number: u64, width: u16, digest: &[u8], out: &mut [u8]) -> u8
    ensures value { result ≡ print_refusal number width digest.now (length out.old) }
    ensures out_after { out.new ≡ written (print_refusal number width digest.now (length out.old))
        (entry_lines number width digest.now) out.old }
{
    number_of(page::entry(number, width, digest, out))
}

#[unsafe(no_mangle)]
pub extern "C" fn simd_quote(width: u16, digest: &[u8], out: &mut [u8]) -> u8
    ensures value { result ≡ quote_refusal width digest.now (length out.old) }
    ensures out_after { out.new ≡ written (quote_refusal width digest.now (length out.old))
        (quoteOf digest.now) out.old }
{
    number_of(quote::quote(width, digest, out))
}

#[unsafe(no_mangle)]
pub extern "C" fn simd_quote_check(quote: &[u8], right: &mut u64) -> u8
    ensures value { result ≡ 0 }
    ensures right_after { right.new ≡ cond (is_right quote.now) 1 0 }
{
    simd_c_answers::check_quote(quote, right);
    0
}
