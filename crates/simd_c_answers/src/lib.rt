// The calls for C whose answer is numbers behind pointers: the verdict on two messages, the count and the place of a tape, and whether a quote is
// right.
#![tactic(auto)]

ghost use Rattle.std.specs.Prelude.{cond, ◌≡◌};
ghost use Rattle.pairs.specs.Answer.{answer};
ghost use Rattle.tape.specs.Run.{ran_of, output};
ghost use Rattle.text.specs.Text.{over};
ghost use Rattle.check_digits.specs.Quote.{is_right};
ghost use Rattle.simd_c_answers.specs.Calls.{refusal_of, verdict_after, block_after, run_within, placed};

use pairs::Verdict;

// Two messages compared. A refusal leaves both numbers as they were.
pub fn compare_messages(
    width: u16,
    a: &[u8],
    a_bits: u64,
    b: &[u8],
    b_bits: u64,
    verdict: &mut u64,
    block: &mut u64,
) -> u8
    ensures value { result ≡ refusal_of (answer width a.now a_bits b.now b_bits) }
    ensures verdict_after { verdict.new ≡ verdict_after (answer width a.now a_bits b.now b_bits) verdict.old }
    ensures block_after { block.new ≡ block_after (answer width a.now a_bits b.now b_bits) block.old }
{
    let found = comparison::compare(width, a, a_bits, b, b_bits);
    match found {
        Verdict::Same => {
            *verdict = 0;
            *block = 0;
            0
        }
        Verdict::Apart => {
            *verdict = 1;
            *block = 0;
            0
        }
        Verdict::Meet(k) => {
            *verdict = 2;
            *block = k;
            0
        }
        Verdict::Refused(n) => n,
    }
}

// A tape run. A refused one keeps the digests before the refused command, and its count and place are told. The run closes with the number
// that the reader gave (docs/DECISIONS.md, "The nine named forms"), and C has it as it is.
pub fn run_tape(tape: &[u8], out: &mut [u8], count: &mut u64, place: &mut u64) -> u8
    ensures value { result ≡ (ran_of (run_within tape.now out.old)).refusal }
    ensures out_after { out.new ≡ over out.old 0 (output (run_within tape.now out.old).entries) }
    ensures count_after { count.new ≡ (ran_of (run_within tape.now out.old)).digests }
    ensures place_after { place.new ≡ placed (ran_of (run_within tape.now out.old)).refusal
        (ran_of (run_within tape.now out.old)).place place.old }
{
    let ran = tape::run(tape, out);
    let refusal = ran.refusal;
    *count = ran.digests as u64;
    if refusal != 0 {
        *place = ran.place as u64;
    }
    refusal
}

// A quote checked: 1 where it is right, else 0. Nothing is refused.
pub fn check_quote(quote: &[u8], right: &mut u64)
    ensures { right.new ≡ cond (is_right quote.now) 1 0 }
{
    *right = u64::from(quote_text::is_right(quote));
}
