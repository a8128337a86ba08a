// The comparison of two messages: Same, Apart, or Meet with the number of the block.
//
// Messages with equal lengths and bits are the same. Of others the leading blocks that are full and equal in both are compressed once, and the rest
// of each from there on: the final states tell. Where they are equal, `lockstep` finds the number of the block.
#![tactic(auto)]

ghost use Rattle.std.specs.Prelude.{true, ◌≡◌, ◌*◌, ◌-◌, ◌≤◌, length, drop};
ghost use Rattle.simd.specs.Basic.{family_of, is_width};
ghost use Rattle.simd.specs.Message.{message};
ghost use Rattle.simd.specs.Hash.{final_state};
ghost use Rattle.pairs.specs.Lists.{equal};
ghost use Rattle.pairs.specs.Messages.{bits_in};
ghost use Rattle.pairs.specs.Compared.{compared};
ghost use Rattle.pairs.specs.Answer.{verdict, answer};
ghost use Rattle.comparison.specs.Shared.{Shared};

use pairs::{Message, Verdict};
use refusals::number_of;

// The bytes of the leading blocks that are full and equal in both.
fn shared(width: u16, x: Message, y: Message) -> usize
    ensures { Shared (family_of width) x.entry y.entry result }
{
    let size = tail::block_bytes(width);
    let end = (x.bits / 8).min(y.bits / 8);
    let mut at = 0;
    // It goes on by a block: `chunks_exact` of both would need this place counted beside it.
    while size <= end - at {
        let next = at + size;
        if !constant_time::same_block(&x.bytes[at..next], &y.bytes[at..next]) {
            return at;
        }
        at = next;
    }
    at
}

// Whether the first `count` bits of two byte strings are equal. The last byte's other bits are shifted out.
// It takes bytes and count, not Messages, for the reason at lockstep's block_at.
fn same_bits(x: &[u8], y: &[u8], count: usize) -> bool
    requires { (count ≤ 8 * length x.now) × (count ≤ 8 * length y.now) }
    ensures { result ≡ equal (message x.now count) (message y.now count) }
{
    let whole = count / 8;
    if x[..whole] != y[..whole] {
        return false;
    }
    if count % 8 == 0 {
        return true;
    }
    let past = 8 - count % 8;
    x[whole] >> past == y[whole] >> past
}

// What is left of a message behind its first bytes.
fn behind<'a>(message: Message<'a>, at: usize) -> Message<'a>
    requires { 8 * at ≤ message.bits }
    ensures { (result.bytes.now ≡ drop at message.entry.bytes.now) × (result.bits ≡ message.entry.bits - 8 * at) }
{
    Message {
        bytes: &message.bytes[at..],
        bits: message.bits - 8 * at,
    }
}

// Whether two messages whose first blocks, `at` bytes, are equal are the same.
fn same_message(width: u16, x: Message, y: Message, at: usize) -> bool
    requires { Shared (family_of width) x y at }
    ensures { result ≡ equal (bits_in x.entry) (bits_in y.entry) }
{
    if x.bits == y.bits {
        let rest = behind(x, at);
        return same_bits(rest.bytes, behind(y, at).bytes, rest.bits);
    }
    false
}

// Whether the final states are equal, of two messages whose first blocks, `at` bytes, are equal.
fn meet(width: u16, x: Message, y: Message, at: usize) -> bool
    requires { (is_width width ≡ true) × Shared (family_of width) x y at }
    ensures { result ≡ equal (final_state width (bits_in x.entry)) (final_state width (bits_in y.entry)) }
{
    let mut s = hash_parts::start_state(width);
    tail::absorb(width, &mut s, &x.bytes[..at]);
    let mut t = s;
    let first = behind(x, at);
    let second = behind(y, at);
    tail::conclude(width, &mut s, first.bytes, first.bits, x.bits as u64);
    tail::conclude(width, &mut t, second.bytes, second.bits, y.bits as u64);
    s == t
}

// The comparison at one of the four widths.
fn compare_accepted(width: u16, x: Message, y: Message) -> Verdict
    requires { is_width width ≡ true }
    ensures { result ≡ verdict 0 (compared width (bits_in x.entry) (bits_in y.entry)) }
{
    let at = shared(width, x, y);
    if same_message(width, x, y, at) {
        return Verdict::Same;
    }
    if meet(width, x, y, at) {
        let number = lockstep::meeting(width, x, y) as u64;
        return Verdict::Meet(number);
    }
    Verdict::Apart
}

// Compares two messages at a width.
pub fn compare(width: u16, a: &[u8], a_bits: u64, b: &[u8], b_bits: u64) -> Verdict
    ensures { result ≡ answer width a.now a_bits b.now b_bits }
{
    if !expansion::is_width(width) {
        return Verdict::Refused(1);
    }
    let first = number_of(hash::piece_refusal(0, a, a_bits as usize));
    if first != 0 {
        return Verdict::Refused(first);
    }
    let second = number_of(hash::piece_refusal(0, b, b_bits as usize));
    if second != 0 {
        return Verdict::Refused(second);
    }
    let x = Message {
        bytes: a,
        bits: a_bits as usize,
    };
    let y = Message {
        bytes: b,
        bits: b_bits as usize,
    };
    compare_accepted(width, x, y)
}
