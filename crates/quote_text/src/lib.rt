// The text of a quote: 16 hexadecimal digits and two check digits, written and checked. The definition stands in `check_digits`.
#![tactic(auto)]

ghost use Rattle.std.specs.Prelude.{◌≡◌, ◌+◌, ◌*◌, ◌%◌, ◌≤◌, ◌<◌, length, get_or};
ghost use Rattle.text.specs.Text.{over, digit_of};
ghost use Rattle.check_digits.specs.Quote.{number, check as checkOf, two_digits, quote as quoteOf, digits_below, is_quote, is_right};

// Byte k of those that 16 digits show.
fn byte(digits: &[u8], k: usize) -> u64
    requires { (length digits.now ≡ 16) × (k < 8) }
    ensures { (result ≡ 16 * digit_of (get_or digits.now (2 * k) 0) + digit_of (get_or digits.now (2 * k + 1) 0)) × (result < 512) }
{
    16 * text::digit_of(digits[2 * k]) + text::digit_of(digits[2 * k + 1])
}

// What the number that 16 digits show leaves modulo 97.
fn remainder(digits: &[u8]) -> u64
    requires { length digits.now ≡ 16 }
    ensures { (result ≡ number digits.now % 97) × (result < 97) }
{
    let mut left = 0;
    for k in 0..8 {
        left = (256 * left + byte(digits, k)) % 97;
    }
    left
}

// The check of the number. 100 times the number does not fit 64 bits; 100 times its remainder does.
fn check(digits: &[u8]) -> u64
    requires { length digits.now ≡ 16 }
    ensures { (result ≡ checkOf (number digits.now)) × (result < 100) }
{
    98 - 100 * remainder(digits) % 97
}

// A number in two decimal digits, at a place.
fn two_digits(text: &mut [u8], at: usize, n: u64)
    requires { (at + 2 ≤ length text.old) × (n < 100) }
    ensures { text.new ≡ over text.old at (two_digits n) }
{
    text[at] = text::digit(n / 10);
    text[at + 1] = text::digit(n % 10);
}

// Writes the quote of a digest at a place and answers the place after. The byte that `text::hex` writes behind the digits is written again.
pub fn write(text: &mut [u8], at: usize, digest: &[u8]) -> usize
    requires { (at + 18 ≤ length text.old) × (8 ≤ length digest.now) }
    ensures { (text.new ≡ over text.old at (quoteOf digest.now)) × (result ≡ at + 18) }
{
    let end = at + 16;
    text::hex(text, at, &digest[..8], b'0');
    let n = check(&text[at..end]);
    two_digits(text, end, n);
    end + 2
}

// Whether all characters are digits below a number.
fn digits_below(text: &[u8], most: u64) -> bool
    ensures { result ≡ digits_below most text.now }
{
    text.iter().all(|c| text::digit_of(*c) < most)
}

// Whether a text is of the kind of a quote: 18 characters, 16 hexadecimal digits in lower case and 2 decimal ones.
#[tactic(auto, unfolding(check_digits::specs::Quote::is_quote))]
pub fn is_quote(text: &[u8]) -> bool
    ensures { result ≡ is_quote text.now }
{
    text.len() == 18 && digits_below(&text[..16], 16) && digits_below(&text[16..], 10)
}

// Whether a text is a right quote: of the kind, and with the check digits of its number.
#[tactic(auto, using(crate::proofs::Shown::kind_18), unfolding(check_digits::specs::Quote::is_right))]
pub fn is_right(text: &[u8]) -> bool
    ensures { result ≡ is_right text.now }
{
    is_quote(text) && 10 * text::digit_of(text[16]) + text::digit_of(text[17]) == check(&text[..16])
}
