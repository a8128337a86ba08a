// The rows of a step backward, of either family: row by row, the rotation and the sum are undone.
#![tactic(auto)]

ghost use Rattle.std.specs.Prelude.{◌≡◌, ◌%◌, ◌<◌, length, bit_xor};
ghost use Rattle.simd.specs.Basic.{table};
ghost use Rattle.unstep_rows.specs.Rows.{sub, rotr, word_a, word_d};

use step_numbers::partner;
use words::{chosen, rotate};

#[tactic(auto, unfolding(crate::specs::Rows::sub))]
fn difference(x: u32, y: u32) -> u32
    ensures { result ≡ sub x y }
{
    x.wrapping_sub(y)
}

fn unrotate(x: u32, r: u32) -> u32
    requires { (0 < r) × (r < 32) }
    ensures { result ≡ rotr r x }
{
    rotate(x, 32 - r)
}

// D of a row before a step, from A after it, B of the partner row after it, the word, the Boolean function and the rotation.
fn unmix(a: u32, b: u32, w: u32, f: u32, s: u32) -> u32
    requires { (0 < s) × (s < 32) }
    ensures { result ≡ sub (sub (rotr s (sub a b)) f) w }
{
    difference(difference(unrotate(difference(a, b), s), f), w)
}

// A before a step from B after it, by the rotation r.
pub fn unrotate_rows(b: &[u32], r: u32, out: &mut [u32])
    requires { ((0 < r) × (r < 32)) × (length b.now ≡ length out.old) }
    ensures { out.new ≡ table (length out.old) (word_a r b.now) }
{
    for j in 0..out.len() {
        out[j] = unrotate(b[j], r);
    }
}

// D before step i from the columns after it, A before it and the words, by the rotation s and the row exchange x.
pub fn unmix_rows(
    a: &[u32],
    b: &[u32],
    c: &[u32],
    d: &[u32],
    old: &[u32],
    w: &[u32],
    s: u32,
    x: usize,
    i: usize,
    out: &mut [u32],
)
    requires { ((0 < s) × (s < 32))
        × ((length a.now ≡ length out.old) × (length b.now ≡ length out.old) × (length c.now ≡ length out.old)
        × (length d.now ≡ length out.old) × (length old.now ≡ length out.old) × (length w.now ≡ length out.old)) }
    ensures { out.new ≡ table (length out.old)
        (word_d (length out.old) i s x
        a.now b.now c.now d.now old.now w.now) }
{
    for j in 0..out.len() {
        let y = partner(j, x, out.len());
        let f = chosen(i, old[j], c[j], d[j]);
        out[j] = unmix(a[j], b[y], w[j], f, s);
    }
}
