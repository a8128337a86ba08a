// Words: sum modulo 2^32, shifts, rotation, and the Boolean function of each step.
#![tactic(auto)]

ghost use Rattle.std.specs.Prelude.{◌≡◌, ◌-◌, ◌*◌, ◌/◌, ◌%◌, ◌^◌};
ghost use Rattle.simd.specs.Steps.{add, rotl, IF, MAJ, choose};

// Rotation to the left by r mod 32.
pub fn rotate(x: u32, r: u32) -> u32
    ensures { result ≡ rotl (r % 32) x }
{
    x.rotate_left(r)
}

// The two parts of that rotation: what stays in the word, and what leaves it at the top.
pub fn left(x: u32, r: u32) -> u32
    ensures { result ≡ x * 2 ^ (r % 32) % 2 ^ 32 }
{
    x << (r % 32)
}

fn right(x: u32, r: u32) -> u32
    ensures { result ≡ x / 2 ^ (32 - r % 32) }
{
    (x >> 1) >> (31 - r % 32)
}

// The rotation from these parts. Where the left part h is wanted too, it is made once.
// Tried: `x.rotate_left(r)`; then the steps aren't vector code: 2,702 and 5,943 instructions a compression for 742 and 1,490.
pub fn turned(h: u32, x: u32, r: u32) -> u32
    requires { h ≡ x * 2 ^ (r % 32) % 2 ^ 32 }
    ensures { result ≡ rotl (r % 32) x }
{
    h | right(x, r)
}

// A rotation plus a word, part by part: SSE2 has no rotation.
// Tried: `m.rotate_left(s).wrapping_add(t)`; 2,364 and 5,618 instructions a compression for 742 and 1,490.
#[tactic(auto, unfolding(simd::specs::Steps::add, simd::specs::Steps::rotl))]
pub fn rotated_plus(m: u32, s: u32, t: u32) -> u32
    ensures { result ≡ add (rotl (s % 32) m) t }
{
    left(m, s).wrapping_add(t).wrapping_add(right(m, s))
}

#[tactic(auto, unfolding(simd::specs::Steps::IF))]
fn choice(a: u32, b: u32, c: u32) -> u32
    ensures { result ≡ IF a b c }
{
    (a & b) | (!a & c)
}

#[tactic(auto, unfolding(simd::specs::Steps::MAJ))]
fn majority(a: u32, b: u32, c: u32) -> u32
    ensures { result ≡ MAJ a b c }
{
    (a & b) | (a & c) | (b & c)
}

// The Boolean function of step i.
#[tactic(auto, unfolding(simd::specs::Steps::choose))]
pub fn chosen(i: usize, a: u32, b: u32, c: u32) -> u32
    ensures { result ≡ choose i a b c }
{
    if i % 8 < 4 {
        choice(a, b, c)
    } else {
        majority(a, b, c)
    }
}

// The sum of D, the word and the Boolean function of step i.
#[tactic(auto, unfolding(simd::specs::Steps::add))]
pub fn step_sum(i: usize, a: u32, b: u32, c: u32, d: u32, w: u32) -> u32
    ensures { result ≡ add (add d w) (choose i a b c) }
{
    d.wrapping_add(w).wrapping_add(chosen(i, a, b, c))
}
