// A step, of 4 or of 8 rows, in two parts: new B, and the state from it. With a literal step number every read of the tables folds to a constant.
// Every step stores the shifted A in its row of `unread`. Nothing reads it: it is there because rows that are stored whole are
// kept in vector registers; without it the steps are compiled word by word and take three times as long.
#![tactic(auto)]

ghost use Rattle.std.specs.Prelude.{[], ◌≡◌, ◌*◌, ◌%◌, ◌^◌, ◌<◌, get_or};
ghost use Rattle.simd.specs.Basic.{table};
ghost use Rattle.simd.specs.Steps.{rotation as rotationOf};
ghost use Rattle.words.specs.Columns.{new_b, word_a, new_a, stepped};

use step_numbers::{Rows, partner, rotation, sum_rotation};
use words::{left, rotated_plus, step_sum};

// Word j of new A in step i from new B. The word of B is read first: so the rows are compiled as vectors.
fn row<F: Rows<R>, const R: usize>(
    st: &[[u32; R]; 4],
    w: &[u32; R],
    b: &[u32; R],
    s: u32,
    x: usize,
    i: usize,
    j: usize,
) -> u32
    requires { j < R }
    ensures { result ≡ word_a F.family i s x w.now b.now st.now j }
{
    let y = partner(j, x, R);
    let u = b[y];
    rotated_plus(
        step_sum(i, st[0][j], st[1][j], st[2][j], st[3][j], w[j]),
        s,
        u,
    )
}

// A shifted by r.
fn shifted<const R: usize>(a: [u32; R], r: u32) -> [u32; R]
    ensures { result ≡ table R (λ j. get_or a.entry j 0 * 2 ^ (r % 32) % 2 ^ 32) }
{
    let mut h = [0u32; R];
    for j in 0..R {
        h[j] = left(a[j], r);
    }
    h
}

// New B: A rotated by r, from A shifted.
fn rotated<F: Rows<R>, const R: usize>(h: [u32; R], a: [u32; R], r: u32) -> [u32; R]
    requires { h ≡ table R (λ j. get_or a j 0 * 2 ^ (r % 32) % 2 ^ 32) }
    ensures { result ≡ new_b F.family r a.entry }
{
    let mut b = [0u32; R];
    for j in 0..R {
        b[j] = words::turned(h[j], a[j], r);
    }
    b
}

// New A in step i from new B, by the rotation s and the row exchange x.
#[inline(always)]
fn new_a<F: Rows<R>, const R: usize>(
    st: &[[u32; R]; 4],
    w: &[u32; R],
    b: &[u32; R],
    s: u32,
    x: usize,
    i: usize,
) -> [u32; R]
    ensures { result ≡ new_a F.family i s x w.now b.now st.now }
{
    let mut a = [0u32; R];
    for j in 0..R {
        a[j] = row::<F, R>(st, w, b, s, x, i, j);
    }
    a
}

// New B in step i.
#[inline(always)]
pub fn turned<F: Rows<R>, const R: usize>(
    st: [[u32; R]; 4],
    i: usize,
    unread: &mut [[u32; R]; 36],
) -> [u32; R]
    ensures { result ≡ new_b F.family (rotationOf i i) (get_or st.entry 0 []) }
{
    let r = rotation(i, i);
    let h = shifted(st[0], r);
    unread[i % 36] = h;
    rotated::<F, R>(h, st[0], r)
}

// The state after step i from new B.
#[inline(always)]
pub fn mixed<F: Rows<R>, const R: usize>(
    st: [[u32; R]; 4],
    w: &[u32; R],
    b: [u32; R],
    i: usize,
) -> [[u32; R]; 4]
    requires { b ≡ new_b F.family (rotationOf i i) (get_or st 0 []) }
    ensures { result ≡ stepped F.family i w.now st.entry }
{
    let a = new_a::<F, R>(&st, w, &b, sum_rotation(i), F::exchange(i), i);
    let c = st[1];
    let d = st[2];
    [a, b, c, d]
}

// Step i.
#[inline(always)]
pub fn step<F: Rows<R>, const R: usize>(
    st: [[u32; R]; 4],
    w: &[u32; R],
    i: usize,
    unread: &mut [[u32; R]; 36],
) -> [[u32; R]; 4]
    ensures { result ≡ stepped F.family i w.now st.entry }
{
    let b = turned::<F, R>(st, i, unread);
    mixed::<F, R>(st, w, b, i)
}
