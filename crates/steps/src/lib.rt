// The steps of a compression, of either family: its rounds have literal step numbers, so that what a step reads by its number folds to constants.
#![tactic(auto)]

ghost use Rattle.std.specs.Prelude.{◌≡◌, ◌≤◌, ◌<◌};
ghost use Rattle.simd.specs.Steps.{step as step_of, steps as steps_of};
ghost use Rattle.words.specs.Columns.{from_columns, columns};
ghost use Rattle.words.specs.Runs.{run, last_steps};

use step_numbers::Rows;

// Steps at to at + 7. Tried: a loop of eight turns; it isn't unrolled, and a compression takes 3,554 and 7,170 instructions for 742 and 1,490.
#[inline(always)]
fn round<F: Rows<R>, const R: usize>(
    st: [[u32; R]; 4],
    w: &[[u32; R]; 32],
    at: usize,
    unread: &mut [[u32; R]; 36],
) -> [[u32; R]; 4]
    requires { at ≤ 24 }
    ensures { result ≡ run F.family w.now at 8 st.entry }
{
    let s1 = step::step::<F, R>(st, &w[at], at, unread);
    let s2 = step::step::<F, R>(s1, &w[at + 1], at + 1, unread);
    let s3 = step::step::<F, R>(s2, &w[at + 2], at + 2, unread);
    let s4 = step::step::<F, R>(s3, &w[at + 3], at + 3, unread);
    let s5 = step::step::<F, R>(s4, &w[at + 4], at + 4, unread);
    let s6 = step::step::<F, R>(s5, &w[at + 5], at + 5, unread);
    let s7 = step::step::<F, R>(s6, &w[at + 6], at + 6, unread);
    step::step::<F, R>(s7, &w[at + 7], at + 7, unread)
}

// Steps 32 to 35, with the columns of the old state as words.
fn last_steps<F: Rows<R>, const R: usize>(
    st: [[u32; R]; 4],
    old: &[[u32; R]; 4],
    unread: &mut [[u32; R]; 36],
) -> [[u32; R]; 4]
    ensures { result ≡ columns (last_steps F.family (from_columns old.now) (from_columns st.entry)) }
{
    let s1 = step::step::<F, R>(st, &old[0], 32, unread);
    let s2 = step::step::<F, R>(s1, &old[1], 33, unread);
    let s3 = step::step::<F, R>(s2, &old[2], 34, unread);
    step::step::<F, R>(s3, &old[3], 35, unread)
}

// All 36 steps of a compression: 32 with the rows of the expanded block as words, and then four with the columns of the old state.
// They stand in one function, so that the state stays in registers.
pub fn all_steps<F: Rows<R>, const R: usize>(
    st: [[u32; R]; 4],
    w: &[[u32; R]; 32],
    old: &[[u32; R]; 4],
    unread: &mut [[u32; R]; 36],
) -> [[u32; R]; 4]
    ensures { result ≡ columns (last_steps F.family (from_columns old.now) (steps_of F.family w.now 32 (from_columns st.entry))) }
{
    let s1 = round::<F, R>(st, w, 0, unread);
    let s2 = round::<F, R>(s1, w, 8, unread);
    let s3 = round::<F, R>(s2, w, 16, unread);
    let s4 = round::<F, R>(s3, w, 24, unread);
    last_steps::<F, R>(s4, old, unread)
}

// Step i alone.
pub fn step<F: Rows<R>, const R: usize>(st: [[u32; R]; 4], w: [u32; R], i: usize) -> [[u32; R]; 4]
    ensures { result ≡ columns (step_of F.family i w.entry (from_columns st.entry)) }
{
    let mut unread = [[0u32; R]; 36];
    step::step::<F, R>(st, &w, i, &mut unread)
}

// The first 32 steps, one after the other.
pub fn steps<F: Rows<R>, const R: usize>(st: [[u32; R]; 4], w: &[[u32; R]; 32]) -> [[u32; R]; 4]
    ensures { from_columns result ≡ steps_of F.family w.now 32 (from_columns st.entry) }
{
    let mut s = st;
    for i in 0..32 {
        s = step::<F, R>(s, w[i], i);
    }
    s
}
