// The steps backward, of either family.
#![tactic(auto)]

ghost use Rattle.std.specs.Prelude.{◌≡◌};
ghost use Rattle.words.specs.Columns.{from_columns};
ghost use Rattle.unsteps.specs.Unstep.{unstep as unstepOf, unsteps as unstepsOf};

use step_numbers::{Rows, rotation, sum_rotation};
use unstep_rows::{unmix_rows, unrotate_rows};

// The columns before step i.
fn unstep<F: Rows<R>, const R: usize>(st: [[u32; R]; 4], w: &[u32; R], i: usize) -> [[u32; R]; 4]
    ensures { from_columns result ≡ unstepOf F.family i w.now (from_columns st.entry) }
{
    let [a, b, c, d] = st;
    let mut old_a = [0u32; R];
    unrotate_rows(&b, rotation(i, i), &mut old_a);
    let mut old_d = [0u32; R];
    unmix_rows(
        &a,
        &b,
        &c,
        &d,
        &old_a,
        w,
        sum_rotation(i),
        F::exchange(i),
        i,
        &mut old_d,
    );
    [old_a, c, d, old_d]
}

// The 32 steps undone, on a state as its columns.
pub fn unsteps<F: Rows<R>, const R: usize>(st: [[u32; R]; 4], w: &[[u32; R]; 32]) -> [[u32; R]; 4]
    ensures { from_columns result ≡ unstepsOf F.family w.now 32 (from_columns st.entry) }
{
    let mut s = st;
    for i in (0..32).rev() {
        s = unstep::<F, R>(s, &w[i], i);
    }
    s
}
