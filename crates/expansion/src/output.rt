// The rows of an expanded block, written one after another into lent words.
ghost use mathlib.Core.List.{◌++◌, flatten};
ghost use Rattle.std.specs.Prelude.{◌≡◌, ◌+◌, ◌*◌, ◌≤◌, length, drop};
ghost use Rattle.std.proofs.Math.Seq.{paste};
ghost use Rattle.expansion.specs.Output.{IsRows};

// One row, from place at on.
pub fn put_row(row: &[u32], at: usize, out: &mut [u32])
    requires { at + length row.now ≤ length out.old }
    ensures { out.new ≡ paste out.old at row.now (length row.now) }
{
    let end = at + row.len();
    out[at..end].copy_from_slice(row);
}

// All rows of a block, of R words each.
pub fn put<const R: usize>(rows: &[[u32; R]; 32], out: &mut [u32])
    requires { IsRows R rows.now × (R * 32 ≤ length out.old) }
    ensures { out.new ≡ flatten rows.now ++ drop (R * 32) out.old }
{
    for i in 0..32 {
        let row = rows[i];
        put_row(&row, R * i, out);
    }
}
