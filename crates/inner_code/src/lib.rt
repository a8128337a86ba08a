// The inner code (section 1.1.2): a value is lifted to a signed number and multiplied, modulo 65,536.
#![tactic(auto)]

ghost use Rattle.std.specs.Prelude.{◌≡◌, ℕ, ◌+◌, ◌%◌, ◌<◌, ◌≤◌, length, get_or};
ghost use Rattle.std.specs.Int.Signed.{mag};
ghost use Rattle.simd.specs.Basic.{table};
ghost use Rattle.simd.specs.Expansion.{lift as liftOf, residue, code as code_of};
ghost use Rattle.inner_code.specs.Codes.{coded, Begun};

// The number from -128 to 128 that equals y modulo 257. What is subtracted is chosen and not whether: so a vector of values is lifted at once.
fn lift(y: u16) -> i32
    requires { y < 257 }
    ensures { result ≡ liftOf y }
{
    let z = i32::from(y);
    let turn = if y <= 128 { 0 } else { 257 };
    z - turn
}

// A product of the inner code, reduced to 16 bits.
fn reduced(z: i32) -> u16
    requires { mag z < 65536 }
    ensures { result ≡ residue z }
{
    let positive = (z + 65536) as u32;
    (positive % 65536) as u16
}

// The inner code by c.
fn code(c: u16, y: u16) -> u16
    requires { (c < 256) × (y < 257) }
    ensures { result ≡ code_of c y }
{
    reduced(i32::from(c) * lift(y))
}

// The codes of 128 values more, by 185 and by 233: one loop, so that each value is lifted once, of as many turns as the compiler unrolls.
fn more_codes(y: &[u16], by185: &mut [u16], by233: &mut [u16], at: usize)
    requires at_in_bounds { (at + 128 ≤ length y.now) × ((k : ℕ) → get_or y.now k 0 < 257) }
    requires begun { Begun 185 y.now at by185.old × Begun 233 y.now at by233.old }
    ensures { Begun 185 y.now (at + 128) by185.new × Begun 233 y.now (at + 128) by233.new }
{
    for k in 0..128 {
        let v = y[at + k];
        by185[at + k] = code(185, v);
        by233[at + k] = code(233, v);
    }
}

// The codes of all values.
pub fn codes(y: &[u16], by185: &mut [u16], by233: &mut [u16])
    requires by185_len { (length by185.old ≡ length y.now) × ((length by233.old ≡ length y.now) × ((k : ℕ) → get_or y.now k 0 < 257)) }
    requires y_len { length y.now % 128 ≡ 0 }
    ensures { (by185.new ≡ table (length y.now) (coded 185 y.now))
        × (by233.new ≡ table (length y.now) (coded 233 y.now)) }
{
    for at in (0..y.len()).step_by(128) {
        more_codes(y, by185, by233, at);
    }
}
