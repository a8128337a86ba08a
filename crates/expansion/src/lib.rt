// The message expansion of one block, for both families.
#![tactic(auto)]

ghost use mathlib.Core.List.{◌++◌, flatten};
ghost use Rattle.std.specs.Prelude.{◌≡◌, ◌≤◌, length, drop};
ghost use Rattle.simd.specs.Basic.{small, large, is_width};
ghost use Rattle.simd.specs.Expansion.{expanded};
ghost use Rattle.transform_tables.specs.Roots.{Roots};
ghost use Rattle.refusals.specs.Numbers.{number_of};
ghost use Rattle.expansion.specs.Call.{size_refusal, expand_refusal, expand_output};

use refusals::Refusal;

pub mod output;

// Whether there is a digest of this width.
pub fn is_width(width: u16) -> bool
    ensures { result ≡ is_width width }
{
    matches!(width, 224 | 256 | 384 | 512)
}

// Whether a block of so many bytes is expanded into so many words. Refusals 1, 7, 6.
pub fn refusal(width: u16, bytes: usize, room: usize) -> Result<(), Refusal>
    ensures { number_of result ≡ expand_refusal width bytes room }
{
    if !is_width(width) {
        return Err(Refusal::Width);
    }
    if width <= 256 {
        return size_refusal(64, 128, bytes, room);
    }
    size_refusal(128, 256, bytes, room)
}

// The part of a refusal that goes by sizes.
fn size_refusal(block: usize, words: usize, bytes: usize, room: usize) -> Result<(), Refusal>
    ensures { number_of result ≡ size_refusal block words bytes room }
{
    if bytes != block {
        return Err(Refusal::Block);
    }
    if room < words {
        return Err(Refusal::Output);
    }
    Ok(())
}

// The expanded block. The table is that of `transform_tables::roots`.
pub fn expand_small(block: &[u8], roots: &[u16; 512], last: bool) -> [[u32; 4]; 32]
    requires { (length block.now ≡ 64) × Roots roots.now }
    ensures { result ≡ expanded small last block.now }
{
    let mut y = [0u16; 128];
    transform::small(block, roots, &mut y, last);
    matrix::permuted(matrix::matrix_small(&y))
}

// The expanded block, row by row into lent words.
fn write_small(last: bool, block: &[u8], out: &mut [u32])
    requires { (length block.now ≡ 64) × (128 ≤ length out.old) }
    ensures { out.new ≡ flatten (expanded small last block.now) ++ drop 128 out.old }
{
    let roots = transform_tables::roots();
    let rows = expand_small(block, &roots, last);
    output::put(&rows, out);
}

// The expanded block. The table is that of `transform_tables::roots`.
pub fn expand_large(block: &[u8], roots: &[u16; 512], last: bool) -> [[u32; 8]; 32]
    requires { (length block.now ≡ 128) × Roots roots.now }
    ensures { result ≡ expanded large last block.now }
{
    let mut y = [0u16; 256];
    transform::large(block, roots, &mut y, last);
    matrix::permuted(matrix::matrix_large(&y))
}

// The expanded block, row by row into lent words.
fn write_large(last: bool, block: &[u8], out: &mut [u32])
    requires { (length block.now ≡ 128) × (256 ≤ length out.old) }
    ensures { out.new ≡ flatten (expanded large last block.now) ++ drop 256 out.old }
{
    let roots = transform_tables::roots();
    let rows = expand_large(block, &roots, last);
    output::put(&rows, out);
}

// Expands one block, as message or as length block, into the first words of out. Refusals 1, 7, 6.
pub fn expand(width: u16, last: bool, block: &[u8], out: &mut [u32]) -> Result<(), Refusal>
    ensures value { number_of result ≡ expand_refusal width (length block.now) (length out.old) }
    ensures out_after { out.new ≡ expand_output width last block.now out.old }
{
    refusal(width, block.len(), out.len())?;
    if width <= 256 {
        write_small(last, block, out);
        return Ok(());
    }
    write_large(last, block, out);
    Ok(())
}
