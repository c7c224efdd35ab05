//! A block of 64 words of 64 bits, turned by exchanging the halves of ever smaller squares.
//! The method is the well known one of Warren's "Hacker's Delight" (2002).
ghost use Rattle.std.specs.Prelude.{◌≡◌, ℕ, ◌<◌, length};
ghost use Rattle.bit_matrix.specs.Blocks.{IsStep, IsStepped, IsTurned};

/// Exchanges the rows and columns of a block.
pub(crate) fn turn_block(block: &mut [u64; 64])
    ensures { IsTurned block.old block.new }
{
    let mut other = [0; 64];
    step(block, &mut other, 32, 0x0000_0000_ffff_ffff);
    step(&other, block, 16, 0x0000_ffff_0000_ffff);
    step(block, &mut other, 8, 0x00ff_00ff_00ff_00ff);
    step(&other, block, 4, 0x0f0f_0f0f_0f0f_0f0f);
    step(block, &mut other, 2, 0x3333_3333_3333_3333);
    step(&other, block, 1, 0x5555_5555_5555_5555);
}

/// Exchanges the bits `width` places above the mask's in a row with those of the mask `width` rows below.
#[inline(always)]
fn step(from: &[u64; 64], to: &mut [u64; 64], width: usize, mask: u64)
    requires { IsStep width mask }
    ensures { IsStepped width from.now to.new }
{
    for i in 0..64 {
        to[i] = if i / width % 2 == 0 {
            from[i] & mask | (from[i + width] & mask) << width
        } else {
            (from[i - width] >> width) & mask | from[i] & !mask
        };
    }
}
