//! Matrices of bits, turned.

ghost use Rattle.std.specs.Prelude.{◌≡◌, ◌≢◌, ℕ, ◌+◌, ◌*◌, ◌<◌, ◌≤◌, ◌⊎◌, true, false, length};
ghost use Rattle.std.specs.Prelude.{slice_index_or};
ghost use Rattle.si_base.specs.Bits.{bit};
ghost use Rattle.si_closures.specs.Loops.Turned.{row, ArePairExchanged};

/// Turns the matrix of 128 rows: bit `j` of row `i` becomes bit `i` of row `j`.
///
/// The whole is a block of 128 rows and columns. Of each block the upper right quarter and the
/// lower left one change places, and its four quarters are the next blocks.
pub fn turn(rows: &mut [u128])
    requires { length rows.old ≡ 128 }
    ensures size { length rows.new ≡ 128 }
    ensures turned { (i j : ℕ) → i < 128 → j < 128
        → bit (slice_index_or rows.new i 0) j ≡ bit (slice_index_or rows.old j 0) i }
{
    exchange_quarters(rows, 1, 64, 0x0000_0000_0000_0000_ffff_ffff_ffff_ffff);
    exchange_quarters(rows, 2, 32, 0x0000_0000_ffff_ffff_0000_0000_ffff_ffff);
    exchange_quarters(rows, 4, 16, 0x0000_ffff_0000_ffff_0000_ffff_0000_ffff);
    exchange_quarters(rows, 8, 8, 0x00ff_00ff_00ff_00ff_00ff_00ff_00ff_00ff);
    exchange_quarters(rows, 16, 4, 0x0f0f_0f0f_0f0f_0f0f_0f0f_0f0f_0f0f_0f0f);
    exchange_quarters(rows, 32, 2, 0x3333_3333_3333_3333_3333_3333_3333_3333);
    exchange_quarters(rows, 64, 1, 0x5555_5555_5555_5555_5555_5555_5555_5555);
}

/// In so many bands of blocks, of which a half has that width, exchanges the upper right quarter of
/// each block and its lower left one. `low` has the columns of the left halves.
fn exchange_quarters(rows: &mut [u128], bands: usize, width: usize, low: u128)
    requires size { length rows.old ≡ 128 }
    requires parts { bands * (2 * width) ≡ 128 }
    ensures size { length rows.new ≡ 128 }
    ensures pairs { (p s : ℕ) → p < bands → s < width
        → ArePairExchanged width low rows.old rows.new (2 * (p * width) + s) }
{
    for p in 0..bands {
        exchange_in_band(rows, 2 * (p * width), width, low);
    }
}

/// Exchanges the quarters of the blocks whose first row is that.
fn exchange_in_band(rows: &mut [u128], first: usize, width: usize, low: u128)
    requires size { length rows.old ≡ 128 }
    requires inside { first + 2 * width ≤ 128 }
    ensures size { length rows.new ≡ 128 }
    ensures pairs { (s : ℕ) → s < width
        → ArePairExchanged width low rows.old rows.new (first + s) }
    ensures others { (k : ℕ) → (k < first) ⊎ (first + 2 * width ≤ k)
        → row rows.new k ≡ row rows.old k }
{
    for s in 0..width {
        exchange_in_rows(rows, first + s, width, low);
    }
}

/// Exchanges what two rows have of the quarters of their blocks.
fn exchange_in_rows(rows: &mut [u128], i: usize, width: usize, low: u128)
    requires size { length rows.old ≡ 128 }
    requires inside { i + width < 128 }
    requires apart { 0 < width }
    ensures size { length rows.new ≡ 128 }
    ensures pair { ArePairExchanged width low rows.old rows.new i }
    ensures others { (k : ℕ) → k ≢ i → k ≢ i + width → row rows.new k ≡ row rows.old k }
{
    let above = rows[i];
    let below = rows[i + width];
    rows[i] = pick(low, above, below << width);
    rows[i + width] = pick(low, above >> width, below);
}

/// The bits of the one word at the columns of `low`, and those of the other word elsewhere.
fn pick(low: u128, here: u128, elsewhere: u128) -> u128
    ensures here { (j : ℕ) → bit low j ≡ true → bit result j ≡ bit here j }
    ensures elsewhere { (j : ℕ) → j < 128 → bit low j ≡ false
        → bit result j ≡ bit elsewhere j }
{
    here & low | elsewhere & !low
}
