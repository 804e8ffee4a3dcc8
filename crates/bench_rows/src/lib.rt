// Rows behind functions on plain numbers, so that a benchmark can call them from C, by `bench_rows_c`. They promise safety alone: what they do is the contract of `rows_runs`.
#![tactic(auto)]

ghost use Rattle.std.specs.Prelude.{◌↔◌, IsTrue, ◌*◌, ◌≤◌};
ghost use Rattle.rows_table.specs.Rows.{width};

use rows_table::Rows;

// What these functions answer where a Rust function answers None: C, which calls them, has plain numbers alone.
const NOTHING: usize = usize::MAX;

// So many rows lie in a buffer of so many words.
fn fits(len: usize, count: usize) -> bool
    ensures { IsTrue result ↔ (count * width ≤ len) }
{
    count <= len / rows_table::WIDTH
}

// The number of rows with this one in it, or NOTHING.
pub fn measure_insert(b: &mut [u32], count: usize, row: &[u32]) -> usize {
    let Some(row) = row.as_array() else {
        return NOTHING;
    };
    if !fits(b.len(), count) {
        return NOTHING;
    }
    rows_runs::insert(b, count, row).unwrap_or(NOTHING)
}

// The place of the row with the key, or NOTHING.
pub fn measure_find(b: &[u32], count: usize, k: u64) -> usize {
    if !fits(b.len(), count) {
        return NOTHING;
    }
    rows_runs::find(&Rows { words: b, count }, k).unwrap_or(NOTHING)
}
