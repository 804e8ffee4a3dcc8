// Rows behind C functions, so that a benchmark can call them. They promise safety alone: what they do is the contract of `rows_runs`.
#![tactic(auto)]

// The number of rows with this one in it, or the greatest number.
#[unsafe(no_mangle)]
pub extern "C" fn measure_insert(b: &mut [u32], count: usize, row: &[u32]) -> usize {
    bench_rows::measure_insert(b, count, row)
}

// The place of the row with the key, or the greatest number.
#[unsafe(no_mangle)]
pub extern "C" fn measure_find(b: &[u32], count: usize, k: u64) -> usize {
    bench_rows::measure_find(b, count, k)
}
