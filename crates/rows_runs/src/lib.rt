// Rows that are entered in any order. The buffer has two runs, one after the other: new rows go into the late one, so that at most 31 rows move, and
// when it has 32 rows the two are made one. The first has whole blocks of 16 rows, all of them or all but one: so a few rows can be taken out and
// entered again, however many there are in all, without the runs being made one each time. `b` and `count`, and `lo` and `hi`, stay two parameters, as in
// crate `rows_table`.
#![tactic(auto)]

ghost use Rattle.std.specs.Prelude.{◌≡◌, List, ℕ, ◌+◌, ◌*◌, ◌≤◌, length, ltb};
ghost use Rattle.std.proofs.Math.Option.{none};
ghost use Rattle.rows_table.specs.Rows.{Row, width, key, rank, find as find_row, insert as insert_row, insert_all, remove as remove_rows, Holds};
ghost use Rattle.rows_table.specs.Answers.{Within, Fit, HeldIn};
ghost use Rattle.rows_runs.specs.Runs.{row_in, Runs, Parted, Near, Last, Keeps, PutIn, TakenOut, KeptIn};

use rows_table::{Rows, WIDTH};

// How many rows are in whole blocks of 16; fewer than two blocks don't count.
fn last_block(count: usize) -> usize
    ensures { Last result count }
{
    if count < 32 { 0 } else { count - count % 16 }
}

// How many rows are in the first run: without the last block where the order breaks before it. The last test always holds; it is there so that the compiler
// makes a branch of the one before.
fn split(rows: &Rows<'_>) -> usize
    ensures within { result ≤ rows.now.count }
    ensures near { Near result rows.now.count }
    ensures parted { (rs : List Row) → KeptIn rs rows.now → Parted rs result rows.now.count rows.now.words.now }
{
    let m = last_block(rows.count);
    if m <= 32 || rows.key(m - 17) < rows.key(m - 16) {
        return m;
    }
    if rows.key(m - 16) < rows.key(m - 1) {
        return m - 16;
    }
    m
}

// The row with the key k among the first m rows, the first run.
fn find_first(rows: &Rows<'_>, k: u64) -> Option<usize>
    ensures within { Within rows.now.count result }
    ensures found { (first late : List Row) (n : ℕ) → Runs first late rows.now.count n rows.now.words.now → row_in rows.now.words.now result ≡ find_row k first }
{
    if rows.count == 0 || rows.key(rows.count - 1) < k {
        return None;
    }
    // behind them may stand the late run, and a table has nothing behind its rows
    Rows {
        words: &rows.words[..rows.count * WIDTH],
        count: rows.count,
    }
    .find(k)
}

// The row with the key k in the late run.
fn find_late(b: &[u32], m: usize, count: usize, k: u64) -> Option<usize>
    requires { (count * width ≤ length b.now) × (m ≤ count) }
    ensures within { Within count result }
    ensures found { (first late : List Row) → Runs first late m count b.now → row_in b.now result ≡ find_row k late }
{
    if m == count || k < rows_table::key_at(b, m) {
        return None;
    }
    let i = Rows {
        words: &b[m * WIDTH..],
        count: count - m,
    }
    .find(k)?;
    Some(m + i)
}

// The row with the key k in either run.
fn find_long(rows: &Rows<'_>, k: u64) -> Option<usize>
    ensures within { Within rows.now.count result }
    ensures found { (rs : List Row) → KeptIn rs rows.now → row_in rows.now.words.now result ≡ find_row k rs }
{
    let Rows { words, count, .. } = *rows;
    let m = split(rows);
    find_first(&Rows { words, count: m }, k).or_else(|| find_late(words, m, count, k))
}

// The row with the key k.
pub fn find(rows: &Rows<'_>, k: u64) -> Option<usize>
    ensures within { Within rows.now.count result }
    ensures found { (rs : List Row) → KeptIn rs rows.now → row_in rows.now.words.now result ≡ find_row k rs }
{
    if rows.count < 32 {
        return rows.find(k);
    }
    find_long(rows, k)
}

// Whether a table of rows in one run has one whose key is at least lo and below hi.
fn any_in(rows: &Rows<'_>, lo: u64, hi: u64) -> bool
    ensures { (rs : List Row) → HeldIn rs rows.now → result ≡ ltb (rank lo rs) (rank hi rs) }
{
    rows.lower_bound(lo) < rows.lower_bound(hi)
}

// Whether there is a row whose key is at least lo and below hi.
pub fn any_between(rows: &Rows<'_>, lo: u64, hi: u64) -> bool
    requires { lo ≤ hi }
    ensures { (rs : List Row) → KeptIn rs rows.now → result ≡ ltb (rank lo rs) (rank hi rs) }
{
    let m = split(rows);
    let first = Rows {
        words: &rows.words[..m * WIDTH],
        count: m,
    };
    let late = Rows {
        words: &rows.words[m * WIDTH..],
        count: rows.count - m,
    };
    any_in(&first, lo, hi) || any_in(&late, lo, hi)
}

// The late rows, at most 32 (192 words), go among the first m.
fn join(b: &mut [u32], m: usize, count: usize)
    requires { (count * width ≤ length b.old) × (m ≤ count) × (count ≤ m + 32) }
    ensures { (first late : List Row) → Runs first late m count b.old → Holds (insert_all late first) count b.new }
{
    if m == 0 || m == count || rows_table::key_at(b, m - 1) < rows_table::key_at(b, m) {
        return;
    }
    let mut late = [0u32; 192];
    rows_table::put_words(&mut late, 0, &b[m * WIDTH..count * WIDTH]);
    rows_table::clear(b, m * WIDTH, count * WIDTH);
    rows_merge::merge(b, m, &late, count - m);
}

// All rows in one run, in order.
pub fn settle(b: &mut [u32], count: usize)
    requires { count * width ≤ length b.old }
    ensures { (rows : List Row) → Keeps rows count b.old → Holds rows count b.new }
{
    if count < 32 {
        return;
    }
    let m = split(&Rows { words: b, count });
    join(b, m, count);
}

// Puts the row into the late run, in the place of the one there with its key; none of the first m rows has it.
fn put_late(b: &mut [u32], m: usize, count: usize, row: &[u32; WIDTH]) -> Option<usize>
    requires { (count * width ≤ length b.old) × (m ≤ count) }
    ensures room { Fit width (length b.old) result }
    ensures after { (rows : List Row) (P : Parted rows m count b.old) → Near m count → find_row (key row.now) P.first ≡ none
        → PutIn (insert_row row.now rows) (length b.old) result b.new }
{
    let late = rows_table::insert(&mut b[m * WIDTH..], count - m, row)?;
    if late == 32 {
        join(b, m, m + late);
    }
    Some(m + late)
}

// Puts the row in, in the place of the one with its key where there is one.
pub fn insert(b: &mut [u32], count: usize, row: &[u32; WIDTH]) -> Option<usize>
    requires { count * width ≤ length b.old }
    ensures room { Fit width (length b.old) result }
    ensures after { (rows : List Row) → Keeps rows count b.old → PutIn (insert_row row.now rows) (length b.old) result b.new }
{
    let k = rows_table::key_of(row[0], row[1]);
    let m = split(&Rows { words: b, count });
    match find_first(&Rows { words: b, count: m }, k) {
        Some(i) => {
            rows_table::put_words(b, i * WIDTH, row);
            Some(count)
        }
        // which looks for it among the late rows
        None => put_late(b, m, count, row),
    }
}

// Takes out the rows whose keys are at least lo and below hi, and returns how many are left. Where the first run has none, few rows move.
pub fn remove(b: &mut [u32], count: usize, lo: u64, hi: u64) -> usize
    requires { (count * width ≤ length b.old) × (lo ≤ hi) }
    ensures fewer { result ≤ count }
    ensures after { (rows : List Row) → Keeps rows count b.old → TakenOut (remove_rows lo hi rows) result b.new }
{
    let m = split(&Rows { words: b, count });
    if any_in(
        &Rows {
            words: &b[..m * WIDTH],
            count: m,
        },
        lo,
        hi,
    ) {
        join(b, m, count);
        return rows_table::remove(b, count, lo, hi);
    }
    let n = rows_table::remove(&mut b[m * WIDTH..], count - m, lo, hi);
    m + n
}
