// Two tables made one in a lent buffer, from the back, so that each row moves once.
#![tactic(auto)]

ghost use Rattle.std.specs.Prelude.{◌≡◌, List, ◌++◌, ℕ, ◌+◌, ◌*◌, ◌≤◌, length, take, drop};
ghost use Rattle.std.proofs.Math.Seq.{slice};
ghost use Rattle.rows_table.specs.Rows.{Row, width, rank, insert_all, Holds};
ghost use Rattle.rows_merge.specs.Merge.{Apart, Merging};

use rows_table::Rows;

// How many of the first i rows stand before the key: often all of them.
fn below(rows: &Rows<'_>, k: u64) -> usize
    ensures within { result ≤ rows.now.count }
    ensures ranked { (rs : List Row) → Holds rs rows.now.count (take (rows.now.count * width) rows.now.words.now) → result ≡ rank k rs }
{
    let count = rows.count;
    if 0 < count && rows.key(count - 1) < k {
        return count;
    }
    let words = &rows.words[..count * rows_table::WIDTH];
    Rows { words, count }.lower_bound(k)
}

// The words from `from` up to `to` move up by w words.
fn move_up(b: &mut [u32], from: usize, to: usize, w: usize)
    requires { (from ≤ to) × (to + w ≤ length b.old) }
    ensures { b.new ≡ take (from + w) b.old ++ (slice from to b.old ++ drop (to + w) b.old) }
{
    // by one row, it is one move of memory
    if w == rows_table::WIDTH {
        rows_table::shift_up(b, from, to);
    } else {
        b.copy_within(from..to, from + w);
    }
}

// Row j of src goes to its place; the rows after that place, of the first i, move up by j + 1 rows. Returns how many of them are left below.
fn place(b: &mut [u32], i: usize, src: &[u32], j: usize) -> usize
    requires { ((i + j + 1) * width ≤ length b.old) × ((j + 1) * width ≤ length src.now) }
    ensures within { result ≤ i }
    ensures placed { (rows more : List Row) (count m : ℕ) → Holds more m src.now → Merging rows more count m i (j + 1) b.old → Merging rows more count m result j b.new }
{
    let at = j * rows_table::WIDTH;
    let end = i * rows_table::WIDTH;
    let k = rows_table::key_at(src, j);
    let p = below(&Rows { words: b, count: i }, k);
    let to = p * rows_table::WIDTH;
    move_up(b, to, end, at + rows_table::WIDTH);
    rows_table::put_words(b, to + at, &src[at..at + rows_table::WIDTH]);
    p
}

// Puts the first m rows of src, a table none of whose keys is in the other, into the table of `count` rows: each row moves once. (`src, m` stay two beside `b, count`, which can't
// be one: a struct on one side alone would be no plainer.)
pub fn merge(b: &mut [u32], count: usize, src: &[u32], m: usize)
    requires { ((count + m) * width ≤ length b.old) × (m * width ≤ length src.now) }
    ensures long { length b.new ≡ length b.old }
    ensures merged { (rows more : List Row) → Holds rows count b.old → Holds more m src.now → Apart more rows → Holds (insert_all more rows) (count + m) b.new }
{
    let mut i = count;
    for j in (0..m).rev() {
        i = place(b, i, src, j);
    }
}
