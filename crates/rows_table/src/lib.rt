// The table of rows in a lent buffer, and diagnostics in theirs: find, insert, take out, push. Safety asks only that the count fits the
// buffer; what is done is said for every table that the buffer holds. `b` and `count` stay two parameters, and that the rows fit a clause, where the buffer
// is written: this kit has no ghost field beside a `&mut` field. `lo` and `hi` stay two, and `lo ≤ hi` a clause: the library's `Range` doesn't promise it, and
// a type of both would be made for one call.
#![tactic(auto)]

ghost use Rattle.std.specs.Prelude.{◌≡◌, List, [], ◌++◌, ◌+◌, ◌-◌, ◌*◌, ◌≤◌, ◌<◌, length, take, drop, get_or};
ghost use Rattle.std.proofs.Math.Seq.{slice};
ghost use Rattle.rows_table.specs.Rows.{Row, key_of, width, note_width, zeros, rank, find as find_row, Filled, Holds};
ghost use Rattle.rows_table.specs.Answers.{found_at, Within, HeldIn, Fit, Inserted, Removed, Pushed};

mod rows;

pub use rows::Rows;

// The words of a row.
pub const WIDTH: usize = 6;

// The words of a diagnostic.
pub const NOTE_WIDTH: usize = 6;

// The words from `from` up to `to` move up by a row.
pub fn shift_up(b: &mut [u32], from: usize, to: usize)
    requires { (from ≤ to) × (to + width ≤ length b.old) }
    ensures { b.new ≡ take (from + width) b.old ++ (slice from to b.old ++ drop (to + width) b.old) }
{
    // `from` first, so that the distance is a constant and the compiler makes one move of memory
    b[from..].copy_within(..to - from, WIDTH);
}

// The words from `from` + w up to `to` move down by w words.
fn shift_down(b: &mut [u32], from: usize, to: usize, w: usize)
    requires { (from + w ≤ to) × (to ≤ length b.old) }
    ensures { b.new ≡ take from b.old ++ (slice (from + w) to b.old ++ drop (to - w) b.old) }
{
    // by one row, one move of memory too: `to` first here, since the compiler makes a loop of it where only `from` is
    if w == WIDTH {
        b[from..to].copy_within(WIDTH.., 0);
    } else {
        b.copy_within(from + w..to, from);
    }
}

// Two words as one number.
pub fn key_of(a: u32, b: u32) -> u64
    ensures { result ≡ key_of a b }
{
    (u64::from(a) << 32) + u64::from(b)
}

// The key of the row at i.
pub fn key_at(b: &[u32], i: usize) -> u64
    requires { (i + 1) * width ≤ length b.now }
    ensures { result ≡ key_of (get_or b.now (i * width) 0) (get_or b.now (i * width + 1) 0) }
{
    let at = i * WIDTH;
    key_of(b[at], b[at + 1])
}

// What is asked of rows.
impl Rows<'_> {
    // The key of the row at i.
    pub fn key(&self, i: usize) -> u64
        requires { i < self.now.count }
        ensures { result ≡ key_of (get_or self.now.words.now (i * width) 0) (get_or self.now.words.now (i * width + 1) 0) }
    {
        key_at(self.words, i)
    }

    // How many of the count rows stand before the key.
    pub fn lower_bound(&self, k: u64) -> usize
        ensures within { result ≤ self.now.count }
        ensures ranked { (rs : List Row) → HeldIn rs self.now → result ≡ rank k rs }
    {
        // By hand: the library's `partition_point` asks other places, and so answers otherwise of rows that don't rise, which C may lend (`bench_rows`).
        let mut lo = 0;
        let mut hi = self.count;
        while lo < hi {
            let mid = lo + (hi - lo) / 2;
            if self.key(mid) < k {
                lo = mid + 1;
            } else {
                hi = mid;
            }
        }
        lo
    }

    // The row with the key k.
    pub fn find(&self, k: u64) -> Option<usize>
        ensures within { Within self.now.count result }
        ensures found { (rs : List Row) → HeldIn rs self.now → result ≡ found_at (rank k rs) (find_row k rs) }
    {
        let p = self.lower_bound(k);
        (p < self.count && self.key(p) == k).then_some(p)
    }
}

// The words of `row`, written from `at`. By a loop, since the compiler makes six stores of it where `row` is a row: `copy_from_slice` of one was first laid into
// memory, and tested for lying apart from `b`.
pub fn put_words(b: &mut [u32], at: usize, row: &[u32])
    requires { at + length row.now ≤ length b.old }
    ensures { b.new ≡ take at b.old ++ (row.now ++ drop (at + length row.now) b.old) }
{
    for (j, &w) in row.iter().enumerate() {
        b[at + j] = w;
    }
}

// Zeros from `from` up to `to`. (This is the library's `fill` under the promise that the laws of a buffer cite.)
pub fn clear(b: &mut [u32], from: usize, to: usize)
    requires { (from ≤ to) × (to ≤ length b.old) }
    ensures { b.new ≡ take from b.old ++ (zeros (to - from) ++ drop to b.old) }
{
    b[from..to].fill(0);
}

// Puts the row in, in the place of the one with its key where there is one.
pub fn insert(b: &mut [u32], count: usize, row: &[u32; WIDTH]) -> Option<usize>
    requires { count * width ≤ length b.old }
    ensures room { Fit width (length b.old) result }
    ensures after { (rows : List Row) → Holds rows count b.old → Inserted row.now rows (length b.old) result b.new }
{
    let k = key_of(row[0], row[1]);
    let p = Rows { words: b, count }.lower_bound(k);
    let at = p * WIDTH;
    let end = count * WIDTH;
    if p < count && key_at(b, p) == k {
        put_words(b, at, row);
        return Some(count);
    }
    if b.len() - end < WIDTH {
        return None;
    }
    shift_up(b, at, end);
    put_words(b, at, row);
    Some(count + 1)
}

// Takes out the rows whose keys are at least lo and below hi, and returns how many are left.
pub fn remove(b: &mut [u32], count: usize, lo: u64, hi: u64) -> usize
    requires { (count * width ≤ length b.old) × (lo ≤ hi) }
    ensures fewer { result ≤ count }
    ensures after { (rows : List Row) → Holds rows count b.old → Removed lo hi rows (length b.old) result b.new }
{
    let p = Rows { words: b, count }.lower_bound(lo);
    let q = Rows { words: b, count }.lower_bound(hi);
    if q <= p {
        return count;
    }
    let w = (q - p) * WIDTH;
    let end = count * WIDTH;
    shift_down(b, p * WIDTH, end, w);
    clear(b, end - w, end);
    count - (q - p)
}

// Puts a diagnostic after the last.
pub fn push(b: &mut [u32], count: usize, note: &[u32; NOTE_WIDTH]) -> Option<usize>
    requires { count * note_width ≤ length b.old }
    ensures room { Fit note_width (length b.old) result }
    ensures after { (notes : List Row) → Filled note_width notes count b.old
        → Pushed note.now notes (length b.old) result b.new }
{
    let end = count * NOTE_WIDTH;
    if b.len() - end < NOTE_WIDTH {
        return None;
    }
    put_words(b, end, note);
    Some(count + 1)
}

// Zeros: no rows, and no diagnostics.
pub fn empty(b: &mut [u32])
    ensures { (b.new ≡ zeros (length b.old)) × Holds [] 0 b.new × Filled note_width [] 0 b.new }
{
    b.fill(0);
}
