// The sixteen kinds of rows: one function enters a row of any of them. What is left is said for every table that the buffer keeps. A kind is a number, since document 01
// numbers the kinds and a caller may give any below 144. Kind, name and word 1 stay three numbers, and their bounds clauses: a struct of the three would be written out
// at each call, with the same values, and is no plainer. `b` and `count` stay two, as in crate `rows_table`.
#![tactic(auto)]

ghost use Rattle.std.specs.Prelude.{◌≡◌, List, [], ◌∷◌, ◌+◌, ◌*◌, ◌≤◌, ◌<◌, length};
ghost use Rattle.rows_table.specs.Rows.{Row, width, find, insert};
ghost use Rattle.rows_table.specs.Answers.{Fit};
ghost use Rattle.rows_runs.specs.Runs.{Keeps, PutIn, KeptIn};
ghost use Rattle.rows_kinds.specs.Kinds.{row, entry_key, bit as bit_of, has_row, row_word};

use rows_table::Rows;

// The key of an entry: its kind and name, and its word 1.
pub fn entry_key(kind: u32, name: u32, second: u32) -> u64
    requires { (kind < 144) × (name < 16777216) }
    ensures { result ≡ entry_key kind name second }
{
    rows_table::key_of(kind * 16777216 + name, second)
}

// Whether there is a row with the key.
pub fn has(rows: &Rows<'_>, k: u64) -> bool
    ensures { (rs : List Row) → KeptIn rs rows.now → result ≡ has_row (find k rs) }
{
    rows_runs::find(rows, k).is_some()
}

// Word j of the row with the key, and 0 where there is none.
pub fn word(rows: &Rows<'_>, k: u64, j: usize) -> u32
    requires { j < width }
    ensures { (rs : List Row) → KeptIn rs rows.now → result ≡ row_word j (find k rs) }
{
    let words = rows.words;
    rows_runs::find(rows, k).map_or(0, |i| words[i * rows_table::WIDTH + j])
}

// No and yes, as 0 and 1.
pub fn bit(yes: bool) -> u32
    ensures value { result ≡ bit_of yes }
    ensures small { result < 2 }
{
    u32::from(yes)
}

// A row of any kind; `Entered` of the specs says which words each kind has.
pub fn enter(
    b: &mut [u32],
    count: usize,
    kind: u32,
    name: u32,
    w1: u32,
    w2: u32,
    w3: u32,
    w4: u32,
    w5: u32,
) -> Option<usize>
    requires { (count * width ≤ length b.old) × (kind < 144) × (name < 16777216) }
    ensures room { Fit width (length b.old) result }
    ensures after { (rows : List Row) → Keeps rows count b.old
        → PutIn (insert (row kind name (w1 ∷ w2 ∷ w3 ∷ w4 ∷ w5 ∷ [])) rows) (length b.old) result b.new }
{
    let row = [kind * 16777216 + name, w1, w2, w3, w4, w5];
    rows_runs::insert(b, count, &row)
}
