// `check_name_collisions`: each array in row order that has a procedure's or a builtin's name.
#![tactic(auto)]

ghost use Rattle.std.specs.Prelude.{◌≡◌, true, ◌*◌, ◌≤◌, length};
ghost use Rattle.base_strings.specs.Table.{string_at, names_of};
ghost use Rattle.base_builtins.specs.Builtins.{is_builtin};
ghost use Rattle.rows_lent.specs.Rules.{is_marked};
ghost use Rattle.rows_table.specs.Rows.{width};
ghost use Rattle.collect_buffers.specs.Held.{Fit};
ghost use Rattle.collect_definition.specs.Code.{Named};
ghost use Rattle.entry_collisions.specs.Collisions.{NamedAt, Collides, Ready, Checks};
ghost use Rattle.entry_collisions.specs.Entry.{LentReady, Tells, over_of, checked_of, Entry};

use base_strings::{Sound, Strings};
use base_words::Refusal;
use collect_buffers::Counts;
use rows_table::Rows;

// Whether a name is a builtin function's.
fn is_builtin(strings: &Sound<'_>, name: u32) -> bool
    requires { is_marked (names_of strings.now.bytes.now strings.now.ends.now) name ≡ true }
    ensures { result ≡ is_builtin (string_at strings.now.bytes.now strings.now.ends.now name) }
{
    entry_lookup::spelled(strings, name).is_some()
}

// The array in row i, a procedure before a builtin.
fn collision(strings: &Sound<'_>, rows: &Rows<'_>, d: &mut [u32], s: Counts, i: usize) -> Counts
    requires { NamedAt strings.now.bytes.now strings.now.ends.now rows.now.words.now rows.now.count i × (s.notes * width ≤ length d.old) }
    ensures { Collides strings.now.bytes.now strings.now.ends.now rows.now.words.now rows.now.count i s result d.old d.new }
{
    let at = i * rows_table::WIDTH;
    let b = rows.words;
    let name = b[at] % 16777216;
    let line = b[at + 3];
    match rows_lookup::find_entry(rows, 135, name, 0) {
        Some(j) => {
            let p = j * rows_table::WIDTH;
            collect_buffers::push(d, s, 27, line, name + 1, 0, b[p + 2], b[p + 3])
        }
        None => {
            let builtin = is_builtin(strings, name);
            collect_buffers::push_if(d, s, builtin, 28, line, name + 1, 0, 0, 0)
        }
    }
}

// All arrays: their rows stand together, and no other is looked at. (`b` is only read, and stays beside `s` all the same: its count is `s.rows`, and `s` goes on to the diagnostics.)
pub fn collisions(strings: &Sound<'_>, b: &[u32], d: &mut [u32], s: Counts) -> Counts
    requires { Ready strings.now.bytes.now strings.now.ends.now b.now s × Fit s (length b.now) (length d.old) }
    ensures { Checks strings.now.bytes.now strings.now.ends.now s result b.now d.old d.new }
{
    if s.stop != 0 {
        return s;
    }
    let rows = Rows {
        words: b,
        count: s.rows,
    };
    let from = rows.lower_bound(rows_kinds::entry_key(133, 0, 0));
    let end = rows.lower_bound(rows_kinds::entry_key(134, 0, 0));
    let mut t = s;
    for i in from..end {
        t = collision(strings, &rows, d, t, i);
    }
    t
}

// Over the n rows of a lent table, into diagnostics of its own: number 8, which leaves zeros. (`rows, n` go on as `b` and `s.rows`.)
fn over(strings: &Sound<'_>, rows: &[u32], n: usize, d: &mut [u32]) -> Result<usize, Refusal>
    requires { LentReady strings.now.bytes.now strings.now.ends.now rows.now n }
    ensures { Tells d.old result d.new (over_of strings.now.bytes.now strings.now.ends.now rows.now (length d.old) n) }
{
    rows_table::empty(d);
    let s = Counts {
        stop: 0,
        rows: n,
        notes: 0,
    };
    let t = collisions(strings, rows, d, s);
    if t.stop != 0 {
        rows_table::empty(d);
        return Err(Refusal::DiagnosticsFull);
    }
    Ok(t.notes)
}

// Number 6 before it.
fn under(strings: &Sound<'_>, names: &[u8], rows: &[u32], d: &mut [u32]) -> Result<usize, Refusal>
    requires { Named strings.now.bytes.now strings.now.ends.now names.now }
    ensures { Tells d.old result d.new (checked_of strings.now.bytes.now strings.now.ends.now rows.now (length d.old)) }
{
    let n = rows_lent::check_rows(rows, names).ok_or(Refusal::Rows)?;
    over(strings, rows, n, d)
}

// The check over a lent string table and lent rows, which are only read: 5, 1, 6, 8 in this order. `bytes, ends` is document 01's form of such a table.
pub fn check_name_collisions(
    bytes: &[u8],
    ends: &[u32],
    rows: &[u32],
    d: &mut [u32],
) -> Result<usize, Refusal>
    ensures { Entry bytes.now ends.now rows.now d.old result d.new }
{
    entry_lookup::passes(&Strings { bytes, ends })?;
    let strings = Sound { bytes, ends };
    let names = base_strings::names_of(&strings);
    under(&strings, &names[..ends.len()], rows, d)
}
