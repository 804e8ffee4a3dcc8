// The text of an answer: the diagnostics' lines, T lines, the R line; or the line of a refusal. `out, at` stay two parameters, as in crate `list_message`.
#![tactic(auto)]

ghost use Rattle.std.specs.Prelude.{◌≡◌, ◌+◌, ◌*◌, ◌≤◌, length};
ghost use mathlib.Core.List.{flat_map};
ghost use Rattle.base_text.specs.Wrote.{Wrote};
ghost use Rattle.list_message.specs.Message.{lines};
ghost use Rattle.rows_table.specs.Rows.{width, note_width};
ghost use Rattle.list_page.specs.Page.{word, line, diag_of, page, refusal};
ghost use Rattle.list_page.specs.Chunks.{chunks};

use base_strings::Strings;
use base_text::{lay_word, put_byte, put_bytes, put_decimal, put_word};
use list_message::{Diag, put_diag};
use rows_table::{NOTE_WIDTH, WIDTH};

// Some words, where there is room for all.
fn lay_words(out: &mut [u8], at: usize, words: &[u32])
    requires { at + 9 * length words.now ≤ length out.old }
    ensures { Wrote (flat_map word words.now) out.old out.new at (at + 9 * length words.now) }
{
    for (i, w) in words.iter().enumerate() {
        lay_word(out, at + 9 * i, *w);
    }
}

// One by one, as much as fits.
fn put_each(out: &mut [u8], at: usize, words: &[u32]) -> usize
    ensures { Wrote (flat_map word words.now) out.old out.new at result }
{
    let mut next = at;
    for w in words {
        next = put_word(out, next, *w);
    }
    next
}

// At once where there is room for all: with a test at each word a line of many took a quarter longer, or more.
fn put_words(out: &mut [u8], at: usize, words: &[u32]) -> usize
    ensures { Wrote (flat_map word words.now) out.old out.new at result }
{
    if at < out.len() && words.len() <= (out.len() - at) / 9 {
        lay_words(out, at, words);
        return at + 9 * words.len();
    }
    put_each(out, at, words)
}

// A letter and some words, as a line.
fn put_line(out: &mut [u8], at: usize, letter: u8, words: &[u32]) -> usize
    ensures { Wrote (line letter words.now) out.old out.new at result }
{
    let mut next = put_byte(out, at, letter);
    next = put_words(out, next, words);
    put_byte(out, next, b'\n')
}

fn diag(words: &[u32; NOTE_WIDTH]) -> Diag
    ensures { result ≡ diag_of words.now }
{
    let [code, line, first, second, number, note] = *words;
    Diag {
        code,
        line,
        first,
        second,
        number,
        note,
    }
}

fn put_notes(out: &mut [u8], at: usize, strings: &Strings<'_>, notes: &[[u32; NOTE_WIDTH]]) -> usize
    ensures { Wrote (flat_map (λ d. lines strings.now.bytes.now strings.now.ends.now (diag_of d)) notes.now) out.old out.new at result }
{
    let mut next = at;
    for note in notes {
        next = put_diag(out, next, strings, diag(note));
    }
    next
}

// A row's line where there is room for it, word by word: a loop over six words was tried, and taking the row apart before (a third longer); both cost more.
fn lay_row(out: &mut [u8], at: usize, row: &[u32; WIDTH])
    requires { at + 56 ≤ length out.old }
    ensures { Wrote (line 84 row.now) out.old out.new at (at + 56) }
{
    out[at] = b'T';
    lay_word(out, at + 1, row[0]);
    lay_word(out, at + 10, row[1]);
    lay_word(out, at + 19, row[2]);
    lay_word(out, at + 28, row[3]);
    lay_word(out, at + 37, row[4]);
    lay_word(out, at + 46, row[5]);
    out[at + 55] = b'\n';
}

// The rows' lines, where there is room for all.
fn lay_rows(out: &mut [u8], at: usize, rows: &[[u32; WIDTH]])
    requires { at + 56 * length rows.now ≤ length out.old }
    ensures { Wrote (flat_map (line 84) rows.now) out.old out.new at (at + 56 * length rows.now) }
{
    for (i, row) in rows.iter().enumerate() {
        lay_row(out, at + 56 * i, row);
    }
}

// One by one, as much as fits.
fn put_each_row(out: &mut [u8], at: usize, rows: &[[u32; WIDTH]]) -> usize
    ensures { Wrote (flat_map (line 84) rows.now) out.old out.new at result }
{
    let mut next = at;
    for row in rows {
        next = put_line(out, next, b'T', row);
    }
    next
}

// At once where there is room for all, as with words: with a test at each row many rows took some 8 % longer.
fn put_rows(out: &mut [u8], at: usize, rows: &[[u32; WIDTH]]) -> usize
    ensures { Wrote (flat_map (line 84) rows.now) out.old out.new at result }
{
    if at < out.len() && rows.len() <= (out.len() - at) / 56 {
        lay_rows(out, at, rows);
        return at + 56 * rows.len();
    }
    put_each_row(out, at, rows)
}

// How many diagnostics and rows stand in their buffers.
#[derive(Clone, Copy)]
pub struct Counts {
    pub notes: usize,
    pub rows: usize,
}

// The text of an answer. (Buffers and counts stay apart: `n` says of two of them at once how much is in use.)
pub fn put_page(
    out: &mut [u8],
    strings: &Strings<'_>,
    notes: &[u32],
    rows: &[u32],
    words: &[u32],
    n: Counts,
) -> usize
    requires { (n.notes * note_width ≤ length notes.now) × (n.rows * width ≤ length rows.now) }
    ensures { Wrote (page strings.now.bytes.now strings.now.ends.now (chunks note_width n.notes notes.now) (chunks width n.rows rows.now) words.now) out.old out.new 0 result }
{
    let (notes, _) = notes[..n.notes * NOTE_WIDTH].as_chunks();
    let (rows, _) = rows[..n.rows * WIDTH].as_chunks();
    let mut next = put_notes(out, 0, strings, notes);
    next = put_rows(out, next, rows);
    put_line(out, next, b'R', words)
}

pub fn put_refusal(out: &mut [u8], n: u32) -> usize
    ensures { Wrote (refusal n) out.old out.new 0 result }
{
    let mut next = put_bytes(out, 0, b"E ");
    next = put_decimal(out, next, n);
    put_byte(out, next, b'\n')
}
