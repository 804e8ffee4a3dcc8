// Collecting, the collision check and resolving in one call: rows, diagnostics and resolved words into three lent buffers.
#![tactic(auto)]

ghost use Rattle.std.specs.Prelude.{◌≡◌, ◌≤◌, length};
ghost use Rattle.base_words.specs.Sizes.{max_strings};
ghost use Rattle.tree_stmt.specs.Memo.{Remembers};
ghost use Rattle.collect_buffers.specs.Held.{Fresh};
ghost use Rattle.collect_definition.specs.Passed.{Passed};
ghost use Rattle.entry_analyse.specs.Analyse.{Tells, Analyses, work};
ghost use Rattle.entry_analyse.specs.Run.{Tabled};

use base_strings::{Sound, Strings};
use base_words::Refusal;
use collect_buffers::Counts;
use collect_scan::Program;
use rows_table::Rows;
use tree_stmt::Source;

// How many diagnostics, rows and resolved words stand in their buffers.
#[derive(Clone, Copy, PartialEq, Eq, Debug)]
pub struct Given {
    pub notes: usize,
    pub rows: usize,
    pub words: usize,
}

// A program whose names are not marked yet: a tree, its strings, which meet their rule, and the names whose declarations are erased.
#[derive(Clone, Copy)]
struct Unmarked<'a> {
    words: &'a [u32],
    strings: Sound<'a>,
    erased: &'a [u32],
}

// Rows, diagnostics and output stay three arguments, and what `fresh` says of the first two a `requires`: each function over one struct of these `&mut`s would promise
// further that every field keeps its ghost name, and beside a `&mut` no ghost field is had. What a memo remembers is a `requires` as well: `noted` writes the memo, and
// only two functions here just read it.

// Rows and diagnostics of a program that passed the checks; a run that stops leaves zeros.
fn tables(
    program: &Program<'_>,
    rows: &mut [u32],
    notes: &mut [u32],
    memo: &[u32],
    fresh: bool,
) -> Counts
    requires { Passed program.now.strings.bytes.now program.now.strings.ends.now program.now.erased.now program.now.source.words.now program.now.source.names.now × Remembers program.now.source.words.now program.now.source.names.now (length program.now.source.names.now) memo.now × Fresh fresh rows.old notes.old }
    ensures { Tabled program.now.strings.bytes.now program.now.strings.ends.now program.now.erased.now program.now.source.words.now result rows.old notes.old rows.new notes.new }
{
    let s = collect_buffers::begin_in(rows, notes, fresh);
    let c = collect_scan::statements(program, rows, notes, s, 0, 0, memo);
    collect_buffers::settle(rows, c);
    let d = entry_collisions::collisions(&program.strings, rows, notes, c);
    collect_buffers::finish(rows, notes, d)
}

// A program that passed the checks, into an output that is long enough.
fn run(
    program: &Program<'_>,
    notes: &mut [u32],
    rows: &mut [u32],
    out: &mut [u32],
    memo: &[u32],
    fresh: bool,
) -> Result<Given, Refusal>
    requires { Passed program.now.strings.bytes.now program.now.strings.ends.now program.now.erased.now program.now.source.words.now program.now.source.names.now × (length program.now.source.words.now ≤ length out.old) × Remembers program.now.source.words.now program.now.source.names.now (length program.now.source.names.now) memo.now × Fresh fresh rows.old notes.old }
    ensures { Tells result notes.old rows.old out.old notes.new rows.new out.new (work (length rows.old) (length notes.old) (length out.old) program.now.strings.bytes.now program.now.strings.ends.now program.now.erased.now program.now.source.words.now) }
{
    let s = tables(program, rows, notes, memo, fresh);
    if s.stop != 0 {
        return Err(collect_buffers::refusal(s.stop));
    }
    let kept = Rows {
        words: rows,
        count: s.rows,
    };
    let count = resolve_scan::resolve_with(&program.source, &kept, out, memo);
    Ok(Given {
        notes: s.notes,
        rows: s.rows,
        words: count,
    })
}

// Where the names' marks are known: 2 or 3, 4, 10, and then the run, with a memo of the ends of procedures.
fn noted(
    program: &Program<'_>,
    notes: &mut [u32],
    rows: &mut [u32],
    out: &mut [u32],
    memo: &mut [u32],
    fresh: bool,
) -> Result<Given, Refusal>
    requires { Remembers program.now.source.words.now program.now.source.names.now (length program.now.source.names.now) memo.old × Fresh fresh rows.old notes.old }
    ensures { Tells result notes.old rows.old out.old notes.new rows.new out.new (work (length rows.old) (length notes.old) (length out.old) program.now.strings.bytes.now program.now.strings.ends.now program.now.erased.now program.now.source.words.now) }
{
    entry_read::check_program_with(&program.source, program.erased, memo)?;
    if out.len() < program.source.words.len() {
        return Err(Refusal::Output);
    }
    run(program, notes, rows, out, memo, fresh)
}

// Where the strings are sound: their marks, one for each, and then the checks of the tree; with room for so many marks, and an empty memo of so many words. Not inlined,
// so that the large arrays of one size stay out of the stack of the others.
#[inline(never)]
fn marked_with<const STRINGS: usize, const MEMO: usize>(
    program: &Unmarked<'_>,
    notes: &mut [u32],
    rows: &mut [u32],
    out: &mut [u32],
    fresh: bool,
) -> Result<Given, Refusal>
    requires { (length program.now.strings.ends.now ≤ STRINGS) × (STRINGS ≤ max_strings) × (MEMO ≤ 4094) × Fresh fresh rows.old notes.old }
    ensures { Tells result notes.old rows.old out.old notes.new rows.new out.new (work (length rows.old) (length notes.old) (length out.old) program.now.strings.bytes.now program.now.strings.ends.now program.now.erased.now program.now.words.now) }
{
    let mut marks = [0u8; STRINGS];
    let names = &mut marks[..program.strings.ends.len()];
    base_strings::mark_names(&program.strings, names);
    let marked = Program {
        source: Source {
            words: program.words,
            names,
        },
        strings: program.strings,
        erased: program.erased,
    };
    let mut memo = [0u32; MEMO];
    noted(&marked, notes, rows, out, &mut memo, fresh)
}

// Most programs have few strings and words, and so little room to clear; the others have room for the marks of all strings that a table may have, and for the ends
// of 2,047 procedures. An odd number of slots: procedures of equal length get different ones.
fn marked(
    program: &Unmarked<'_>,
    notes: &mut [u32],
    rows: &mut [u32],
    out: &mut [u32],
    fresh: bool,
) -> Result<Given, Refusal>
    requires { (length program.now.strings.ends.now ≤ max_strings) × Fresh fresh rows.old notes.old }
    ensures { Tells result notes.old rows.old out.old notes.new rows.new out.new (work (length rows.old) (length notes.old) (length out.old) program.now.strings.bytes.now program.now.strings.ends.now program.now.erased.now program.now.words.now) }
{
    if program.strings.ends.len() <= 64 && program.words.len() <= 2048 {
        marked_with::<64, 128>(program, notes, rows, out, fresh)
    } else {
        marked_with::<1024, 4094>(program, notes, rows, out, fresh)
    }
}

// A refusal leaves the buffers as they came, but for 7, 8 and 9, which leave rows and diagnostics zero. Rows and diagnostics that are zeros, as in new buffers,
// need no clearing before the run.
pub fn analyse_in(
    strings: &Strings<'_>,
    words: &[u32],
    erased: &[u32],
    notes: &mut [u32],
    rows: &mut [u32],
    out: &mut [u32],
    fresh: bool,
) -> Result<Given, Refusal>
    requires { Fresh fresh rows.old notes.old }
    ensures { Analyses strings.now.bytes.now strings.now.ends.now erased.now words.now result notes.old rows.old out.old notes.new rows.new out.new }
{
    if !entry_read::sized_program(strings, words, erased) {
        return Err(Refusal::Size);
    }
    base_strings::check(strings)?;
    // Behind a reference: the check takes a struct with a ghost field that was made here into another only where the signature has one lifetime for both.
    let strings = &Sound {
        bytes: strings.bytes,
        ends: strings.ends,
    };
    let program = Unmarked {
        words,
        strings: *strings,
        erased,
    };
    marked(&program, notes, rows, out, fresh)
}

// Into buffers that may hold anything. (It takes a string table as document 01 gives it, as bytes and ends.)
pub fn analyse(
    bytes: &[u8],
    ends: &[u32],
    words: &[u32],
    erased: &[u32],
    notes: &mut [u32],
    rows: &mut [u32],
    out: &mut [u32],
) -> Result<Given, Refusal>
    ensures { Analyses bytes.now ends.now erased.now words.now result notes.old rows.old out.old notes.new rows.new out.new }
{
    analyse_in(
        &Strings { bytes, ends },
        words,
        erased,
        notes,
        rows,
        out,
        false,
    )
}
