// `collect` as an entry over lent strings, tree words and erased names, into two lent buffers: 5, 1, 2 or 3, 4 in this order, then 7, 8 or 9 as the run
// meets them, or how many rows and diagnostics there are.
#![tactic(auto)]

ghost use Rattle.std.specs.Prelude.{length};
ghost use Rattle.tree_stmt.specs.Memo.{Remembers};
ghost use Rattle.collect_definition.specs.Passed.{Passed};
ghost use Rattle.entry_collect.specs.Entry.{Tabled, Tells, Entered, work};

use base_strings::Strings;
use base_words::Refusal;
use collect_buffers::Counts;
use collect_scan::Program;
use tree_stmt::Source;

// How many rows and diagnostics stand in their buffers. Crate `list_page` has the same two numbers as what it is to lay out: it knows nothing of collecting.
#[derive(Clone, Copy, PartialEq, Eq, Debug)]
pub struct Sizes {
    pub rows: usize,
    pub notes: usize,
}

// Both buffers stay two parameters, as they are in `collect_scan`, and what a memo remembers a `requires`: `noted` writes the memo, and only `tables` just reads it.

// The rows and diagnostics of a program that passed the checks; a run that stops leaves zeros.
fn tables(program: &Program<'_>, b: &mut [u32], d: &mut [u32], memo: &[u32]) -> Counts
    requires { Passed program.now.strings.bytes.now program.now.strings.ends.now program.now.erased.now program.now.source.words.now program.now.source.names.now × Remembers program.now.source.words.now program.now.source.names.now (length program.now.source.names.now) memo.now }
    ensures { Tabled program.now.strings.bytes.now program.now.strings.ends.now program.now.erased.now program.now.source.words.now program.now.source.names.now result b.old d.old b.new d.new }
{
    let s = collect_buffers::begin(b, d);
    let t = collect_scan::statements(program, b, d, s, 0, 0, memo);
    collect_buffers::finish(b, d, t)
}

// Where the names' marks are known: 2 or 3, 4, and then the run, with a memo of the ends of procedures. (The `noted` of crate `entry_analyse` has a check more before its run, a
// buffer more, and answers something else.)
fn noted(
    program: &Program<'_>,
    b: &mut [u32],
    d: &mut [u32],
    memo: &mut [u32],
) -> Result<Sizes, Refusal>
    requires { Remembers program.now.source.words.now program.now.source.names.now (length program.now.source.names.now) memo.old }
    ensures { Tells result b.old d.old b.new d.new (work (length b.old) (length d.old) program.now.strings.bytes.now program.now.strings.ends.now program.now.erased.now program.now.source.words.now) }
{
    entry_read::check_program_with(&program.source, program.erased, memo)?;
    let s = tables(program, b, d, memo);
    if s.stop != 0 {
        return Err(collect_buffers::refusal(s.stop));
    }
    Ok(Sizes {
        rows: s.rows,
        notes: s.notes,
    })
}

// The same, with a memo of its own.
fn checked(program: &Program<'_>, b: &mut [u32], d: &mut [u32]) -> Result<Sizes, Refusal>
    ensures { Tells result b.old d.old b.new d.new (work (length b.old) (length d.old) program.now.strings.bytes.now program.now.strings.ends.now program.now.erased.now program.now.source.words.now) }
{
    let mut memo = [0u32; 128];
    noted(program, b, d, &mut memo)
}

// Collects a program's rows and diagnostics. 5, 1, 2, 3 and 4 leave the buffers as they came; 7, 8 and 9 leave them zero. (The entry takes a string table
// as document 01 gives it, as bytes and ends.)
pub fn collect(
    bytes: &[u8],
    ends: &[u32],
    words: &[u32],
    erased: &[u32],
    rows: &mut [u32],
    notes: &mut [u32],
) -> Result<Sizes, Refusal>
    ensures { Entered bytes.now ends.now erased.now words.now result rows.old notes.old rows.new notes.new }
{
    let strings = &Strings { bytes, ends };
    let sound = entry_read::begin(entry_read::sized_program(strings, words, erased), strings)?;
    let mut marks = [0; base_words::MAX_STRINGS];
    let names = &mut marks[..ends.len()];
    base_strings::mark_names(&sound, names);
    // Behind a reference: the check takes a struct with a ghost field that was made here into another only where the signature has one lifetime for both.
    let source = &Source { words, names };
    let program = Program {
        source: *source,
        strings: sound,
        erased,
    };
    checked(&program, rows, notes)
}
