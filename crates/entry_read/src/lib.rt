// Reads one statement or one expression at a place, and checks whole programs, with document 01's refusals.
#![tactic(auto)]

ghost use Rattle.std.specs.Prelude.{◌≡◌, length, get_or};
ghost use Rattle.tree_stmt.specs.Memo.{Keeps};
ghost use Rattle.base_strings.specs.Table.{names_of};
ghost use Rattle.base_strings.specs.Open.{Answers};
ghost use Rattle.entry_read.specs.Sized.{sized_tree as sized_tree_of, sized_program as sized_program_of};
ghost use Rattle.entry_read.specs.Begun.{Begun};
ghost use Rattle.entry_read.specs.Reading.{node_of_step, statement_of, expression_of, told, moved_of};
ghost use Rattle.entry_read.specs.Program.{erased_from, accepted_of, verdict, end_of, told as told_program};

use base_strings::{Sound, Strings};
use base_words::Refusal;
use tree_expr::{Cursor, Step};
use tree_stmt::Source;

// A node: its head word, its place, and the place past it.
#[derive(Clone, Copy)]
pub struct Node {
    pub head: u32,
    pub first: usize,
    pub end: usize,
}

// Whether a string table and a tree's words are within the sizes.
#[tactic(auto, unfolding(crate::specs::Sized::sized_tree, crate::specs::Sized::sized_strings))]
pub fn sized_tree(strings: &Strings<'_>, words: &[u32]) -> bool
    ensures { result ≡ sized_tree_of strings.now.bytes.now strings.now.ends.now words.now }
{
    strings.bytes.len() <= base_words::MAX_BYTES
        && strings.ends.len() <= base_words::MAX_STRINGS
        && words.len() <= base_words::MAX_WORDS
}

// The word at a place, 0 past the end.
fn word(words: &[u32], at: usize) -> u32
    ensures { result ≡ get_or words.now at 0 }
{
    words.get(at).copied().unwrap_or(0)
}

// The node from `at` to where reading came, or why there is none.
#[tactic(auto, unfolding(crate::specs::Reading::node_of_step, crate::specs::Reading::told, base_words::specs::Refusals::refused))]
fn passed(words: &[u32], at: usize, past: Step) -> Result<Node, Refusal>
    ensures { told result ≡ node_of_step words.now at past }
{
    let end = past?.at;
    Ok(Node {
        head: word(words, at),
        first: at,
        end,
    })
}

// One statement, where the names' marks are known. (It and the next differ in the call alone; one function that takes the call as a closure would be longer by
// the closure's promise.)
fn statement_at(at: usize, source: &Source<'_>) -> Result<Node, Refusal>
    ensures { told result ≡ statement_of source.now.names.now source.now.words.now at }
{
    let past = tree_stmt::stmt(
        Cursor { at },
        source.words,
        &source.marks(),
        base_words::MAX_DEPTH,
    );
    passed(source.words, at, past)
}

// One expression, where the names' marks are known.
fn expression_at(at: usize, source: &Source<'_>) -> Result<Node, Refusal>
    ensures { told result ≡ expression_of source.now.names.now source.now.words.now at }
{
    let past = Cursor { at }.expr(source.words, &source.marks(), base_words::MAX_DEPTH);
    passed(source.words, at, past)
}

// How an entry begins, where it is known whether its sizes are right: its string table, where that is right. (The names' marks, which come next, the
// caller lays into room of its own: so large an array is copied where it is handed back.)
pub fn begin<'a>(sized: bool, strings: &Strings<'a>) -> Result<Sound<'a>, Refusal>
    ensures { Begun sized strings.now.bytes.now strings.now.ends.now result }
{
    if !sized {
        return Err(Refusal::Size);
    }
    base_strings::check(strings)?;
    Ok(Sound {
        bytes: strings.bytes,
        ends: strings.ends,
    })
}

// These entries take a string table as document 01 gives it, as bytes and ends; what stands behind them takes `Strings` and `Source`.

// One statement at a place.
pub fn read_statement(at: usize, bytes: &[u8], ends: &[u32], words: &[u32]) -> Result<Node, Refusal>
    ensures { Answers (sized_tree_of bytes.now ends.now words.now) bytes.now ends.now (told result) (statement_of (names_of bytes.now ends.now) words.now at) }
{
    let strings = &Strings { bytes, ends };
    let sound = begin(sized_tree(strings, words), strings)?;
    let mut marks = [0; base_words::MAX_STRINGS];
    let names = &mut marks[..ends.len()];
    base_strings::mark_names(&sound, names);
    statement_at(at, &Source { words, names })
}

// One expression at a place.
pub fn read_expression(
    at: usize,
    bytes: &[u8],
    ends: &[u32],
    words: &[u32],
) -> Result<Node, Refusal>
    ensures { Answers (sized_tree_of bytes.now ends.now words.now) bytes.now ends.now (told result) (expression_of (names_of bytes.now ends.now) words.now at) }
{
    let strings = &Strings { bytes, ends };
    let sound = begin(sized_tree(strings, words), strings)?;
    let mut marks = [0; base_words::MAX_STRINGS];
    let names = &mut marks[..ends.len()];
    base_strings::mark_names(&sound, names);
    expression_at(at, &Source { words, names })
}

// A reading place.
#[derive(Clone, Copy)]
pub struct Reader {
    pub at: usize,
}

// An answer, and the reading place afterwards.
#[derive(Clone, Copy)]
pub struct Moved {
    pub reader: Reader,
    pub answer: Result<Node, Refusal>,
}

// The place moves past the node that was read, and stays on a refusal. (A `match`: the answer is kept as well as read.)
fn moved_by(at: usize, answer: Result<Node, Refusal>) -> Moved
    ensures { (result.answer ≡ answer) × (result.reader.at ≡ moved_of at (told answer)) }
{
    let at = match answer {
        Ok(node) => node.end,
        Err(_) => at,
    };
    Moved {
        reader: Reader { at },
        answer,
    }
}

impl Reader {
    // Reads one statement: the node, and the reading place past it.
    pub fn statement(self, bytes: &[u8], ends: &[u32], words: &[u32]) -> Moved
        ensures { (Answers (sized_tree_of bytes.now ends.now words.now) bytes.now ends.now (told result.answer) (statement_of (names_of bytes.now ends.now) words.now self.at)) × (result.reader.at ≡ moved_of self.at (told result.answer)) }
    {
        moved_by(self.at, read_statement(self.at, bytes, ends, words))
    }

    // Reads one expression: the node, and the reading place past it.
    pub fn expression(self, bytes: &[u8], ends: &[u32], words: &[u32]) -> Moved
        ensures { (Answers (sized_tree_of bytes.now ends.now words.now) bytes.now ends.now (told result.answer) (expression_of (names_of bytes.now ends.now) words.now self.at)) × (result.reader.at ≡ moved_of self.at (told result.answer)) }
    {
        moved_by(self.at, read_expression(self.at, bytes, ends, words))
    }
}

// Whether the erased names rise strictly, each a name's number. (No `all`: each is compared with the one before it, so that a closure would write what it captures.)
fn erased_right(erased: &[u32], names: &[u8]) -> bool
    ensures { result ≡ erased_from names.now 0 erased.now }
{
    let mut low = 0;
    for &name in erased {
        let e = name as usize;
        if e < low || names.len() <= e || names[e] != 1 {
            return false;
        }
        low = e + 1;
    }
    true
}

// A program that was read up to `at`: whether that is all, and its erased names.
fn whole(at: usize, source: &Source<'_>, erased: &[u32]) -> Result<(), Refusal>
    ensures { told_program result ≡ end_of source.now.names.now source.now.words.now erased.now at }
{
    if at != source.words.len() {
        return Err(Refusal::Word(at));
    }
    if !erased_right(erased, source.names) {
        return Err(Refusal::Erased);
    }
    Ok(())
}

// A program's words and erased names, where the names' marks are known. (`source` and `erased` stay two here: joined with the strings they are
// `collect_scan::Program`, and nothing here reads the strings; a struct for three functions would be no plainer. And this is the next with no memo, in two lines: one that takes an `Option` of a memo
// would have a contract of two cases.)
fn check_program(source: &Source<'_>, erased: &[u32]) -> Result<(), Refusal>
    ensures { told_program result ≡ verdict (accepted_of source.now.names.now source.now.words.now erased.now) }
{
    let end = tree_stmt::program(source.words, &source.marks())?;
    whole(end.at, source, erased)
}

// The same, with the ends of the program's procedures noted in a memo.
pub fn check_program_with(
    source: &Source<'_>,
    erased: &[u32],
    memo: &mut [u32],
) -> Result<(), Refusal>
    ensures { (told_program result ≡ verdict (accepted_of source.now.names.now source.now.words.now erased.now)) × Keeps source.now.words.now source.now.names.now (length source.now.names.now) memo.old memo.new }
{
    let end = tree_stmt::program_with(source.words, &source.marks(), memo)?;
    whole(end.at, source, erased)
}

// Whether a program is within the sizes.
#[tactic(auto, unfolding(crate::specs::Sized::sized_program))]
pub fn sized_program(strings: &Strings<'_>, words: &[u32], erased: &[u32]) -> bool
    ensures { result ≡ sized_program_of strings.now.bytes.now strings.now.ends.now words.now erased.now }
{
    sized_tree(strings, words) && erased.len() <= base_words::MAX_ERASED
}

// The check of a program with its strings and erased names.
pub fn accept(bytes: &[u8], ends: &[u32], words: &[u32], erased: &[u32]) -> Result<(), Refusal>
    ensures { Answers (sized_program_of bytes.now ends.now words.now erased.now) bytes.now ends.now (told_program result) (verdict (accepted_of (names_of bytes.now ends.now) words.now erased.now)) }
{
    let strings = &Strings { bytes, ends };
    let sound = begin(sized_program(strings, words, erased), strings)?;
    let mut marks = [0; base_words::MAX_STRINGS];
    let names = &mut marks[..ends.len()];
    base_strings::mark_names(&sound, names);
    check_program(&Source { words, names }, erased)
}
