// The scan of collecting: each statement, then its bodies, those of a procedure in its own scope. Every word tells by its kind what it is, so one pass over the words meets
// every statement's head in that order.
// Kinds of words are numbers, matched with ranges: document 01's form of a tree.
#![tactic(auto)]

ghost use Rattle.std.specs.Prelude.{ℕ, ◌<◌, List, length, get_or};
ghost use Rattle.base_words.specs.Word.{kind_of};
ghost use Rattle.tree_stmt.specs.Sorts.{stmt as stmt_sort};
ghost use Rattle.tree_stmt.specs.Tree.{one};
ghost use Rattle.tree_stmt.specs.Memo.{Remembers};
ghost use Rattle.collect_scan.specs.Walk.{Ready, Alone, ReadyProcedure, ReadyWhole, Scanning, Scanned, Stated, Collects, Takes, Doing, SomeItems, Passes};

mod program;

use collect_buffers::Counts;
pub use program::Program;

// Rows, diagnostics and their counts stay three parameters: beside a `&mut` field no ghost field is had, so that a struct of them would carry no fact. So do a scope and
// a place, which the crates of the statements take as two. A memo is lent beside the program, and that it is right is a `requires`: `noted`, in `entry_analyse` and
// `entry_collect`, writes it after the program is made and lends it on; and contracts name each list by its path, which a struct around `Program` would make longer by a
// step.

// One statement that is no procedure, but for its bodies.
fn statement(
    program: &Program<'_>,
    b: &mut [u32],
    d: &mut [u32],
    s: Counts,
    scope: u32,
    at: usize,
) -> Counts
    requires { Ready (one stmt_sort) program.now.source.words.now program.now.source.names.now program.now.strings.bytes.now program.now.strings.ends.now scope at s b.old d.old × Alone (kind_of (get_or program.now.source.words.now at 0)) }
    ensures { Stated program.now.source.words.now program.now.source.names.now (length program.now.strings.ends.now) program.now.strings.bytes.now program.now.strings.ends.now program.now.erased.now scope at s result b.old d.old b.new d.new }
{
    let words = program.source.words;
    match words[at] / 16777216 {
        64 => collect_labels_const::label(words, b, d, s, scope, at),
        65 => collect_labels_const::label_name(words, b, d, s, scope, at),
        79 => collect_dim::dim(words, &program.strings, program.erased, b, d, s, scope, at),
        81 => collect_shared_static::shared(words, b, d, s, scope, at),
        82 => collect_shared_static::statics(words, b, d, s, scope, at),
        83 => collect_dim::redim(words, &program.strings, program.erased, b, d, s, scope, at),
        89 => collect_labels_const::constant(words, b, d, s, at),
        92 => collect_labels_const::option_base(words, b, d, s, at),
        93 => collect_type::type_def(words, b, d, s, scope, at),
        _ => s,
    }
}

// A SUB or FUNCTION, but for its body; it ends at `end`.
fn procedure(
    program: &Program<'_>,
    b: &mut [u32],
    d: &mut [u32],
    s: Counts,
    scope: u32,
    at: usize,
    end: usize,
) -> Counts
    requires { ReadyProcedure program.now.source.words.now program.now.source.names.now program.now.strings.bytes.now program.now.strings.ends.now scope at end s b.old d.old }
    ensures { (erased : List ℕ) → Stated program.now.source.words.now program.now.source.names.now (length program.now.strings.ends.now) program.now.strings.bytes.now program.now.strings.ends.now erased scope at s result b.old d.old b.new d.new }
{
    let words = program.source.words;
    if words[at] / 16777216 == 84 {
        collect_procedure::sub(&program.source, &program.strings, b, d, s, scope, at, end)
    } else {
        collect_procedure::function(&program.source, &program.strings, b, d, s, scope, at, end)
    }
}

// The words of what stands there, a literal with its raw words; none of a statement that may do something.
#[tactic(auto, using(crate::proofs::Passing::idle_low, crate::proofs::Passing::idle_middle, crate::proofs::Passing::idle_high, crate::proofs::Passing::idle_top))]
fn quiet(k: u32) -> Option<usize>
    ensures { Takes k result }
{
    match k {
        24 | 25 => Some(2),
        26 | 27 => Some(3),
        64 | 65 | 79 | 81..=85 | 89 | 92 | 93 => None,
        _ => Some(1),
    }
}

// Past the leaves, which are most of the words. (A `for` and no `find`: of that the check does not see by itself that all before its answer are leaves.)
fn leaves(words: &[u32], from: usize, to: usize) -> usize
    requires { SomeItems words.now from to }
    ensures { Passes words.now from result to }
{
    for at in from..to {
        if 24 <= words[at] / 16777216 {
            return at;
        }
    }
    to
}

// The next statement that may do something, or `to`: no other word says anything.
fn ahead(words: &[u32], from: usize, to: usize) -> usize
    requires { SomeItems words.now from to }
    ensures passes { Passes words.now from result to }
    ensures doing { result < to → Doing (kind_of (get_or words.now result 0)) }
{
    let mut at = leaves(words, from, to);
    // A `while`: what stands there takes one to three words.
    while at < to {
        let Some(n) = quiet(words[at] / 16777216) else {
            return at;
        };
        at = leaves(words, at + n, to);
    }
    at
}

// All statements of the words from one place to another, by one scan: a literal's raw words are passed over, and a procedure's body is scanned in its own scope. A `while`:
// a statement's head is one word, a procedure has as many as it has.
fn scan(
    program: &Program<'_>,
    b: &mut [u32],
    d: &mut [u32],
    s: Counts,
    scope: u32,
    from: usize,
    to: usize,
    memo: &[u32],
) -> Counts
    requires { Scanning program.now.source.words.now program.now.source.names.now program.now.strings.bytes.now program.now.strings.ends.now scope from to s b.old d.old × Remembers program.now.source.words.now program.now.source.names.now (length program.now.source.names.now) memo.now }
    ensures { Scanned program.now.source.words.now program.now.source.names.now program.now.strings.bytes.now program.now.strings.ends.now program.now.erased.now scope from to s result b.old d.old b.new d.new }
{
    let words = program.source.words;
    let mut t = s;
    let mut at = ahead(words, from, to);
    while at < to {
        match words[at] / 16777216 {
            84 | 85 => {
                let e = tree_stmt::past(words, &program.source.marks(), memo, at);
                let own = tree_walk::inside(words, at, scope);
                t = procedure(program, b, d, t, scope, at, e);
                let first = at + 1;
                t = scan(program, b, d, t, own, first, e, memo);
                at = ahead(words, e, to);
            }
            _ => {
                t = statement(program, b, d, t, scope, at);
                at = ahead(words, at + 1, to);
            }
        }
    }
    t
}

// The list of statements at `at`, which is the last thing in the words.
pub fn statements(
    program: &Program<'_>,
    b: &mut [u32],
    d: &mut [u32],
    s: Counts,
    scope: u32,
    at: usize,
    memo: &[u32],
) -> Counts
    requires { ReadyWhole program.now.source.words.now program.now.source.names.now program.now.strings.bytes.now program.now.strings.ends.now scope at s b.old d.old × Remembers program.now.source.words.now program.now.source.names.now (length program.now.source.names.now) memo.now }
    ensures { Collects program.now.source.words.now program.now.source.names.now program.now.strings.bytes.now program.now.strings.ends.now program.now.erased.now scope at (length program.now.source.words.now) s result b.old d.old b.new d.new }
{
    scan(
        program,
        b,
        d,
        s,
        scope,
        at,
        program.source.words.len(),
        memo,
    )
}
