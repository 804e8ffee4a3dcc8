// Resolves statements of all kinds in one scan of their words, into a lent output.
// Kinds of words are numbers, matched with ranges: document 01's form of a tree.
#![tactic(auto)]

ghost use Rattle.std.specs.Prelude.{◌≡◌, [], ◌∷◌, ◌+◌, ◌≤◌, ◌<◌, length, get_or, set};
ghost use Rattle.std.proofs.lemmas.List.Edits.{sets};
ghost use Rattle.base_words.specs.Word.{kind_of};
ghost use Rattle.tree_stmt.specs.Memo.{Remembers};
ghost use Rattle.resolve_scan.specs.Post.{ReadyToken, DoneToken, ReadyScan, DoneScan, PastStmt, ReadyProgram, ResolvedProgram};

mod inputs;

use inputs::Inputs;
use resolve_exprs::Spot;
use rows_table::Rows;
use tree_stmt::Source;

// The place past the statement at `at`.
fn past(inputs: &Inputs<'_>, at: usize) -> usize
    ensures { PastStmt inputs.now.source.names.now inputs.now.source.words.now at result }
{
    tree_stmt::past(inputs.source.words, &inputs.source.marks(), inputs.memo, at)
}

// Copies one word. (One word here and two below are stored by index: a call over two ranges would be longer.)
fn one(words: &[u32], out: &mut [u32], spot: Spot) -> Spot
    requires { (spot.at < length words.now) × (spot.to < length out.old) }
    ensures { (result.at ≡ spot.at + 1) × (result.to ≡ spot.to + 1) × (out.new ≡ set out.old spot.to (get_or words.now spot.at 0)) }
{
    out[spot.to] = words[spot.at];
    Spot {
        at: spot.at + 1,
        to: spot.to + 1,
    }
}

// Copies two words.
fn two(words: &[u32], out: &mut [u32], spot: Spot) -> Spot
    requires { (spot.at + 2 ≤ length words.now) × (spot.to + 2 ≤ length out.old) }
    ensures { (result.at ≡ spot.at + 2) × (result.to ≡ spot.to + 2) × (out.new ≡ sets out.old spot.to (get_or words.now spot.at 0 ∷ get_or words.now (spot.at + 1) 0 ∷ [])) }
{
    out[spot.to] = words[spot.at];
    out[spot.to + 1] = words[spot.at + 1];
    Spot {
        at: spot.at + 2,
        to: spot.to + 2,
    }
}

// A call: of a procedure all of it, else its head, and its arguments are still to come.
fn call(inputs: &Inputs<'_>, scope: u32, out: &mut [u32], spot: Spot) -> Spot
    requires { ReadyToken inputs.now.source.names.now inputs.now.source.words.now inputs.now.rows.words.now inputs.now.rows.count scope spot.at spot.to (length out.old) × (kind_of (get_or inputs.now.source.words.now spot.at 0) ≡ 21) }
    ensures { DoneToken inputs.now.source.names.now inputs.now.source.words.now inputs.now.rows.words.now out.old out.new inputs.now.rows.count scope spot.at spot.to result.at result.to }
{
    let f = inputs.source.words[spot.at + 1] % 16777216;
    if rows_lookup::has(&inputs.rows, 135, f, 0) {
        return resolve_exprs::resolve_expr(inputs.source.words, &inputs.rows, scope, out, spot);
    }
    let h = resolve_exprs::headed(resolve_definition::is_array(&inputs.rows, scope, f));
    resolve_exprs::begin(inputs.source.words, out, spot, h)
}

// A CALL, in the same way: it never turns into an element.
fn calling(inputs: &Inputs<'_>, scope: u32, out: &mut [u32], spot: Spot) -> Spot
    requires { ReadyToken inputs.now.source.names.now inputs.now.source.words.now inputs.now.rows.words.now inputs.now.rows.count scope spot.at spot.to (length out.old) × (kind_of (get_or inputs.now.source.words.now spot.at 0) ≡ 86) }
    ensures { DoneToken inputs.now.source.names.now inputs.now.source.words.now inputs.now.rows.words.now out.old out.new inputs.now.rows.count scope spot.at spot.to result.at result.to }
{
    let f = inputs.source.words[spot.at + 1] % 16777216;
    let n = inputs.source.words[spot.at + 2] % 16777216;
    let first = resolve_exprs::begin(inputs.source.words, out, spot, inputs.source.words[spot.at]);
    if rows_lookup::has(&inputs.rows, 135, f, 0) {
        return resolve_exprs::resolve_args(
            inputs.source.words,
            &inputs.rows,
            scope,
            out,
            first,
            f,
            n,
        );
    }
    first
}

// A SUB or FUNCTION, whose bodies have their own scope up to its end.
#[cycle(procedure_scan_token)]
fn procedure(inputs: &Inputs<'_>, scope: u32, out: &mut [u32], spot: Spot) -> Spot
    requires { ReadyToken inputs.now.source.names.now inputs.now.source.words.now inputs.now.rows.words.now inputs.now.rows.count scope spot.at spot.to (length out.old) × (84 ≤ kind_of (get_or inputs.now.source.words.now spot.at 0)) × (kind_of (get_or inputs.now.source.words.now spot.at 0) < 86) }
    ensures { DoneToken inputs.now.source.names.now inputs.now.source.words.now inputs.now.rows.words.now out.old out.new inputs.now.rows.count scope spot.at spot.to result.at result.to }
{
    let first = one(inputs.source.words, out, spot);
    let end = past(inputs, spot.at);
    let inner = tree_walk::inside(inputs.source.words, spot.at, scope);
    let to = scan(inputs, inner, out, first, end);
    Spot { at: end, to }
}

// The next token. A word is copied unless it is a call's head or stands for parentheses, which go. Most words have a kind below 21, and one
// test is enough for them.
#[cycle(procedure_scan_token)]
fn token(inputs: &Inputs<'_>, scope: u32, out: &mut [u32], spot: Spot) -> Spot
    requires { ReadyToken inputs.now.source.names.now inputs.now.source.words.now inputs.now.rows.words.now inputs.now.rows.count scope spot.at spot.to (length out.old) }
    ensures { DoneToken inputs.now.source.names.now inputs.now.source.words.now inputs.now.rows.words.now out.old out.new inputs.now.rows.count scope spot.at spot.to result.at result.to }
{
    let w = inputs.source.words[spot.at];
    let k = w / 16777216;
    if k < 21 {
        return one(inputs.source.words, out, spot);
    }
    match k {
        21 => call(inputs, scope, out, spot),
        23 => Spot {
            at: spot.at + 1,
            to: spot.to,
        },
        24 | 25 => two(inputs.source.words, out, spot),
        26 | 27 => resolve_exprs::begin(inputs.source.words, out, spot, w),
        84 | 85 => procedure(inputs, scope, out, spot),
        86 => calling(inputs, scope, out, spot),
        _ => one(inputs.source.words, out, spot),
    }
}

// The tokens from the reading place to `end`; answers the writing place past them.
#[cycle(procedure_scan_token)]
fn scan(inputs: &Inputs<'_>, scope: u32, out: &mut [u32], spot: Spot, end: usize) -> usize
    requires { ReadyScan inputs.now.source.names.now inputs.now.source.words.now inputs.now.rows.words.now inputs.now.rows.count scope spot.at end spot.to (length out.old) }
    ensures { DoneScan inputs.now.source.names.now inputs.now.source.words.now inputs.now.rows.words.now out.old out.new inputs.now.rows.count scope spot.at end spot.to result }
{
    let mut next = spot;
    // A `while`: a token takes one to three words, or all those of a call or a procedure.
    while next.at < end {
        next = token(inputs, scope, out, next);
    }
    next.to
}

// Resolves the program that is all of the words, with a memo of the ends of its procedures; answers how many words that gives.
pub fn resolve_with(source: &Source<'_>, rows: &Rows<'_>, out: &mut [u32], memo: &[u32]) -> usize
    requires { ReadyProgram source.now.names.now source.now.words.now rows.now.words.now rows.now.count (length out.old) × Remembers source.now.words.now source.now.names.now (length source.now.names.now) memo.now }
    ensures { ResolvedProgram source.now.names.now source.now.words.now rows.now.words.now out.old out.new rows.now.count result }
{
    let inputs = Inputs {
        source: *source,
        rows: *rows,
        memo,
    };
    let spot = Spot { at: 0, to: 0 };
    scan(&inputs, 0, out, spot, source.words.len())
}

// The same, where no memo is at hand.
pub fn resolve_array_accesses(source: &Source<'_>, rows: &Rows<'_>, out: &mut [u32]) -> usize
    requires { ReadyProgram source.now.names.now source.now.words.now rows.now.words.now rows.now.count (length out.old) }
    ensures { ResolvedProgram source.now.names.now source.now.words.now rows.now.words.now out.old out.new rows.now.count result }
{
    let memo = [0u32; 1];
    resolve_with(source, rows, out, &memo)
}
