// Reads statements of all kinds by two tables of their fields.
// The place, `words`, `names` and `left` stay parameters of their own, and no form is plainer: the place and `left` change from field to field, what reads no name takes
// the words alone, and a `Source`, which `tree_expr` doesn't know, has as many strings as marks, where the contracts here hold for any count.
#![tactic(auto)]

ghost use Rattle.std.specs.Prelude.{◌≡◌, ℕ, ◌<◌, ◌≤◌, ◌+◌, length, get_or, take, drop, List, IfSome, Ok};
ghost use Rattle.tree_stmt.specs.Sorts.{many, opt, expr as expr_sort, stmt as stmt_sort, GotoTarget, TypeRef, PrintItem};
ghost use Rattle.tree_stmt.specs.Tree.{between, strings};
ghost use Rattle.tree_stmt.specs.Codes.{codes, pack, sort_at, row_of, chain, all_rows};
ghost use Rattle.tree_stmt.specs.Reader.{word_at, never_at, field_at, stmt_at, program_at};
ghost use Rattle.tree_stmt.specs.Memo.{Recalled, Remembered, Noted, Keeps, Past};
ghost use Rattle.tree_stmt.specs.Frames.{told_of, field_step, frame_at, Goes, Turned, rest_of, again_of, Opens, height};
ghost use Rattle.tree_expr.specs.Reader.{leaf_at, name_at, list_at, body_at, expr_at};
ghost use Rattle.tree_expr.specs.Answer.{step_of, then};

mod source;

use base_words::Refusal;
pub use source::Source;
use tree_expr::{Cursor, Misread, Names, Step};

// What is left to be read of a row and of the rows after it: fields in numbers, in base 256, the next lowest; then `times`
// times the row `row`; all with `left` levels left for what stands in them. The fields are one number and no array: the
// next is its remainder, the others its quotient, and none is left where it is 0.
#[derive(Clone, Copy)]
struct Frame {
    fields: u64,
    row: usize,
    left: usize,
    times: u32,
}

// What reading a field's own words tells, if none is wrong: past the whole field, or from a place on a frame is left of it.
#[derive(Clone, Copy)]
enum Turn {
    Past(Cursor),
    Into(Cursor, Frame),
}

// How many frames the stack of `run` has (`height` in the proofs): few, since every call makes it anew.
const HEIGHT: usize = 8;

// The rows of fields that stand in statements, by their numbers: a row's numbers, zeros at its end.
static PARTS: [[u8; 6]; 39] = [
    [9, 0, 0, 0, 0, 0],
    [64, 0, 0, 0, 0, 0],
    [1, 0, 0, 0, 0, 0],
    [1, 17, 66, 0, 0, 0],
    [10, 0, 0, 0, 0, 0],
    [68, 0, 0, 0, 0, 0],
    [2, 0, 0, 0, 0, 0],
    [11, 0, 0, 0, 0, 0],
    [12, 0, 0, 0, 0, 0],
    [16, 0, 0, 0, 0, 0],
    [1, 17, 73, 24, 0, 0],
    [1, 3, 3, 24, 0, 0],
    [1, 3, 24, 0, 0, 0],
    [1, 12, 0, 0, 0, 0],
    [9, 115, 0, 0, 0, 0],
    [2, 3, 0, 0, 0, 0],
    [5, 5, 0, 0, 0, 0],
    [13, 0, 0, 0, 0, 0],
    [14, 0, 0, 0, 0, 0],
    [9, 16, 0, 0, 0, 0],
    [82, 0, 0, 0, 0, 0],
    [36, 68, 0, 0, 0, 0],
    [4, 0, 0, 0, 0, 0],
    [1, 0, 0, 0, 0, 0],
    [0, 0, 0, 0, 0, 0],
    [0, 0, 0, 0, 0, 0],
    [0, 0, 0, 0, 0, 0],
    [0, 0, 0, 0, 0, 0],
    [4, 0, 0, 0, 0, 0],
    [1, 0, 0, 0, 0, 0],
    [9, 0, 0, 0, 0, 0],
    [0, 0, 0, 0, 0, 0],
    [0, 0, 0, 0, 0, 0],
    [9, 0, 0, 0, 0, 0],
    [9, 9, 0, 0, 0, 0],
    [8, 9, 0, 0, 0, 0],
    [0, 0, 0, 0, 0, 0],
    [0, 0, 0, 0, 0, 0],
    [11, 0, 0, 0, 0, 0],
];

// The rows of fields of the statements, by their kinds.
static FIELDS: [[u8; 6]; 54] = [
    [4, 0, 0, 0, 0, 0],
    [1, 0, 0, 0, 0, 0],
    [1, 17, 9, 0, 0, 0],
    [16, 81, 3, 16, 3, 0],
    [22, 3, 67, 16, 0, 0],
    [22, 115, 16, 0, 0, 0],
    [9, 68, 21, 0, 0, 0],
    [1, 9, 9, 16, 68, 0],
    [9, 68, 0, 0, 0, 0],
    [16, 3, 3, 68, 0, 0],
    [11, 0, 0, 0, 0, 0],
    [11, 0, 0, 0, 0, 0],
    [23, 0, 0, 0, 0, 0],
    [9, 71, 0, 0, 0, 0],
    [9, 71, 0, 0, 0, 0],
    [74, 3, 0, 0, 0, 0],
    [1, 3, 75, 24, 0, 0],
    [76, 0, 0, 0, 0, 0],
    [76, 0, 0, 0, 0, 0],
    [74, 3, 0, 0, 0, 0],
    [1, 75, 68, 3, 0, 0],
    [1, 75, 24, 68, 3, 3],
    [1, 64, 0, 0, 0, 0],
    [115, 9, 16, 9, 0, 0],
    [115, 115, 0, 0, 0, 0],
    [1, 9, 0, 0, 0, 0],
    [3, 0, 0, 0, 0, 0],
    [0, 0, 0, 0, 0, 0],
    [4, 0, 0, 0, 0, 0],
    [1, 77, 0, 0, 0, 0],
    [115, 9, 0, 0, 0, 0],
    [79, 0, 0, 0, 0, 0],
    [67, 0, 0, 0, 0, 0],
    [7, 80, 0, 0, 0, 0],
    [0, 0, 0, 0, 0, 0],
    [66, 0, 0, 0, 0, 0],
    [9, 0, 0, 0, 0, 0],
    [23, 0, 0, 0, 0, 0],
    [15, 0, 0, 0, 0, 0],
    [16, 16, 0, 0, 0, 0],
    [16, 16, 0, 0, 0, 0],
    [16, 0, 0, 0, 0, 0],
    [23, 0, 0, 0, 0, 0],
    [0, 0, 0, 0, 0, 0],
    [9, 85, 0, 0, 0, 0],
    [0, 0, 0, 0, 0, 0],
    [0, 0, 0, 0, 0, 0],
    [9, 6, 9, 16, 0, 0],
    [64, 0, 0, 0, 0, 0],
    [16, 9, 0, 0, 0, 0],
    [9, 78, 0, 0, 0, 0],
    [115, 9, 3, 0, 0, 0],
    [9, 16, 3, 0, 0, 0],
    [9, 35, 3, 0, 0, 0],
];

// six numbers in one, in base 256, the first lowest
fn six(f: [u8; 6]) -> u64
    ensures { result ≡ pack f }
{
    u64::from_le_bytes([f[0], f[1], f[2], f[3], f[4], f[5], 0, 0])
}

// a row's six numbers, all 0 past the last row: the parts' rows stand before the statements'
fn numbers(row: usize) -> [u8; 6]
    ensures { (i : ℕ) → get_or result i 0 ≡ get_or (codes row) i 0 }
{
    if row < 39 {
        PARTS[row]
    } else if row < 93 {
        FIELDS[row - 39]
    } else {
        [0; 6]
    }
}

// the same in one number
fn packed(row: usize) -> u64
    ensures { result ≡ pack (codes row) }
{
    six(numbers(row))
}

// the i-th field of a row, in numbers; 0 past its end
pub fn sort(row: usize, i: usize) -> u8
    requires { i < 6 }
    ensures { result ≡ get_or (codes row) i 0 }
{
    numbers(row)[i]
}

// a word of a kind, its payload from a number to below another (`Cursor::leaf` is this from 0 on, by a definition of its own)
#[tactic(auto, unfolding(tree_expr::specs::Answer::step_of, crate::specs::Reader::word_at))]
fn mark(c: Cursor, words: &[u32], kind: u32, from: u32, below: u32) -> Step
    ensures { result ≡ step_of (word_at words.now kind (between from below) c.at) }
{
    let w = c.word(words)?;
    let p = w % 16777216;
    c.past(w / 16777216 == kind && from <= p && p < below)
}

// where no word is right
#[tactic(auto, unfolding(tree_expr::specs::Answer::step_of, crate::specs::Reader::never_at))]
fn nowhere(c: Cursor, words: &[u32]) -> Step
    ensures { result ≡ step_of (never_at words.now {A = ℕ} c.at) }
{
    c.word(words)?;
    Err(Misread::Wrong(c.at))
}

// a type: one of the plain heads, a fixed string with its length, or a record with its name
fn type_ref(c: Cursor, words: &[u32], names: &Names<'_>, left: usize) -> Step
    ensures { result ≡ step_of (field_at words.now names.now.marks.now names.now.count (expr_at words.now (strings names.now.marks.now names.now.count) left) (stmt_at words.now names.now.marks.now names.now.count left) TypeRef c.at) }
{
    let next = c.head(words, 40, 45)?;
    match words[c.at] / 16777216 {
        40..=43 => Ok(next),
        44 => mark(next, words, 4, 0, 16777216),
        _ => next.name(words, names.marks),
    }
}

// where GOTO goes: a line's number or a label's name, each behind its head
fn goto_target(c: Cursor, words: &[u32], names: &Names<'_>, left: usize) -> Step
    ensures { result ≡ step_of (field_at words.now names.now.marks.now names.now.count (expr_at words.now (strings names.now.marks.now names.now.count) left) (stmt_at words.now names.now.marks.now names.now.count left) GotoTarget c.at) }
{
    let next = c.head(words, 48, 49)?;
    if words[c.at] / 16777216 == 48 {
        mark(next, words, 4, 0, 16777216)
    } else {
        next.name(words, names.marks)
    }
}

// a whole field's answer as a turn
#[tactic(auto, unfolding(crate::specs::Frames::told_of))]
fn told(s: Step) -> Result<Turn, Misread>
    ensures { result ≡ told_of s }
{
    s.map(Turn::Past)
}

// a list: its count; the rows are left
fn list(c: Cursor, words: &[u32], left: usize, row: usize) -> Result<Turn, Misread>
    ensures { (ns : List ℕ) (n : ℕ) → Goes words.now ns n c.at (field_step words.now ns n left (many (row_of row)) c.at) result }
{
    let d = c.leaf(words, 1, 16777216)?;
    let times = words[c.at] % 16777216;
    let frame = Frame {
        fields: 0,
        row,
        times,
        left,
    };
    Ok(Turn::Into(d, frame))
}

// the name of a call or of an array, and the count of what it is given
fn call(c: Cursor, words: &[u32], marks: &[u8], left: usize) -> Result<Turn, Misread>
    ensures { (n : ℕ) → Goes words.now marks.now n c.at (then (step_of (name_at words.now marks.now c.at)) (λ m. step_of (list_at words.now (strings marks.now n) (expr_at words.now (strings marks.now n) left) m))) result }
{
    let d = c.name(words, marks)?;
    list(d, words, left, 0)
}

// an operator; these fields are left
fn operator(c: Cursor, words: &[u32], left: usize, below: u32, fields: u64) -> Result<Turn, Misread>
    requires { fields < 4096 }
    ensures { (ns : List ℕ) (n : ℕ) → Goes words.now ns n c.at (then (step_of (leaf_at words.now 9 below c.at)) (λ m. frame_at words.now ns n (record { fields = fields; row = 0; times = 0; left = left }) m)) result }
{
    let d = c.leaf(words, 9, below)?;
    Ok(Turn::Into(d, one_field(fields, left)))
}

// An expression, past its head of the kind k: what stands before the expressions in it. Crate `tree_expr` reads an expression by
// recursion, for those who read one alone; here what is left of the statement around it waits on the same stack.
fn value(c: Cursor, words: &[u32], names: &Names<'_>, left: usize, k: u32) -> Result<Turn, Misread>
    requires { (16 ≤ k) × (k ≤ 23) × (c.at ≤ length words.now) }
    ensures { (at : ℕ) → at < c.at → Goes words.now names.now.marks.now names.now.count at (step_of (body_at words.now (strings names.now.marks.now names.now.count) (expr_at words.now (strings names.now.marks.now names.now.count) left) k c.at)) result }
{
    match k {
        16 => told(c.literal(words, names.count)),
        17 => told(c.name(words, names.marks)),
        18 | 21 => call(c, words, names.marks, left),
        19 => operator(c, words, left, 2, 9),
        20 => operator(c, words, left, 18, 2313),
        22 => Ok(Turn::Into(c, one_field(265, left))),
        _ => Ok(Turn::Into(c, one_field(9, left))),
    }
}

// an expression: its head, and what stands before the expressions in it
fn expression(c: Cursor, words: &[u32], names: &Names<'_>, left: usize) -> Result<Turn, Misread>
    ensures { Goes words.now names.now.marks.now names.now.count c.at (field_step words.now names.now.marks.now names.now.count left expr_sort c.at) result }
{
    let d = c.head(words, 16, 23)?;
    if left == 0 {
        return Err(Misread::Deep(c.at));
    }
    let k = words[c.at] / 16777216;
    value(d, words, names, left - 1, k)
}

// a statement: its head; its row is left
fn statement(c: Cursor, words: &[u32], left: usize) -> Result<Turn, Misread>
    ensures { (ns : List ℕ) (n : ℕ) → Goes words.now ns n c.at (field_step words.now ns n left stmt_sort c.at) result }
{
    let k = c.word(words)? / 16777216;
    match k {
        64..=117 => {
            if left == 0 {
                return Err(Misread::Deep(c.at));
            }
            Ok(Turn::Into(
                Cursor { at: c.at + 1 },
                one_row((k - 64) as usize + 39, left - 1),
            ))
        }
        _ => Err(Misread::Wrong(c.at)),
    }
}

// one row is left
fn one_row(row: usize, left: usize) -> Frame
    ensures { result ≡ record { fields = 0; row = row; times = 1; left = left } }
{
    Frame {
        fields: 0,
        row,
        times: 1,
        left,
    }
}

// one of `count` heads from the kind `first` on; its row is left, of which the first head's is `r`
fn choice(
    c: Cursor,
    words: &[u32],
    left: usize,
    first: u32,
    count: u32,
    r: usize,
) -> Result<Turn, Misread>
    requires { (r + count ≤ 93) × (0 < count) × (first < 256) }
    ensures { (ns : List ℕ) (n : ℕ) → Goes words.now ns n c.at (field_step words.now ns n left (chain first (take count (drop r all_rows))) c.at) result }
{
    let next = c.head(words, first, first + count - 1)?;
    let i = words[c.at] / 16777216 - first;
    Ok(Turn::Into(next, one_row(r + i as usize, left)))
}

// an item of PRINT: a head alone, or one behind which an expression is left
fn item(c: Cursor, words: &[u32], left: usize) -> Result<Turn, Misread>
    ensures { (ns : List ℕ) (n : ℕ) → Goes words.now ns n c.at (field_step words.now ns n left PrintItem c.at) result }
{
    let next = c.head(words, 32, 34)?;
    if words[c.at] / 16777216 == 32 {
        Ok(Turn::Into(next, one_field(9, left)))
    } else {
        Ok(Turn::Past(next))
    }
}

// the word 0, or a row that is left
fn optional(c: Cursor, words: &[u32], left: usize, row: usize) -> Turn
    ensures { (ns : List ℕ) (n : ℕ) → Turned words.now ns n left c.at (opt (row_of row)) (Ok result) }
{
    if words.get(c.at) == Some(&0) {
        Turn::Past(Cursor { at: c.at + 1 })
    } else {
        Turn::Into(c, one_row(row, left))
    }
}

// the own words of a field of a sort, with so many levels left for what stands in it; the sorts are the numbers of the tables
fn look(c: Cursor, words: &[u32], names: &Names<'_>, left: usize, sort: u8) -> Result<Turn, Misread>
    ensures { Turned words.now names.now.marks.now names.now.count left c.at (sort_at sort) result }
{
    match sort {
        0 => told(nowhere(c, words)),
        1 => told(c.name(words, names.marks)),
        2 => told(mark(c, words, 2, 0, names.count)),
        3 => told(mark(c, words, 3, 0, 2)),
        4 => told(mark(c, words, 4, 0, 16777216)),
        5 => told(mark(c, words, 7, 65, 91)),
        6 => told(mark(c, words, 9, 0, 4)),
        7 => told(mark(c, words, 9, 0, 5)),
        8 => told(mark(c, words, 9, 0, 18)),
        9 => expression(c, words, names, left),
        10 => statement(c, words, left),
        11 => told(goto_target(c, words, names, left)),
        12 => told(type_ref(c, words, names, left)),
        13 => item(c, words, left),
        14 => choice(c, words, left, 36, 3, 33),
        15 => choice(c, words, left, 52, 3, 36),
        16..=63 => Ok(optional(c, words, left, sort as usize - 16)),
        64..=111 => list(c, words, left, sort as usize - 64),
        _ => Ok(Turn::Into(c, one_row(sort as usize - 112, left))),
    }
}

// a frame past its next field
fn rest(f: Frame) -> Frame
    ensures { result ≡ rest_of f }
{
    Frame {
        fields: f.fields / 256,
        ..f
    }
}

// a frame with the fields of its next row
fn again(f: Frame) -> Frame
    requires { 0 < f.times }
    ensures { result ≡ again_of f }
{
    Frame {
        fields: packed(f.row),
        times: f.times - 1,
        ..f
    }
}

// how many frames are put on the stack for it, a count that is added to the height: none where nothing is left
fn remains(f: Frame) -> usize
    ensures { Opens f result }
{
    if f.fields == 0 && f.times == 0 { 0 } else { 1 }
}

// How many frames may stand on the stack where a field of the sort enters the row: none under a procedure, which is read by a call.
fn room(sort: u8, row: usize) -> usize
    ensures { result ≤ height }
{
    if sort == 10 && (row == 59 || row == 60) {
        0
    } else {
        HEIGHT
    }
}

// Reads what a frame says. What is left of the frames around the current one stands on a stack; where that is full, and of
// a procedure, whose end the memo then has, the next frame is read by a call. A `loop`: which frame is next shows in each turn,
// and it ends where none is left. What is left of the frame in hand is stored in any case: only the height says whether it counts.
fn run(words: &[u32], names: &Names<'_>, f: Frame, from: usize, memo: &mut [u32]) -> Step
    ensures { (result ≡ frame_at words.now names.now.marks.now names.now.count f from) × Keeps words.now names.now.marks.now names.now.count memo.old memo.new }
{
    let mut stack = [f; HEIGHT];
    let mut sp = 0;
    let mut at = from;
    let mut cur = f;
    loop {
        if cur.fields == 0 {
            if cur.times != 0 {
                cur = again(cur);
                continue;
            }
            if sp == 0 {
                return Ok(Cursor { at });
            }
            sp -= 1;
            cur = stack[sp];
            continue;
        }
        let sort = (cur.fields % 256) as u8;
        let t = look(Cursor { at }, words, names, cur.left, sort)?;
        cur = rest(cur);
        match t {
            Turn::Past(c) => at = c.at,
            Turn::Into(c, frame) => {
                if sp < room(sort, frame.row) {
                    stack[sp] = cur;
                    sp += remains(cur);
                    at = c.at;
                    cur = frame;
                } else {
                    let d = run(words, names, frame, c.at, memo)?;
                    note(memo, sort, at, d.at);
                    at = d.at;
                }
            }
        }
    }
}

// a statement, with so many levels left
pub fn stmt(c: Cursor, words: &[u32], names: &Names<'_>, left: usize) -> Step
    ensures { result ≡ step_of (stmt_at words.now names.now.marks.now names.now.count left c.at) }
{
    let mut memo = [0u32; 1];
    run(words, names, one_field(10, left), c.at, &mut memo)
}

// one field is left
fn one_field(sort: u64, left: usize) -> Frame
    ensures { result ≡ record { fields = sort; row = 0; times = 0; left = left } }
{
    Frame {
        fields: sort,
        row: 0,
        times: 0,
        left,
    }
}

impl Source<'_> {
    // The marks, with how many strings there are.
    pub fn marks(&self) -> Names<'_>
        ensures { (result.marks.now ≡ self.now.names.now) × (result.count ≡ length self.now.names.now) }
    {
        Names {
            marks: self.names,
            count: self.names.len() as u32,
        }
    }
}

// A whole program: one list of statements. The deepest level is 100.
pub fn program(words: &[u32], names: &Names<'_>) -> Step
    ensures { result ≡ step_of (program_at words.now names.now.marks.now names.now.count) }
{
    program_with(words, names, &mut [0; 1])
}

// The same, with the ends of its procedures noted in a memo.
pub fn program_with(words: &[u32], names: &Names<'_>, memo: &mut [u32]) -> Step
    ensures { (result ≡ step_of (program_at words.now names.now.marks.now names.now.count)) × Keeps words.now names.now.marks.now names.now.count memo.old memo.new }
{
    run(words, names, one_field(68, 100), 0, memo)
}

// The place that a slot's two words tell for a place, if they are its own.
fn slot(place: u32, end: u32, at: usize) -> Option<usize>
    ensures { IfSome result (λ r. (place ≡ at + 1) × (r ≡ end)) }
{
    ((place as usize).checked_sub(1) == Some(at)).then_some(end as usize)
}

// The place past the statement at `at` where the memo has it. It has a slot for each two of its words. (Words and no
// `Option`s: what a memo remembers is defined over a list of numbers.)
pub fn recall(memo: &[u32], at: usize) -> Option<usize>
    ensures { IfSome result (λ r. Recalled memo.now at r) }
{
    let slots = memo.len() / 2;
    if slots == 0 {
        return None;
    }
    let i = at % slots;
    slot(memo[2 * i], memo[2 * i + 1], at)
}

// Notes in the memo, if it has a slot, that a statement at `at` ends at `end`, unless a number is too large.
fn remember(memo: &mut [u32], at: usize, end: usize)
    ensures { Remembered memo.old at end memo.new }
{
    let slots = memo.len() / 2;
    if slots == 0 || u32::MAX as usize <= at || (u32::MAX as usize) < end {
        return;
    }
    let i = at % slots;
    memo[2 * i] = (at + 1) as u32;
    memo[2 * i + 1] = end as u32;
}

// Notes the end of a field of a sort, if that is a statement.
fn note(memo: &mut [u32], sort: u8, at: usize, end: usize)
    ensures { Noted sort memo.old at end memo.new }
{
    if sort == 10 {
        remember(memo, at, end);
    }
}

// The place past the statement at `at`, which the memo may have; else it is read.
pub fn past(words: &[u32], names: &Names<'_>, memo: &[u32], at: usize) -> usize
    ensures { Past words.now names.now.marks.now names.now.count memo.now at result }
{
    if let Some(end) = recall(memo, at) {
        return end;
    }
    match stmt(Cursor { at }, words, names, 100) {
        Ok(c) => c.at,
        Err(m) => Refusal::from(m).place(),
    }
}
