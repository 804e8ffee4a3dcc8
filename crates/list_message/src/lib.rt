// The lines of a diagnostic. `out, at` stay two parameters, as in crate `base_text`: each promise (`Wrote`) speaks of the buffer and of the places before and after, and over a struct it
// would name the same three.
#![tactic(auto)]

ghost use Rattle.std.specs.Prelude.{◌≡◌, [], ◌∷◌, ◌-◌, true, get_or, eqb};
ghost use mathlib.Core.List.{flat_map};
ghost use Rattle.std.specs.List.{list_all};
ghost use Rattle.base_words.specs.Word.{pick};
ghost use Rattle.base_text.specs.Wrote.{Wrote};
ghost use Rattle.list_message.specs.Message.{name, render, lines};
ghost use Rattle.list_message.specs.Table.{table};
ghost use Rattle.list_message.specs.Pieces.{shown, plain, template, Messages};

use base_strings::Strings;
use base_text::{put_byte, put_bytes, put_decimal, put_part};

// Document 01's six words; a name is its string's number plus 1.
#[derive(Clone, Copy)]
pub struct Diag {
    pub code: u32,
    pub line: u32,
    pub first: u32,
    pub second: u32,
    pub number: u32,
    pub note: u32,
}

// What a message is made of: text, and what a diagnostic has for it.
enum Piece {
    Text(&'static [u8]),

    // the two names
    First,
    Second,

    Number,

    // by the number: the plural's s; STATIC or SHARED; FUNCTION or SUB
    Plural,
    Scope,
    Procedure,

    // the line that the note speaks of
    NoteLine,
}

use Piece::{First, NoteLine, Number, Plural, Procedure, Scope, Second, Text};

// The message of each code, its note on a line of its own; there is no code 0.
static MESSAGES: [&[Piece]; 29] = [
    &[],
    &[Text(b"duplicate line number "), Number],
    &[Text(b"duplicate label '"), First, Text(b"'")],
    &[
        Text(b"TYPE '"),
        First,
        Text(b"' is already defined\nN previous definition is on line "),
        NoteLine,
    ],
    &[
        Text(b"TYPE '"),
        First,
        Text(b"' must be defined at module level"),
    ],
    &[
        Text(b"field '"),
        First,
        Text(b"' is declared twice in TYPE '"),
        Second,
        Text(b"'"),
    ],
    &[Text(b"TYPE '"), First, Text(b"' cannot contain itself")],
    &[
        Text(b"field '"),
        First,
        Text(b"' uses undefined TYPE '"),
        Second,
        Text(b"'"),
    ],
    &[Text(b"OPTION BASE may appear only once")],
    &[Text(b"OPTION BASE must come before any DIM")],
    &[Text(b"'"), First, Text(b"' is already defined")],
    &[
        Text(b"Overflow: CONST '"),
        First,
        Text(b"' does not fit its type"),
    ],
    &[
        Text(b"CONST '"),
        First,
        Text(b"' must have a constant value"),
    ],
    &[Scope, Text(b" belongs inside a SUB or FUNCTION")],
    &[Text(b"DIM SHARED belongs at module level; inside a procedure, use SHARED")],
    &[
        Text(b"'"),
        First,
        Text(b"' is declared AS a different type than its name's suffix"),
    ],
    &[Text(b"undefined TYPE '"), First, Text(b"'")],
    &[Text(b"'"), First, Text(b"' is already declared")],
    &[
        Text(b"array '"),
        First,
        Text(b"' needs at least one dimension"),
    ],
    &[Text(b"array '"), First, Text(b"' is already declared")],
    &[
        Text(b"REDIM PRESERVE of '"),
        First,
        Text(b"' must keep its "),
        Number,
        Text(b" dimension"),
        Plural,
        Text(b"; only the last one's upper bound may change"),
    ],
    &[
        Text(b"REDIM of '"),
        First,
        Text(b"' must keep its "),
        Number,
        Text(b" dimension"),
        Plural,
    ],
    &[
        Text(b"parameter '"),
        First,
        Text(b"' of '"),
        Second,
        Text(b"' is declared AS STRING * "),
        Number,
        Text(b", but a parameter must be a variable-length string\nN declare it "),
        First,
        Text(b" AS STRING"),
    ],
    &[
        Text(b"the result of '"),
        First,
        Text(b"' is declared AS STRING * "),
        Number,
        Text(b", but a FUNCTION's result must be a variable-length string\nN declare it AS STRING"),
    ],
    &[
        Text(b"'"),
        First,
        Text(b"' cannot be defined inside another procedure"),
    ],
    &[
        Text(b"'"),
        First,
        Text(b"' is already defined\nN previous definition is on line "),
        NoteLine,
    ],
    &[
        Text(b"parameter '"),
        First,
        Text(b"' uses undefined TYPE '"),
        Second,
        Text(b"'"),
    ],
    &[
        Text(b"'"),
        First,
        Text(b"' is declared both as an array and as a "),
        Procedure,
        Text(b"\nN the "),
        Procedure,
        Text(b" is on line "),
        NoteLine,
    ],
    &[
        Text(b"'"),
        First,
        Text(b"' is the name of a built-in function and cannot also be an array"),
    ],
];

// The message of a code, among all; no pieces for a code that has none. (A `match`: with `copied` and `unwrap_or` the proof did not close.)
fn message<'a>(messages: &[&'a [Piece]], code: u32) -> &'a [Piece]
    requires { Messages messages.now }
    ensures { (template result.now ≡ get_or table code []) × (list_all plain result.now ≡ true) }
{
    match messages.get(code as usize) {
        Some(pieces) => pieces,
        None => &[],
    }
}

// Where string k - 1 ends; 0 for k = 0. (`base_strings::start` asks that k is within the table, and this answers 0 past it.)
fn end_of(ends: &[u32], k: usize) -> usize
    ensures { result ≡ get_or (0 ∷ ends.now) k 0 }
{
    if k == 0 {
        return 0;
    }
    ends.get(k - 1).map_or(0, |end| *end as usize)
}

// The string of number k - 1, and nothing for 0.
fn put_name(out: &mut [u8], at: usize, strings: &Strings<'_>, k: u32) -> usize
    ensures { Wrote (name strings.now.bytes.now strings.now.ends.now k) out.old out.new at result }
{
    let n = k as usize;
    put_part(
        out,
        at,
        strings.bytes,
        end_of(strings.ends, n.saturating_sub(1)),
        end_of(strings.ends, n),
    )
}

fn put_either(out: &mut [u8], at: usize, one: &[u8], other: &[u8], n: u32) -> usize
    ensures { Wrote (pick (eqb n 1) one.now other.now) out.old out.new at result }
{
    put_bytes(out, at, if n == 1 { one } else { other })
}

fn put_piece(out: &mut [u8], at: usize, strings: &Strings<'_>, d: Diag, piece: &Piece) -> usize
    ensures { Wrote (shown strings.now.bytes.now strings.now.ends.now d piece.now) out.old out.new at result }
{
    match piece {
        Text(text) => put_bytes(out, at, text),
        First => put_name(out, at, strings, d.first),
        Second => put_name(out, at, strings, d.second),
        Number => put_decimal(out, at, d.number),
        Plural => put_either(out, at, b"", b"s", d.number),
        Scope => put_either(out, at, b"STATIC", b"SHARED", d.number),
        Procedure => put_either(out, at, b"FUNCTION", b"SUB", d.number),
        NoteLine => put_decimal(out, at, d.note),
    }
}

fn put_message(out: &mut [u8], at: usize, strings: &Strings<'_>, d: Diag) -> usize
    ensures { Wrote (render strings.now.bytes.now strings.now.ends.now d (get_or table d.code [])) out.old out.new at result }
{
    let mut next = at;
    for piece in message(&MESSAGES, d.code) {
        next = put_piece(out, next, strings, d, piece);
    }
    next
}

// A diagnostic's `D` line, and its `N` line where its code has one.
pub fn put_diag(out: &mut [u8], at: usize, strings: &Strings<'_>, d: Diag) -> usize
    ensures { Wrote (lines strings.now.bytes.now strings.now.ends.now d) out.old out.new at result }
{
    let mut next = put_byte(out, at, b'D');
    next = put_byte(out, next, b' ');
    next = put_decimal(out, next, d.line);
    next = put_byte(out, next, b' ');
    next = put_message(out, next, strings, d);
    put_byte(out, next, b'\n')
}
