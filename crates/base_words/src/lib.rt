// Words, sizes and refusals of document 01.
#![tactic(auto)]

ghost use Rattle.std.specs.Prelude.{◌≡◌};
ghost use Rattle.base_words.specs.Refusals.{number_of, place_of};

pub const MAX_WORDS: usize = 8192;

pub const MAX_STRINGS: usize = 1024;

pub const MAX_BYTES: usize = 16384;

pub const MAX_ERASED: usize = 1024;

pub const MAX_DEPTH: usize = 100;

// What stops a call, in document 01's order of its numbers, with the place where there is one.
#[derive(Clone, Copy, Debug, PartialEq, Eq)]
pub enum Refusal {
    // over a size: 5
    Size,
    // the string table breaks its rule at this string: 1
    Strings(usize),
    // a wrong word, an early end, words over: 2
    Word(usize),
    // a right head at depth 101: 3
    Depth(usize),
    // the erased list: 4
    Erased,
    // lent rows: 6
    Rows,
    // a lookup's name, scope or type: 11
    Lookup,
    // an output shorter than the tree: 10
    Output,
    // no room for a row: 7
    RowsFull,
    // no room for a diagnostic: 8
    DiagnosticsFull,
    // a TYPE of more than 65,535 words: 9
    TypeWords,
}

impl Refusal {
    // Document 01's number of it.
    pub fn number(self) -> u32
        ensures { result ≡ number_of self }
    {
        match self {
            Refusal::Size => 5,
            Refusal::Strings(_) => 1,
            Refusal::Word(_) => 2,
            Refusal::Depth(_) => 3,
            Refusal::Erased => 4,
            Refusal::Rows => 6,
            Refusal::Lookup => 11,
            Refusal::Output => 10,
            Refusal::RowsFull => 7,
            Refusal::DiagnosticsFull => 8,
            Refusal::TypeWords => 9,
        }
    }

    // Its place, 0 where it has none.
    pub fn place(self) -> usize
        ensures { result ≡ place_of self }
    {
        match self {
            Refusal::Strings(p) | Refusal::Word(p) | Refusal::Depth(p) => p,
            _ => 0,
        }
    }
}
