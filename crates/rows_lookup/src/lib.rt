// The leaves of document 01 without checks: what is answered is said for every table that the buffer keeps. Kinds are numbers here, as document 01 numbers them: any below
// 144 may be asked. Kind, name and word 1 stay three numbers, and their bounds clauses: callers have constants and words apart, and a type for the three would be made and opened
// at each look-up.
#![tactic(auto)]

ghost use Rattle.std.specs.Prelude.{◌≡◌, List, ◌*◌, ◌≤◌, ◌<◌};
ghost use Rattle.rows_table.specs.Rows.{Row, width, find};
ghost use Rattle.rows_table.specs.Answers.{Within};
ghost use Rattle.rows_runs.specs.Runs.{row_in, KeptIn};
ghost use Rattle.rows_kinds.specs.Kinds.{entry_key, has as has_of, row_word};
ghost use Rattle.rows_lookup.specs.Lookup.{contains as contains_of, shares as shares_of, is_static, record_words, type_words, type_of, array_of, visible as visible_of, typed_var, typed_var_in, lookup_array, from_suffix, from_type_ref, declared_type};
ghost use Rattle.rows_lookup.specs.Answers.{typed, array as array_of', class};

use rows_kinds::{bit, entry_key};
use rows_table::Rows;

// The row of an entry.
pub fn find_entry(rows: &Rows<'_>, kind: u32, name: u32, second: u32) -> Option<usize>
    requires { (kind < 144) × (name < 16777216) }
    ensures within { Within rows.now.count result }
    ensures found { (rs : List Row) → KeptIn rs rows.now → row_in rows.now.words.now result ≡ find (entry_key kind name second) rs }
{
    rows_runs::find(rows, entry_key(kind, name, second))
}

// Whether there is one.
pub fn has(rows: &Rows<'_>, kind: u32, name: u32, second: u32) -> bool
    requires { (kind < 144) × (name < 16777216) }
    ensures { (rs : List Row) → KeptIn rs rows.now → result ≡ has_of rs kind name second }
{
    rows_kinds::has(rows, entry_key(kind, name, second))
}

// Word j of it, 0 where there is none.
pub fn word(rows: &Rows<'_>, kind: u32, name: u32, second: u32, j: usize) -> u32
    requires { (kind < 144) × (name < 16777216) × (j < width) }
    ensures { (rs : List Row) → KeptIn rs rows.now → result ≡ row_word j (find (entry_key kind name second) rs) }
{
    rows_kinds::word(rows, entry_key(kind, name, second), j)
}

// Whether a mark is an array's, or a variable's. The mark is a row's word, and may be any number.
fn contains(mark: u32, array: bool) -> bool
    ensures { result ≡ contains_of mark array }
{
    if array { 2 <= mark } else { mark % 2 == 1 }
}

// Whether the procedure uses the module's name, an array or a variable, rather than one of its own.
#[tactic(auto, unfolding(crate::specs::Lookup::shares))]
pub fn shares(rows: &Rows<'_>, proc: u32, name: u32, array: bool) -> bool
    requires { (proc < 16777216) × (name < 16777216) }
    ensures { (rs : List Row) → KeptIn rs rows.now → result ≡ shares_of rs proc name array }
{
    has(rows, 141, proc, 0)
        || has(rows, 137, name, bit(array))
        || contains(word(rows, 138, name, proc + 1, 2), array)
}

// Whether the procedure's own name keeps its value between calls.
#[tactic(auto, unfolding(crate::specs::Lookup::is_static))]
pub fn is_static(rows: &Rows<'_>, proc: u32, name: u32, array: bool) -> bool
    requires { (proc < 16777216) × (name < 16777216) }
    ensures { (rs : List Row) → KeptIn rs rows.now → result ≡ is_static rs proc name array }
{
    has(rows, 140, proc, 0) || contains(word(rows, 139, name, proc + 1, 2), array)
}

// The words of the record of that name.
#[tactic(auto, using(rows_runs::specs::Places::row_word_lem))]
fn record_words(rows: &Rows<'_>, name: u32) -> u32
    requires { name < 16777216 }
    ensures { (rs : List Row) → KeptIn rs rows.now → result ≡ record_words (find (entry_key 130 name 0) rs) }
{
    find_entry(rows, 130, name, 0).map_or(1, |i| rows.words[i * rows_table::WIDTH + 2])
}

// The size of a type in words.
#[tactic(auto, unfolding(crate::specs::Lookup::type_words))]
pub fn type_words(rows: &Rows<'_>, head: u32, arg: u32) -> u32
    requires { arg < 16777216 }
    ensures { (rs : List Row) → KeptIn rs rows.now → result ≡ type_words rs head arg }
{
    match head {
        44 => 2,
        45 => record_words(rows, arg),
        _ => 1,
    }
}

// The row of a kind that a name has from a scope: in a procedure its own, else the module's if it is shared.
#[tactic(auto, unfolding(crate::specs::Lookup::visible))]
pub fn visible(rows: &Rows<'_>, kind: u32, scope: u32, name: u32, array: bool) -> Option<usize>
    requires { (kind < 144) × (scope ≤ 16777216) × (name < 16777216) }
    ensures within { Within rows.now.count result }
    ensures found { (rs : List Row) → KeptIn rs rows.now → row_in rows.now.words.now result ≡ visible_of rs kind scope name array }
{
    let own = find_entry(rows, kind, name, scope);
    if scope == 0 || own.is_some() {
        return own;
    }
    if shares(rows, scope - 1, name, array) {
        find_entry(rows, kind, name, 0)
    } else {
        None
    }
}

// A variable's declared type: its head's kind and its argument, as the words of its row have them.
#[derive(Clone, Copy)]
pub struct Typed {
    pub head: u32,
    pub arg: u32,
}

// The type in row 134.
#[tactic(auto, using(rows_runs::specs::Places::row_word_lem))]
fn type_at(rows: &Rows<'_>, found: Option<usize>) -> Option<Typed>
    requires { Within rows.now.count found }
    ensures { typed result ≡ type_of (row_in rows.now.words.now found) }
{
    let at = found? * rows_table::WIDTH;
    Some(Typed {
        head: rows.words[at + 2],
        arg: rows.words[at + 3],
    })
}

// A variable's declared type, the scope's own first.
#[tactic(auto, unfolding(crate::specs::Lookup::typed_var))]
pub fn typed_var(rows: &Rows<'_>, scope: u32, name: u32) -> Option<Typed>
    requires { (scope ≤ 16777216) × (name < 16777216) }
    ensures { (rs : List Row) → KeptIn rs rows.now → typed result ≡ typed_var rs scope name }
{
    type_at(rows, visible(rows, 134, scope, name, false))
}

// The type of a variable of exactly this scope.
#[tactic(auto, unfolding(crate::specs::Lookup::typed_var_in))]
pub fn typed_var_in(rows: &Rows<'_>, scope: u32, name: u32) -> Option<Typed>
    requires { name < 16777216 }
    ensures { (rs : List Row) → KeptIn rs rows.now → typed result ≡ typed_var_in rs scope name }
{
    type_at(rows, find_entry(rows, 134, name, scope))
}

// What is known of an array, as the words of its row have it.
#[derive(Clone, Copy)]
pub struct Array {
    pub rank: u32,
    pub line: u32,
    pub lower: u32,
}

// The array in row 133.
#[tactic(auto, using(rows_runs::specs::Places::row_word_lem))]
fn array_at(rows: &Rows<'_>, found: Option<usize>) -> Option<Array>
    requires { Within rows.now.count found }
    ensures { array_of' result ≡ array_of (row_in rows.now.words.now found) }
{
    let at = found? * rows_table::WIDTH;
    Some(Array {
        rank: rows.words[at + 2],
        line: rows.words[at + 3],
        lower: rows.words[at + 4],
    })
}

// The array that a name is from a scope.
#[tactic(auto, unfolding(crate::specs::Lookup::lookup_array))]
pub fn lookup_array(rows: &Rows<'_>, scope: u32, name: u32) -> Option<Array>
    requires { (scope ≤ 16777216) × (name < 16777216) }
    ensures { (rs : List Row) → KeptIn rs rows.now → array_of' result ≡ lookup_array rs scope name }
{
    array_at(rows, visible(rows, 133, scope, name, true))
}

// The position in `DataType` that a name's last byte gives: a number, as document 01 numbers an enum without data.
#[tactic(auto, unfolding(crate::specs::Lookup::from_suffix))]
pub fn from_suffix(last: u8) -> u32
    ensures { result ≡ from_suffix last }
{
    match last {
        37 => 0,
        38 => 1,
        33 => 2,
        36 => 4,
        _ => 3,
    }
}

// The position in `DataType` of a declared type.
#[tactic(auto, unfolding(crate::specs::Lookup::from_type_ref))]
pub fn from_type_ref(head: u32) -> u32
    ensures { result ≡ from_type_ref head }
{
    match head {
        40 => 0,
        41 => 1,
        42 => 2,
        44 => 4,
        _ => 3,
    }
}

// By the AS clause, else by the name's last byte.
#[tactic(auto, unfolding(crate::specs::Lookup::declared_type, crate::specs::Lookup::class_of))]
pub fn declared_type(rows: &Rows<'_>, last: u8, scope: u32, name: u32) -> Option<u32>
    requires { (scope ≤ 16777216) × (name < 16777216) }
    ensures { (rs : List Row) → KeptIn rs rows.now → class result ≡ declared_type rs last scope name }
{
    match typed_var(rows, scope, name) {
        None => Some(from_suffix(last)),
        Some(Typed { head: 45, .. }) => None,
        Some(Typed { head, .. }) => Some(from_type_ref(head)),
    }
}
