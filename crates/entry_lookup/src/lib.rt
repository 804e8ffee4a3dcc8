// The leaves of document 01 over a lent string table and lent rows. Each entry gives 5, 1, 6, 11 in this order, or what `rows_lookup` gives. The seven differ in the question, in
// what they answer and in the definition of it: one function of all would take these as closures, and its contract would be longer than theirs.
// The entries keep `bytes, ends`, document 01's form of a lent string table; inside, it is a `Strings`, and once it is checked a `Sound`.
#![tactic(auto)]

ghost use Rattle.std.specs.Prelude.{◌≡◌, true};
ghost use Rattle.base_words.specs.Told.{gives};
ghost use Rattle.base_strings.specs.Open.{Answers};
ghost use Rattle.base_strings.specs.Table.{string_at, names_of};
ghost use Rattle.rows_lent.specs.Rules.{is_marked};
ghost use Rattle.base_builtins.specs.Builtins.{builtin as builtin_of};
ghost use Rattle.base_builtins.specs.Answers.{arguments_of};
ghost use Rattle.entry_lookup.specs.Leaves.{sized as sized_of, admits as admits_of, ruled as ruled_of, last_byte, shares_at, is_static_at, type_words_at, typed_var_at, typed_var_in_at, lookup_array_at, declared_type_at, builtin_at};
ghost use Rattle.entry_lookup.specs.Entries.{tell_rows, tell_flag, tell_count, tell_type, tell_array, tell_class, tell_taking, tell_gate, Passes, Judged, Ready};

use base_builtins::Arguments;
use base_strings::{Sound, Strings};
use base_words::Refusal;
use rows_lookup::{Array, Typed};
use rows_table::Rows;

// What a lookup asks about. An enum and no closure: the definition of what is admitted goes by its variants.
#[derive(Clone, Copy)]
pub enum Question {
    InProc { proc: u32, name: u32 },
    InScope { scope: u32, name: u32 },
    OfType { head: u32, arg: u32 },
}

// Whether the question's numbers are names', a scope's, a type's.
#[tactic(auto, unfolding(crate::specs::Leaves::admits))]
fn admits(names: &[u8], q: Question) -> bool
    ensures { result ≡ admits_of names.now q }
{
    match q {
        Question::InProc { proc, name } => {
            rows_lent::is_name(names, proc) && rows_lent::is_name(names, name)
        }
        Question::InScope { scope, name } => {
            rows_lent::scope_ok(names, scope) && rows_lent::is_name(names, name)
        }
        Question::OfType { head, arg } => rows_lent::type_ok(names, head, arg),
    }
}

// Numbers 6 and 11.
#[tactic(auto, using(crate::proofs::Laws::ruled_none, crate::proofs::Laws::ruled_yes, crate::proofs::Laws::ruled_no))]
fn ruled<'a>(rows: &'a [u32], names: &[u8], q: Question) -> Result<Rows<'a>, Refusal>
    ensures told { tell_rows result ≡ ruled_of names.now rows.now q }
    ensures judged { Judged names.now rows.now q result }
{
    let count = rows_lent::check_rows(rows, names).ok_or(Refusal::Rows)?;
    if admits(names, q) {
        Ok(Rows { words: rows, count })
    } else {
        Err(Refusal::Lookup)
    }
}

// Number 5.
#[tactic(auto, unfolding(crate::specs::Leaves::sized))]
fn sized(strings: &Strings<'_>) -> bool
    ensures { result ≡ sized_of strings.now.bytes.now strings.now.ends.now }
{
    strings.ends.len() <= base_words::MAX_STRINGS && strings.bytes.len() <= base_words::MAX_BYTES
}

// Numbers 5 and 1. `entry_read::begin` begins in the same way, but that crate is not below this one: here is no tree to read.
#[tactic(auto, using(base_strings::specs::OpenLaws::said_sound, base_strings::specs::OpenLaws::answers_size, base_strings::specs::OpenLaws::answers_inner), unfolding(base_words::specs::Refusals::refused))]
pub fn passes(strings: &Strings<'_>) -> Result<(), Refusal>
    ensures told { Answers (sized_of strings.now.bytes.now strings.now.ends.now) strings.now.bytes.now strings.now.ends.now (tell_gate result) (gives tt) }
    ensures passed { Passes strings.now.bytes.now strings.now.ends.now result }
{
    if !sized(strings) {
        return Err(Refusal::Size);
    }
    base_strings::check(strings)?;
    Ok(())
}

// All checks: 5, 1, 6, 11.
#[tactic(auto, using(crate::proofs::Laws::answers_stop, crate::proofs::Laws::ready_judged), unfolding(base_words::specs::Refusals::refused))]
fn open<'a>(strings: &Strings<'_>, rows: &'a [u32], q: Question) -> Result<Rows<'a>, Refusal>
    ensures told { Answers (sized_of strings.now.bytes.now strings.now.ends.now) strings.now.bytes.now strings.now.ends.now (tell_rows result) (ruled_of (names_of strings.now.bytes.now strings.now.ends.now) rows.now q) }
    ensures ready { Ready strings.now.bytes.now strings.now.ends.now rows.now q result }
{
    passes(strings)?;
    let sound = Sound {
        bytes: strings.bytes,
        ends: strings.ends,
    };
    let names = base_strings::names_of(&sound);
    ruled(rows, &names[..strings.ends.len()], q)
}

// Whether the procedure uses the module's name, an array or a variable.
#[tactic(auto, using(crate::proofs::Laws::entry_stopped, crate::proofs::Laws::entry_given, rows_runs::specs::Laws::holds_keeps), unfolding(crate::specs::Leaves::shares_at))]
pub fn shares(
    bytes: &[u8],
    ends: &[u32],
    rows: &[u32],
    proc: u32,
    name: u32,
    array: bool,
) -> Result<bool, Refusal>
    ensures { Answers (sized_of bytes.now ends.now) bytes.now ends.now (tell_flag result) (shares_at bytes.now ends.now rows.now proc name array) }
{
    let held = open(
        &Strings { bytes, ends },
        rows,
        Question::InProc { proc, name },
    )?;
    Ok(rows_lookup::shares(&held, proc, name, array))
}

// Whether the procedure's own name keeps its value between calls.
#[tactic(auto, using(crate::proofs::Laws::entry_stopped, crate::proofs::Laws::entry_given, rows_runs::specs::Laws::holds_keeps), unfolding(crate::specs::Leaves::is_static_at))]
pub fn is_static(
    bytes: &[u8],
    ends: &[u32],
    rows: &[u32],
    proc: u32,
    name: u32,
    array: bool,
) -> Result<bool, Refusal>
    ensures { Answers (sized_of bytes.now ends.now) bytes.now ends.now (tell_flag result) (is_static_at bytes.now ends.now rows.now proc name array) }
{
    let held = open(
        &Strings { bytes, ends },
        rows,
        Question::InProc { proc, name },
    )?;
    Ok(rows_lookup::is_static(&held, proc, name, array))
}

// The size of a type in words.
#[tactic(auto, using(crate::proofs::Laws::entry_stopped, crate::proofs::Laws::entry_given, rows_runs::specs::Laws::holds_keeps), unfolding(crate::specs::Leaves::type_words_at))]
pub fn type_words(
    bytes: &[u8],
    ends: &[u32],
    rows: &[u32],
    head: u32,
    arg: u32,
) -> Result<u32, Refusal>
    ensures { Answers (sized_of bytes.now ends.now) bytes.now ends.now (tell_count result) (type_words_at bytes.now ends.now rows.now head arg) }
{
    let held = open(
        &Strings { bytes, ends },
        rows,
        Question::OfType { head, arg },
    )?;
    Ok(rows_lookup::type_words(&held, head, arg))
}

// A variable's declared type from a scope.
#[tactic(auto, using(crate::proofs::Laws::entry_stopped, crate::proofs::Laws::entry_given, rows_runs::specs::Laws::holds_keeps), unfolding(crate::specs::Leaves::typed_var_at))]
pub fn typed_var(
    bytes: &[u8],
    ends: &[u32],
    rows: &[u32],
    scope: u32,
    name: u32,
) -> Result<Option<Typed>, Refusal>
    ensures { Answers (sized_of bytes.now ends.now) bytes.now ends.now (tell_type result) (typed_var_at bytes.now ends.now rows.now scope name) }
{
    let held = open(
        &Strings { bytes, ends },
        rows,
        Question::InScope { scope, name },
    )?;
    Ok(rows_lookup::typed_var(&held, scope, name))
}

// A variable's declared type in exactly a scope.
#[tactic(auto, using(crate::proofs::Laws::entry_stopped, crate::proofs::Laws::entry_given, rows_runs::specs::Laws::holds_keeps), unfolding(crate::specs::Leaves::typed_var_in_at))]
pub fn typed_var_in(
    bytes: &[u8],
    ends: &[u32],
    rows: &[u32],
    scope: u32,
    name: u32,
) -> Result<Option<Typed>, Refusal>
    ensures { Answers (sized_of bytes.now ends.now) bytes.now ends.now (tell_type result) (typed_var_in_at bytes.now ends.now rows.now scope name) }
{
    let held = open(
        &Strings { bytes, ends },
        rows,
        Question::InScope { scope, name },
    )?;
    Ok(rows_lookup::typed_var_in(&held, scope, name))
}

// The array that a name is from a scope.
#[tactic(auto, using(crate::proofs::Laws::entry_stopped, crate::proofs::Laws::entry_given, rows_runs::specs::Laws::holds_keeps), unfolding(crate::specs::Leaves::lookup_array_at))]
pub fn lookup_array(
    bytes: &[u8],
    ends: &[u32],
    rows: &[u32],
    scope: u32,
    name: u32,
) -> Result<Option<Array>, Refusal>
    ensures { Answers (sized_of bytes.now ends.now) bytes.now ends.now (tell_array result) (lookup_array_at bytes.now ends.now rows.now scope name) }
{
    let held = open(
        &Strings { bytes, ends },
        rows,
        Question::InScope { scope, name },
    )?;
    Ok(rows_lookup::lookup_array(&held, scope, name))
}

// The last byte of a name. That the number is a name's is asked of the caller, here, in `spelled` and in crate `entry_collisions`: it is a fact of the table and the number
// together, and a type for it would carry the table a second time.
#[tactic(auto, using(crate::proofs::Laws::inside, crate::proofs::Laws::past_first, crate::proofs::Laws::last_inside, crate::proofs::Laws::last_is))]
pub fn last_byte(strings: &Sound<'_>, name: u32) -> u8
    requires { is_marked (names_of strings.now.bytes.now strings.now.ends.now) name ≡ true }
    ensures { result ≡ last_byte (string_at strings.now.bytes.now strings.now.ends.now name) }
{
    let i = name as usize;
    let e = strings.ends[i] as usize;
    strings.bytes[e - 1]
}

// The type that a variable or an array's elements hold.
#[tactic(auto, using(crate::proofs::Laws::entry_stopped, crate::proofs::Laws::entry_given, rows_runs::specs::Laws::holds_keeps, crate::proofs::Laws::scope_admitted), unfolding(crate::specs::Leaves::declared_type_at))]
pub fn declared_type(
    bytes: &[u8],
    ends: &[u32],
    rows: &[u32],
    scope: u32,
    name: u32,
) -> Result<Option<u32>, Refusal>
    ensures { Answers (sized_of bytes.now ends.now) bytes.now ends.now (tell_class result) (declared_type_at bytes.now ends.now rows.now scope name) }
{
    let held = open(
        &Strings { bytes, ends },
        rows,
        Question::InScope { scope, name },
    )?;
    let last = last_byte(&Sound { bytes, ends }, name);
    Ok(rows_lookup::declared_type(&held, last, scope, name))
}

// The builtin function of a name.
#[tactic(auto, using(crate::proofs::Laws::answers_stop), unfolding(base_words::specs::Refusals::refused))]
pub fn builtin(bytes: &[u8], ends: &[u32], name: u32) -> Result<Option<Arguments>, Refusal>
    ensures { Answers (sized_of bytes.now ends.now) bytes.now ends.now (tell_taking result) (builtin_at bytes.now ends.now name) }
{
    passes(&Strings { bytes, ends })?;
    let strings = Sound { bytes, ends };
    let names = base_strings::names_of(&strings);
    if rows_lent::is_name(&names[..ends.len()], name) {
        Ok(spelled(&strings, name))
    } else {
        Err(Refusal::Lookup)
    }
}

// The same of a number that is a name's.
#[tactic(auto, using(crate::proofs::Laws::inside, crate::proofs::Laws::more, crate::proofs::Laws::fits), unfolding(base_strings::specs::Table::string_at))]
pub fn spelled(strings: &Sound<'_>, name: u32) -> Option<Arguments>
    requires { is_marked (names_of strings.now.bytes.now strings.now.ends.now) name ≡ true }
    ensures { result ≡ arguments_of (builtin_of (string_at strings.now.bytes.now strings.now.ends.now name)) }
{
    let i = name as usize;
    let a = base_strings::start(strings.ends, i);
    let e = strings.ends[i] as usize;
    base_builtins::builtin(&strings.bytes[a..e])
}
