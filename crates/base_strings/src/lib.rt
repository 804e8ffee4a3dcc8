// The string table: its rule, the order of strings, names.
#![tactic(auto)]

ghost use Rattle.std.specs.Prelude.{◌≡◌, ◌&&◌, ◌<◌, ◌≤◌, length, get_or};
ghost use Rattle.base_words.specs.Sizes.{max_strings};
ghost use Rattle.base_strings.specs.Order.{order};
ghost use Rattle.base_strings.specs.Name.{between, inner, suffix, rest, is_name};
ghost use Rattle.base_strings.specs.Table.{start_of, part, all_printable, rises as rises_of, last_right, right_at, is_plain, names_of, Reached, Bounds, Names};
ghost use Rattle.base_strings.specs.Open.{Said};

mod right;
mod table;

use base_words::{MAX_STRINGS, Refusal};
pub use right::Sound;
use std::cmp::Ordering;
pub use table::Strings;

// The order of two strings, byte by byte.
#[tactic(auto, using(crate::proofs::Laws::order_is))]
pub fn compare(a: &[u8], b: &[u8]) -> Ordering
    ensures { result ≡ order a.now b.now }
{
    a.cmp(&b)
}

// A capital, a digit or a dot.
#[tactic(auto, unfolding(crate::specs::Name::inner, crate::specs::Name::between))]
fn is_inner(b: u8) -> bool
    ensures { result ≡ inner b }
{
    matches!(b, b'A'..=b'Z' | b'0'..=b'9' | b'.')
}

// One of % & ! # $.
#[tactic(auto, unfolding(crate::specs::Name::suffix, crate::specs::Name::between))]
fn is_suffix(b: u8) -> bool
    ensures { result ≡ suffix b }
{
    matches!(b, b'!' | b'#'..=b'&')
}

// Whether the bytes may follow a name's first capital.
fn is_rest(s: &[u8]) -> bool
    ensures { result ≡ rest s.now }
{
    match s {
        [inner @ .., last] => (is_inner(*last) || is_suffix(*last))
            && inner.iter().all(|&b| is_inner(b)),
        [] => true,
    }
}

// Whether a string is a name.
pub fn is_name(s: &[u8]) -> bool
    ensures { result ≡ is_name s.now }
{
    match s {
        [first, rest @ ..] => s.len() <= 40 && first.is_ascii_uppercase() && is_rest(rest),
        [] => false,
    }
}

// Whether all bytes are from 32 to 126. The loop has no exit, so that many bytes are tested at once.
fn all_printable(s: &[u8]) -> bool
    ensures { result ≡ all_printable s.now }
{
    let mut all = true;
    for &b in s {
        all &= (b' '..=b'~').contains(&b);
    }
    all
}

// Where string i begins.
pub fn start(ends: &[u32], i: usize) -> usize
    requires { i ≤ length ends.now }
    ensures { result ≡ start_of ends.now i }
{
    if i == 0 { 0 } else { ends[i - 1] as usize }
}

// That a string table breaks its rule, and a string where it does.
#[derive(Clone, Copy, Debug, PartialEq, Eq)]
pub struct Break {
    pub string: usize,
}

impl From<Break> for Refusal {
    ghost use Rattle.base_words.specs.declared.Refusal.TheVariants.{Strings};

    ghost from_gives = { λ b r. r ≡ Strings b.string };

    fn from(b: Break) -> Refusal {
        Refusal::Strings(b.string)
    }
}

// Where a string stands in the bytes: from `from` to `to`, the one before it from `before` on.
#[derive(Clone, Copy)]
struct Span {
    string: usize,
    before: usize,
    from: usize,
    to: usize,
}

// Whether a string is above the one before it.
fn rises(strings: &Strings<'_>, span: Span) -> bool
    requires { Bounds strings.now.bytes.now strings.now.ends.now span.string span.before span.from span.to }
    ensures { result ≡ rises_of strings.now.bytes.now strings.now.ends.now span.string }
{
    span.string == 0
        || compare(
            &strings.bytes[span.before..span.from],
            &strings.bytes[span.from..span.to],
        )
        .is_lt()
}

// Whether all bytes are from 32 to 126 and the last end is their count: of the strings only ends and order are then in doubt.
#[tactic(auto, unfolding(crate::specs::Table::is_plain))]
fn is_plain(strings: &Strings<'_>) -> bool
    requires { 0 < length strings.now.ends.now }
    ensures { result ≡ is_plain strings.now.bytes.now strings.now.ends.now }
{
    start(strings.ends, strings.ends.len()) == strings.bytes.len() && all_printable(strings.bytes)
}

// Whether a string's bytes are right, and its end if it is the last.
#[tactic(auto, unfolding(crate::specs::Table::last_right))]
fn right_bytes(strings: &Strings<'_>, span: Span) -> bool
    requires { Bounds strings.now.bytes.now strings.now.ends.now span.string span.before span.from span.to }
    ensures { result ≡ (all_printable (part span.from span.to strings.now.bytes.now) && last_right strings.now.bytes.now strings.now.ends.now span.string) }
{
    all_printable(&strings.bytes[span.from..span.to])
        && (span.string + 1 != strings.ends.len() || span.to == strings.bytes.len())
}

// Whether a string meets the rule.
fn right_at(strings: &Strings<'_>, plain: bool, span: Span) -> bool
    requires { Reached strings.now.ends.now span.string span.before span.from span.to × (plain ≡ is_plain strings.now.bytes.now strings.now.ends.now) }
    ensures { result ≡ right_at strings.now.bytes.now strings.now.ends.now span.string }
{
    span.from <= span.to
        && span.to <= strings.bytes.len()
        && rises(strings, span)
        && (plain || right_bytes(strings, span))
}

// Tests a string table. Of a table that breaks the rule it names a string where it breaks: the first.
pub fn check(strings: &Strings<'_>) -> Result<(), Break>
    ensures { Said strings.now.bytes.now strings.now.ends.now result }
{
    if strings.ends.is_empty() {
        return if strings.bytes.is_empty() {
            Ok(())
        } else {
            Err(Break { string: 0 })
        };
    }
    let plain = is_plain(strings);
    let mut before = 0;
    let mut from = 0;
    for (i, &end) in strings.ends.iter().enumerate() {
        let to = end as usize;
        let span = Span {
            string: i,
            before,
            from,
            to,
        };
        if !right_at(strings, plain, span) {
            return Err(Break { string: i });
        }
        before = from;
        from = to;
    }
    Ok(())
}

// For each string 1 where it is a name, else 0.
pub fn mark_names(strings: &Sound<'_>, names: &mut [u8])
    requires { length names.old ≡ length strings.now.ends.now }
    ensures { names.new ≡ names_of strings.now.bytes.now strings.now.ends.now }
{
    let mut from = 0;
    for (i, &end) in strings.ends.iter().enumerate() {
        let to = end as usize;
        names[i] = u8::from(is_name(&strings.bytes[from..to]));
        from = to;
    }
}

// The marks of a sound table of at most 1,024 strings: as many as there are strings, from the start of the array.
pub fn names_of(strings: &Sound<'_>) -> [u8; MAX_STRINGS]
    requires { length strings.now.ends.now ≤ max_strings }
    ensures { Names strings.now.bytes.now strings.now.ends.now result }
{
    let mut names = [0; MAX_STRINGS];
    let n = strings.ends.len();
    mark_names(strings, &mut names[..n]);
    names
}
