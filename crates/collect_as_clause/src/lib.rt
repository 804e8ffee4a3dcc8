// Parts that statements share: a type, an AS clause, and whether a name's suffix says another type. (`words, at` with `SomeTree`: as in crate
// `collect_dim`.)
#![tactic(auto)]

ghost use Rattle.std.specs.Prelude.{◌≡◌};
ghost use Rattle.base_strings.specs.Name.{suffix};
ghost use Rattle.base_strings.specs.Table.{string_at};
ghost use Rattle.tree_stmt.specs.Sorts.{TypeRef as TypeSort, opt, nil, ◌&◌};
ghost use Rattle.tree_stmt.specs.Tree.{one};
ghost use Rattle.tree_stmt.specs.Stands.{SomeTree};
ghost use Rattle.tree_views.specs.View.{TypeRef, head as head_of_type};
ghost use Rattle.collect_definition.specs.Collect.{last_of, disagrees};
ghost use Rattle.collect_as_clause.specs.Parts.{TypeIs, AsTypeIs, NameAt, head_word, arg_word};

use base_strings::Sound;
use rows_lookup::Typed;

// The type at a place, and the place past it. Strings of a fixed length and records have an argument; any other type has 0.
pub fn type_ref(words: &[u32], at: usize) -> (Typed, usize)
    requires { SomeTree (one TypeSort) words.now at }
    ensures { TypeIs words.now at result.0 result.1 }
{
    let head = words[at] / 16777216;
    if head < 44 {
        return (Typed { head, arg: 0 }, at + 1);
    }
    let arg = words[at + 1] % 16777216;
    (Typed { head, arg }, at + 2)
}

// The type of the AS clause at a place, if one stands there, and the place past it. The word 0 stands for none.
pub fn as_type(words: &[u32], at: usize) -> (Option<Typed>, usize)
    requires { SomeTree (one (opt (TypeSort & nil))) words.now at }
    ensures { AsTypeIs words.now at result.0 result.1 }
{
    if words[at] == 0 {
        return (None, at + 1);
    }
    let (ty, next) = type_ref(words, at);
    (Some(ty), next)
}

// A type's two words in a row: both are 0 where there is none.
pub fn row_words(ty: Option<Typed>) -> (u32, u32)
    ensures head { result.0 ≡ head_word ty }
    ensures arg { result.1 ≡ arg_word ty }
{
    match ty {
        Some(t) => (t.head, t.arg),
        None => (0, 0),
    }
}

// One of % & ! # $. Crate `base_strings` has the same test for itself: with its contract a public one for both would be longer than this line.
#[tactic(auto, unfolding(base_strings::specs::Name::suffix, base_strings::specs::Name::between))]
fn is_suffix(b: u8) -> bool
    ensures { result ≡ suffix b }
{
    matches!(b, b'!' | b'#'..=b'&')
}

// Whether a name ends in a suffix of another type than the one with this head. A record counts as a double.
pub fn differs(strings: &Sound<'_>, name: u32, head: u32) -> bool
    requires { NameAt strings.now.bytes.now strings.now.ends.now name }
    ensures { (ty : TypeRef) → head ≡ head_of_type ty → result ≡ disagrees (last_of (string_at strings.now.bytes.now strings.now.ends.now name)) ty }
{
    let last = entry_lookup::last_byte(strings, name);
    is_suffix(last) && rows_lookup::from_type_ref(head) != rows_lookup::from_suffix(last)
}
