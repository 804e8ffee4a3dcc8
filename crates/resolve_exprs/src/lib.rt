// Resolves expressions over flat words, into a lent output. Words, rows, scope and output stay parameters of their own: callers have them apart,
// and would make a struct of them at each call.
#![tactic(auto)]

ghost use Rattle.std.specs.Prelude.{◌≡◌, List, [], ◌∷◌, ◌+◌, ◌≤◌, ◌<◌, length, take, drop, get_or};
ghost use Rattle.std.proofs.lemmas.List.Edits.{sets};
ghost use Rattle.base_words.specs.Word.{word_of, pick};
ghost use Rattle.rows_table.specs.Rows.{Row};
ghost use Rattle.rows_table.specs.Answers.{HeldIn};
ghost use Rattle.resolve_definition.specs.Tables.{Tables, places, element};
ghost use Rattle.resolve_definition.specs.FromRows.{tables_of};
ghost use Rattle.resolve_exprs.specs.Post.{Some, Ready, ReadyAll, Resolved, ResolvedArgs, Paired};

use rows_table::Rows;

// A reading place and a writing place.
#[derive(Clone, Copy)]
pub struct Spot {
    pub at: usize,
    pub to: usize,
}

// Copies n words, a node's own. (The library's `copy_from_slice`, under the promise that the laws of writing cite.)
fn copy(words: &[u32], out: &mut [u32], spot: Spot, n: usize)
    requires { (spot.at + n ≤ length words.now) × (spot.to + n ≤ length out.old) }
    ensures { out.new ≡ sets out.old spot.to (take n (drop spot.at words.now)) }
{
    out[spot.to..spot.to + n].copy_from_slice(&words[spot.at..spot.at + n]);
}

// Copies n words, and tells the places past them.
fn copied(words: &[u32], out: &mut [u32], spot: Spot, n: usize) -> Spot
    requires { (spot.at + n ≤ length words.now) × (spot.to + n ≤ length out.old) }
    ensures { (result.at ≡ spot.at + n) × (result.to ≡ spot.to + n) × (out.new ≡ sets out.old spot.to (take n (drop spot.at words.now))) }
{
    copy(words, out, spot, n);
    Spot {
        at: spot.at + n,
        to: spot.to + n,
    }
}

// The head of an element, or of a call.
pub fn headed(element: bool) -> u32
    ensures { result ≡ word_of (pick element 18 21) 0 }
{
    if element { 0x12000000 } else { 0x15000000 }
}

// The head of a call of f: an element's where it is one. (That f fits a payload is asked here and twice below: a type of its own would be taken
// apart at each look-up.)
fn head(rows: &Rows<'_>, scope: u32, f: u32) -> u32
    requires { (scope ≤ 16777216) × (f < 16777216) }
    ensures { (rs : List Row) → HeldIn rs rows.now → result ≡ word_of (pick (element (tables_of rs) scope f) 18 21) 0 }
{
    headed(resolve_definition::is_element(rows, scope, f))
}

// Writes the head h, and the two words after the first at `at` as they are, of a call its name and its list's head. Tells the places past them.
pub fn begin(words: &[u32], out: &mut [u32], spot: Spot, h: u32) -> Spot
    requires { (spot.at + 3 ≤ length words.now) × (spot.to + 3 ≤ length out.old) }
    ensures { (result.at ≡ spot.at + 3) × (result.to ≡ spot.to + 3) × (out.new ≡ sets out.old spot.to (h ∷ get_or words.now (spot.at + 1) 0 ∷ get_or words.now (spot.at + 2) 0 ∷ [])) }
{
    out[spot.to] = h;
    out[spot.to + 1] = words[spot.at + 1];
    out[spot.to + 2] = words[spot.at + 2];
    Spot {
        at: spot.at + 3,
        to: spot.to + 3,
    }
}

// Writes the pair of parentheses of the argument at `at`, at position i of f, if it keeps it; answers how many words that is:
// a count, which is added to two places.
fn pair(words: &[u32], rows: &Rows<'_>, out: &mut [u32], spot: Spot, f: u32, i: u32) -> usize
    requires { Some words.now spot.at × (spot.to < length out.old) × (f < 16777216) }
    ensures { Paired (λ (T : Tables). places T f i) words.now rows.now.words.now out.old out.new rows.now.count spot.at spot.to result }
{
    if words[spot.at] / 16777216 == 23 && resolve_definition::by_ref(rows, f, i) {
        out[spot.to] = 0x17000000;
        return 1;
    }
    0
}

// Resolves the expression at `at` into `out` from `to` on.
#[cycle(resolve_args_resolve_expr)]
pub fn resolve_expr(words: &[u32], rows: &Rows<'_>, scope: u32, out: &mut [u32], spot: Spot) -> Spot
    requires { Ready words.now rows.now.words.now rows.now.count scope spot.at spot.to (length out.old) }
    ensures { Resolved words.now rows.now.words.now out.old out.new rows.now.count scope spot.at spot.to result.at result.to }
{
    let kind = words[spot.at] / 16777216;
    // only grouping
    if kind == 23 {
        let inner = Spot {
            at: spot.at + 1,
            to: spot.to,
        };
        return resolve_expr(words, rows, scope, out, inner);
    }
    if kind == 21 {
        let f = words[spot.at + 1] % 16777216;
        let n = words[spot.at + 2] % 16777216;
        let first = begin(words, out, spot, head(rows, scope, f));
        return resolve_args(words, rows, scope, out, first, f, n);
    }
    let s = tree_skip::shape_at(words, spot.at);
    let mut next = copied(words, out, spot, s.front);
    for _ in 0..s.children {
        next = resolve_expr(words, rows, scope, out, next);
    }
    copied(words, out, next, s.back)
}

// Resolves the n arguments of a call of f, one in parentheses keeping one pair where its parameter is by reference.
#[cycle(resolve_args_resolve_expr)]
pub fn resolve_args(
    words: &[u32],
    rows: &Rows<'_>,
    scope: u32,
    out: &mut [u32],
    spot: Spot,
    f: u32,
    n: u32,
) -> Spot
    requires { ReadyAll words.now rows.now.words.now rows.now.count scope spot.at spot.to (length out.old) n × (f < 16777216) }
    ensures { ResolvedArgs f n words.now rows.now.words.now out.old out.new rows.now.count scope spot.at spot.to result.at result.to }
{
    let mut next = spot;
    for i in 0..n {
        let h = pair(words, rows, out, next, f, i);
        let argument = Spot {
            at: next.at + h,
            to: next.to + h,
        };
        next = resolve_expr(words, rows, scope, out, argument);
    }
    next
}
