// What collecting does for DIM and REDIM: the declarators of a statement, one after another, into rows and diagnostics.
// `b, d, s` stay side by side, and that the counts fit stays a clause (`Fit`, `s.rows * width ≤ length b`): a ghost field beside a `&mut` field isn't had (the kit's NOT_COVERED).
// `words, at` do so too, with `SomeTree` a clause: it names the tree that stands there, and a ghost field takes a proposition alone (`∥ .. ∥₁` would give
// only propositions back, while the callees ask for the tree). So a list in the words is gone through by its places too: an iterator's `next` can ask nothing. `NameAt` is about the strings as well as
// the declarator, so that neither struct can hold it. `strings` and `erased` stay two: the type asks for the one alone, the array for the other.
#![tactic(auto)]

ghost use Rattle.std.specs.Prelude.{◌≡◌, ◌&&◌, ◌||◌, not, List, ℕ, ◌*◌, ◌≤◌, ◌<◌, eqb, length};
ghost use Rattle.tree_expr.specs.Expr.{Expr};
ghost use Rattle.tree_stmt.specs.Sorts.{expr as expr_sort, exprs as exprs_sort, many, opt, nil, ◌&◌, Declarator as DeclaratorRow, dim as dim_kind, redim as redim_kind};
ghost use Rattle.tree_stmt.specs.Tree.{Tree, one, row, rows, count};
ghost use Rattle.tree_stmt.specs.Stands.{Stands, SomeTree};
ghost use Rattle.rows_table.specs.Rows.{Row, width, note_width, find};
ghost use Rattle.rows_runs.specs.Runs.{KeptIn};
ghost use Rattle.rows_kinds.specs.Kinds.{entry_key, has as has_entry};
ghost use Rattle.collect_buffers.specs.Held.{Fit, Notes};
ghost use Rattle.collect_definition.specs.Collect.{member};
ghost use Rattle.collect_as_clause.specs.Parts.{NameAt};
ghost use Rattle.collect_as_clause.specs.Turns.{SomeRows};
ghost use Rattle.collect_dim.specs.Declarators.{LowerIs, LowersIs, DimsIs, DeclIs, old_of, old_lower, clash_of, clashes, Declares, DeclaresType, DeclaresArray, DeclaresAll, Shares, SharesAll, Past, Flagged, FlagIs, Ready, ReadyStmt, Contradicts};
ghost use Rattle.collect_definition.specs.Code.{Collects};

mod decl;
mod stmt;

use base_strings::Sound;
use collect_buffers::Counts;
pub use decl::Decl;
use rows_kinds::bit;
use rows_lookup::Typed;
use rows_table::Rows;
use stmt::Stmt;

// ---- a declarator, read

// Past n expressions.
fn exprs(words: &[u32], from: usize, n: u32) -> usize
    requires { SomeRows (expr_sort & nil) n words.now from }
    ensures { (ns : List ℕ) (k : ℕ) (rs : Tree Expr (rows (expr_sort & nil))) (end : ℕ) → Stands words.now ns k from rs end → count rs ≡ n → result ≡ end }
{
    let mut at = from;
    for _ in 0..n {
        at = tree_skip::expr(words, at);
    }
    at
}

// How many dimensions, where there is a list of them, and the place past it.
fn dimensions(words: &[u32], at: usize) -> (Option<u32>, usize)
    requires { SomeTree (one (opt (exprs_sort & nil))) words.now at }
    ensures { DimsIs words.now at result.0 result.1 }
{
    let w = words[at];
    if w == 0 {
        return (None, at + 1);
    }
    let n = w % 16777216;
    (Some(n), exprs(words, at + 1, n))
}

// Whether a lower bound is written there, and the place past it.
fn lower(words: &[u32], at: usize) -> (bool, usize)
    requires { SomeTree (row (opt (expr_sort & nil) & nil)) words.now at }
    ensures { LowerIs words.now at result.0 result.1 }
{
    if words[at] == 0 {
        return (false, at + 1);
    }
    (true, tree_skip::expr(words, at))
}

// The list of lower bounds: whether any is written, and the place past it.
fn lowers(words: &[u32], at: usize) -> (bool, usize)
    requires { SomeTree (one (many (opt (expr_sort & nil) & nil))) words.now at }
    ensures { LowersIs words.now at result.0 result.1 }
{
    let mut any = false;
    let mut m = at + 1;
    for _ in 0..words[at] % 16777216 {
        let (there, next) = lower(words, m);
        any |= there;
        m = next;
    }
    (any, m)
}

fn declarator(words: &[u32], at: usize) -> Decl
    requires { SomeTree (row DeclaratorRow) words.now at }
    ensures { DeclIs words.now at result }
{
    let name = words[at] % 16777216;
    let (rank, past_dimensions) = dimensions(words, at + 1);
    let (lower, past_lowers) = lowers(words, past_dimensions);
    let (ty, next) = collect_as_clause::as_type(words, past_lowers);
    Decl {
        name,
        rank,
        lower,
        ty,
        next,
    }
}

// Past the list of declarators there.
fn past(words: &[u32], at: usize) -> usize
    requires { SomeTree (one (many DeclaratorRow)) words.now at }
    ensures { Past words.now at result }
{
    let mut m = at + 1;
    for _ in 0..words[at] % 16777216 {
        m = declarator(words, m).next;
    }
    m
}

// Whether the flag after the list of declarators there says yes.
fn flag_after(words: &[u32], at: usize) -> bool
    requires { Flagged words.now at }
    ensures { FlagIs words.now at result }
{
    words[past(words, at)] % 16777216 == 1
}

// ---- its type

// Whether a name's suffix says another type. A record is exempt.
fn contradicts(strings: &Sound<'_>, name: u32, head: u32) -> bool
    requires { NameAt strings.now.bytes.now strings.now.ends.now name }
    ensures { Contradicts strings.now.bytes.now strings.now.ends.now name head result }
{
    head != 45 && collect_as_clause::differs(strings, name, head)
}

// Whether the type is a record of no TYPE.
fn undefined(rows: &Rows<'_>, ty: Typed) -> bool
    requires { ty.arg < 16777216 }
    ensures { (rs : List Row) → KeptIn rs rows.now → result ≡ (eqb ty.head 45 && not (has_entry rs 130 ty.arg 0)) }
{
    ty.head == 45 && !rows_lookup::has(rows, 130, ty.arg, 0)
}

// Whether a typed variable is there already, which REDIM allows.
fn again(rows: &Rows<'_>, st: Stmt, v: Decl) -> bool
    ensures { (rs : List Row) → KeptIn rs rows.now → result ≡ (has_entry rs 134 v.name st.scope && not st.redim) }
{
    !st.redim && rows_lookup::has(rows, 134, v.name, st.scope)
}

// What is done for its type, where it has one.
fn declared_type(
    strings: &Sound<'_>,
    b: &mut [u32],
    d: &mut [u32],
    s: Counts,
    st: Stmt,
    v: Decl,
) -> Counts
    requires { Fit s (length b.old) (length d.old) × NameAt strings.now.bytes.now strings.now.ends.now v.name }
    ensures { DeclaresType strings.now.bytes.now strings.now.ends.now st.scope st.line st.redim v s result b.old d.old b.new d.new }
{
    let Some(ty) = v.ty else {
        return s;
    };
    let name = v.name;
    let differs = contradicts(strings, name, ty.head);
    let s1 = collect_buffers::push_if(d, s, differs, 15, st.line, name + 1, 0, 0, 0);
    let rows = Rows {
        words: b,
        count: s1.rows,
    };
    let unknown = undefined(&rows, ty);
    let s2 = collect_buffers::push_if(d, s1, unknown, 16, st.line, ty.arg + 1, 0, 0, 0);
    let rows = Rows {
        words: b,
        count: s2.rows,
    };
    let twice = again(&rows, st, v);
    let s3 = collect_buffers::push_if(d, s2, twice, 17, st.line, name + 1, 0, 0, 0);
    collect_buffers::enter(b, s3, 134, name, st.scope, ty.head, ty.arg, 0, 0)
}

// ---- its array

// An array that was there: its rank, and whether a lower bound was written, both as the words of its row say it.
#[derive(Clone, Copy)]
pub struct Old {
    rank: u32,
    lower: u32,
}

// The array of the declarator's name and the statement's scope, if one was there.
fn old_array(rows: &Rows<'_>, st: Stmt, v: Decl) -> Option<Old>
    ensures { (rs : List Row) → KeptIn rs rows.now → result ≡ old_of (find (entry_key 133 v.name st.scope) rs) }
{
    let i = rows_lookup::find_entry(rows, 133, v.name, st.scope)?;
    let at = i * rows_table::WIDTH;
    Some(Old {
        rank: rows.words[at + 2],
        lower: rows.words[at + 4],
    })
}

// Whether a lower bound is written, or was in the array that was there.
fn any_lower(written: bool, old: Option<Old>) -> bool
    ensures { result ≡ (written || old_lower old) }
{
    written || old.is_some_and(|o| o.lower == 1)
}

// Whether the name is one that some ERASE names. All are looked at: so the compiler can compare several at a time.
fn is_erased(erased: &[u32], name: u32) -> bool
    ensures { result ≡ member name erased.now }
{
    let mut hit = false;
    for &other in erased {
        hit |= other == name;
    }
    hit
}

// Whether an array that was there must not be declared again.
fn kept(erased: &[u32], redim: bool, name: u32) -> bool
    ensures { result ≡ (not redim && not (member name erased.now)) }
{
    !redim && !is_erased(erased, name)
}

// What is said of an array that is declared again: a diagnostic's code and its number. The code is one of document 01's numbers, as in the definition `clash_of`.
#[derive(Clone, Copy)]
pub struct Clash {
    code: u32,
    number: u32,
}

fn clashing(erased: &[u32], st: Stmt, name: u32, rank: u32, old: Option<Old>) -> Option<Clash>
    ensures { result ≡ clash_of erased.now st.redim st.preserve name rank old }
{
    let old = old?;
    if kept(erased, st.redim, name) {
        return Some(Clash {
            code: 19,
            number: 0,
        });
    }
    if old.rank == rank {
        return None;
    }
    Some(Clash {
        code: if st.preserve { 20 } else { 21 },
        number: old.rank,
    })
}

// The diagnostic of a clash.
fn say(d: &mut [u32], s: Counts, st: Stmt, v: Decl, clash: Option<Clash>) -> Counts
    requires { s.notes * note_width ≤ length d.old }
    ensures { Notes (clashes st.line v.name clash) s result d.old d.new }
{
    match clash {
        Some(c) => collect_buffers::push(d, s, c.code, st.line, v.name + 1, 0, c.number, 0),
        None => s,
    }
}

// What is done for its dimensions, where it has them.
fn declared_array(
    erased: &[u32],
    b: &mut [u32],
    d: &mut [u32],
    s: Counts,
    st: Stmt,
    v: Decl,
) -> Counts
    requires { Fit s (length b.old) (length d.old) }
    ensures { DeclaresArray erased.now st.scope st.line st.redim st.preserve v s result b.old d.old b.new d.new }
{
    let Some(rank) = v.rank else {
        return s;
    };
    let name = v.name;
    let s1 = collect_buffers::push_if(d, s, rank == 0, 18, st.line, name + 1, 0, 0, 0);
    let rows = Rows {
        words: b,
        count: s1.rows,
    };
    let old = old_array(&rows, st, v);
    let clash = clashing(erased, st, name, rank, old);
    let s2 = say(d, s1, st, v, clash);
    let low = bit(any_lower(v.lower, old));
    collect_buffers::enter(b, s2, 133, name, st.scope, rank, st.line, low, 0)
}

// ---- all of them

// One declarator.
fn declared(
    strings: &Sound<'_>,
    erased: &[u32],
    b: &mut [u32],
    d: &mut [u32],
    s: Counts,
    st: Stmt,
    v: Decl,
) -> Counts
    requires { Fit s (length b.old) (length d.old) × NameAt strings.now.bytes.now strings.now.ends.now v.name }
    ensures { Declares strings.now.bytes.now strings.now.ends.now erased.now st.scope st.line st.redim st.preserve v s result b.old d.old b.new d.new }
{
    let t = declared_type(strings, b, d, s, st, v);
    declared_array(erased, b, d, t, st, v)
}

// The list of declarators there.
fn declare_all(
    words: &[u32],
    strings: &Sound<'_>,
    erased: &[u32],
    b: &mut [u32],
    d: &mut [u32],
    s: Counts,
    st: Stmt,
    at: usize,
) -> Counts
    requires { Fit s (length b.old) (length d.old) × Ready strings.now.bytes.now strings.now.ends.now words.now at }
    ensures { DeclaresAll words.now strings.now.bytes.now strings.now.ends.now erased.now st.scope st.line st.redim st.preserve at s result b.old d.old b.new d.new }
{
    let mut m = at + 1;
    let mut c = s;
    for _ in 0..words[at] % 16777216 {
        let v = declarator(words, m);
        m = v.next;
        c = declared(strings, erased, b, d, c, st, v);
    }
    c
}

// The list of declarators there, all of them shared.
fn share_all(words: &[u32], b: &mut [u32], s: Counts, at: usize) -> Counts
    requires { (s.rows * width ≤ length b.old) × SomeTree (one (many DeclaratorRow)) words.now at }
    ensures { SharesAll words.now at s result b.old b.new }
{
    let mut m = at + 1;
    let mut c = s;
    for _ in 0..words[at] % 16777216 {
        let v = declarator(words, m);
        m = v.next;
        c = collect_buffers::enter(b, c, 137, v.name, bit(v.rank.is_some()), 0, 0, 0, 0);
    }
    c
}

// What SHARED adds to a DIM: it belongs at module level.
fn share(
    words: &[u32],
    b: &mut [u32],
    d: &mut [u32],
    s: Counts,
    st: Stmt,
    shared: bool,
    at: usize,
) -> Counts
    requires { Fit s (length b.old) (length d.old) × SomeTree (one (many DeclaratorRow)) words.now at }
    ensures { Shares words.now st.scope st.line shared at s result b.old d.old b.new d.new }
{
    if !shared {
        return s;
    }
    if st.scope != 0 {
        return collect_buffers::push(d, s, 14, st.line, 0, 0, 0, 0);
    }
    share_all(words, b, s, at)
}

// DIM. SHARED comes after the declarators in the words, and before them in what is done.
pub fn dim(
    words: &[u32],
    strings: &Sound<'_>,
    erased: &[u32],
    b: &mut [u32],
    d: &mut [u32],
    s: Counts,
    scope: u32,
    at: usize,
) -> Counts
    requires { ReadyStmt dim_kind strings.now.bytes.now strings.now.ends.now words.now at × Fit s (length b.old) (length d.old) }
    ensures { (ns : List ℕ) (n : ℕ) → Collects ns n dim_kind words.now strings.now.bytes.now strings.now.ends.now erased.now scope at s result b.old d.old b.new d.new }
{
    let line = words[at] % 16777216;
    let shared = flag_after(words, at + 1);
    let st = Stmt {
        scope,
        line,
        redim: false,
        preserve: false,
    };
    let t = share(words, b, d, s, st, shared, at + 1);
    declare_all(words, strings, erased, b, d, t, st, at + 1)
}

// REDIM. PRESERVE comes after the declarators in the words. It differs from `dim` in what the flag does: SHARED is done before the declarators, PRESERVE goes with them.
pub fn redim(
    words: &[u32],
    strings: &Sound<'_>,
    erased: &[u32],
    b: &mut [u32],
    d: &mut [u32],
    s: Counts,
    scope: u32,
    at: usize,
) -> Counts
    requires { ReadyStmt redim_kind strings.now.bytes.now strings.now.ends.now words.now at × Fit s (length b.old) (length d.old) }
    ensures { (ns : List ℕ) (n : ℕ) → Collects ns n redim_kind words.now strings.now.bytes.now strings.now.ends.now erased.now scope at s result b.old d.old b.new d.new }
{
    let line = words[at] % 16777216;
    let preserve = flag_after(words, at + 1);
    let st = Stmt {
        scope,
        line,
        redim: true,
        preserve,
    };
    declare_all(words, strings, erased, b, d, s, st, at + 1)
}
