// `subscript_count`: how many subscripts a body gives a name the first time it subscripts it. One read-only walk notes the first uses of many names at once.
// Kinds of words are numbers, matched with ranges: document 01's form of a tree.
// (`SomeTree`, `SomeExpr` and `KindAt` stay clauses: each says of words, at a place, what stands there, in nearly each function another shape, and a struct for each would be opened at each call.)
#![tactic(auto)]

ghost use Rattle.std.specs.Prelude.{◌≡◌, List, true, false, ℕ, ◌+◌, ◌<◌, eqb, get_or};
ghost use Rattle.std.proofs.Math.Option.{some, none};
ghost use Rattle.base_words.specs.Word.{kind_of, pick};
ghost use Rattle.tree_expr.specs.Expr.{Expr};
ghost use Rattle.tree_stmt.specs.Sorts.{stmt as stmt_sort, expr as expr_sort, nil, ◌&◌, opt, many, LValue, PrintItem, body};
ghost use Rattle.tree_stmt.specs.Tree.{Tree, one, row as row_shape};
ghost use Rattle.tree_stmt.specs.Stands.{Stands, SomeTree};
ghost use Rattle.tree_stmt.specs.Codes.{sort_at, row_of};
ghost use Rattle.tree_skip.specs.Shape.{SomeExpr};
ghost use Rattle.tree_walk.specs.Plans.{Listed, SomeRows, Walks, WalksRows};
ghost use Rattle.collect_subscript_count.specs.Subscripts.{in_expr, subscript_count};
ghost use Rattle.collect_subscript_count.specs.Notes.{Blank, mark_at, noted, room, used};
ghost use Rattle.collect_subscript_count.specs.Code.{use_of, HereNotes, NotesExpr, SomeExprs, NotesExprs, NotesOwn, IndexedAt, NotesIndexed, NotesTarget, NotesTargets, KindAt, NotesStmt, targeted as is_targeted, Counted, Told};

// The notes are a caller's words, a table with two for each name from `base` on: the place of the statement that has the name's first use so far, or one of the next
// two, which orders the uses within the statement, and one more than the number of its subscripts; 0 where there is none. (Words and no `Option`s: what they note, and that
// they are blank, is defined over a list of numbers.)
// (`t` and `base` stay two parameters: a struct of both would hold a `&mut`, so that each function here would promise besides that it still lends the same words.)

// Notes a use of the name f with n subscripts at k, unless one at k or before is there.
fn note(t: &mut [usize], base: u32, k: usize, f: u32, n: u32)
    ensures { (x : ℕ) → mark_at base t.new x ≡ noted k (pick (eqb f x) (some n) none) (mark_at base t.old x) }
{
    if f < base {
        return;
    }
    let i = 2 * (f - base) as usize;
    if t.len() <= i + 1 {
        return;
    }
    if t[i + 1] != 0 && t[i] <= k {
        return;
    }
    t[i] = k;
    t[i + 1] = n as usize + 1;
}

// The use that the expression there is, without what stands in it: an element or a call whose list isn't empty.
fn here(words: &[u32], at: usize, t: &mut [usize], base: u32, k: usize)
    requires { SomeExpr words.now at }
    ensures { HereNotes words.now at k (mark_at base t.old) (mark_at base t.new) }
{
    match words[at] / 16777216 {
        18 | 21 => {
            let n = words[at + 2] % 16777216;
            if n == 0 {
                return;
            }
            note(t, base, k, words[at + 1] % 16777216, n);
        }
        _ => {}
    }
}

// An expression: itself before what stands in it. The place past it.
#[cycle(expr_exprs)]
fn expr(words: &[u32], at: usize, t: &mut [usize], base: u32, k: usize) -> usize
    requires { SomeExpr words.now at }
    ensures { NotesExpr words.now at k (mark_at base t.old) (mark_at base t.new) result }
{
    let s = tree_skip::shape_at(words, at);
    here(words, at, t, base, k);
    let next = exprs(words, at + s.front, s.children, t, base, k);
    next + s.back
}

// So many expressions, one after another. Each list's loop below is said out: one loop that takes its step as a closure would need the step's promise in its
// own contract, which differs from list to list.
#[cycle(expr_exprs)]
fn exprs(words: &[u32], at: usize, n: u32, t: &mut [usize], base: u32, k: usize) -> usize
    requires { SomeExprs words.now at n }
    ensures { NotesExprs words.now at n k (mark_at base t.old) (mark_at base t.new) result }
{
    let mut next = at;
    for _ in 0..n {
        next = expr(words, next, t, base, k);
    }
    next
}

// An expression, or the word 0.
fn option(words: &[u32], at: usize, t: &mut [usize], base: u32, k: usize) -> usize
    requires { SomeTree (one (opt (expr_sort & nil))) words.now at }
    ensures { NotesOwn (one (opt (expr_sort & nil))) words.now at k (mark_at base t.old) (mark_at base t.new) result }
{
    if words[at] == 0 {
        return at + 1;
    }
    expr(words, at, t, base, k)
}

// An item of PRINT: an expression with a head before it, or a head alone.
fn item(words: &[u32], at: usize, t: &mut [usize], base: u32, k: usize) -> usize
    requires { SomeTree (row_shape (PrintItem & nil)) words.now at }
    ensures { NotesOwn (row_shape (PrintItem & nil)) words.now at k (mark_at base t.old) (mark_at base t.new) result }
{
    if words[at] / 16777216 == 32 {
        return expr(words, at + 1, t, base, k);
    }
    at + 1
}

// The items of PRINT.
fn items(words: &[u32], at: usize, t: &mut [usize], base: u32, k: usize) -> usize
    requires { SomeTree (one (many (PrintItem & nil))) words.now at }
    ensures { NotesOwn (one (many (PrintItem & nil))) words.now at k (mark_at base t.old) (mark_at base t.new) result }
{
    let n = words[at] % 16777216;
    let mut next = at + 1;
    for _ in 0..n {
        next = item(words, next, t, base, k);
    }
    next
}

// A target's name, noted at k, and its indices, noted at j, if it has a list of them: here an empty list counts.
fn indexed(words: &[u32], at: usize, t: &mut [usize], base: u32, k: usize, j: usize) -> usize
    requires { IndexedAt words.now at }
    ensures { NotesIndexed words.now at k j (mark_at base t.old) (mark_at base t.new) result }
{
    if words[at + 1] == 0 {
        return at + 2;
    }
    let n = words[at + 1] % 16777216;
    note(t, base, k, words[at] % 16777216, n);
    exprs(words, at + 2, n, t, base, j)
}

// A target with its field names.
fn lvalue(words: &[u32], at: usize, t: &mut [usize], base: u32, k: usize, j: usize) -> usize
    requires { SomeTree (row_shape LValue) words.now at }
    ensures { NotesTarget words.now at k j (mark_at base t.old) (mark_at base t.new) result }
{
    let next = indexed(words, at, t, base, k, j);
    next + 1 + (words[next] % 16777216) as usize
}

// A list of targets.
fn lvalues(words: &[u32], at: usize, t: &mut [usize], base: u32, k: usize, j: usize) -> usize
    requires { SomeTree (one (many LValue)) words.now at × (k < j) }
    ensures { NotesTargets words.now at k j (mark_at base t.old) (mark_at base t.new) result }
{
    let n = words[at] % 16777216;
    let mut next = at + 1;
    for _ in 0..n {
        next = lvalue(words, next, t, base, k, j);
    }
    next
}

// LET: the target, its indices, the value.
fn assigned(words: &[u32], at: usize, t: &mut [usize], base: u32) -> usize
    requires { KindAt 2 words.now at }
    ensures { NotesStmt words.now at (mark_at base t.old) (mark_at base t.new) result }
{
    let next = indexed(words, at + 1, t, base, at, at);
    expr(words, next, t, base, at)
}

// PRINT: the file number, USING, the items.
fn print(words: &[u32], at: usize, t: &mut [usize], base: u32) -> usize
    requires { KindAt 3 words.now at }
    ensures { NotesStmt words.now at (mark_at base t.old) (mark_at base t.new) result }
{
    let list = option(words, at + 1, t, base, at);
    let newline = items(words, list, t, base, at + 2);
    let write = option(words, newline + 1, t, base, at + 1);
    write + 1
}

// INPUT: the targets, the file number, the targets' indices. A prompt is one word, there or not.
fn input(words: &[u32], at: usize, t: &mut [usize], base: u32) -> usize
    requires { KindAt 4 words.now at }
    ensures { NotesStmt words.now at (mark_at base t.old) (mark_at base t.new) result }
{
    let file = lvalues(words, at + 3, t, base, at, at + 2);
    option(words, file, t, base, at + 1)
}

// LINE INPUT: alike, with one target.
fn line_input(words: &[u32], at: usize, t: &mut [usize], base: u32) -> usize
    requires { KindAt 5 words.now at }
    ensures { NotesStmt words.now at (mark_at base t.old) (mark_at base t.new) result }
{
    let file = lvalue(words, at + 2, t, base, at, at + 2);
    option(words, file, t, base, at + 1)
}

// SWAP: both targets, then their indices.
fn swap(words: &[u32], at: usize, t: &mut [usize], base: u32) -> usize
    requires { KindAt 24 words.now at }
    ensures { NotesStmt words.now at (mark_at base t.old) (mark_at base t.new) result }
{
    let next = lvalue(words, at + 1, t, base, at, at + 1);
    lvalue(words, next, t, base, at, at + 1)
}

// READ: the targets, then their indices.
fn read(words: &[u32], at: usize, t: &mut [usize], base: u32) -> usize
    requires { KindAt 32 words.now at }
    ensures { NotesStmt words.now at (mark_at base t.old) (mark_at base t.new) result }
{
    lvalues(words, at + 1, t, base, at, at + 1)
}

// Whether statements of the kind have targets, or expressions in another order than their words.
#[tactic(auto, using(std::proofs::lemmas::Bool::Decides::nat_tests), unfolding(crate::specs::Code::targeted))]
fn targeted(kind: u32) -> bool
    ensures { result ≡ is_targeted kind }
{
    matches!(kind, 66..=69 | 88 | 96)
}

// A statement of such a kind. No statement stands in one.
#[tactic(auto, using(std::proofs::lemmas::Bool::Decides::nat_tests), unfolding(crate::specs::Code::targeted))]
fn by_hand(words: &[u32], at: usize, t: &mut [usize], base: u32) -> usize
    requires { SomeTree (one stmt_sort) words.now at × (is_targeted (kind_of (get_or words.now at 0)) ≡ true) }
    ensures { NotesStmt words.now at (mark_at base t.old) (mark_at base t.new) result }
{
    match words[at] / 16777216 {
        66 => assigned(words, at, t, base),
        67 => print(words, at, t, base),
        68 => input(words, at, t, base),
        69 => line_input(words, at, t, base),
        88 => swap(words, at, t, base),
        _ => read(words, at, t, base),
    }
}

// A field of a sort, in the statement at k.
#[cycle(each_field_row_stmt)]
fn field(words: &[u32], at: usize, sort: u8, t: &mut [usize], base: u32, k: usize) -> usize
    requires { SomeTree (one (sort_at sort)) words.now at × Listed sort }
    ensures { Walks (one (sort_at sort)) words.now at result (Counted k at result (mark_at base t.old) (mark_at base t.new)) }
{
    if sort == 9 {
        return expr(words, at, t, base, k);
    }
    if sort == 10 {
        return stmt(words, at, t, base);
    }
    let p = tree_walk::plan_for(words, at, sort);
    each(words, at + p.same, p.row, p.times, t, base, k)
}

// A statement: its targets and its own expressions, then the statements in it, whose places come after its own.
#[cycle(each_field_row_stmt)]
fn stmt(words: &[u32], at: usize, t: &mut [usize], base: u32) -> usize
    requires { SomeTree (one stmt_sort) words.now at }
    ensures { NotesStmt words.now at (mark_at base t.old) (mark_at base t.new) result }
{
    let kind = words[at] / 16777216;
    if targeted(kind) {
        return by_hand(words, at, t, base);
    }
    row(words, at + 1, (kind - 64) as usize + 39, t, base, at)
}

// So many rows, one after another.
#[cycle(each_field_row_stmt)]
fn each(words: &[u32], at: usize, r: usize, n: u32, t: &mut [usize], base: u32, k: usize) -> usize
    requires { SomeRows (row_of r) n words.now at }
    ensures { WalksRows (row_of r) n words.now at result (Counted k at result (mark_at base t.old) (mark_at base t.new)) }
{
    let mut next = at;
    for _ in 0..n {
        next = row(words, next, r, t, base, k);
    }
    next
}

// A row of fields.
#[cycle(each_field_row_stmt)]
fn row(words: &[u32], at: usize, r: usize, t: &mut [usize], base: u32, k: usize) -> usize
    requires { SomeTree (row_shape (row_of r)) words.now at }
    ensures { Walks (row_shape (row_of r)) words.now at result (Counted k at result (mark_at base t.old) (mark_at base t.new)) }
{
    let mut next = at;
    for i in 0..6 {
        let sort = tree_stmt::sort(r, i);
        if sort == 0 {
            return next;
        }
        next = field(words, next, sort, t, base, k);
    }
    next
}

// The first uses of the names from `base` on that the notes have room for, in the body at `at`.
pub fn first_uses(words: &[u32], at: usize, t: &mut [usize], base: u32)
    requires { SomeTree (one body) words.now at × Blank t.old }
    ensures { Told words.now at base t.new }
{
    let n = words[at] % 16777216;
    let mut next = at + 1;
    for _ in 0..n {
        next = stmt(words, next, t, base);
    }
}

// The use of a name that the notes have room for.
pub fn first_use(t: &[usize], base: u32, name: u32) -> Option<u32>
    requires { room base t.now name ≡ true }
    ensures { use_of result ≡ used (mark_at base t.now name) }
{
    let c = t[2 * (name - base) as usize + 1];
    if c == 0 {
        return None;
    }
    Some(((c - 1) % 4294967296) as u32)
}

// How many subscripts the name is given first in the body at `at`. No statement after the one with that use is looked at.
pub fn subscript_count(words: &[u32], at: usize, name: u32) -> Option<u32>
    requires { SomeTree (one body) words.now at }
    ensures { (ns : List ℕ) (n : ℕ) (v : Tree Expr (one body)) (end : ℕ) → Stands words.now ns n at v end → use_of result ≡ subscript_count (λ name (e : Expr). in_expr name e) name v }
{
    let mut t = [0usize; 2];
    let n = words[at] % 16777216;
    let mut next = at + 1;
    for _ in 0..n {
        next = stmt(words, next, &mut t, name);
        if t[1] != 0 {
            return first_use(&t, name, name);
        }
    }
    first_use(&t, name, name)
}
