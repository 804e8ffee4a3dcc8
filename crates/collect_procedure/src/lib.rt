// What collecting does for SUB and FUNCTION, but for their bodies.
// `b, d, s` stay side by side, and that the counts fit stays a clause (`Fit`, `s.rows * width ≤ length b`): a ghost field beside a `&mut` field isn't had (the kit's NOT_COVERED). Where `b` is only read it
// stays beside `s` all the same: its count is `s.rows`, and `s` goes on to the diagnostics.
// `words, p` do so too, with `SomeProc` a clause: it names what stands there, so that a ghost field refuses it, which takes a proposition alone; and `∥ .. ∥₁` gives only propositions
// back, while `collect_as_clause::as_type` and `collect_subscript_count` ask for the tree itself. So the parameters are gone through by their places too: an iterator's `next` can ask nothing.
#![tactic(auto)]

ghost use Rattle.std.specs.Prelude.{◌≡◌, false, List, [], ◌∷◌, ℕ, ◌+◌, ◌-◌, ◌*◌, ◌≤◌, ◌<◌, eqb, length, get_or};
ghost use Rattle.std.proofs.Math.Option.{Option, some};
ghost use Rattle.base_words.specs.Word.{kind_of, pay_of};
ghost use Rattle.tree_expr.specs.Expr.{Expr};
ghost use Rattle.tree_stmt.specs.Sorts.{Param as ParamRow, body as body_sort, sub as sub_kind, function as function_kind};
ghost use Rattle.tree_stmt.specs.Tree.{one, row as row_shape, Tree};
ghost use Rattle.tree_stmt.specs.Stands.{Stands, SomeTree};
ghost use Rattle.tree_views.specs.View.{TypeRef, Param, head as head_is, arg as arg_is};
ghost use Rattle.rows_table.specs.Rows.{width, note_width};
ghost use Rattle.collect_buffers.specs.State.{each, when, enter};
ghost use Rattle.collect_buffers.specs.Held.{Fit};
ghost use Rattle.collect_subscript_count.specs.Subscripts.{in_expr, subscript_count};
ghost use Rattle.collect_subscript_count.specs.Code.{use_of, Told};
ghost use Rattle.collect_as_clause.specs.Parts.{NameAt, written_if};
ghost use Rattle.collect_definition.specs.Seen.{Seen};
ghost use Rattle.rows_kinds.specs.Kinds.{row};
ghost use Rattle.collect_definition.specs.Diagnostics.{param_undefined};
ghost use Rattle.collect_definition.specs.Collect.{given, param_rows, fixed_length, result_type, param_string, check_variable_length_strings, ranked as ranked_step, array_param, undefined as undefined_step, typed_param, procedure as procedure_step};
ghost use Rattle.collect_definition.specs.Code.{Collects, Named};
ghost use Rattle.collect_procedure.specs.Post.{StmtTo, plain, ParamOf, ParamIs, ParamsAt, SomeParams, BodyAt, Quiet, ProcOf, SomeProc, ProcIs, Says, Enters, Acts, defined_before, before_entry, with_params, with_marks};

mod read;

use base_strings::Sound;
use collect_buffers::Counts;
pub use read::{ParamAt, ProcAt};
use rows_lookup::Typed;
use rows_table::Rows;
use tree_stmt::Source;

// ---- reading

// Whether a flag's word says yes.
fn flag(w: u32) -> bool
    ensures { result ≡ eqb (pay_of w) 1 }
{
    w % 16777216 == 1
}

// The parameter at a place.
fn param(words: &[u32], at: usize) -> ParamAt
    requires { SomeTree (row_shape ParamRow) words.now at }
    ensures { ParamIs words.now at result }
{
    let name = words[at] % 16777216;
    let byval = flag(words[at + 1]);
    let array = flag(words[at + 2]);
    let (ty, next) = collect_as_clause::as_type(words, at + 3);
    ParamAt {
        name,
        byval,
        array,
        ty,
        next,
    }
}

// The place past so many parameters.
fn past_params(words: &[u32], from: usize, count: u32) -> usize
    requires { SomeParams words.now from count }
    ensures { (ps : List Param) (T : ParamsAt words.now from count ps) → result ≡ T.end }
{
    let mut at = from;
    for _ in 0..count {
        at = param(words, at).next;
    }
    at
}

// The SUB at a place: it has no result, and the last word before its end says whether it is STATIC. How many strings there are is asked by the clauses alone, of `strings`: by the
// marks' count it would take one fact more, that both are equal.
fn sub_at(source: &Source<'_>, strings: &Sound<'_>, at: usize, end: usize) -> ProcAt
    requires { StmtTo source.now.names.now (length strings.now.ends.now) sub_kind source.now.words.now at end }
    ensures { ProcIs source.now.names.now (length strings.now.ends.now) sub_kind source.now.words.now at result }
{
    let words = source.words;
    let line = words[at] % 16777216;
    let name = words[at + 1] % 16777216;
    let count = words[at + 2] % 16777216;
    let body = past_params(words, at + 3, count);
    let keeps = flag(words[end - 1]);
    ProcAt {
        line,
        name,
        params: at + 3,
        count,
        ty: None,
        body,
        past: end - 1,
        function: false,
        keeps,
        deffn: false,
    }
}

// The FUNCTION at a place: of the last two words before its end the first says whether it is STATIC, the second whether it is a DEF FN. It differs from `sub_at` in what
// words stand there, and each is said of its own sort of statement.
fn function_at(source: &Source<'_>, strings: &Sound<'_>, at: usize, end: usize) -> ProcAt
    requires { StmtTo source.now.names.now (length strings.now.ends.now) function_kind source.now.words.now at end }
    ensures { ProcIs source.now.names.now (length strings.now.ends.now) function_kind source.now.words.now at result }
{
    let words = source.words;
    let line = words[at] % 16777216;
    let name = words[at + 1] % 16777216;
    let count = words[at + 2] % 16777216;
    let m = past_params(words, at + 3, count);
    let (ty, body) = collect_as_clause::as_type(words, m);
    let keeps = flag(words[end - 2]);
    let deffn = flag(words[end - 1]);
    ProcAt {
        line,
        name,
        params: at + 3,
        count,
        ty,
        body,
        past: end - 2,
        function: true,
        keeps,
        deffn,
    }
}

// ---- what is said of a procedure before it is entered

// A declared result type and a type suffix must agree. `NameAt` stays a clause here and below: it is about the strings as well as the procedure, so that neither struct can hold it.
fn result_type(strings: &Sound<'_>, d: &mut [u32], s: Counts, p: ProcAt) -> Counts
    requires { NameAt strings.now.bytes.now strings.now.ends.now p.name × (s.notes * note_width ≤ length d.old) }
    ensures { Says (λ o. p.ty ≡ written_if o) (λ o N D. result_type (given (some N) (some D) strings.now.bytes.now strings.now.ends.now []) p.line p.name o) s result d.old d.new }
{
    let Some(t) = p.ty else {
        return s;
    };
    let yes = collect_as_clause::differs(strings, p.name, t.head);
    collect_buffers::push_if(d, s, yes, 15, p.line, p.name + 1, 0, 0, 0)
}

// The length of a fixed string, else 0, as the definition has it: of a length of 0 nothing is said either.
fn fixed_length(ty: Option<Typed>) -> u32
    ensures { (o : Option TypeRef) → ty ≡ written_if o → result ≡ fixed_length o }
{
    match ty {
        Some(t) => if t.head == 44 { t.arg } else { 0 },
        None => 0,
    }
}

// A parameter may not be a fixed string.
fn param_string(d: &mut [u32], s: Counts, p: ProcAt, q: ParamAt) -> Counts
    requires { s.notes * note_width ≤ length d.old }
    ensures { Says (ParamOf q) (λ x N D. param_string (plain N D) p.line p.name x) s result d.old d.new }
{
    let n = fixed_length(q.ty);
    collect_buffers::push_if(d, s, n != 0, 22, p.line, q.name + 1, p.name + 1, n, 0)
}

// Nor may any of them.
fn param_strings(words: &[u32], d: &mut [u32], s: Counts, p: ProcAt) -> Counts
    requires { SomeProc words.now p × (s.notes * note_width ≤ length d.old) }
    ensures { Says (ParamsAt words.now p.params p.count) (λ ps N D. each (param_string (plain N D) p.line p.name) ps) s result d.old d.new }
{
    let mut c = s;
    let mut at = p.params;
    for _ in 0..p.count {
        let q = param(words, at);
        c = param_string(d, c, p, q);
        at = q.next;
    }
    c
}

// The parameters, and then the result, which may not be one either.
fn check_variable_length_strings(words: &[u32], d: &mut [u32], s: Counts, p: ProcAt) -> Counts
    requires { SomeProc words.now p × (s.notes * note_width ≤ length d.old) }
    ensures { Says (ProcOf words.now p) (λ f N D. check_variable_length_strings (plain N D) p.line f) s result d.old d.new }
{
    let t = param_strings(words, d, s, p);
    let n = fixed_length(p.ty);
    collect_buffers::push_if(d, t, n != 0, 23, p.line, p.name + 1, 0, n, 0)
}

// A procedure of that name was there: the note has its line.
fn defined_before(b: &[u32], d: &mut [u32], s: Counts, p: ProcAt) -> Counts
    requires { Fit s (length b.now) (length d.old) }
    ensures { Acts (λ x. p.name ≡ x) (λ x N D. defined_before (plain N D) p.line x) s result b.now d.old b.now d.new }
{
    let rows = Rows {
        words: b,
        count: s.rows,
    };
    let Some(i) = rows_lookup::find_entry(&rows, 135, p.name, 0) else {
        return s;
    };
    let prev = b[i * rows_table::WIDTH + 3];
    collect_buffers::push(d, s, 25, p.line, p.name + 1, 0, 0, prev)
}

// All that is said of it, in order.
fn before_entry(
    words: &[u32],
    strings: &Sound<'_>,
    b: &[u32],
    d: &mut [u32],
    s: Counts,
    scope: u32,
    p: ProcAt,
) -> Counts
    requires { SomeProc words.now p × NameAt strings.now.bytes.now strings.now.ends.now p.name × Fit s (length b.now) (length d.old) }
    ensures { Acts (ProcOf words.now p) (λ f N D. before_entry (given (some N) (some D) strings.now.bytes.now strings.now.ends.now []) scope p.line f) s result b.now d.old b.now d.new }
{
    let s1 = result_type(strings, d, s, p);
    let s2 = check_variable_length_strings(words, d, s1, p);
    let s3 = collect_buffers::push_if(d, s2, scope != 0, 24, p.line, p.name + 1, 0, 0, 0);
    defined_before(b, d, s3, p)
}

// ---- its rows

// The parameters in order, each under its ordinal.
fn param_rows(words: &[u32], b: &mut [u32], s: Counts, p: ProcAt) -> Counts
    requires { SomeProc words.now p × (s.rows * width ≤ length b.old) }
    ensures { Enters (ParamsAt words.now p.params p.count) (λ ps N D. each (enter (some N)) (param_rows p.name 0 ps)) s result b.old b.new }
{
    let mut c = s;
    let mut at = p.params;
    for i in 0..p.count {
        let q = param(words, at);
        let m = rows_kinds::bit(q.byval) + 2 * rows_kinds::bit(q.array);
        let (head, arg) = collect_as_clause::row_words(q.ty);
        c = collect_buffers::enter(b, c, 136, p.name, i, q.name, m, head, arg);
        at = q.next;
    }
    c
}

// The procedure and its parameters, in the place of the old ones: of these only those go that the new ones don't replace.
fn with_params(words: &[u32], b: &mut [u32], s: Counts, p: ProcAt) -> Counts
    requires { SomeProc words.now p × (s.rows * width ≤ length b.old) }
    ensures { Enters (ProcOf words.now p) (λ f N D. with_params (plain N D) p.line f) s result b.old b.new }
{
    let s1 = collect_buffers::remove_under(b, s, 136, p.name, p.count);
    let f = rows_kinds::bit(p.function);
    let (head, arg) = collect_as_clause::row_words(p.ty);
    let s2 = collect_buffers::enter(b, s1, 135, p.name, 0, f, p.line, head, arg);
    param_rows(words, b, s2, p)
}

// A row that is only a mark, where `yes`.
fn mark_if(b: &mut [u32], s: Counts, yes: bool, kind: u32, name: u32) -> Counts
    requires { (s.rows * width ≤ length b.old) × (kind < 144) × (name < 16777216) }
    ensures { Enters (λ x. yes ≡ x) (λ x N D. when x (enter (some N) (row kind name (0 ∷ [])))) s result b.old b.new }
{
    if !yes {
        return s;
    }
    collect_buffers::enter(b, s, kind, name, 0, 0, 0, 0, 0)
}

// STATIC, and a DEF FN.
fn with_marks(b: &mut [u32], s: Counts, p: ProcAt) -> Counts
    requires { s.rows * width ≤ length b.old }
    ensures { (ws : List ℕ) → Enters (ProcOf ws p) (λ f N D. with_marks (plain N D) f) s result b.old b.new }
{
    let t = mark_if(b, s, p.keeps, 140, p.name);
    mark_if(b, t, p.deffn, 141, p.name)
}

// ---- its parameters inside the body

// An array with the rank of its first use; without one its rank is 1, and that is marked.
fn ranked(b: &mut [u32], s: Counts, p: ProcAt, q: ParamAt, u: Option<u32>) -> Counts
    requires { s.rows * width ≤ length b.old }
    ensures { Enters (λ o. use_of u ≡ o) (λ o N D. ranked_step (plain N D) (p.name + 1) p.line q.name o) s result b.old b.new }
{
    let scope = p.name + 1;
    let line = p.line;
    let name = q.name;
    if let Some(n) = u {
        return collect_buffers::enter(b, s, 133, name, scope, n, line, 1, 0);
    }
    let t = collect_buffers::enter(b, s, 133, name, scope, 1, line, 1, 0);
    collect_buffers::enter(b, t, 142, name, scope, 0, 0, 0, 0)
}

// Whether a list stands there, right after the word w.
fn follows(words: &[u32], i: usize, w: u32) -> bool
    requires { (0 < i) × (i < length words.now) }
    ensures { result ≡ false → get_or words.now (i - 1) 0 ≡ w → kind_of (get_or words.now i 0) ≡ 1 → ⊥ }
{
    words[i - 1] == w && words[i] / 16777216 == 1
}

// Whether one does so somewhere.
fn listed(words: &[u32], from: usize, to: usize, w: u32) -> bool
    requires { (from < to) × (to ≤ length words.now) }
    ensures { result ≡ false → Quiet words.now from to w }
{
    (from + 1..to).any(|i| follows(words, i, w))
}

// The first use of a parameter's name in the body: from the notes of its uses where they have room for it. Where not, and no list stands after the name, there is none, and to
// see that is much less than to walk the body.
fn used(words: &[u32], p: ProcAt, uses: &[usize], q: ParamAt) -> Option<u32>
    requires { SomeProc words.now p × Told words.now p.body 0 uses.now }
    ensures { (ns : List ℕ) (n : ℕ) (v : Tree Expr (one body_sort)) → Stands words.now ns n p.body v p.past → use_of result ≡ subscript_count (λ name (e : Expr). in_expr name e) q.name v }
{
    let name = q.name;
    if 2 * name as usize + 1 < uses.len() {
        return collect_subscript_count::first_use(uses, 0, name);
    }
    if listed(words, p.body, p.past, 33554432 + name) {
        return collect_subscript_count::subscript_count(words, p.body, name);
    }
    None
}

// An array parameter has as many dimensions as the body subscripts it with: its declaration does not say.
fn array_param(
    words: &[u32],
    b: &mut [u32],
    s: Counts,
    p: ProcAt,
    uses: &[usize],
    q: ParamAt,
) -> Counts
    requires { SomeProc words.now p × Told words.now p.body 0 uses.now × (s.rows * width ≤ length b.old) }
    ensures { (t : Tree Seen (one body_sort)) → BodyAt words.now p.body p.past t → Enters (ParamOf q) (λ x N D. array_param (plain N D) (p.name + 1) p.line t x) s result b.old b.new }
{
    if !q.array {
        return s;
    }
    let u = used(words, p, uses, q);
    ranked(b, s, p, q, u)
}

// All of them by notes of the first uses in the body; those that are no arrays are passed over.
fn arrays_by(words: &[u32], b: &mut [u32], s: Counts, p: ProcAt, uses: &[usize]) -> Counts
    requires { SomeProc words.now p × Told words.now p.body 0 uses.now × (s.rows * width ≤ length b.old) }
    ensures { (t : Tree Seen (one body_sort)) → BodyAt words.now p.body p.past t → Enters (ParamsAt words.now p.params p.count) (λ ps N D. each (array_param (plain N D) (p.name + 1) p.line t) ps) s result b.old b.new }
{
    let mut c = s;
    let mut at = p.params;
    for _ in 0..p.count {
        let q = param(words, at);
        c = array_param(words, b, c, p, uses, q);
        at = q.next;
    }
    c
}

// The same by one walk of the body, which notes the first uses of as many names as N words have room for.
fn arrays_noted<const N: usize>(words: &[u32], b: &mut [u32], s: Counts, p: ProcAt) -> Counts
    requires { SomeProc words.now p × (s.rows * width ≤ length b.old) × (N ≤ 2048) }
    ensures { (t : Tree Seen (one body_sort)) → BodyAt words.now p.body p.past t → Enters (ParamsAt words.now p.params p.count) (λ ps N D. each (array_param (plain N D) (p.name + 1) p.line t) ps) s result b.old b.new }
{
    let mut uses = [0usize; N];
    collect_subscript_count::first_uses(words, p.body, &mut uses, 0);
    arrays_by(words, b, s, p, &uses)
}

// How many of the parameters are arrays.
fn arrays(words: &[u32], p: ProcAt) -> u32
    requires { SomeProc words.now p }
{
    let mut n = 0;
    let mut at = p.params;
    for _ in 0..p.count {
        let q = param(words, at);
        n += rows_kinds::bit(q.array);
        at = q.next;
    }
    n
}

// The array parameters: one walk for two or more, since the body may be long. `few` says that there are at most 64 strings, so that their names have numbers
// below 64; a table of strings has at most 1,024, and a name has two words in the notes.
fn array_params(words: &[u32], b: &mut [u32], s: Counts, p: ProcAt, few: bool) -> Counts
    requires { SomeProc words.now p × (s.rows * width ≤ length b.old) }
    ensures { (t : Tree Seen (one body_sort)) → BodyAt words.now p.body p.past t → Enters (ParamsAt words.now p.params p.count) (λ ps N D. each (array_param (plain N D) (p.name + 1) p.line t) ps) s result b.old b.new }
{
    if arrays(words, p) < 2 {
        return arrays_by(words, b, s, p, &[]);
    }
    if few {
        return arrays_noted::<128>(words, b, s, p);
    }
    arrays_noted::<2048>(words, b, s, p)
}

// A record's TYPE must be there.
fn undefined(b: &[u32], d: &mut [u32], s: Counts, line: u32, q: ParamAt, ty: Typed) -> Counts
    requires { (ty.arg < 16777216) × Fit s (length b.now) (length d.old) }
    ensures { Acts (λ t. (ty.head ≡ head_is t) × (ty.arg ≡ arg_is t)) (λ t N D. undefined_step (plain N D) t (λ x. param_undefined line q.name x)) s result b.now d.old b.now d.new }
{
    if ty.head != 45 {
        return s;
    }
    let rows = Rows {
        words: b,
        count: s.rows,
    };
    let known = rows_lookup::has(&rows, 130, ty.arg, 0);
    collect_buffers::push_if(d, s, !known, 26, line, q.name + 1, ty.arg + 1, 0, 0)
}

// A parameter with an AS clause is a typed variable.
fn typed_param(b: &mut [u32], d: &mut [u32], s: Counts, p: ProcAt, q: ParamAt) -> Counts
    requires { Fit s (length b.old) (length d.old) }
    ensures { Acts (ParamOf q) (λ x N D. typed_param (plain N D) (p.name + 1) p.line x) s result b.old d.old b.new d.new }
{
    if q.array {
        return s;
    }
    let Some(ty) = q.ty else {
        return s;
    };
    let t = undefined(b, d, s, p.line, q, ty);
    collect_buffers::enter(b, t, 134, q.name, p.name + 1, ty.head, ty.arg, 0, 0)
}

// All of them, after all arrays.
fn typed_params(words: &[u32], b: &mut [u32], d: &mut [u32], s: Counts, p: ProcAt) -> Counts
    requires { SomeProc words.now p × Fit s (length b.old) (length d.old) }
    ensures { Acts (ParamsAt words.now p.params p.count) (λ ps N D. each (typed_param (plain N D) (p.name + 1) p.line) ps) s result b.old d.old b.new d.new }
{
    let mut c = s;
    let mut at = p.params;
    for _ in 0..p.count {
        let q = param(words, at);
        c = typed_param(b, d, c, p, q);
        at = q.next;
    }
    c
}

// ---- the whole

// A procedure that was read. Its body's scope is its name plus 1.
fn procedure(
    words: &[u32],
    strings: &Sound<'_>,
    b: &mut [u32],
    d: &mut [u32],
    s: Counts,
    scope: u32,
    p: ProcAt,
) -> Counts
    requires { SomeProc words.now p × NameAt strings.now.bytes.now strings.now.ends.now p.name × Fit s (length b.old) (length d.old) }
    ensures { Acts (ProcOf words.now p) (λ f N D. procedure_step (given (some N) (some D) strings.now.bytes.now strings.now.ends.now []) scope p.line f) s result b.old d.old b.new d.new }
{
    let s1 = before_entry(words, strings, b, d, s, scope, p);
    let s2 = with_params(words, b, s1, p);
    let s3 = with_marks(b, s2, p);
    let s4 = array_params(words, b, s3, p, strings.ends.len() <= 64);
    typed_params(words, b, d, s4, p)
}

// A SUB. Which names are erased does not matter.
pub fn sub(
    source: &Source<'_>,
    strings: &Sound<'_>,
    b: &mut [u32],
    d: &mut [u32],
    s: Counts,
    scope: u32,
    at: usize,
    end: usize,
) -> Counts
    requires { StmtTo source.now.names.now (length strings.now.ends.now) sub_kind source.now.words.now at end × Named strings.now.bytes.now strings.now.ends.now source.now.names.now × (length strings.now.ends.now ≤ 1024) × Fit s (length b.old) (length d.old) }
    ensures { (erased : List ℕ) → Collects source.now.names.now (length strings.now.ends.now) sub_kind source.now.words.now strings.now.bytes.now strings.now.ends.now erased scope at s result b.old d.old b.new d.new }
{
    let p = sub_at(source, strings, at, end);
    procedure(source.words, strings, b, d, s, scope, p)
}

// A FUNCTION, or a DEF FN. It differs from `sub` in how it is read, which is all that either has to say.
pub fn function(
    source: &Source<'_>,
    strings: &Sound<'_>,
    b: &mut [u32],
    d: &mut [u32],
    s: Counts,
    scope: u32,
    at: usize,
    end: usize,
) -> Counts
    requires { StmtTo source.now.names.now (length strings.now.ends.now) function_kind source.now.words.now at end × Named strings.now.bytes.now strings.now.ends.now source.now.names.now × (length strings.now.ends.now ≤ 1024) × Fit s (length b.old) (length d.old) }
    ensures { (erased : List ℕ) → Collects source.now.names.now (length strings.now.ends.now) function_kind source.now.words.now strings.now.bytes.now strings.now.ends.now erased scope at s result b.old d.old b.new d.new }
{
    let p = function_at(source, strings, at, end);
    procedure(source.words, strings, b, d, s, scope, p)
}
