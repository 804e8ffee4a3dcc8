// What collecting does for a line number, a label, OPTION BASE and CONST. `b, d, s` with what is asked of them: as in crate `collect_buffers`; `words, at` with
// `SomeStmt`: as in crate `collect_dim`.
#![tactic(auto)]

ghost use Rattle.std.specs.Prelude.{◌≡◌, false, List, ℕ, ◌*◌, ◌≤◌, ◌<◌, length};
ghost use Rattle.std.proofs.Math.Option.{some};
ghost use Rattle.rows_table.specs.Rows.{Row, width, note_width};
ghost use Rattle.rows_runs.specs.Runs.{KeptIn};
ghost use Rattle.fold_values.specs.Value.{Good};
ghost use Rattle.fold_values.specs.Fold.{GoodFold};
ghost use Rattle.fold_const_eval.specs.EvalLaws.{Words32};
ghost use Rattle.tree_stmt.specs.Sorts.{label as label_kind, label_name, option_base, const as const_kind};
ghost use Rattle.collect_buffers.specs.Held.{Fit, Rows as ChangesRows, Notes, Does, entering};
ghost use Rattle.collect_definition.specs.Collect.{given, any_array, const_of, folded as folded_step};
ghost use Rattle.collect_labels_const.specs.Labels.{ConstAt, say_base, code_of};
ghost use Rattle.collect_definition.specs.Code.{SomeStmt, CollectsAny};

use collect_buffers::Counts;
use fold_values::{Fold, Unfolded, Value};
use rows_table::Rows;

// A line number. The last one stays, also after a diagnostic. It was there before where the rows have not become more: that spares a search.
pub fn label(
    words: &[u32],
    b: &mut [u32],
    d: &mut [u32],
    s: Counts,
    scope: u32,
    at: usize,
) -> Counts
    requires { SomeStmt label_kind words.now at × Fit s (length b.old) (length d.old) }
    ensures { CollectsAny label_kind words.now scope at s result b.old d.old b.new d.new }
{
    let line = words[at] % 16777216;
    let n = words[at + 1] % 16777216;
    let t = collect_buffers::enter(b, s, 128, n, 0, scope, 0, 0, 0);
    collect_buffers::push_if(d, t, t.rows == s.rows, 1, line, 0, 0, n, 0)
}

// A label, in the same way. The two differ in the row's kind and in what the diagnostic names, and nothing else is in them: one function of both would have
// ten parameters, and be no plainer.
pub fn label_name(
    words: &[u32],
    b: &mut [u32],
    d: &mut [u32],
    s: Counts,
    scope: u32,
    at: usize,
) -> Counts
    requires { SomeStmt label_name words.now at × Fit s (length b.old) (length d.old) }
    ensures { CollectsAny label_name words.now scope at s result b.old d.old b.new d.new }
{
    let line = words[at] % 16777216;
    let name = words[at + 1] % 16777216;
    let t = collect_buffers::enter(b, s, 129, name, 0, scope, 0, 0, 0);
    collect_buffers::push_if(d, t, t.rows == s.rows, 2, line, name + 1, 0, 0, 0)
}

// Whether there is an array, in whatever scope: their keys are together. (A slice's own words are known to fit, those of a slice in a struct are not, so that is
// asked.)
fn any_array(rows: &Rows<'_>) -> bool
    requires { Words32 rows.now.words.now }
    ensures { (rs : List Row) → KeptIn rs rows.now → result ≡ any_array rs }
{
    let from = rows_kinds::entry_key(133, 0, 0);
    let to = rows_kinds::entry_key(134, 0, 0);
    rows_runs::any_between(rows, from, to)
}

// Whether there is an array, asked only of a first OPTION BASE: of another it doesn't matter.
fn late_base(rows: &Rows<'_>, twice: bool) -> bool
    requires { Words32 rows.now.words.now }
    ensures { twice ≡ false → (rs : List Row) → KeptIn rs rows.now → result ≡ any_array rs }
{
    !twice && any_array(rows)
}

// What is said of an OPTION BASE: that it isn't the first, or else that an array was before it.
fn say_base(d: &mut [u32], s: Counts, twice: bool, late: bool, line: u32) -> Counts
    requires { s.notes * note_width ≤ length d.old }
    ensures { Notes (say_base twice late line) s result d.old d.new }
{
    if twice {
        collect_buffers::push(d, s, 8, line, 0, 0, 0, 0)
    } else {
        collect_buffers::push_if(d, s, late, 9, line, 0, 0, 0, 0)
    }
}

// OPTION BASE: once, and before any array. The last value stays.
pub fn option_base(words: &[u32], b: &mut [u32], d: &mut [u32], s: Counts, at: usize) -> Counts
    requires { SomeStmt option_base words.now at × Fit s (length b.old) (length d.old) }
    ensures { (scope : ℕ) → CollectsAny option_base words.now scope at s result b.old d.old b.new d.new }
{
    let line = words[at] % 16777216;
    let n = words[at + 1] % 16777216;
    let rows = Rows {
        words: b,
        count: s.rows,
    };
    let twice = rows_lookup::has(&rows, 143, 0, 0);
    let late = late_base(&rows, twice);
    let t = say_base(d, s, twice, late, line);
    collect_buffers::enter(b, t, 143, 0, 0, n, 0, 0, 0)
}

// A folded constant's row.
fn enter_value(b: &mut [u32], s: Counts, name: u32, v: Value) -> Counts
    requires { (s.rows * width ≤ length b.old) × (name < 16777216) × Good v }
    ensures { ChangesRows (entering (const_of name v)) s result b.old b.new }
{
    let c = fold_values::const_words(v);
    collect_buffers::enter(b, s, 132, name, 0, c.kind, c.low, c.high, 0)
}

// The number of the diagnostic of a CONST whose expression doesn't fold.
fn code_of(why: Unfolded) -> u32
    ensures { result ≡ code_of why }
{
    match why {
        Unfolded::Overflow => 11,
        Unfolded::NotConstant => 12,
    }
}

// What became of a CONST's expression: a CONST that doesn't fold leaves an earlier row.
fn folded(b: &mut [u32], d: &mut [u32], s: Counts, line: u32, name: u32, f: Fold) -> Counts
    requires { Fit s (length b.old) (length d.old) × (name < 16777216) × GoodFold f }
    ensures { (bytes ends erased : List ℕ) → Does (λ N D. folded_step (given (some N) (some D) bytes ends erased) line name f) s result b.old d.old b.new d.new }
{
    match f {
        Ok(v) => enter_value(b, s, name, v),
        Err(why) => collect_buffers::push(d, s, code_of(why), line, name + 1, 0, 0, 0),
    }
}

// CONST: folded under the rows, which a stopped run has not.
pub fn constant(words: &[u32], b: &mut [u32], d: &mut [u32], s: Counts, at: usize) -> Counts
    requires { ConstAt words.now at s b.old × Fit s (length b.old) (length d.old) }
    ensures { (scope : ℕ) → CollectsAny const_kind words.now scope at s result b.old d.old b.new d.new }
{
    if s.stop != 0 {
        return s;
    }
    let line = words[at] % 16777216;
    let name = words[at + 1] % 16777216;
    let rows = Rows {
        words: b,
        count: s.rows,
    };
    let twice = rows_lookup::has(&rows, 132, name, 0);
    let f = fold_const_eval::const_eval(words, at + 2, &rows);
    let t = collect_buffers::push_if(d, s, twice, 10, line, name + 1, 0, 0, 0);
    folded(b, d, t, line, name, fold_const_eval::fold_of(f))
}
