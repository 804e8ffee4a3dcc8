// `const_eval` as an entry over a lent string table, tree words and rows: 5, 1, 2 or 3, 6 in this order, or its answer and the place past the expression.
#![tactic(auto)]

ghost use Rattle.base_words.specs.Refusals.{refused as refused_by};
ghost use Rattle.fold_const_eval.specs.EvalLaws.{Words32};
ghost use Rattle.entry_const_eval.specs.Evaluate.{WasRead, Tells, Evaluates, eval_of};

use base_strings::Strings;
use base_words::Refusal;
use fold_values::Fold;
use rows_table::Rows;
use tree_expr::Cursor;
use tree_stmt::Source;

// An answer, and the reading place afterwards.
#[derive(Clone, Copy)]
pub struct Evaluation {
    pub answer: Result<Fold, Refusal>,
    pub at: usize,
}

// A refusal: the place stays. It is answered beside the refusal, so no `?` makes it.
fn refused(at: usize, r: Refusal) -> Evaluation
    ensures { Tells at result (refused_by r) }
{
    Evaluation { answer: Err(r), at }
}

// An expression that was read, under lent rows: number 6.
fn under(at: usize, source: &Source<'_>, rows: &[u32]) -> Evaluation
    requires { WasRead source.now.names.now source.now.words.now at × Words32 source.now.words.now }
    ensures { Tells at result (eval_of source.now.names.now source.now.words.now at rows.now) }
{
    let Some(n) = rows_lent::check_rows(rows, source.names) else {
        return refused(at, Refusal::Rows);
    };
    let held = Rows {
        words: rows,
        count: n,
    };
    let f = fold_const_eval::const_eval(source.words, at, &held);
    Evaluation {
        answer: Ok(fold_const_eval::fold_of(f)),
        at: f.next,
    }
}

// Where the names' marks are known: numbers 2 and 3.
fn eval_at(at: usize, source: &Source<'_>, rows: &[u32]) -> Evaluation
    requires { Words32 source.now.words.now }
    ensures { Tells at result (eval_of source.now.names.now source.now.words.now at rows.now) }
{
    let c = Cursor { at };
    match c.expr(source.words, &source.marks(), base_words::MAX_DEPTH) {
        Ok(_) => under(at, source, rows),
        Err(misread) => refused(at, Refusal::from(misread)),
    }
}

// The expression at a place, under lent rows. (The entry takes a string table as document 01 gives it, as bytes and ends.)
pub fn const_eval(at: usize, bytes: &[u8], ends: &[u32], words: &[u32], rows: &[u32]) -> Evaluation
    ensures { Evaluates bytes.now ends.now words.now at rows.now result }
{
    let strings = &Strings { bytes, ends };
    match entry_read::begin(entry_read::sized_tree(strings, words), strings) {
        Ok(sound) => {
            let mut marks = [0; base_words::MAX_STRINGS];
            let names = &mut marks[..ends.len()];
            base_strings::mark_names(&sound, names);
            eval_at(at, &Source { words, names }, rows)
        }
        Err(r) => refused(at, r),
    }
}
