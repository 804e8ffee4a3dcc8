// `const_eval`: the value of a constant expression of a tree, under the CONST rows.
// Kinds of words are numbers, matched with ranges: document 01's form of a tree.
// (`SomeExpr` and `GoodFold` stay clauses: one says of words, at a place, that an expression stands there, the other of an answer that its value is in range, and a struct for each would be opened at each call.)
#![tactic(auto)]

ghost use Rattle.std.specs.Prelude.{◌≡◌, List, ◌*◌, ◌<◌, Err};
ghost use Rattle.rows_table.specs.Rows.{Row};
ghost use Rattle.rows_runs.specs.Runs.{Keeps};
ghost use Rattle.base_numbers.specs.Numbers.{whole_at};
ghost use Rattle.fold_values.specs.Fold.{GoodFold, negate_of, binary_of};
ghost use Rattle.fold_values.specs.declared.Unfolded.TheVariants.{NotConstant};
ghost use Rattle.tree_skip.specs.Shape.{SomeExpr};
ghost use Rattle.fold_const_eval.specs.ConstEval.{signed32, constant as constant_of};
ghost use Rattle.fold_const_eval.specs.Evaluates.{read_as, fold_of, laid_as, RowSome, HoldsConsts, LiteralAt, Ready, Evaluates, EvaluatesAlone, Past};

use fold_values::{ConstWords, Fold, Unfolded};
use rows_table::Rows;

// The place past the expression, and its value as the words of a CONST row.
#[derive(Clone, Copy)]
pub struct Folded {
    pub next: usize,
    pub value: Result<ConstWords, Unfolded>,
}

// The answer.
pub fn fold_of(a: Folded) -> Fold
    requires { GoodFold (fold_of a) }
    ensures { result ≡ fold_of a }
{
    let words = a.value?;
    Ok(fold_values::value_of(words))
}

// An answer in words.
fn laid(f: Fold) -> Result<ConstWords, Unfolded>
    requires { RowSome f }
    ensures { read_as result ≡ f }
{
    let v = f?;
    Ok(fold_values::const_words(v))
}

// The upper word of a word in two's complement: by the test that the definition `signed32` makes.
fn sign(w: u32) -> u32
    ensures { whole_at w result ≡ signed32 w }
{
    if w < 2147483648 { 0 } else { 4294967295 }
}

// A value's words, and the place past it.
fn value(next: usize, words: ConstWords) -> Folded
    ensures { result ≡ laid_as next words.kind words.low words.high }
{
    Folded {
        next,
        value: Ok(words),
    }
}

// The literal there: itself.
fn literal(words: &[u32], at: usize) -> Folded
    requires { LiteralAt words.now at }
    ensures { EvaluatesAlone words.now at result }
{
    let kind = words[at + 1] / 16777216;
    let low = words[at + 2];
    match kind {
        24 | 25 => {
            let high = sign(low);
            value(at + 3, ConstWords { kind, low, high })
        }
        26 | 27 => {
            let high = words[at + 3];
            value(at + 4, ConstWords { kind, low, high })
        }
        _ => {
            let low = low % 16777216;
            value(
                at + 3,
                ConstWords {
                    kind: 28,
                    low,
                    high: 0,
                },
            )
        }
    }
}

// The CONST of a name, and the place past it.
#[tactic(auto, using(crate::proofs::Rows::value_is, crate::proofs::Rows::value_none))]
fn constant(rows: &Rows<'_>, name: u32, next: usize) -> Folded
    requires holds_consts { HoldsConsts rows.now.words.now rows.now.count }
    requires name_bound { name < 16777216 }
    ensures { ((held : List Row) → Keeps held rows.now.count rows.now.words.now → fold_of result ≡ constant_of held name) × (result.next ≡ next) }
{
    let Some(i) = rows_runs::find(rows, rows_kinds::entry_key(132, name, 0)) else {
        return Folded {
            next,
            value: Err(Unfolded::NotConstant),
        };
    };
    let at = i * rows_table::WIDTH;
    value(
        next,
        ConstWords {
            kind: rows.words[at + 2],
            low: rows.words[at + 3],
            high: rows.words[at + 4],
        },
    )
}

// Not constant: what is in it isn't folded.
fn opaque(words: &[u32], at: usize) -> Folded
    requires { SomeExpr words.now at }
    ensures { (fold_of result ≡ Err NotConstant) × Past words.now at result.next }
{
    Folded {
        next: tree_skip::expr(words, at),
        value: Err(Unfolded::NotConstant),
    }
}

// A negation, its operand folded.
fn negated(a: Folded) -> Folded
    requires { RowSome (fold_of a) }
    ensures { (fold_of result ≡ negate_of (fold_of a)) × (result.next ≡ a.next) }
{
    Folded {
        next: a.next,
        value: laid(fold_values::negate(fold_of(a))),
    }
}

// A binary operator, both sides folded.
#[tactic(auto, using(crate::proofs::Laws::some_binary))]
fn combined(op: u32, l: Folded, r: Folded) -> Folded
    requires good_fold { GoodFold (fold_of l) }
    requires good_fold_2 { GoodFold (fold_of r) }
    ensures { (fold_of result ≡ binary_of op (fold_of l) (fold_of r)) × (result.next ≡ r.next) }
{
    Folded {
        next: r.next,
        value: laid(fold_values::binary(op, fold_of(l), fold_of(r))),
    }
}

// The left side's failure decides: the right side isn't folded.
fn failed(words: &[u32], l: Folded) -> Folded
    requires { SomeExpr words.now l.next }
    ensures { (fold_of result ≡ fold_of l) × Past words.now l.next result.next }
{
    Folded {
        next: tree_skip::expr(words, l.next),
        value: l.value,
    }
}

// The expression there, left before right. The number of words left falls.
pub fn const_eval(words: &[u32], at: usize, rows: &Rows<'_>) -> Folded
    requires { Ready words.now at rows.now.words.now rows.now.count }
    ensures { Evaluates words.now at rows.now.words.now rows.now.count result }
{
    let k = words[at] / 16777216;
    match k {
        16 => literal(words, at),
        17 => constant(rows, words[at + 1] % 16777216, at + 2),
        19 => {
            if words[at + 1] % 16777216 != 0 {
                return opaque(words, at);
            }
            negated(const_eval(words, at + 2, rows))
        }
        20 => {
            let l = const_eval(words, at + 2, rows);
            if l.value.is_err() {
                return failed(words, l);
            }
            let r = const_eval(words, l.next, rows);
            combined(words[at + 1] % 16777216, l, r)
        }
        23 => const_eval(words, at + 1, rows),
        _ => opaque(words, at),
    }
}
