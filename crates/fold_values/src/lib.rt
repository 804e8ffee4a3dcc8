// Constant folding: values, their words in a CONST row, and the rules of `const_eval` in the order of its match.
// `Good`, `GoodFold` and `InRange` stay clauses: `Value` is an enum, a ghost field is a struct's, and a struct around it would be opened at each match.
// An operator's two sides, `l` and `r`, stay two as well: each has a clause of its own, and a pair of them would be opened in each function.
#![tactic(auto)]

ghost use Rattle.std.specs.Prelude.{◌≡◌, false, ℕ, ◌≤◌, ◌<◌, ◌/◌, ◌%◌, T, nat_abs};
ghost use Rattle.std.specs.Float.Ieee.Scale.{finite};
ghost use Rattle.base_numbers.specs.Numbers.{of_words};
ghost use Rattle.base_numbers.specs.NumbersLaws.{Small};
ghost use Rattle.fold_values.specs.Value.{Good, InRange, literal_kind, low_of, high_of, value_of};
ghost use Rattle.fold_values.specs.Fold.{GoodFold, in_integer, in_long, negated_integer, negated_long, negated, negate_of, is_text, rank_of, number_of, as_f64, int_of, integer_fold, long_fold, single_fold, float_fold, div_of, rounded, part_of, is_zero, of_wholes, whole_div_of, int_op, float_op, arith_of, op_of, binary_of};

use base_numbers::{Halves, TwoWords};

// A folded constant; a string is its number.
#[derive(Clone, Copy)]
pub enum Value {
    Integer(i64),
    Long(i64),
    Single(f64),
    Float(f64),
    Text(u32),
}

// Why an expression is no constant.
#[derive(Clone, Copy, Debug, PartialEq, Eq)]
pub enum Unfolded {
    Overflow,
    NotConstant,
}

// What folding answers.
pub type Fold = Result<Value, Unfolded>;

// ---- the words of a CONST row

// Words 2, 3 and 4 of row 132.
#[derive(Clone, Copy)]
pub struct ConstWords {
    pub kind: u32,
    pub low: u32,
    pub high: u32,
}

fn value_words(v: Value) -> TwoWords
    requires { Good v }
    ensures { (result.low ≡ low_of v) × (result.high ≡ high_of v) }
{
    match v {
        // Two arms: the prover refuses an or-pattern that binds a whole number here.
        Value::Integer(z) => base_numbers::whole_words(z),
        Value::Long(z) => base_numbers::whole_words(z),
        Value::Single(x) | Value::Float(x) => base_numbers::words_of(x),
        Value::Text(t) => TwoWords { low: t, high: 0 },
    }
}

// The kind of a literal of the value, a number, as row 132 has it: document 01's form.
pub fn literal_kind(v: Value) -> u32
    ensures { result ≡ literal_kind v }
{
    match v {
        Value::Integer(_) => 24,
        Value::Long(_) => 25,
        Value::Single(_) => 26,
        Value::Float(_) => 27,
        Value::Text(_) => 28,
    }
}

pub fn const_words(v: Value) -> ConstWords
    requires { Good v }
    ensures { (result.kind ≡ literal_kind v) × (result.low ≡ low_of v) × (result.high ≡ high_of v) }
{
    let kind = literal_kind(v);
    let w = value_words(v);
    ConstWords {
        kind,
        low: w.low,
        high: w.high,
    }
}

// The value of a CONST row with these words.
#[tactic(auto, unfolding(crate::specs::Value::value_of))]
pub fn value_of(words: ConstWords) -> Value
    requires { Good (value_of words.kind words.low words.high) }
    ensures { result ≡ value_of words.kind words.low words.high }
{
    let bits = TwoWords {
        low: words.low,
        high: words.high,
    };
    match words.kind {
        24 => Value::Integer(base_numbers::of_whole_words(bits)),
        25 => Value::Long(base_numbers::of_whole_words(bits)),
        26 => Value::Single(base_numbers::of_words(bits)),
        27 => Value::Float(base_numbers::of_words(bits)),
        _ => Value::Text(words.low),
    }
}

// ---- the ranges

fn in_integer(z: i64) -> bool
    ensures { result ≡ in_integer z }
{
    (-32768..=32767).contains(&z)
}

fn in_long(z: i64) -> bool
    ensures { result ≡ in_long z }
{
    (-2147483648..=2147483647).contains(&z)
}

// ---- negation

fn negate_integer(z: i64) -> Fold
    requires { InRange z }
    ensures { result ≡ negated_integer z }
{
    Ok(Value::Integer(-z))
}

fn negate_long(z: i64) -> Fold
    requires { InRange z }
    ensures { result ≡ negated_long z }
{
    if z == -2147483648 {
        return Err(Unfolded::Overflow);
    }
    Ok(Value::Long(-z))
}

fn negate_value(v: Value) -> Fold
    requires { Good v }
    ensures { result ≡ negated v }
{
    match v {
        Value::Integer(z) => negate_integer(z),
        Value::Long(z) => negate_long(z),
        Value::Single(x) => Ok(Value::Single(-x)),
        Value::Float(x) => Ok(Value::Float(-x)),
        Value::Text(_) => Err(Unfolded::NotConstant),
    }
}

#[tactic(auto, unfolding(crate::specs::Fold::negate_of))]
pub fn negate(f: Fold) -> Fold
    requires { GoodFold f }
    ensures { result ≡ negate_of f }
{
    negate_value(f?)
}

// ---- what a binary operator asks of its operands

fn is_text(v: Value) -> bool
    ensures { result ≡ is_text v }
{
    matches!(v, Value::Text(_))
}

// In the order of their ranks: an operator works in the larger of two.
#[derive(Clone, Copy, PartialEq, Eq, PartialOrd, Ord)]
enum NumericType {
    Integer,
    Long,
    Single,
    Double,
}

// A whole number outside 16 bits counts as Long.
fn numeric_type(v: Value) -> NumericType
    ensures { number_of result ≡ rank_of v }
{
    match v {
        Value::Integer(z) if in_integer(z) => NumericType::Integer,
        Value::Integer(_) | Value::Long(_) => NumericType::Long,
        Value::Single(_) => NumericType::Single,
        Value::Float(_) | Value::Text(_) => NumericType::Double,
    }
}

fn as_f64(v: Value) -> f64
    ensures { result ≡ as_f64 v }
{
    match v {
        // Two arms: the prover refuses an or-pattern that binds a whole number here.
        Value::Integer(z) => base_numbers::to_double(z),
        Value::Long(z) => base_numbers::to_double(z),
        Value::Single(x) | Value::Float(x) => x,
        Value::Text(_) => 0.0,
    }
}

fn int_of(v: Value) -> i64
    ensures { result ≡ int_of v }
{
    match v {
        Value::Integer(z) | Value::Long(z) => z,
        Value::Single(_) | Value::Float(_) | Value::Text(_) => 0,
    }
}

// ---- a result in the range of its type, or overflow

// (Three functions and not one: they differ in the range tested and in the variant made, and nothing else is in them.)
fn integer_fold(z: i64) -> Fold
    ensures { result ≡ integer_fold z }
{
    if in_integer(z) {
        Ok(Value::Integer(z))
    } else {
        Err(Unfolded::Overflow)
    }
}

fn long_fold(z: i64) -> Fold
    ensures { result ≡ long_fold z }
{
    if in_long(z) {
        Ok(Value::Long(z))
    } else {
        Err(Unfolded::Overflow)
    }
}

#[tactic(auto, using(crate::proofs::Cases::not_finite))]
fn single_fold(x: f64) -> Fold
    ensures { result ≡ single_fold x }
{
    if !base_numbers::is_finite(x) {
        return Err(Unfolded::Overflow);
    }
    let single = base_numbers::to_single(x).ok_or(Unfolded::Overflow)?;
    Ok(Value::Single(single))
}

fn float_fold(x: f64) -> Fold
    ensures { result ≡ float_fold x }
{
    if base_numbers::is_finite(x) {
        Ok(Value::Float(x))
    } else {
        Err(Unfolded::Overflow)
    }
}

// ---- /

#[tactic(auto, unfolding(crate::specs::Fold::div_of))]
fn divide(l: Value, r: Value) -> Fold
    ensures { result ≡ div_of l r }
{
    let b = as_f64(r);
    if b == 0.0 {
        return Err(Unfolded::NotConstant);
    }
    float_fold(as_f64(l) / b)
}

// ---- \ and MOD

// An enum and no closure: the contracts say what each operator means by it.
#[derive(Clone, Copy)]
pub enum Part {
    Quotient,
    Remainder,
}

#[tactic(auto, using(crate::proofs::FoldLaws::good_float))]
fn round(v: Value) -> Option<i64>
    requires { Good v }
    ensures { result ≡ rounded v }
{
    base_numbers::to_long(Halves::Even, as_f64(v))
}

fn part_of(p: Part, x: i64, y: i64) -> i64
    requires y_value { is_zero y ≡ false }
    requires in_range { InRange x }
    ensures { result ≡ part_of p x y }
{
    match p {
        Part::Quotient => x / y,
        Part::Remainder => x % y,
    }
}

fn of_wholes(p: Part, a: Option<i64>, b: Option<i64>) -> Fold
    requires { Small a }
    ensures { result ≡ of_wholes p a b }
{
    let x = a.ok_or(Unfolded::Overflow)?;
    let y = b.ok_or(Unfolded::Overflow)?;
    if y == 0 {
        return Err(Unfolded::NotConstant);
    }
    long_fold(part_of(p, x, y))
}

#[tactic(auto, unfolding(crate::specs::Fold::whole_div_of))]
fn divide_whole(p: Part, l: Value, r: Value) -> Fold
    requires good { Good l }
    requires good_2 { Good r }
    ensures { result ≡ whole_div_of p l r }
{
    of_wholes(p, round(l), round(r))
}

// ---- + - *

// An enum and no closure: the contracts say what each operator means by it.
#[derive(Clone, Copy)]
pub enum Arith {
    Add,
    Sub,
    Mul,
}

// `int_op` and `float_op` stay two, as do `whole_result` and `float_result`: whole numbers must not leave 64 bits, so that their range is asked, and
// floats ask for nothing.
fn int_op(op: Arith, x: i64, y: i64) -> i64
    requires in_range { InRange x }
    requires in_range_2 { InRange y }
    ensures { result ≡ int_op op x y }
{
    match op {
        Arith::Add => x + y,
        Arith::Sub => x - y,
        Arith::Mul => x * y,
    }
}

fn float_op(op: Arith, a: f64, b: f64) -> f64
    ensures { result ≡ float_op op a b }
{
    match op {
        Arith::Add => a + b,
        Arith::Sub => a - b,
        Arith::Mul => a * b,
    }
}

// Whole numbers are worked out exactly: no result leaves 64 bits.
fn whole_result(op: Arith, l: Value, r: Value) -> i64
    requires good { Good l }
    requires good_2 { Good r }
    ensures { result ≡ int_op op (int_of l) (int_of r) }
{
    int_op(op, int_of(l), int_of(r))
}

// Floats are worked out at 64 bits, Singles too.
fn float_result(op: Arith, l: Value, r: Value) -> f64
    ensures { result ≡ float_op op (as_f64 l) (as_f64 r) }
{
    float_op(op, as_f64(l), as_f64(r))
}

#[tactic(auto, unfolding(crate::specs::Fold::arith_of))]
fn work_out(op: Arith, l: Value, r: Value) -> Fold
    requires good { Good l }
    requires good_2 { Good r }
    ensures { result ≡ arith_of op l r }
{
    match numeric_type(l).max(numeric_type(r)) {
        NumericType::Integer => integer_fold(whole_result(op, l, r)),
        NumericType::Long => long_fold(whole_result(op, l, r)),
        NumericType::Single => single_fold(float_result(op, l, r)),
        NumericType::Double => float_fold(float_result(op, l, r)),
    }
}

// ---- binary operators

// By its position in `BinaryOp`, on two numbers.
#[tactic(auto, unfolding(crate::specs::Fold::op_of))]
fn operate(op: u32, l: Value, r: Value) -> Fold
    requires good { Good l }
    requires good_2 { Good r }
    ensures { result ≡ op_of op l r }
{
    match op {
        0 => work_out(Arith::Add, l, r),
        1 => work_out(Arith::Sub, l, r),
        2 => work_out(Arith::Mul, l, r),
        3 => divide(l, r),
        4 => divide_whole(Part::Quotient, l, r),
        5 => divide_whole(Part::Remainder, l, r),
        _ => Err(Unfolded::NotConstant),
    }
}

// The left side's failure decides, then the right side's; a string fails after both.
#[tactic(auto, unfolding(crate::specs::Fold::binary_of))]
pub fn binary(op: u32, l: Fold, r: Fold) -> Fold
    requires good_fold { GoodFold l }
    requires good_fold_2 { GoodFold r }
    ensures { result ≡ binary_of op l r }
{
    let x = l?;
    let y = r?;
    if is_text(x) || is_text(y) {
        return Err(Unfolded::NotConstant);
    }
    operate(op, x, y)
}
