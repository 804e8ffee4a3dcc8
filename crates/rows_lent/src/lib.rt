// The rule of a lent table (number 6): row by row by a table of rules, the rising order, and zeros after the last row.
#![tactic(auto)]

ghost use Rattle.std.specs.Prelude.{◌≡◌, false, ◌&&◌, [], leb, ltb, eqb, ◌*◌, ◌≤◌, ◌<◌, length, drop, get_or};
ghost use Rattle.base_words.specs.Word.{pick};
ghost use Rattle.rows_table.specs.Rows.{width};
ghost use Rattle.fold_values.specs.Value.{whole_rule, float_rule};
ghost use Rattle.rows_lent.specs.Rules.{rules, is_marked, scope_ok, type_ok, const_ok, word_ok, words_ok, row_ok};
ghost use Rattle.rows_lent.specs.Lent.{all_zero, ended_at, checked};

use rows_table::WIDTH;

// What each word of a row may be, for each kind from 128 on, word 0 without its kind: 0 unused, 1 scope, 2 small, 3 half, 4 flag, 5 mark, 6 item, 7 name,
// 8 type, 9 type or none, 10 constant, 11 a part of one before it. (Bytes: the definition has the same numbers.)
static RULES: [[u8; 6]; 16] = [
    [2, 0, 1, 0, 0, 0],
    [7, 0, 1, 0, 0, 0],
    [7, 0, 3, 2, 0, 0],
    [7, 2, 7, 3, 8, 11],
    [7, 0, 10, 11, 11, 0],
    [7, 1, 2, 2, 4, 0],
    [7, 1, 8, 11, 0, 0],
    [7, 0, 4, 2, 9, 11],
    [7, 2, 7, 5, 9, 11],
    [7, 4, 0, 0, 0, 0],
    [7, 1, 6, 0, 0, 0],
    [7, 1, 6, 0, 0, 0],
    [7, 0, 0, 0, 0, 0],
    [7, 0, 0, 0, 0, 0],
    [7, 1, 0, 0, 0, 0],
    [0, 0, 2, 0, 0, 0],
];

// Whether x is the number of a name.
pub fn is_name(names: &[u8], x: u32) -> bool
    ensures { result ≡ is_marked names.now x }
{
    names.get(x as usize) == Some(&1)
}

// Whether w is 0 or a name's number plus 1.
#[tactic(auto, unfolding(crate::specs::Rules::scope_ok))]
pub fn scope_ok(names: &[u8], w: u32) -> bool
    ensures { result ≡ scope_ok names.now w }
{
    w == 0 || is_name(names, w - 1)
}

// Whether a type has this head and argument.
#[tactic(auto, unfolding(crate::specs::Rules::type_ok))]
pub fn type_ok(names: &[u8], head: u32, arg: u32) -> bool
    ensures { result ≡ type_ok names.now head arg }
{
    match head {
        44 => arg < 16777216,
        45 => is_name(names, arg),
        _ => plain_type(head, arg),
    }
}

// A numeric type has no argument.
fn plain_type(head: u32, arg: u32) -> bool
    ensures { result ≡ pick (leb 40 head) (pick (leb head 43) (eqb arg 0) false) false }
{
    (40..=43).contains(&head) && arg == 0
}

// Whether 64 bits are a whole number from -2147483648 to 2147483648.
fn whole_ok(low: u32, high: u32) -> bool
    ensures { result ≡ whole_rule low high }
{
    high == 0 && low <= 2147483648 || high == 4294967295 && 2147483648 <= low
}

// Whether it is the high word of a finite float, by its exponent's bits. (`tree_expr` has the same line, private: no promise for others is worth one line.)
fn finite(high: u32) -> bool
    ensures { result ≡ float_rule high }
{
    (high / 1048576) % 2048 != 2047
}

// Whether it is the number of a string, and the high word 0.
fn string_ok(names: &[u8], low: u32, high: u32) -> bool
    ensures { result ≡ (ltb low (length names.now) && eqb high 0) }
{
    (low as usize) < names.len() && high == 0
}

// Whether a constant of this kind has this value.
#[tactic(auto, unfolding(crate::specs::Rules::const_ok, fold_values::specs::Value::const_rule))]
fn const_ok(names: &[u8], kind: u32, low: u32, high: u32) -> bool
    ensures { result ≡ const_ok names.now kind low high }
{
    match kind {
        24 | 25 => whole_ok(low, high),
        26 | 27 => finite(high),
        28 => string_ok(names, low, high),
        _ => false,
    }
}

// Whether a type has this head and argument, or there is none.
fn type_or_none(names: &[u8], head: u32, arg: u32) -> bool
    ensures { result ≡ pick (eqb head 0) (eqb arg 0) (type_ok names.now head arg) }
{
    if head == 0 {
        return arg == 0;
    }
    type_ok(names, head, arg)
}

fn item_ok(w: u32) -> bool
    ensures { result ≡ pick (eqb w 0) false (ltb w 4) }
{
    (1..4).contains(&w)
}

// Whether a word is what its rule says, with the two words after it.
#[tactic(auto, unfolding(crate::specs::Rules::word_ok))]
fn word_ok(names: &[u8], rule: u8, w: u32, next: u32, after: u32) -> bool
    ensures { result ≡ word_ok names.now rule w next after }
{
    match rule {
        0 => w == 0,
        1 => scope_ok(names, w),
        2 => w < 16777216,
        3 => w < 65536,
        4 => w < 2,
        5 => w < 4,
        6 => item_ok(w),
        7 => is_name(names, w),
        8 => type_ok(names, w, next),
        9 => type_or_none(names, w, next),
        10 => const_ok(names, w, next, after),
        _ => true,
    }
}

// The rule of word j in a row of kind 128 + k.
fn rule(k: usize, j: usize) -> u8
    requires { (k < 16) × (j < width) }
    ensures { result ≡ get_or (get_or rules k []) j 0 }
{
    RULES[k][j]
}

// Word j, 0 past the end. (`entry_read` has the same line: one function for both, in a crate below them, is no plainer than a line each.)
fn at(row: &[u32], j: usize) -> u32
    ensures { result ≡ get_or row.now j 0 }
{
    row.get(j).copied().unwrap_or(0)
}

// Whether the words from word 1 on are what their rules say. (A loop: `all` is no plainer, since it wants one law more, from the range's numbers to the words.)
fn words_ok(names: &[u8], k: usize, row: &[u32; WIDTH]) -> bool
    requires { k < 16 }
    ensures { result ≡ words_ok names.now (drop 1 (get_or rules k [])) (drop 1 row.now) }
{
    for j in 1..WIDTH {
        if !word_ok(names, rule(k, j), row[j], at(row, j + 1), at(row, j + 2)) {
            return false;
        }
    }
    true
}

// Whether the row is in order by itself.
#[tactic(auto, using(crate::proofs::Words::first_word), unfolding(crate::specs::Rules::row_ok))]
pub fn row_ok(names: &[u8], row: &[u32; WIDTH]) -> bool
    ensures { result ≡ row_ok names.now row.now }
{
    let first = row[0];
    let kind = first / 16777216;
    if !(128..=143).contains(&kind) {
        return false;
    }
    let k = (kind - 128) as usize;
    word_ok(names, rule(k, 0), first % 16777216, row[1], row[2]) && words_ok(names, k, row)
}

// Whether all words from `from` on are zero. (`list_image::zero_from` is the same line over bytes, private there: a function over both types is no plainer than a line each.)
fn all_zero(b: &[u32], from: usize) -> bool
    requires { from ≤ length b.now }
    ensures { result ≡ all_zero (drop from b.now) }
{
    b[from..].iter().all(|&word| word == 0)
}

// n rows that are in order, if zeros are all that is left.
#[tactic(auto, unfolding(crate::specs::Lent::ended_at))]
fn ended(b: &[u32], n: usize) -> Option<usize>
    requires { n * width ≤ length b.now }
    ensures { result ≡ ended_at n (drop (n * width) b.now) }
{
    all_zero(b, n * WIDTH).then_some(n)
}

// Tests a lent table. (The number of rows is answered, without their words as `Rows` would have them: the contract speaks of how many there are, and a caller has the words.)
pub fn check_rows(b: &[u32], names: &[u8]) -> Option<usize>
    ensures { result ≡ checked names.now b.now }
{
    let (rows, _) = b.as_chunks();
    let mut last: u64 = 0;
    for (n, row) in rows.iter().enumerate() {
        if row[0] == 0 {
            return ended(b, n);
        }
        if !row_ok(names, row) {
            return None;
        }
        let k = rows_table::key_of(row[0], row[1]);
        if k <= last {
            return None;
        }
        last = k;
    }
    ended(b, rows.len())
}
