// What a field of a statement is, by its sort: some words and then rows of fields; and the scope of its bodies. A walk over statements of all kinds goes by it.
// (`SomeTree` and `Listed` stay clauses: the first says of words, at a place, what stands there, another shape in each function, the second of a sort that the tables have it, and a struct for each would be opened at each call.)
#![tactic(auto)]

ghost use Rattle.std.specs.Prelude.{◌+◌, ◌≤◌, ◌<◌, ◌≢◌, take, drop, IfSome};
ghost use Rattle.tree_stmt.specs.Sorts.{stmt as stmt_sort, many, opt};
ghost use Rattle.tree_stmt.specs.Tree.{one};
ghost use Rattle.tree_stmt.specs.Codes.{sort_at, row_of, chain, all_rows};
ghost use Rattle.tree_stmt.specs.Stands.{SomeTree};
ghost use Rattle.tree_walk.specs.Plans.{Planned, Listed, Flat, InsideAt};

// So many words, and then so many times a row of fields.
#[derive(Clone, Copy)]
pub struct Plan {
    pub same: usize,
    pub row: usize,
    pub times: u32,
}

// One of `count` heads from the kind `first` on, of which the first one's row is `r`.
fn chosen(words: &[u32], at: usize, first: u32, count: u32, r: usize) -> Plan
    requires { SomeTree (one (chain first (take count (drop r all_rows)))) words.now at × (r + count ≤ 93) }
    ensures { Planned (chain first (take count (drop r all_rows))) words.now at result.same result.row result.times }
{
    let k = words[at] / 16777216;
    Plan {
        same: 1,
        row: r + (k - first) as usize,
        times: 1,
    }
}

// The word 0, or a row.
fn optional(words: &[u32], at: usize, r: usize) -> Plan
    requires { Listed (r + 16) × (r < 48) }
    ensures { Planned (opt (row_of r)) words.now at result.same result.row result.times }
{
    if words.get(at) == Some(&0) {
        Plan {
            same: 1,
            row: 0,
            times: 0,
        }
    } else {
        Plan {
            same: 0,
            row: r,
            times: 1,
        }
    }
}

// How many words each row of a list has where all have as many, and neither an expression nor a statement stands in them.
fn flat(r: usize) -> Option<usize>
    ensures { IfSome result (λ w. Flat r w) }
{
    match r {
        2 => Some(1),
        7 | 15 | 16 => Some(2),
        _ => None,
    }
}

// A list of rows, its count first. Where they are flat it is nothing but words, so that no walk goes through them.
fn listed(words: &[u32], at: usize, r: usize) -> Plan
    requires { SomeTree (one (many (row_of r))) words.now at }
    ensures { Planned (many (row_of r)) words.now at result.same result.row result.times }
{
    let times = words[at] % 16777216;
    match flat(r) {
        Some(width) => Plan {
            same: 1 + times as usize * width,
            row: 0,
            times: 0,
        },
        None => Plan {
            same: 1,
            row: r,
            times,
        },
    }
}

// What the field at `at` is, by its sort: neither an expression nor a statement. The sorts are the numbers of the tables. `tree_stmt::look` has the same numbers for heads and
// rows: it tests the words and makes frames, where the words are known to be right here and nothing is tested.
pub fn plan_for(words: &[u32], at: usize, sort: u8) -> Plan
    requires { SomeTree (one (sort_at sort)) words.now at × Listed sort × (sort ≢ 9) × (sort ≢ 10) }
    ensures { Planned (sort_at sort) words.now at result.same result.row result.times }
{
    match sort {
        11 => chosen(words, at, 48, 2, 22),
        12 => chosen(words, at, 40, 6, 24),
        13 => chosen(words, at, 32, 3, 30),
        14 => chosen(words, at, 36, 3, 33),
        15 => chosen(words, at, 52, 3, 36),
        16..=63 => optional(words, at, sort as usize - 16),
        64..=111 => listed(words, at, sort as usize - 64),
        112..=255 => Plan {
            same: 0,
            row: sort as usize - 112,
            times: 1,
        },
        _ => Plan {
            same: 1,
            row: 0,
            times: 0,
        },
    }
}

// The scope of the bodies of the statement at `at`: SUB and FUNCTION have their own.
pub fn inside(words: &[u32], at: usize, scope: u32) -> u32
    requires { SomeTree (one stmt_sort) words.now at × (scope ≤ 16777216) }
    ensures { InsideAt words.now at scope result }
{
    let kind = words[at] / 16777216;
    if kind == 84 || kind == 85 {
        words[at + 1] % 16777216 + 1
    } else {
        scope
    }
}
