// What resolving asks of the rows: whether an argument keeps its pair of parentheses, and whether a call is an element. A scope and a name are numbers
// with their bounds as clauses: callers have them as the payload of a word, and a type for them would be made at each call and opened at each key.
#![tactic(auto)]

ghost use Rattle.std.specs.Prelude.{◌≡◌, List, ◌≤◌, ◌<◌};
ghost use Rattle.rows_table.specs.Rows.{Row};
ghost use Rattle.rows_table.specs.Answers.{Within, HeldIn};
ghost use Rattle.rows_runs.specs.Runs.{row_in};
ghost use Rattle.resolve_definition.specs.Tables.{places, element};
ghost use Rattle.resolve_definition.specs.FromRows.{is_scalar, by_ref, tables_of};
ghost use Rattle.resolve_definition.specs.Scopes.{FirstScope, scope_of};

use rows_table::Rows;

// Whether a parameter with these marks and this type is by reference, and neither an array nor a record.
#[tactic(auto, using(std::proofs::lemmas::Bool::Decides::nat_tests))]
fn is_scalar(marks: u32, head: u32) -> bool
    ensures { result ≡ is_scalar marks head }
{
    marks % 2 != 1 && marks < 2 && head != 45
}

// Whether the argument at position i of f is for such a parameter. A procedure without a row of its own is not known.
pub fn by_ref(rows: &Rows<'_>, f: u32, i: u32) -> bool
    requires { f < 16777216 }
    ensures { (rs : List Row) → HeldIn rs rows.now → result ≡ places (tables_of rs) f i }
{
    rows_lookup::has(rows, 135, f, 0) && takes(rows, rows_lookup::find_entry(rows, 136, f, i))
}

// Whether a parameter's row was found, and it is such a parameter's. (A closure for `is_some_and` would have to state again that the row is in the table.)
#[tactic(auto, using(rows_runs::specs::Places::row_word_lem))]
fn takes(rows: &Rows<'_>, found: Option<usize>) -> bool
    requires { Within rows.now.count found }
    ensures { result ≡ by_ref (row_in rows.now.words.now found) }
{
    match found {
        Some(j) => {
            let at = j * rows_table::WIDTH;
            is_scalar(rows.words[at + 3], rows.words[at + 4])
        }
        None => false,
    }
}

// The least scope that has an array f, if any has. The rows of f stand together, in the order of their scopes.
fn first_scope(rows: &Rows<'_>, f: u32) -> Option<u32>
    requires { f < 16777216 }
    ensures { (rs : List Row) → HeldIn rs rows.now → FirstScope rs f (scope_of result) }
{
    let p = rows.lower_bound(rows_kinds::entry_key(133, f, 0));
    if p < rows.count {
        let k = rows.key(p);
        if k / 4294967296 == u64::from(133 * 16777216 + f) {
            return Some((k % 4294967296) as u32);
        }
    }
    None
}

// Whether f is a visible array from the scope. For a name that is no array anywhere one search is enough.
pub fn is_array(rows: &Rows<'_>, scope: u32, f: u32) -> bool
    requires { (scope ≤ 16777216) × (f < 16777216) }
    ensures { (rs : List Row) → HeldIn rs rows.now → result ≡ (tables_of rs).array scope f }
{
    let Some(first) = first_scope(rows, f) else {
        return false;
    };
    if scope <= first {
        return scope == first;
    }
    rows_lookup::has(rows, 133, f, scope)
        || first == 0 && rows_lookup::shares(rows, scope - 1, f, true)
}

// Whether a call of f from the scope is an element: a visible array, and no procedure.
pub fn is_element(rows: &Rows<'_>, scope: u32, f: u32) -> bool
    requires { (scope ≤ 16777216) × (f < 16777216) }
    ensures { (rs : List Row) → HeldIn rs rows.now → result ≡ element (tables_of rs) scope f }
{
    !rows_lookup::has(rows, 135, f, 0) && is_array(rows, scope, f)
}
