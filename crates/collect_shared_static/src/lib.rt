// What collecting does for SHARED and STATIC: their items, one after another, into rows. `b, s` with what is
// asked of them: as in crate `collect_buffers`; `words, at` with `SomeTree`: as in crate `collect_dim`.
#![tactic(auto)]

ghost use Rattle.std.specs.Prelude.{◌≡◌, ◌*◌, ◌≤◌, ◌<◌, length};
ghost use Rattle.tree_stmt.specs.Sorts.{many, ScopeItem, shared as shared_kind, static as static_kind};
ghost use Rattle.tree_stmt.specs.Tree.{one, row};
ghost use Rattle.tree_stmt.specs.Stands.{SomeTree};
ghost use Rattle.rows_table.specs.Rows.{width};
ghost use Rattle.collect_buffers.specs.Held.{Fit};
ghost use Rattle.collect_definition.specs.Collect.{marked as marked_of};
ghost use Rattle.collect_definition.specs.Code.{SomeStmt, CollectsAny};
ghost use Rattle.collect_shared_static.specs.Items.{ItemIs, Enters, EntersAll};

use collect_buffers::Counts;
use rows_lookup::Typed;
use rows_table::Rows;

// An item: its name, whether it is an array, its type, and the place past it.
#[derive(Clone, Copy)]
pub struct ItemAt {
    name: u32,
    array: bool,
    ty: Option<Typed>,
    next: usize,
}

// The item at a place.
fn item_at(words: &[u32], at: usize) -> ItemAt
    requires { SomeTree (row ScopeItem) words.now at }
    ensures is { ItemIs words.now at result }
    ensures small { result.name < 16777216 }
{
    let name = words[at] % 16777216;
    let array = words[at + 1] % 16777216 == 1;
    let (ty, next) = collect_as_clause::as_type(words, at + 2);
    ItemAt {
        name,
        array,
        ty,
        next,
    }
}

// A name's mark with one more: 1 for a variable, 2 for an array. A row may have any number as its mark, so it is a number here, and this is not `mark | 2`: above 3 the definition leaves it.
fn marked(mark: u32, array: bool) -> u32
    ensures { result ≡ marked_of array mark }
{
    if array {
        if 2 <= mark { mark } else { mark + 2 }
    } else if mark % 2 == 1 {
        mark
    } else {
        mark + 1
    }
}

// An item's row of a kind: 134 is its type, where a variable has one; 138 and 139 are its marks in SHARED and STATIC. The kind
// is in the row as well, so it says which of the two is entered.
fn enter_item(b: &mut [u32], s: Counts, kind: u32, scope: u32, i: ItemAt) -> Counts
    requires { (s.rows * width ≤ length b.old) × (kind < 144) × (i.name < 16777216) }
    ensures { Enters kind scope i s result b.old b.new }
{
    let name = i.name;
    if kind != 134 {
        let rows = Rows {
            words: b,
            count: s.rows,
        };
        let mark = marked(rows_lookup::word(&rows, kind, name, scope, 2), i.array);
        return collect_buffers::enter(b, s, kind, name, scope, mark, 0, 0, 0);
    }
    if i.array {
        return s;
    }
    match i.ty {
        Some(t) => collect_buffers::enter(b, s, 134, name, scope, t.head, t.arg, 0, 0),
        None => s,
    }
}

// The same for all items of the list.
fn enter_items(words: &[u32], b: &mut [u32], s: Counts, kind: u32, scope: u32, at: usize) -> Counts
    requires { SomeTree (one (many ScopeItem)) words.now at × (s.rows * width ≤ length b.old) × (kind < 144) }
    ensures { EntersAll words.now at kind scope s result b.old b.new }
{
    let mut t = s;
    let mut p = at + 1;
    for _ in 0..words[at] % 16777216 {
        let i = item_at(words, p);
        t = enter_item(b, t, kind, scope, i);
        p = i.next;
    }
    t
}

// SHARED: the items' marks. It belongs inside a procedure.
pub fn shared(
    words: &[u32],
    b: &mut [u32],
    d: &mut [u32],
    s: Counts,
    scope: u32,
    at: usize,
) -> Counts
    requires { SomeStmt shared_kind words.now at × Fit s (length b.old) (length d.old) }
    ensures { CollectsAny shared_kind words.now scope at s result b.old d.old b.new d.new }
{
    if scope == 0 {
        return collect_buffers::push(d, s, 13, words[at] % 16777216, 0, 0, 0, 0);
    }
    enter_items(words, b, s, 138, scope, at + 1)
}

// STATIC: the items' marks, and then their types.
pub fn statics(
    words: &[u32],
    b: &mut [u32],
    d: &mut [u32],
    s: Counts,
    scope: u32,
    at: usize,
) -> Counts
    requires { SomeStmt static_kind words.now at × Fit s (length b.old) (length d.old) }
    ensures { CollectsAny static_kind words.now scope at s result b.old d.old b.new d.new }
{
    if scope == 0 {
        return collect_buffers::push(d, s, 13, words[at] % 16777216, 0, 0, 1, 0);
    }
    let t = enter_items(words, b, s, 139, scope, at + 1);
    enter_items(words, b, t, 134, scope, at + 1)
}
