// What collecting does for TYPE: its fields are looked at in order, then the TYPE and the fields that are kept are entered as one change.
// `b, d, s` stay side by side, and that the counts fit stays a clause (`Fit`, `s.rows * width ≤ length b`): a ghost field beside a `&mut` field isn't had (the kit's NOT_COVERED). Where `b` is only read it
// stays beside `s` all the same: its count is `s.rows`, and `s` goes on to the diagnostics.
// `SomeTree` and `SomeFields` stay clauses: they name the tree that stands at a place, and a ghost field takes a proposition alone.
#![tactic(auto)]

ghost use Rattle.std.specs.Prelude.{◌≡◌, List, ◌*◌, ◌≤◌, ◌<◌, length};
ghost use Rattle.rows_table.specs.Rows.{Row, width, note_width};
ghost use Rattle.rows_runs.specs.Runs.{KeptIn};
ghost use Rattle.tree_stmt.specs.Sorts.{FieldDecl as FieldRow, type_def};
ghost use Rattle.tree_stmt.specs.Tree.{row as one_row};
ghost use Rattle.tree_stmt.specs.Stands.{SomeTree};
ghost use Rattle.collect_buffers.specs.Held.{Fit, Notes, pushing};
ghost use Rattle.collect_definition.specs.Code.{CollectsAny};
ghost use Rattle.collect_type.specs.Types.{SomeType, SomeFields, FieldIs, Below, type_code, code_told, code_of_why, note_of, grown as grown_of, Codes, Looks, Checks, KeepsField, Enters, Defines};

mod read;

use collect_buffers::Counts;
pub use read::FieldAt;
use read::TypeAt;
use rows_table::Rows;

// Why a field is not kept.
#[derive(Clone, Copy, Debug, PartialEq, Eq)]
pub enum Rejected {
    // one of its name is kept
    Twice,
    // its type is the TYPE that it is a field of
    Itself,
    // its type is no TYPE
    Undefined,
}

// The run, how many fields are kept so far, and their words.
#[derive(Clone, Copy)]
pub struct Kept {
    pub counts: Counts,
    pub fields: u32,
    pub words: u32,
}

// The field at a place.
fn field_at(words: &[u32], at: usize) -> FieldAt
    requires { SomeTree (one_row FieldRow) words.now at }
    ensures { FieldIs words.now at result }
{
    let name = words[at] % 16777216;
    let (ty, next) = collect_as_clause::type_ref(words, at + 1);
    FieldAt { name, ty, next }
}

// Whether a field may stand in the TYPE `owner` by its type. Its own name is asked first: its row may be there or not.
fn check_type(rows: &Rows<'_>, owner: TypeAt, f: FieldAt) -> Result<(), Rejected>
    ensures { (rs : List Row) → KeptIn rs rows.now → code_told result ≡ type_code rs owner.name f.ty.head f.ty.arg }
{
    if f.ty.head != 45 {
        return Ok(());
    }
    if f.ty.arg == owner.name {
        return Err(Rejected::Itself);
    }
    if rows_lookup::has(rows, 130, f.ty.arg, 0) {
        return Ok(());
    }
    Err(Rejected::Undefined)
}

// Whether the field is kept. The names of the fields that were kept have the mark `mark` in `seen`, and this one's gets it where it is kept too.
fn check_field(
    rows: &Rows<'_>,
    seen: &mut [u8],
    owner: TypeAt,
    mark: u8,
    f: FieldAt,
) -> Result<(), Rejected>
    requires { f.name < length seen.old }
    ensures { Codes mark owner.name rows.now.count f.name f.ty.head f.ty.arg (code_told result) rows.now.words.now seen.old seen.new }
{
    let x = f.name as usize;
    if seen[x] == mark {
        return Err(Rejected::Twice);
    }
    check_type(rows, owner, f)?;
    seen[x] = mark;
    Ok(())
}

// The diagnostic of a field that is not kept.
fn reject(d: &mut [u32], s: Counts, why: Rejected, owner: TypeAt, f: FieldAt) -> Counts
    requires { s.notes * note_width ≤ length d.old }
    ensures { Notes (pushing (note_of (code_of_why why) owner.line owner.name f.name f.ty.arg)) s result d.old d.new }
{
    match why {
        Rejected::Twice => collect_buffers::push(
            d,
            s,
            5,
            owner.line,
            f.name + 1,
            owner.name + 1,
            0,
            0,
        ),
        Rejected::Itself => collect_buffers::push(d, s, 6, owner.line, owner.name + 1, 0, 0, 0),
        Rejected::Undefined => collect_buffers::push(
            d,
            s,
            7,
            owner.line,
            f.name + 1,
            f.ty.arg + 1,
            0,
            0,
        ),
    }
}

// A field looked at: its diagnostic, or its words, and 9 where they are too many.
fn look(
    b: &[u32],
    d: &mut [u32],
    s: Kept,
    told: Result<(), Rejected>,
    owner: TypeAt,
    f: FieldAt,
) -> Kept
    requires { Fit s.counts (length b.now) (length d.old) × (s.words ≤ 65535) × (s.fields < 16777216) }
    ensures { Looks owner.line owner.name (code_told told) f.name f.ty.head f.ty.arg s result b.now d.old d.new }
{
    let c = s.counts;
    if let Err(why) = told {
        return Kept {
            counts: reject(d, c, why, owner, f),
            ..s
        };
    }
    let rows = Rows {
        words: b,
        count: c.rows,
    };
    let more = rows_lookup::type_words(&rows, f.ty.head, f.ty.arg);
    if collect_definition::TYPE_WORDS - s.words < more {
        return Kept {
            counts: collect_buffers::stop(c, 9),
            fields: s.fields + 1,
            ..s
        };
    }
    Kept {
        counts: c,
        fields: s.fields + 1,
        words: s.words + more,
    }
}

// The fields of the TYPE looked at in order. The marks of the kept ones are 1.
fn check(words: &[u32], b: &[u32], d: &mut [u32], seen: &mut [u8], s: Counts, owner: TypeAt) -> Kept
    requires { Fit s (length b.now) (length d.old) × SomeFields words.now owner.fields owner.count × Below 1 seen.old }
    ensures { Checks words.now owner.fields owner.count owner.line owner.name s result b.now d.old d.new × Below 2 seen.new }
{
    let rows = Rows {
        words: b,
        count: s.rows,
    };
    let mut c = Kept {
        counts: s,
        fields: 0,
        words: 0,
    };
    let mut at = owner.fields;
    for _ in 0..owner.count {
        let f = field_at(words, at);
        let told = check_field(&rows, seen, owner, 1, f);
        c = look(b, d, c, told, owner, f);
        at = f.next;
    }
    c
}

// So many words more, where they are not too many: those of kept fields never are, once all were looked at.
fn grown(words: u32, more: u32) -> u32
    requires { words ≤ 65535 }
    ensures { (result ≡ grown_of words more) × (result ≤ 65535) }
{
    if collect_definition::TYPE_WORDS - words < more {
        words
    } else {
        words + more
    }
}

// A field entered where it is kept.
fn keep(b: &mut [u32], s: Kept, told: Result<(), Rejected>, owner: TypeAt, f: FieldAt) -> Kept
    requires { (s.counts.rows * width ≤ length b.old) × (s.words ≤ 65535) × (s.fields < 16777216) }
    ensures { KeepsField owner.name (code_told told) f.name f.ty.head f.ty.arg s result b.old b.new }
{
    if told.is_err() {
        return s;
    }
    let c = s.counts;
    let rows = Rows {
        words: b,
        count: c.rows,
    };
    let w = grown(s.words, rows_lookup::type_words(&rows, f.ty.head, f.ty.arg));
    let t = collect_buffers::enter(
        b, c, 131, owner.name, s.fields, f.name, s.words, f.ty.head, f.ty.arg,
    );
    Kept {
        counts: t,
        fields: s.fields + 1,
        words: w,
    }
}

// Those of its fields that are kept, entered under the TYPE: what is asked of the rows is as it was before. The marks of the kept ones are 2.
fn enter_fields(words: &[u32], b: &mut [u32], seen: &mut [u8], s: Counts, owner: TypeAt) -> Counts
    requires { (s.rows * width ≤ length b.old) × SomeFields words.now owner.fields owner.count × Below 2 seen.old }
    ensures { Enters words.now owner.fields owner.count owner.name s result b.old b.new }
{
    let mut c = Kept {
        counts: s,
        fields: 0,
        words: 0,
    };
    let mut at = owner.fields;
    for _ in 0..owner.count {
        let f = field_at(words, at);
        let rows = Rows {
            words: b,
            count: c.counts.rows,
        };
        let told = check_field(&rows, seen, owner, 2, f);
        c = keep(b, c, told, owner, f);
        at = f.next;
    }
    c.counts
}

// The fields of the TYPE: two passes, for a run that the first one stops enters no row. Of the old fields only those go that the new
// ones don't replace. The marks are by the numbers of names, which are below 1,024.
fn fields(words: &[u32], b: &mut [u32], d: &mut [u32], s: Counts, owner: TypeAt) -> Counts
    requires { Fit s (length b.old) (length d.old) × SomeFields words.now owner.fields owner.count }
    ensures { Defines words.now owner.fields owner.count owner.line owner.name s result b.old d.old b.new d.new }
{
    if s.stop != 0 {
        return s;
    }
    let mut seen = [0u8; 1024];
    let c = check(words, b, d, &mut seen, s, owner);
    let t = c.counts;
    let t1 = collect_buffers::remove_under(b, t, 131, owner.name, c.fields);
    let t2 = collect_buffers::enter(b, t1, 130, owner.name, 0, c.words, owner.line, 0, 0);
    enter_fields(words, b, &mut seen, t2, owner)
}

// A TYPE, defined again or not.
pub fn type_def(
    words: &[u32],
    b: &mut [u32],
    d: &mut [u32],
    s: Counts,
    scope: u32,
    at: usize,
) -> Counts
    requires { SomeType words.now at × Fit s (length b.old) (length d.old) }
    ensures { CollectsAny type_def words.now scope at s result b.old d.old b.new d.new }
{
    let line = words[at] % 16777216;
    let name = words[at + 1] % 16777216;
    let count = words[at + 2] % 16777216;
    let rows = Rows {
        words: b,
        count: s.rows,
    };
    let twice = rows_lookup::has(&rows, 130, name, 0);
    let prev = rows_lookup::word(&rows, 130, name, 0, 3);
    let t1 = collect_buffers::push_if(d, s, twice, 3, line, name + 1, 0, 0, prev);
    let t2 = collect_buffers::push_if(d, t1, scope != 0, 4, line, name + 1, 0, 0, 0);
    let owner = TypeAt {
        line,
        name,
        fields: at + 3,
        count,
    };
    fields(words, b, d, t2, owner)
}
