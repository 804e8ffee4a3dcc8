// Steps of collecting on two lent buffers, rows and diagnostics. Each gives the counts unchanged once the run is stopped, so that code over them
// is a straight line, as its definition is. What is done is said for every state that the buffers hold. Kinds of rows and codes of diagnostics are numbers, as document 01
// numbers them: the functions take any of them. `b`, `d` and the counts stay parameters, and that rows and diagnostics fit stays a clause: the buffers are written, and
// this kit has no ghost field beside a `&mut` field.
#![tactic(auto)]

ghost use Rattle.std.specs.Prelude.{◌≡◌, true, List, [], ◌∷◌, ℕ, ◌+◌, ◌*◌, ◌≤◌, ◌<◌, length};
ghost use Rattle.rows_table.specs.Rows.{Row, width, note_width, remove};
ghost use Rattle.rows_kinds.specs.Kinds.{row, entry_key};
ghost use Rattle.collect_buffers.specs.State.{State, running, stop as stop_with};
ghost use Rattle.collect_buffers.specs.Refused.{zeroing, Numbered};
ghost use Rattle.collect_buffers.specs.Held.{Held, Settles, Fresh, Notes, Rows, Counted, changing, entering, pushing, noting, rows_put, notes_put, Left};

use base_words::Refusal;

// How many rows and diagnostics there are, and the number that stopped the run, or 0: a number and no enum, since `stop` takes any above 0. The wider ones come first, so that no room is left between them: the
// compiler copies such a record in better parts.
#[derive(Clone, Copy)]
pub struct Counts {
    pub rows: usize,
    pub notes: usize,
    pub stop: u32,
}

// No rows and no diagnostics, in a run that goes on.
const NONE: Counts = Counts {
    rows: 0,
    notes: 0,
    stop: 0,
};

// Both buffers made empty.
pub fn begin(b: &mut [u32], d: &mut [u32]) -> Counts
    ensures { Held (length b.old) (length d.old) (running [] []) result b.new d.new }
{
    rows_table::empty(b);
    rows_table::empty(d);
    NONE
}

// The same; fresh buffers are zeros already and need no clearing. A flag says it, since both are there: buffers that were just made, and lent ones.
pub fn begin_in(b: &mut [u32], d: &mut [u32], fresh: bool) -> Counts
    requires { Fresh fresh b.old d.old }
    ensures { Held (length b.old) (length d.old) (running [] []) result b.new d.new }
{
    if fresh { NONE } else { begin(b, d) }
}

// The rows put in order, where the run goes on.
pub fn settle(b: &mut [u32], s: Counts)
    requires { s.rows * width ≤ length b.old }
    ensures { Settles s b.old b.new }
{
    if s.stop != 0 {
        return;
    }
    rows_runs::settle(b, s.rows);
}

// The end of a run: its rows are put in order; one that was stopped leaves zeros to the last word of both buffers.
pub fn finish(b: &mut [u32], d: &mut [u32], s: Counts) -> Counts
    requires { s.rows * width ≤ length b.old }
    ensures { (N D : ℕ) (st : State) → Held N D st s b.old d.old → Left N D st result b.new d.new }
{
    settle(b, s);
    if s.stop == 0 {
        return s;
    }
    rows_table::empty(b);
    rows_table::empty(d);
    Counts {
        stop: s.stop,
        ..NONE
    }
}

// The refusal of a stopped run.
pub fn refusal(stop: u32) -> Refusal
    requires { zeroing stop ≡ true }
    ensures { Numbered stop result }
{
    match stop {
        7 => Refusal::RowsFull,
        8 => Refusal::DiagnosticsFull,
        _ => Refusal::TypeWords,
    }
}

// The run stops with the number.
pub fn stop(s: Counts, number: u32) -> Counts
    requires { 0 < number }
    ensures { Counted (λ N D. stop_with number) s result }
{
    if s.stop != 0 {
        return s;
    }
    Counts { stop: number, ..s }
}

// The counts after rows were put in: 7 where they had no room. Its fellow for diagnostics sets the other field, which no parameter can name.
fn rows_put(s: Counts, p: Option<usize>) -> Counts
    ensures { result ≡ rows_put s p }
{
    p.map_or(
        Counts { stop: 7, ..s },
        |n| Counts {
            stop: 0,
            rows: n,
            ..s
        },
    )
}

// The counts after a diagnostic was put in: 8 where it had no room.
fn notes_put(s: Counts, p: Option<usize>) -> Counts
    ensures { result ≡ notes_put s p }
{
    p.map_or(
        Counts { stop: 8, ..s },
        |n| Counts {
            stop: 0,
            notes: n,
            ..s
        },
    )
}

// A row of any kind, in the place of the one with its key.
pub fn enter(
    b: &mut [u32],
    s: Counts,
    kind: u32,
    name: u32,
    w1: u32,
    w2: u32,
    w3: u32,
    w4: u32,
    w5: u32,
) -> Counts
    requires { (s.rows * width ≤ length b.old) × (kind < 144) × (name < 16777216) }
    ensures { Rows (entering (row kind name (w1 ∷ w2 ∷ w3 ∷ w4 ∷ w5 ∷ []))) s result b.old b.new }
{
    if s.stop != 0 {
        return s;
    }
    let p = rows_kinds::enter(b, s.rows, kind, name, w1, w2, w3, w4, w5);
    rows_put(s, p)
}

// The rows of a kind under a name go from an ordinal on: the fields of a TYPE, the parameters of a procedure, which new ones don't replace.
pub fn remove_under(b: &mut [u32], s: Counts, kind: u32, name: u32, from: u32) -> Counts
    requires { (s.rows * width ≤ length b.old) × (kind < 144) × (name + 1 < 16777216) }
    ensures { Rows (changing (remove (entry_key kind name from) (entry_key kind (name + 1) 0))) s result b.old b.new }
{
    if s.stop != 0 {
        return s;
    }
    let lo = rows_kinds::entry_key(kind, name, from);
    let hi = rows_kinds::entry_key(kind, name + 1, 0);
    let n = rows_runs::remove(b, s.rows, lo, hi);
    Counts {
        stop: 0,
        rows: n,
        ..s
    }
}

// A diagnostic, after the last.
pub fn push(
    d: &mut [u32],
    s: Counts,
    code: u32,
    line: u32,
    name: u32,
    other: u32,
    number: u32,
    prev: u32,
) -> Counts
    requires { s.notes * note_width ≤ length d.old }
    ensures { Notes (pushing (code ∷ line ∷ name ∷ other ∷ number ∷ prev ∷ [])) s result d.old d.new }
{
    if s.stop != 0 {
        return s;
    }
    let note = [code, line, name, other, number, prev];
    let p = rows_table::push(d, s.notes, &note);
    notes_put(s, p)
}

// The same, where `yes`.
pub fn push_if(
    d: &mut [u32],
    s: Counts,
    yes: bool,
    code: u32,
    line: u32,
    name: u32,
    other: u32,
    number: u32,
    prev: u32,
) -> Counts
    requires { s.notes * note_width ≤ length d.old }
    ensures { Notes (noting yes (code ∷ line ∷ name ∷ other ∷ number ∷ prev ∷ [])) s result d.old d.new }
{
    if yes {
        push(d, s, code, line, name, other, number, prev)
    } else {
        s
    }
}
