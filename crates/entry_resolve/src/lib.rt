// Resolving over lent strings, words and rows, into a lent output. On a refusal the output stays as it came.
#![tactic(auto)]

ghost use Rattle.std.specs.Prelude.{◌≡◌, ◌&&◌, ℕ, length};
ghost use Rattle.base_words.specs.Sizes.{max_depth};
ghost use Rattle.base_strings.specs.Table.{names_of};
ghost use Rattle.tree_expr.specs.Reader.{expr_at, list_at};
ghost use Rattle.tree_stmt.specs.Tree.{strings as strings_of};
ghost use Rattle.tree_stmt.specs.Reader.{program_at};
ghost use Rattle.rows_lent.specs.Rules.{scope_ok, is_marked};
ghost use Rattle.entry_read.specs.Sized.{sized_tree};
ghost use Rattle.entry_resolve.specs.Entries.{Rewrites, Tells, resolve_expr_at, resolve_args_at, resolve_all};
ghost use Rattle.entry_read.specs.Answered.{ReadTo};
ghost use Rattle.entry_resolve.specs.Inner.{Ruled};

use base_strings::Strings;
use base_words::Refusal;
use resolve_exprs::Spot;
use rows_table::Rows;
use tree_expr::Cursor;
use tree_stmt::Source;

// The reading place past what was read, and how many words were written.
#[derive(Clone, Copy)]
pub struct Reached {
    pub end: usize,
    pub count: usize,
}

// Numbers 6, 11 and 10; else the rows.
fn ruled<'a>(
    rows: &'a [u32],
    names: &[u8],
    right: bool,
    size: usize,
    room: usize,
) -> Result<Rows<'a>, Refusal>
    ensures { Ruled names.now rows.now right size room result }
{
    let count = rows_lent::check_rows(rows, names).ok_or(Refusal::Rows)?;
    if !right {
        return Err(Refusal::Lookup);
    }
    if room < size {
        return Err(Refusal::Output);
    }
    Ok(Rows { words: rows, count })
}

// Whether a scope and a name are right.
fn admits(names: &[u8], scope: u32, name: u32) -> bool
    ensures { result ≡ (scope_ok names.now scope && is_marked names.now name) }
{
    rows_lent::scope_ok(names, scope) && rows_lent::is_name(names, name)
}

// The expression from `at` to `end`. Source, rows and output stay three parameters here and below: only `ruled` reads the rows, and a struct with
// the output would hold a `&mut`.
fn expression(
    source: &Source<'_>,
    rows: &[u32],
    scope: u32,
    at: usize,
    end: usize,
    out: &mut [u32],
) -> Result<Reached, Refusal>
    requires { ReadTo (expr_at source.now.words.now (strings_of source.now.names.now (length source.now.names.now)) max_depth at) end }
    ensures { Tells result out.old out.new (resolve_expr_at source.now.names.now source.now.words.now rows.now (length out.old) scope at) }
{
    let right = rows_lent::scope_ok(source.names, scope);
    let held = ruled(rows, source.names, right, end - at, out.len())?;
    let spot = Spot { at: 0, to: 0 };
    let past = resolve_exprs::resolve_expr(&source.words[at..end], &held, scope, out, spot);
    Ok(Reached {
        end,
        count: past.to,
    })
}

// The list of expressions from `at` to `end`, as the arguments of a name.
fn arguments(
    source: &Source<'_>,
    rows: &[u32],
    scope: u32,
    name: u32,
    at: usize,
    end: usize,
    out: &mut [u32],
) -> Result<Reached, Refusal>
    requires { ReadTo (list_at source.now.words.now (strings_of source.now.names.now (length source.now.names.now)) (λ (x : ℕ). expr_at source.now.words.now (strings_of source.now.names.now (length source.now.names.now)) max_depth x) at) end }
    ensures { Tells result out.old out.new (resolve_args_at source.now.names.now source.now.words.now rows.now (length out.old) scope name at) }
{
    let right = admits(source.names, scope, name);
    let held = ruled(rows, source.names, right, end - at, out.len())?;
    let w = source.words[at];
    out[0] = w;
    let spot = Spot { at: 1, to: 1 };
    let past = resolve_exprs::resolve_args(
        &source.words[at..end],
        &held,
        scope,
        out,
        spot,
        name,
        w % 16777216,
    );
    Ok(Reached {
        end,
        count: past.to,
    })
}

// The whole tree, which ends with the words.
fn program(source: &Source<'_>, rows: &[u32], out: &mut [u32]) -> Result<Reached, Refusal>
    requires { ReadTo (program_at source.now.words.now source.now.names.now (length source.now.names.now)) (length source.now.words.now) }
    ensures { Tells result out.old out.new (resolve_all source.now.names.now source.now.words.now rows.now (length out.old)) }
{
    let held = ruled(rows, source.names, true, source.words.len(), out.len())?;
    let count = resolve_scan::resolve_array_accesses(source, &held, out);
    Ok(Reached {
        end: source.words.len(),
        count,
    })
}

// The expression at `at`.
fn expression_at(
    source: &Source<'_>,
    rows: &[u32],
    scope: u32,
    at: usize,
    out: &mut [u32],
) -> Result<Reached, Refusal>
    ensures { Tells result out.old out.new (resolve_expr_at source.now.names.now source.now.words.now rows.now (length out.old) scope at) }
{
    let past = Cursor { at }.expr(source.words, &source.marks(), base_words::MAX_DEPTH)?;
    expression(source, rows, scope, at, past.at, out)
}

// The list of expressions at `at`, as the arguments of a name. (The two differ in what they read and in the call: one over both would take two closures, with their promises.)
fn arguments_at(
    source: &Source<'_>,
    rows: &[u32],
    scope: u32,
    name: u32,
    at: usize,
    out: &mut [u32],
) -> Result<Reached, Refusal>
    ensures { Tells result out.old out.new (resolve_args_at source.now.names.now source.now.words.now rows.now (length out.old) scope name at) }
{
    let past = Cursor { at }.list(source.words, &source.marks(), base_words::MAX_DEPTH)?;
    arguments(source, rows, scope, name, at, past.at, out)
}

// The whole tree.
fn program_at(source: &Source<'_>, rows: &[u32], out: &mut [u32]) -> Result<Reached, Refusal>
    ensures { Tells result out.old out.new (resolve_all source.now.names.now source.now.words.now rows.now (length out.old)) }
{
    let past = tree_stmt::program(source.words, &source.marks())?;
    if past.at != source.words.len() {
        return Err(Refusal::Word(past.at));
    }
    program(source, rows, out)
}

// Resolves the expression at a place, in a scope. The entries take what is lent slice by slice, as docs/ENTRIES.md lists it.
pub fn resolve_expr(
    bytes: &[u8],
    ends: &[u32],
    words: &[u32],
    rows: &[u32],
    scope: u32,
    at: usize,
    out: &mut [u32],
) -> Result<Reached, Refusal>
    ensures { Rewrites (sized_tree bytes.now ends.now words.now) bytes.now ends.now result out.old out.new (resolve_expr_at (names_of bytes.now ends.now) words.now rows.now (length out.old) scope at) }
{
    let strings = &Strings { bytes, ends };
    let sound = entry_read::begin(entry_read::sized_tree(strings, words), strings)?;
    let mut marks = [0; base_words::MAX_STRINGS];
    let names = &mut marks[..ends.len()];
    base_strings::mark_names(&sound, names);
    let source = &Source { words, names };
    expression_at(source, rows, scope, at, out)
}

// Resolves the list of expressions at a place, as the arguments of a name.
pub fn resolve_args(
    bytes: &[u8],
    ends: &[u32],
    words: &[u32],
    rows: &[u32],
    scope: u32,
    name: u32,
    at: usize,
    out: &mut [u32],
) -> Result<Reached, Refusal>
    ensures { Rewrites (sized_tree bytes.now ends.now words.now) bytes.now ends.now result out.old out.new (resolve_args_at (names_of bytes.now ends.now) words.now rows.now (length out.old) scope name at) }
{
    let strings = &Strings { bytes, ends };
    let sound = entry_read::begin(entry_read::sized_tree(strings, words), strings)?;
    let mut marks = [0; base_words::MAX_STRINGS];
    let names = &mut marks[..ends.len()];
    base_strings::mark_names(&sound, names);
    let source = &Source { words, names };
    arguments_at(source, rows, scope, name, at, out)
}

// Resolves the whole tree.
pub fn resolve_array_accesses(
    bytes: &[u8],
    ends: &[u32],
    words: &[u32],
    rows: &[u32],
    out: &mut [u32],
) -> Result<Reached, Refusal>
    ensures { Rewrites (sized_tree bytes.now ends.now words.now) bytes.now ends.now result out.old out.new (resolve_all (names_of bytes.now ends.now) words.now rows.now (length out.old)) }
{
    let strings = &Strings { bytes, ends };
    let sound = entry_read::begin(entry_read::sized_tree(strings, words), strings)?;
    let mut marks = [0; base_words::MAX_STRINGS];
    let names = &mut marks[..ends.len()];
    base_strings::mark_names(&sound, names);
    let source = &Source { words, names };
    program_at(source, rows, out)
}
