// `subscript_count` as an entry over a lent string table, a body's words and a name: 5, 1, 2 or 3, 11 in this order, or its answer.
#![tactic(auto)]

ghost use Rattle.std.specs.Prelude.{◌≡◌};
ghost use Rattle.base_strings.specs.Open.{Answers};
ghost use Rattle.base_strings.specs.Table.{names_of};
ghost use Rattle.entry_read.specs.Sized.{sized_tree};
ghost use Rattle.entry_subscript_count.specs.Count.{count_of, told, WasRead};

use base_strings::Strings;
use base_words::Refusal;
use tree_stmt::Source;

// A body that was read up to `at`: whether that is all, and number 11.
fn count_in(at: usize, source: &Source<'_>, name: u32) -> Result<Option<u32>, Refusal>
    requires { WasRead source.now.names.now source.now.words.now at }
    ensures { told result ≡ count_of source.now.names.now source.now.words.now name }
{
    if at != source.words.len() {
        return Err(Refusal::Word(at));
    }
    if !rows_lent::is_name(source.names, name) {
        return Err(Refusal::Lookup);
    }
    Ok(collect_subscript_count::subscript_count(source.words, 0, name))
}

// Where the names' marks are known: numbers 2 and 3.
fn count_of(source: &Source<'_>, name: u32) -> Result<Option<u32>, Refusal>
    ensures { told result ≡ count_of source.now.names.now source.now.words.now name }
{
    let end = tree_stmt::program(source.words, &source.marks())?;
    count_in(end.at, source, name)
}

// How many subscripts the body gives the name first. The tree is the body: one list of statements. (The entry takes a string table as document 01
// gives it, as bytes and ends.)
pub fn subscript_count(
    bytes: &[u8],
    ends: &[u32],
    words: &[u32],
    name: u32,
) -> Result<Option<u32>, Refusal>
    ensures { Answers (sized_tree bytes.now ends.now words.now) bytes.now ends.now (told result) (count_of (names_of bytes.now ends.now) words.now name) }
{
    let strings = &Strings { bytes, ends };
    let sound = entry_read::begin(entry_read::sized_tree(strings, words), strings)?;
    let mut marks = [0; base_words::MAX_STRINGS];
    let names = &mut marks[..ends.len()];
    base_strings::mark_names(&sound, names);
    count_of(&Source { words, names }, name)
}
