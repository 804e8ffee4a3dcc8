// Thin functions on a caller's own reading place, lent by `&mut`: it moves past what was read, and stays on a refusal. Statement and expression stay two, as in `entry_read`: one that
// takes the call as a closure would be longer by its promise.
#![tactic(auto)]

ghost use Rattle.entry_read.specs.Reading.{statement_of, expression_of};
ghost use Rattle.entry_cursor.specs.Lent.{Reads, Past};

use base_words::Refusal;
use entry_read::{Node, Reader};

// These entries take a string table as document 01 gives it, as bytes and ends, and pass both on to `entry_read`.

// Reads one statement where the cursor stands.
pub fn next_statement(
    cursor: &mut Reader,
    bytes: &[u8],
    ends: &[u32],
    words: &[u32],
) -> Result<Node, Refusal>
    ensures { Reads statement_of bytes.now ends.now words.now cursor.old.at result cursor.new.at }
{
    let past = cursor.statement(bytes, ends, words);
    *cursor = past.reader;
    past.answer
}

// Reads one expression where the cursor stands.
pub fn next_expression(
    cursor: &mut Reader,
    bytes: &[u8],
    ends: &[u32],
    words: &[u32],
) -> Result<Node, Refusal>
    ensures { Reads expression_of bytes.now ends.now words.now cursor.old.at result cursor.new.at }
{
    let after = cursor.expression(bytes, ends, words);
    *cursor = after.reader;
    after.answer
}

// The place past the statement at a place, or the same place where there is none: a cursor of its own is lent, so that a caller needs none.
pub fn past_statement(at: usize, bytes: &[u8], ends: &[u32], words: &[u32]) -> usize
    ensures { Past statement_of bytes.now ends.now words.now at result }
{
    let mut c = Reader { at };
    let _ = next_statement(&mut c, bytes, ends, words);
    c.at
}

// The same of an expression.
pub fn past_expression(at: usize, bytes: &[u8], ends: &[u32], words: &[u32]) -> usize
    ensures { Past expression_of bytes.now ends.now words.now at result }
{
    let mut c = Reader { at };
    let _ = next_expression(&mut c, bytes, ends, words);
    c.at
}
