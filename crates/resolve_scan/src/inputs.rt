// What a scan reads from.
ghost use Rattle.std.specs.Prelude.{length};
ghost use Rattle.tree_stmt.specs.Memo.{Remembers};

use rows_table::Rows;
use tree_stmt::Source;

// A tree's words, the rows, and a memo of the ends of the tree's procedures: each step reads from them, and none changes them.
// The scope, the output and the spot change from step to step, and with them what a step asks (`ReadyToken`): they stay at each function.
#[derive(Clone, Copy)]
pub struct Inputs<'a> {
    pub source: Source<'a>,
    pub rows: Rows<'a>,
    pub memo: &'a [u32],
    ghost right: { Remembers source.words.now source.names.now (length source.names.now) memo.now },
}
