// A program, as collecting takes it.
ghost use Rattle.collect_definition.specs.Code.{Named};

use base_strings::Sound;
use tree_stmt::Source;

// A tree, its strings, which meet their rule, and the names whose declarations are erased. The tree's marks are those of the strings.
#[derive(Clone, Copy)]
pub struct Program<'a> {
    pub source: Source<'a>,
    pub strings: Sound<'a>,
    pub erased: &'a [u32],
    ghost named: { Named strings.bytes.now strings.ends.now source.names.now },
}
