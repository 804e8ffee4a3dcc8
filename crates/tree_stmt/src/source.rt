// What a tree is read from.
ghost use Rattle.std.specs.Prelude.{◌≤◌, length};
ghost use Rattle.base_words.specs.Sizes.{max_strings};

// A tree's words, and for each string of its table whether it is a name.
#[derive(Clone, Copy)]
pub struct Source<'a> {
    pub words: &'a [u32],
    pub names: &'a [u8],
    ghost few: { length names.now ≤ max_strings },
}
