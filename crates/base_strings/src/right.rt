// A string table that meets its rule.
ghost use Rattle.std.specs.Prelude.{◌≡◌, true};
ghost use Rattle.base_strings.specs.Table.{sound};

// The same two lists, where it is known that they meet the rule.
#[derive(Clone, Copy)]
pub struct Sound<'a> {
    pub bytes: &'a [u8],
    pub ends: &'a [u32],
    ghost right: { sound bytes.now ends.now ≡ true },
}
