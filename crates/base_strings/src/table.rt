// A string table, as it is given.

// The strings' bytes one after another, and where each string ends in them.
#[derive(Clone, Copy)]
pub struct Strings<'a> {
    pub bytes: &'a [u8],
    pub ends: &'a [u32],
}
