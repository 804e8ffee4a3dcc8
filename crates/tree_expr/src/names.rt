// Which strings are names.

// The marks of the strings, 1 where one is a name (bytes, as the definitions have them), and how many strings there are.
#[derive(Clone, Copy)]
pub struct Names<'a> {
    pub marks: &'a [u8],
    pub count: u32,
}
