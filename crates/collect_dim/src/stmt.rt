// What a statement says of all its declarators.

// The scope that it stands in, its line, and whether it is a REDIM and says PRESERVE.
#[derive(Clone, Copy)]
pub struct Stmt {
    pub scope: u32,
    pub line: u32,
    pub redim: bool,
    pub preserve: bool,
}
