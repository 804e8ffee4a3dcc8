// What is read of a TYPE.
ghost use Rattle.std.specs.Prelude.{◌+◌, ◌<◌};

use rows_lookup::Typed;

// A field: its name, its type, and the place past it. Its name and its type's argument are payloads.
#[derive(Clone, Copy)]
pub struct FieldAt {
    pub name: u32,
    pub ty: Typed,
    pub next: usize,
    ghost small: { (name < 16777216) × (ty.arg < 16777216) },
}

// A TYPE: its line, its name, the place of its first field, and how many fields it has. The number after its name is a payload too, for the rows of its
// fields end before it, and so is the count.
#[derive(Clone, Copy)]
pub struct TypeAt {
    pub line: u32,
    pub name: u32,
    pub fields: usize,
    pub count: u32,
    ghost small: { (name + 1 < 16777216) × (count < 16777216) },
}
