// What is read of a procedure.
ghost use Rattle.std.specs.Prelude.{◌<◌};
ghost use Rattle.collect_as_clause.specs.Parts.{arg_word};

use rows_lookup::Typed;

// A parameter: its type is that of its AS clause. And the place past it. Its name and its type's argument are payloads.
#[derive(Clone, Copy)]
pub struct ParamAt {
    pub name: u32,
    pub byval: bool,
    pub array: bool,
    pub ty: Option<Typed>,
    pub next: usize,
    ghost small: { (name < 16777216) × (arg_word ty < 16777216) },
}

// A procedure: the places of its first parameter, of its body and past that, its result's type, and whether it is a FUNCTION, is STATIC and so keeps its variables,
// and is a DEF FN. Its name is the number of a string, of which there are at most 1,024.
#[derive(Clone, Copy)]
pub struct ProcAt {
    pub line: u32,
    pub name: u32,
    pub params: usize,
    pub count: u32,
    pub ty: Option<Typed>,
    pub body: usize,
    pub past: usize,
    pub function: bool,
    pub keeps: bool,
    pub deffn: bool,
    ghost few: { name < 1024 },
}
