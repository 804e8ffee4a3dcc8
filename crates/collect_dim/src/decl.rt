// A declarator, as it was read.
ghost use Rattle.std.specs.Prelude.{◌<◌};
ghost use Rattle.collect_as_clause.specs.Parts.{arg_word};

use rows_lookup::Typed;

// Its name, how many dimensions it has if it is an array, whether a lower bound is written, its type, and the place past it. Its name and its type's argument are payloads.
#[derive(Clone, Copy)]
pub struct Decl {
    pub name: u32,
    pub rank: Option<u32>,
    pub lower: bool,
    pub ty: Option<Typed>,
    pub next: usize,
    ghost small: { (name < 16777216) × (arg_word ty < 16777216) },
}
