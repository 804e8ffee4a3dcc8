// The rows that a buffer holds.
ghost use Rattle.std.specs.Prelude.{◌*◌, ◌≤◌, length};
ghost use Rattle.rows_table.specs.Rows.{width};

// Rows in a buffer of words: as many as are counted.
#[derive(Clone, Copy)]
pub struct Rows<'a> {
    pub words: &'a [u32],
    pub count: usize,
    ghost fits: { count * width ≤ length words.now },
}
