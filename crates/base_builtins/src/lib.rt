// The builtin functions of sema.rs, by name.
#![tactic(auto)]

ghost use Rattle.std.specs.Prelude.{◌≡◌, map};
ghost use Rattle.base_builtins.specs.Builtins.{length_fits, may_be, entry_of, builtin as builtin_of};
ghost use Rattle.base_builtins.specs.Answers.{arguments_of, told};

// The least and most arguments that a builtin function takes.
#[derive(Clone, Copy, Debug, PartialEq, Eq)]
pub struct Arguments {
    pub least: u8,
    pub most: u8,
}

// A builtin function: its name, and the least and most arguments.
struct Takes(&'static [u8], u8, u8);

// `BUILTINS` of sema.rs.
static BUILTINS: [Takes; 55] = [
    Takes(b"ABS", 1, 1),
    Takes(b"ASC", 1, 1),
    Takes(b"ATN", 1, 1),
    Takes(b"CDBL", 1, 1),
    Takes(b"CHR$", 1, 1),
    Takes(b"CINT", 1, 1),
    Takes(b"CLNG", 1, 1),
    Takes(b"COS", 1, 1),
    Takes(b"CSNG", 1, 1),
    Takes(b"CVD", 1, 1),
    Takes(b"CVI", 1, 1),
    Takes(b"CVL", 1, 1),
    Takes(b"CVS", 1, 1),
    Takes(b"EOF", 1, 1),
    Takes(b"EXP", 1, 1),
    Takes(b"FIX", 1, 1),
    Takes(b"HEX$", 1, 1),
    Takes(b"INSTR", 2, 3),
    Takes(b"INT", 1, 1),
    Takes(b"LBOUND", 1, 2),
    Takes(b"LCASE$", 1, 1),
    Takes(b"LEFT$", 2, 2),
    Takes(b"LEN", 1, 1),
    Takes(b"LOC", 1, 1),
    Takes(b"LOF", 1, 1),
    Takes(b"LTRIM$", 1, 1),
    Takes(b"LOG", 1, 1),
    Takes(b"MID$", 2, 3),
    Takes(b"MKD$", 1, 1),
    Takes(b"MKI$", 1, 1),
    Takes(b"MKL$", 1, 1),
    Takes(b"MKS$", 1, 1),
    Takes(b"OCT$", 1, 1),
    Takes(b"POS", 1, 1),
    Takes(b"DATE$", 0, 0),
    Takes(b"TIME$", 0, 0),
    Takes(b"FRE", 1, 1),
    Takes(b"RIGHT$", 2, 2),
    Takes(b"RTRIM$", 1, 1),
    Takes(b"RND", 0, 1),
    Takes(b"SGN", 1, 1),
    Takes(b"SPC", 1, 1),
    Takes(b"SIN", 1, 1),
    Takes(b"SPACE$", 1, 1),
    Takes(b"SQR", 1, 1),
    Takes(b"STR$", 1, 1),
    Takes(b"STRING$", 2, 2),
    Takes(b"TAB", 1, 1),
    Takes(b"UBOUND", 1, 2),
    Takes(b"UCASE$", 1, 1),
    Takes(b"TAN", 1, 1),
    Takes(b"TIMER", 0, 1),
    Takes(b"ERR", 0, 0),
    Takes(b"ERL", 0, 0),
    Takes(b"VAL", 1, 1),
];

// Whether a builtin's name of 3 to 7 bytes that begins with this one may have this length.
#[tactic(auto, using(std::proofs::lemmas::Bool::Decides::nat_tests), unfolding(crate::specs::Builtins::length_fits))]
fn length_fits(first: u8, n: usize) -> bool
    ensures { result ≡ length_fits first n }
{
    match first {
        b'A' | b'E' | b'F' | b'P' | b'V' => n == 3,
        b'C' => n <= 4,
        b'D' => n == 5,
        b'H' | b'M' | b'O' => n == 4,
        b'I' | b'T' => n == 3 || n == 5,
        b'L' => n != 4,
        b'R' => n == 3 || n == 6,
        b'S' => n != 5,
        b'U' => n == 6,
        _ => false,
    }
}

// Whether a name has a length and a first byte that a builtin's may have.
#[tactic(auto, using(std::proofs::lemmas::Bool::Decides::nat_tests), unfolding(crate::specs::Builtins::may_be))]
fn may_be(name: &[u8]) -> bool
    ensures { result ≡ may_be name.now }
{
    match name.len() {
        n @ 3..=7 => length_fits(name[0], n),
        _ => false,
    }
}

// The first entry of that name.
fn search(name: &[u8], entries: &[Takes]) -> Option<Arguments>
    ensures { result ≡ arguments_of (entry_of name.now (map told entries.now)) }
{
    let entry = entries.iter().find(|entry| entry.0 == name)?;
    Some(Arguments {
        least: entry.1,
        most: entry.2,
    })
}

// The builtin function of that name. Few other names pass the quick test before the search.
pub fn builtin(name: &[u8]) -> Option<Arguments>
    ensures { result ≡ arguments_of (builtin_of name.now) }
{
    if !may_be(name) {
        return None;
    }
    search(name, &BUILTINS)
}
