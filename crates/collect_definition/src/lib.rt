// `collect` and `check_name_collisions` are definitions so far: see specs/.
#![tactic(auto)]

// The most words that the kept fields of a TYPE have.
pub const TYPE_WORDS: u32 = 65535;
