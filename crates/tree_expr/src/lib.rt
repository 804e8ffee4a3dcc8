// Reads a flat tree of words: a cursor by value, and a `Result` for the answer.
// `words`, `names` and `left` stay parameters of their own, and no form is plainer: what reads no name takes the words alone, and `left` falls from level to level.
// Kinds of words are numbers, matched with ranges: document 01's form of a tree.
#![tactic(auto)]

ghost use Rattle.std.specs.Prelude.{◌≡◌, ◌+◌, ◌<◌, ◌≤◌, ◌^◌, length, get_or, IfOk, IfErr, cond, Ok, Err};
ghost use Rattle.tree_expr.specs.Reader.{raw_at, test_at, leaf_at, name_at, head_at, float_at, literal_at, list_at, expr_at};
ghost use Rattle.tree_expr.specs.Expr.{finite, Single};
ghost use Rattle.tree_expr.specs.Answer.{step_of, then};
ghost use Rattle.tree_expr.specs.declared.Misread.TheVariants.{Wrong};

mod names;

use base_words::Refusal;
pub use names::Names;

#[derive(Clone, Copy)]
pub struct Cursor {
    pub at: usize,
}

// Why no node could be read.
#[derive(Clone, Copy, Debug, PartialEq, Eq)]
pub enum Misread {
    // the first wrong word
    Wrong(usize),
    // a right head that stands too deep
    Deep(usize),
}

impl From<Misread> for Refusal {
    ghost use Rattle.tree_expr.specs.Answer.{refusal_of};

    ghost from_gives = { λ m r. r ≡ refusal_of m };

    fn from(m: Misread) -> Refusal {
        match m {
            Misread::Wrong(p) => Refusal::Word(p),
            Misread::Deep(p) => Refusal::Depth(p),
        }
    }
}

// The place past one node.
pub type Step = Result<Cursor, Misread>;

impl Cursor {
    // the word here; where the words have ended, their end is wrong
    pub fn word(self, words: &[u32]) -> Result<u32, Misread>
        ensures here { IfOk result (λ w. (self.at < length words.now) × (w ≡ get_or words.now self.at 0)) }
        ensures ended { IfErr result (λ e. (length words.now ≤ self.at) × (e ≡ Wrong (length words.now))) }
    {
        words
            .get(self.at)
            .copied()
            .ok_or(Misread::Wrong(words.len()))
    }

    // the place past the word here, if it is right
    pub fn past(self, right: bool) -> Step
        requires { self.at + 1 < 2 ^ 64 }
        ensures { result ≡ cond right (Ok (record { at = self.at + 1 })) (Err (Wrong self.at)) }
    {
        if right {
            Ok(Cursor { at: self.at + 1 })
        } else {
            Err(Misread::Wrong(self.at))
        }
    }

    // any word
    #[tactic(auto, unfolding(crate::specs::Answer::step_of, crate::specs::Reader::raw_at))]
    fn raw(self, words: &[u32]) -> Step
        ensures { result ≡ step_of (raw_at words.now self.at) }
    {
        self.word(words)?;
        self.past(true)
    }

    // the high word of a finite float (its exponent's bits: the float itself is made only where it is known to be finite)
    #[tactic(auto, unfolding(crate::specs::Answer::step_of, crate::specs::Reader::test_at))]
    fn high(self, words: &[u32]) -> Step
        ensures { result ≡ step_of (test_at words.now finite self.at) }
    {
        let w = self.word(words)?;
        self.past((w / 1048576) % 2048 != 2047)
    }

    // a word of a kind, its payload below a bound
    #[tactic(auto, unfolding(crate::specs::Answer::step_of, crate::specs::Reader::leaf_at))]
    pub fn leaf(self, words: &[u32], kind: u32, below: u32) -> Step
        ensures { result ≡ step_of (leaf_at words.now kind below self.at) }
    {
        let w = self.word(words)?;
        self.past(w / 16777216 == kind && w % 16777216 < below)
    }

    // the number of a string that is a name
    #[tactic(auto, unfolding(crate::specs::Answer::step_of, crate::specs::Reader::name_at))]
    pub fn name(self, words: &[u32], marks: &[u8]) -> Step
        ensures { result ≡ step_of (name_at words.now marks.now self.at) }
    {
        let w = self.word(words)?;
        let p = (w % 16777216) as usize;
        self.past(w / 16777216 == 2 && marks.get(p) == Some(&1))
    }

    // a head of a kind from a to b, its payload 0
    #[tactic(auto, unfolding(crate::specs::Answer::step_of, crate::specs::Reader::head_at))]
    pub fn head(self, words: &[u32], a: u32, b: u32) -> Step
        ensures { result ≡ step_of (head_at words.now a b self.at) }
    {
        let w = self.word(words)?;
        let k = w / 16777216;
        self.past(a <= k && k <= b && w % 16777216 == 0)
    }

    // the two words of a finite float
    fn float(self, words: &[u32]) -> Step
        ensures { result ≡ step_of (float_at words.now Single self.at) }
    {
        let c = self.raw(words)?;
        c.high(words)
    }

    // a literal, its head first; strings are numbered below n
    pub fn literal(self, words: &[u32], n: u32) -> Step
        ensures { result ≡ step_of (literal_at words.now n self.at) }
    {
        let c = self.head(words, 24, 28)?;
        let k = words[self.at] / 16777216;
        match k {
            24 | 25 => c.raw(words),
            26..=27 => c.float(words),
            _ => c.leaf(words, 2, n),
        }
    }

    // A list of expressions, each with `left` levels left. (By recursion, as the definition goes: `tree_stmt` reads the same by the stack that statements need.)
    #[cycle(binary_expr_field_list)]
    pub fn list(self, words: &[u32], names: &Names<'_>, left: usize) -> Step
        ensures { result ≡ step_of (list_at words.now (record { count = names.now.count; names = names.now.marks.now }) (expr_at words.now (record { count = names.now.count; names = names.now.marks.now }) left) self.at) }
    {
        let mut c = self.leaf(words, 1, 16777216)?;
        let count = words[self.at] % 16777216;
        for _ in 0..count {
            c = c.expr(words, names, left)?;
        }
        Ok(c)
    }

    // an expression with `left` levels left; strings are numbered below their count
    #[cycle(binary_expr_field_list)]
    pub fn expr(self, words: &[u32], names: &Names<'_>, left: usize) -> Step
        ensures { result ≡ step_of (expr_at words.now (record { count = names.now.count; names = names.now.marks.now }) left self.at) }
    {
        let c = self.head(words, 16, 23)?;
        if left == 0 {
            return Err(Misread::Deep(self.at));
        }
        let k = words[self.at] / 16777216;
        match k {
            16 => c.literal(words, names.count),
            17 => c.name(words, names.marks),
            18 | 21 => {
                let d = c.name(words, names.marks)?;
                d.list(words, names, left - 1)
            }
            19 => {
                let d = c.leaf(words, 9, 2)?;
                d.expr(words, names, left - 1)
            }
            20 => c.binary(words, names, left - 1),
            22 => c.field(words, names, left - 1),
            _ => c.expr(words, names, left - 1),
        }
    }

    // an operator and its two sides, each with `left` levels left
    #[cycle(binary_expr_field_list)]
    fn binary(self, words: &[u32], names: &Names<'_>, left: usize) -> Step
        ensures { result ≡ then (step_of (leaf_at words.now 9 18 self.at)) (λ m. then (step_of (expr_at words.now (record { count = names.now.count; names = names.now.marks.now }) left m)) (λ m'. step_of (expr_at words.now (record { count = names.now.count; names = names.now.marks.now }) left m'))) }
    {
        let c = self.leaf(words, 9, 18)?;
        let d = c.expr(words, names, left)?;
        d.expr(words, names, left)
    }

    // an expression with `left` levels left, and the name of a field of it
    #[cycle(binary_expr_field_list)]
    fn field(self, words: &[u32], names: &Names<'_>, left: usize) -> Step
        ensures { result ≡ then (step_of (expr_at words.now (record { count = names.now.count; names = names.now.marks.now }) left self.at)) (λ m. step_of (name_at words.now names.now.marks.now m)) }
    {
        let c = self.expr(words, names, left)?;
        c.name(words, names.marks)
    }
}
