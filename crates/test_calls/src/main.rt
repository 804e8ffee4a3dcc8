// Calls the public entries on cases from standard input and prints a line for each: its label, then the refusal's number and place, or 0 and what was answered;
// for an entry that writes, then every word of rows, diagnostics and output afterwards. The lines that must come are made in Rust, by the original and from
// document 01, and not by this program (docs/ORACLE.md).
// A case is its label, the entry and three numbers, the string bytes, ends, tree words, erased names, rows, diagnostics and output. All are words of 32 bits,
// little-endian, but label and string bytes; each part but the four words of the entry begins with its length.
#![tactic(auto)]

ghost use Rattle.std.specs.Prelude.{◌≡◌, ◌≤◌, length, IfOk};
ghost use Rattle.std.specs.Io.{ReadsAtMost};

use base_builtins::Arguments;
use base_numbers::TwoWords;
use base_words::Refusal;
use entry_analyse::Given;
use entry_collect::Sizes;
use entry_read::{Node, Reader};
use entry_resolve::Reached;
use fold_values::{Fold, Unfolded, Value};
use rows_lookup::{Array, Typed};
use std::io;
use std::io::Read;

// No more cases are read than this.
const MOST: u64 = 1000000;

// ---- writing

fn put(rt: &impl Print, b: &[u8]) -> io::Result<()> {
    rt.write_all(b)
}

fn hex(rt: &impl Print, w: u32) -> io::Result<()> {
    print!(rt; " {w:08x}")
}

// The words of a lent buffer, all of them.
fn show_words(rt: &impl Print, name: &[u8], words: &[u32]) -> io::Result<()> {
    put(rt, name)?;
    for &word in words {
        hex(rt, word)?;
    }
    Ok(())
}

// What an entry answers, as its line shows it after the 0.
trait Shown {
    fn show(self, rt: &impl Print) -> io::Result<()>;
}

impl Shown for () {
    fn show(self, rt: &impl Print) -> io::Result<()> {
        Ok(())
    }
}

impl Shown for bool {
    fn show(self, rt: &impl Print) -> io::Result<()> {
        put(rt, if self { b" yes" } else { b" no" })
    }
}

impl Shown for u32 {
    fn show(self, rt: &impl Print) -> io::Result<()> {
        print!(rt; " {self}")
    }
}

impl Shown for usize {
    fn show(self, rt: &impl Print) -> io::Result<()> {
        print!(rt; " {self}")
    }
}

impl<T: Shown> Shown for Option<T> {
    fn show(self, rt: &impl Print) -> io::Result<()> {
        match self {
            None => put(rt, b" none"),
            Some(x) => x.show(rt),
        }
    }
}

impl Shown for Node {
    fn show(self, rt: &impl Print) -> io::Result<()> {
        self.head.show(rt)?;
        self.first.show(rt)?;
        self.end.show(rt)
    }
}

impl Shown for Typed {
    fn show(self, rt: &impl Print) -> io::Result<()> {
        self.head.show(rt)?;
        self.arg.show(rt)
    }
}

impl Shown for Array {
    fn show(self, rt: &impl Print) -> io::Result<()> {
        self.rank.show(rt)?;
        self.line.show(rt)?;
        self.lower.show(rt)
    }
}

impl Shown for Arguments {
    fn show(self, rt: &impl Print) -> io::Result<()> {
        u32::from(self.least).show(rt)?;
        u32::from(self.most).show(rt)
    }
}

impl Shown for Sizes {
    fn show(self, rt: &impl Print) -> io::Result<()> {
        self.rows.show(rt)?;
        self.notes.show(rt)
    }
}

impl Shown for Reached {
    fn show(self, rt: &impl Print) -> io::Result<()> {
        self.end.show(rt)?;
        self.count.show(rt)
    }
}

impl Shown for Given {
    fn show(self, rt: &impl Print) -> io::Result<()> {
        self.notes.show(rt)?;
        self.rows.show(rt)?;
        self.words.show(rt)
    }
}

// 64 bits as a CONST row has them, after the literal's kind.
fn halves(rt: &impl Print, kind: u32, w: TwoWords) -> io::Result<()> {
    kind.show(rt)?;
    w.low.show(rt)?;
    w.high.show(rt)
}

// No value is out of this range, nor a float that is not finite. Two early returns, since the proof takes their two facts as they stand.
fn whole(rt: &impl Print, kind: u32, z: i64) -> io::Result<()> {
    if z < -4294967295 {
        return Ok(());
    }
    if 4294967295 < z {
        return Ok(());
    }
    halves(rt, kind, base_numbers::whole_words(z))
}

fn float(rt: &impl Print, kind: u32, x: f64) -> io::Result<()> {
    if base_numbers::is_finite(x) {
        halves(rt, kind, base_numbers::words_of(x))?;
    }
    Ok(())
}

impl Shown for Value {
    fn show(self, rt: &impl Print) -> io::Result<()> {
        match self {
            Value::Integer(z) => whole(rt, 24, z),
            Value::Long(z) => whole(rt, 25, z),
            Value::Single(x) => float(rt, 26, x),
            Value::Float(x) => float(rt, 27, x),
            Value::Text(t) => halves(rt, 28, TwoWords { low: t, high: 0 }),
        }
    }
}

impl Shown for Fold {
    fn show(self, rt: &impl Print) -> io::Result<()> {
        match self {
            Ok(v) => v.show(rt),
            Err(Unfolded::Overflow) => put(rt, b" code 11"),
            Err(Unfolded::NotConstant) => put(rt, b" code 12"),
        }
    }
}

// A refusal's number and place, or 0 and what was answered.
fn tell<T: Shown + Copy>(rt: &impl Print, answer: Result<T, Refusal>) -> io::Result<()> {
    match answer {
        Ok(x) => {
            put(rt, b" 0")?;
            x.show(rt)
        }
        Err(f) => {
            f.number().show(rt)?;
            f.place().show(rt)
        }
    }
}

// The same, and the reading place afterwards.
fn tell_at<T: Shown + Copy>(
    rt: &impl Print,
    answer: Result<T, Refusal>,
    at: usize,
) -> io::Result<()> {
    tell(rt, answer)?;
    put(rt, b" at")?;
    at.show(rt)
}

// ---- calling

// What a case asks: the entry, and its numbers.
#[derive(Clone, Copy)]
struct Ask {
    entry: u32,
    a: u32,
    b: u32,
    c: u32,
}

// What an entry only reads: the string bytes, ends, tree words and erased names.
#[derive(Clone, Copy)]
struct Lent<'a> {
    bytes: &'a [u8],
    ends: &'a [u32],
    words: &'a [u32],
    erased: &'a [u32],
}

// Rows, diagnostics and output, which an entry may write, stay three arguments: where a function takes them in one struct of `&mut`s and passes that on, the check has
// no proof of the borrows, by value and behind a `&mut` alike.

impl Lent<'_> {
    fn by_statement(self, rt: &impl Print, at: usize) -> io::Result<()> {
        let m = Reader { at }.statement(self.bytes, self.ends, self.words);
        tell_at(rt, m.answer, m.reader.at)
    }

    fn by_expression(self, rt: &impl Print, at: usize) -> io::Result<()> {
        let m = Reader { at }.expression(self.bytes, self.ends, self.words);
        tell_at(rt, m.answer, m.reader.at)
    }

    fn by_folding(self, rt: &impl Print, at: usize, rows: &[u32]) -> io::Result<()> {
        let e = entry_const_eval::const_eval(at, self.bytes, self.ends, self.words, rows);
        tell_at(rt, e.answer, e.at)
    }

    // Entries 0 to 6: reading at a place, and the check of a program.
    fn read(self, rt: &impl Print, ask: Ask) -> io::Result<()> {
        let Lent {
            bytes,
            ends,
            words,
            erased,
        } = self;
        let at = ask.a as usize;
        match ask.entry {
            0 => tell(rt, entry_read::read_statement(at, bytes, ends, words)),
            1 => tell(rt, entry_read::read_expression(at, bytes, ends, words)),
            2 => self.by_statement(rt, at),
            3 => self.by_expression(rt, at),
            4 => tell(rt, entry_read::accept(bytes, ends, words, erased)),
            5 => entry_cursor::past_statement(at, bytes, ends, words).show(rt),
            _ => entry_cursor::past_expression(at, bytes, ends, words).show(rt),
        }
    }

    // Entries 7 to 14: the lookups.
    fn look(self, rt: &impl Print, ask: Ask, rows: &[u32]) -> io::Result<()> {
        let Lent { bytes, ends, .. } = self;
        let Ask { entry, a, b, c } = ask;
        let array = c == 1;
        match entry {
            7 => tell(rt, entry_lookup::shares(bytes, ends, rows, a, b, array)),
            8 => tell(rt, entry_lookup::is_static(bytes, ends, rows, a, b, array)),
            9 => tell(rt, entry_lookup::type_words(bytes, ends, rows, a, b)),
            10 => tell(rt, entry_lookup::typed_var(bytes, ends, rows, a, b)),
            11 => tell(rt, entry_lookup::typed_var_in(bytes, ends, rows, a, b)),
            12 => tell(rt, entry_lookup::lookup_array(bytes, ends, rows, a, b)),
            13 => tell(rt, entry_lookup::declared_type(bytes, ends, rows, a, b)),
            _ => tell(rt, entry_lookup::builtin(bytes, ends, a)),
        }
    }

    // Entries 15 to 18: what collecting asks, and collecting.
    fn gather(
        self,
        rt: &impl Print,
        ask: Ask,
        rows: &mut [u32],
        notes: &mut [u32],
    ) -> io::Result<()> {
        let Lent {
            bytes,
            ends,
            words,
            erased,
        } = self;
        let a = ask.a;
        match ask.entry {
            15 => self.by_folding(rt, a as usize, rows),
            16 => tell(
                rt,
                entry_subscript_count::subscript_count(bytes, ends, words, a),
            ),
            17 => tell(
                rt,
                entry_collisions::check_name_collisions(bytes, ends, rows, notes),
            ),
            _ => tell(
                rt,
                entry_collect::collect(bytes, ends, words, erased, rows, notes),
            ),
        }
    }

    // Entries 19 to 21: resolving.
    fn rewrite(self, rt: &impl Print, ask: Ask, rows: &[u32], out: &mut [u32]) -> io::Result<()> {
        let Lent {
            bytes,
            ends,
            words,
            ..
        } = self;
        let scope = ask.a;
        let name = ask.b;
        let at = ask.c as usize;
        let answer = match ask.entry {
            19 => entry_resolve::resolve_expr(bytes, ends, words, rows, scope, at, out),
            20 => entry_resolve::resolve_args(bytes, ends, words, rows, scope, name, at, out),
            _ => entry_resolve::resolve_array_accesses(bytes, ends, words, rows, out),
        };
        tell(rt, answer)
    }

    fn answer(
        self,
        rt: &impl Print,
        ask: Ask,
        rows: &mut [u32],
        notes: &mut [u32],
        out: &mut [u32],
    ) -> io::Result<()> {
        let Lent {
            bytes,
            ends,
            words,
            erased,
        } = self;
        match ask.entry {
            0..=6 => self.read(rt, ask),
            7..=14 => self.look(rt, ask, rows),
            15..=18 => self.gather(rt, ask, rows, notes),
            19..=21 => self.rewrite(rt, ask, rows, out),
            _ => tell(
                rt,
                entry_analyse::analyse(bytes, ends, words, erased, notes, rows, out),
            ),
        }
    }

    fn call(
        self,
        rt: &impl Print,
        ask: Ask,
        rows: &mut [u32],
        notes: &mut [u32],
        out: &mut [u32],
    ) -> io::Result<()> {
        self.answer(rt, ask, rows, notes, out)?;
        left(rt, ask.entry, rows, notes, out)?;
        put(rt, b"\n")
    }
}

// What stands in the buffers afterwards; entries below 17 write none.
fn left(rt: &impl Print, entry: u32, rows: &[u32], notes: &[u32], out: &[u32]) -> io::Result<()> {
    if entry < 17 {
        return Ok(());
    }
    show_words(rt, b" rows", rows)?;
    show_words(rt, b" notes", notes)?;
    show_words(rt, b" out", out)
}

// ---- reading

// The next word of the input, 0 where it ends.
fn read_word<R: Read>(input: &mut R) -> io::Result<u32> {
    let mut space = [0u8; 4];
    if base_input::read_full(input, &mut space)? < 4 {
        return Ok(0);
    }
    Ok(list_image::word(&space, 0))
}

// A length, at most `most`.
fn read_length<R: Read>(input: &mut R, most: usize) -> io::Result<usize>
    ensures { IfOk result (λ n. n ≤ most) }
{
    let n = read_word(input)? as usize;
    Ok(n.min(most))
}

// The next bytes of the input into the buffer's beginning: how many.
fn read_bytes<R: Read>(input: &mut R, b: &mut [u8]) -> io::Result<usize>
    ensures { ReadsAtMost result b.new }
{
    let n = read_length(input, b.len())?;
    Ok(if base_input::read_part(input, b, n)? {
        n
    } else {
        0
    })
}

// The next words of the input into the buffer's beginning: how many.
fn read_words<R: Read>(input: &mut R, w: &mut [u32]) -> io::Result<usize>
    ensures { ReadsAtMost result w.new }
{
    let n = read_length(input, w.len())?;
    for word in &mut w[..n] {
        *word = read_word(input)?;
    }
    Ok(n)
}

fn read_ask<R: Read>(input: &mut R) -> io::Result<Ask> {
    let entry = read_word(input)?;
    let a = read_word(input)?;
    let b = read_word(input)?;
    let c = read_word(input)?;
    Ok(Ask { entry, a, b, c })
}

// The next label of the input, written: whether there is one.
fn copy_label<R: Read>(rt: &impl Print, input: &mut R) -> io::Result<bool> {
    let mut space = [0u8; 4096];
    let n = read_bytes(input, &mut space)?;
    put(rt, &space[..n])?;
    Ok(0 < n)
}

// Room for more strings, erased names, tree words, rows, diagnostics and output than there may be.
#[derive(Drop)]
struct Room {
    bytes: [u8; 65536],
    ends: [u32; 1056],
    words: [u32; 8224],
    erased: [u32; 1056],
    rows: [u32; 8224],
    notes: [u32; 8224],
    out: [u32; 8224],
}

impl Room {
    // What follows the label, read and called.
    fn next<R: Read>(&mut self, rt: &impl Print, input: &mut R) -> io::Result<()> {
        let ask = read_ask(input)?;
        let b = read_bytes(input, &mut self.bytes)?;
        let e = read_words(input, &mut self.ends)?;
        let w = read_words(input, &mut self.words)?;
        let x = read_words(input, &mut self.erased)?;
        let r = read_words(input, &mut self.rows)?;
        let n = read_words(input, &mut self.notes)?;
        let o = read_words(input, &mut self.out)?;
        let lent = Lent {
            bytes: &self.bytes[..b],
            ends: &self.ends[..e],
            words: &self.words[..w],
            erased: &self.erased[..x],
        };
        // Whole slices first: the check takes a part of an array field as `&` alone.
        let rows = &mut self.rows[..];
        let notes = &mut self.notes[..];
        let out = &mut self.out[..];
        lent.call(rt, ask, &mut rows[..r], &mut notes[..n], &mut out[..o])
    }

    // Every case.
    fn all<R: Read>(&mut self, rt: &impl Print, input: &mut R) -> io::Result<()> {
        for _ in 0..MOST {
            if !copy_label(rt, input)? {
                return Ok(());
            }
            self.next(rt, input)?;
        }
        Ok(())
    }
}

fn main(rt: HostRuntime) -> io::Result<()> {
    let mut room = Room {
        bytes: base_input::room(0),
        ends: base_input::room(0),
        words: base_input::room(0),
        erased: base_input::room(0),
        rows: base_input::room(0),
        notes: base_input::room(0),
        out: base_input::room(0),
    };
    room.all(&rt, &mut rt.stdin())
}
