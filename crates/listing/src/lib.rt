// The listing of a program's image, for the program `list` and, by `listing_c`, for a compiler in Rust.
#![tactic(auto)]

ghost use Rattle.std.specs.Prelude.{◌≡◌, true, ◌*◌, ◌≤◌, length};
ghost use Rattle.base_text.specs.Wrote.{Wrote, size, laid};
ghost use Rattle.rows_table.specs.Rows.{width, note_width};
ghost use Rattle.collect_buffers.specs.Held.{Fresh};
ghost use Rattle.entry_analyse.specs.ReadOff.{Within};
ghost use Rattle.listing.specs.Listing.{listing as listing_of};
ghost use Rattle.listing.specs.Shown.{answer_text, program_text, limit, too_short, WroteUnless};

mod opened;

use base_strings::Strings;
use base_text::finish;
use base_words::Refusal;
use entry_analyse::{Given, analyse_in};
use list_image::{open, read_words};
use list_page::{Counts, put_page, put_refusal};
use opened::Opened;

// The text of an answer and of what stands in the buffers.
fn put_answer(
    out: &mut [u8],
    strings: &Strings<'_>,
    notes: &[u32],
    rows: &[u32],
    words: &[u32],
    a: Result<Given, Refusal>,
) -> usize
    requires { Within a notes.now rows.now words.now }
    ensures { Wrote (answer_text strings.now.bytes.now strings.now.ends.now a notes.now rows.now words.now) out.old out.new 0 result }
{
    match a {
        Err(r) => put_refusal(out, r.number()),
        Ok(n) => put_page(
            out,
            strings,
            notes,
            rows,
            &words[..n.words],
            Counts {
                notes: n.notes,
                rows: n.rows,
            },
        ),
    }
}

// Whether the rows or the diagnostics had too little room: document 01's 7 or 8. By the number, since after a pattern of the two variants the check knows of any
// other one by Rattle's own names alone.
#[tactic(auto, using(crate::proofs::Laws::refused_short, crate::proofs::Laws::done_short), unfolding(crate::specs::Shown::too_short, crate::specs::Shown::limit))]
fn too_short(a: Result<Given, Refusal>) -> bool
    ensures { result ≡ too_short a }
{
    match a {
        Err(r) => {
            let n = r.number();
            n == 7 || n == 8
        }
        Ok(_) => false,
    }
}

// The text of what the passes give, with the rows and diagnostics that are promised. (The lent buffers stay parameters here and below: a ghost field beside a `&mut` isn't had,
// so a struct of them would carry none of the facts that are asked.)
fn put_all(
    out: &mut [u8],
    strings: &Strings<'_>,
    words: &[u32],
    erased: &[u32],
    notes: &mut [u32],
    rows: &mut [u32],
    resolved: &mut [u32],
) -> usize
    requires { (length words.now ≤ length resolved.old) × (length rows.old ≡ 2048 * width) × (length notes.old ≡ 2048 * note_width) × Fresh true rows.old notes.old }
    ensures { Wrote (program_text strings.now.bytes.now strings.now.ends.now erased.now words.now) out.old out.new 0 result }
{
    let a = analyse_in(strings, words, erased, notes, rows, resolved, true);
    put_answer(out, strings, notes, rows, resolved, a)
}

// In all the room. It reads the image itself and so stays a function of its own: the stack of one that calls it is touched only as far as that one needs.
fn put_full(out: &mut [u8], opened: &Opened<'_>) -> usize
    ensures { Wrote (listing_of opened.now.image.now) out.old out.new 0 result }
{
    let s = opened.shape;
    let mut ends = [0u32; 1024];
    let mut words = [0u32; 8192];
    let mut erased = [0u32; 1024];
    let mut notes = [0u32; 12288];
    let mut rows = [0u32; 12288];
    let mut resolved = [0u32; 8192];
    let tree_from = 12 + 4 * s.strings;
    let erased_from = tree_from + 4 * s.words;
    let from = erased_from + 4 * s.erased;
    let to = from + s.bytes;
    read_words(opened.image, 12, s.strings, &mut ends);
    read_words(opened.image, tree_from, s.words, &mut words);
    read_words(opened.image, erased_from, s.erased, &mut erased);
    put_all(
        out,
        &Strings {
            bytes: &opened.image[from..to],
            ends: &ends[..s.strings],
        },
        &words[..s.words],
        &erased[..s.erased],
        &mut notes,
        &mut rows,
        &mut resolved,
    )
}

// The text of a program's parts by a run in shorter buffers: to clear all the room costs more than a small program does. Where they are too short
// nothing is written.
fn put_first(
    out: &mut [u8],
    strings: &Strings<'_>,
    words: &[u32],
    erased: &[u32],
    notes: &mut [u32],
    rows: &mut [u32],
    resolved: &mut [u32],
) -> Option<usize>
    requires { (length words.now ≤ length resolved.old) × (length rows.old ≤ 2048 * width) × (length notes.old ≤ 2048 * note_width) × Fresh true rows.old notes.old }
    ensures { WroteUnless (program_text strings.now.bytes.now strings.now.ends.now erased.now words.now) out.old out.new result }
{
    let a = analyse_in(strings, words, erased, notes, rows, resolved, true);
    if too_short(a) {
        return None;
    }
    Some(put_answer(out, strings, notes, rows, resolved, a))
}

// An image's words read into lent buffers; its string bytes stay where they are. (The places are worked out as in `put_full`: a function of both would answer four numbers,
// and its contract would say them again.)
fn put_read(
    out: &mut [u8],
    opened: &Opened<'_>,
    ends: &mut [u32],
    words: &mut [u32],
    erased: &mut [u32],
    notes: &mut [u32],
    rows: &mut [u32],
    resolved: &mut [u32],
) -> Option<usize>
    requires { (opened.now.shape.strings ≤ length ends.old) × (opened.now.shape.words ≤ length words.old) × (opened.now.shape.erased ≤ length erased.old) × (length rows.old ≤ 2048 * width) × (length notes.old ≤ 2048 * note_width) × (opened.now.shape.words ≤ length resolved.old) × Fresh true rows.old notes.old }
    ensures { WroteUnless (listing_of opened.now.image.now) out.old out.new result }
{
    let s = opened.shape;
    let tree_from = 12 + 4 * s.strings;
    let erased_from = tree_from + 4 * s.words;
    let from = erased_from + 4 * s.erased;
    let to = from + s.bytes;
    read_words(opened.image, 12, s.strings, ends);
    read_words(opened.image, tree_from, s.words, words);
    read_words(opened.image, erased_from, s.erased, erased);
    put_first(
        out,
        &Strings {
            bytes: &opened.image[from..to],
            ends: &ends[..s.strings],
        },
        &words[..s.words],
        &erased[..s.erased],
        notes,
        rows,
        resolved,
    )
}

// In buffers of these sizes: nothing is written where the image's parts are larger, or its rows or diagnostics have too little room. It is not inlined, so that
// the stack of a function that calls it is touched only as far as that one needs.
#[inline(never)]
fn put_level<
    const STRINGS: usize,
    const WORDS: usize,
    const ERASED: usize,
    const NOTES: usize,
    const ROWS: usize,
>(out: &mut [u8], opened: &Opened<'_>) -> Option<usize>
    requires { (STRINGS ≤ 1024) × (WORDS ≤ 8192) × (ERASED ≤ 1024) × (NOTES ≤ 2048 * note_width) × (ROWS ≤ 2048 * width) }
    ensures { WroteUnless (listing_of opened.now.image.now) out.old out.new result }
{
    let s = opened.shape;
    if STRINGS < s.strings || WORDS < s.words || ERASED < s.erased {
        return None;
    }
    let mut ends = [0u32; STRINGS];
    let mut words = [0u32; WORDS];
    let mut erased = [0u32; ERASED];
    let mut notes = [0u32; NOTES];
    let mut rows = [0u32; ROWS];
    let mut resolved = [0u32; WORDS];
    put_read(
        out,
        opened,
        &mut ends,
        &mut words,
        &mut erased,
        &mut notes,
        &mut rows,
        &mut resolved,
    )
}

// Many words, strings or erased names, in 73,728 bytes of buffers; 1,024 rows and 1,024 diagnostics, one for two words. (A function for each size: which is
// next depends on what was too little, and the sizes are const parameters, which no table can hold.)
// (A `match` here and below: the closure of an `unwrap_or_else` would write `out`, and what stands there then the check does not find by itself.)
fn put_names_middle(out: &mut [u8], opened: &Opened<'_>) -> usize
    ensures { Wrote (listing_of opened.now.image.now) out.old out.new 0 result }
{
    match put_level::<1024, 2048, 1024, 6144, 6144>(out, opened) {
        Some(at) => at,
        None => put_full(out, opened),
    }
}

// In 33,280 bytes of buffers; 512 rows and 512 diagnostics, one for two words, so that few programs are run twice.
fn put_middle(out: &mut [u8], opened: &Opened<'_>) -> usize
    ensures { Wrote (listing_of opened.now.image.now) out.old out.new 0 result }
{
    let s = opened.shape;
    if 1024 < s.words || 64 < s.strings || 64 < s.erased {
        return put_names_middle(out, opened);
    }
    match put_level::<64, 1024, 64, 3072, 3072>(out, opened) {
        Some(at) => at,
        None => put_full(out, opened),
    }
}

// Many strings or erased names, in 24,576 bytes of buffers; 256 rows and 256 diagnostics, one for two words.
fn put_names_small(out: &mut [u8], opened: &Opened<'_>) -> usize
    ensures { Wrote (listing_of opened.now.image.now) out.old out.new 0 result }
{
    match put_level::<1024, 512, 1024, 1536, 1536>(out, opened) {
        Some(at) => at,
        None => put_names_middle(out, opened),
    }
}

// In 7,680 bytes of buffers; 64 rows and 64 diagnostics.
fn put_small(out: &mut [u8], opened: &Opened<'_>) -> usize
    ensures { Wrote (listing_of opened.now.image.now) out.old out.new 0 result }
{
    let s = opened.shape;
    if s.words <= 512 && (64 < s.strings || 64 < s.erased) {
        return put_names_small(out, opened);
    }
    match put_level::<64, 512, 64, 384, 384>(out, opened) {
        Some(at) => at,
        None => put_middle(out, opened),
    }
}

// Many strings or erased names for so few words, in 6,144 bytes of buffers; 64 rows and 64 diagnostics, one for two words.
fn put_names_tiny(out: &mut [u8], opened: &Opened<'_>) -> usize
    ensures { Wrote (listing_of opened.now.image.now) out.old out.new 0 result }
{
    match put_level::<256, 128, 256, 384, 384>(out, opened) {
        Some(at) => at,
        None => put_names_small(out, opened),
    }
}

// In 2,368 bytes of buffers; 32 rows and 16 diagnostics.
fn put_tiny(out: &mut [u8], opened: &Opened<'_>) -> usize
    ensures { Wrote (listing_of opened.now.image.now) out.old out.new 0 result }
{
    let s = opened.shape;
    if s.words <= 128 && (32 < s.strings || 16 < s.erased) {
        return put_names_tiny(out, opened);
    }
    match put_level::<32, 128, 16, 96, 192>(out, opened) {
        Some(at) => at,
        None => put_small(out, opened),
    }
}

// In 472 bytes of buffers; 8 rows and 4 diagnostics.
fn put_least(out: &mut [u8], opened: &Opened<'_>) -> usize
    ensures { Wrote (listing_of opened.now.image.now) out.old out.new 0 result }
{
    match put_level::<8, 16, 4, 24, 48>(out, opened) {
        Some(at) => at,
        None => put_tiny(out, opened),
    }
}

fn put_listing(out: &mut [u8], image: &[u8]) -> usize
    ensures { Wrote (listing_of image.now) out.old out.new 0 result }
{
    match open(image) {
        Some(shape) => put_least(out, &Opened { image, shape }),
        None => put_refusal(out, 5),
    }
}

// The listing's length; or 0, and `out` zero, where it doesn't fit. Bytes past the listing stay.
pub fn patskneli_listing(image: &[u8], out: &mut [u8]) -> usize
    ensures { (result ≡ size (listing_of image.now) out.old) × (out.new ≡ laid (listing_of image.now) out.old) }
{
    let at = put_listing(out, image);
    finish(out, at)
}
