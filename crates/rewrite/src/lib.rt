// An Access 2000 stream in its short spelling. A stream that fits a reading is, from byte 10 on, one piece after the other: a property, or what stands after
// a run with the type of the entry that follows. So one loop walks it, without levels: to count what is written, and then to write it.
#![tactic(auto)]

ghost use Rattle.std.specs.Prelude.{◌≡◌, true, false, ◌≤◌, ◌<◌, length};
ghost use Rattle.rules.specs.Access2000.{goes_on_lem};
ghost use Rattle.rules.specs.Rewrite.{rewrite_exit};
ghost use Rattle.text.specs.Writer.{Wrote};
ghost use Rattle.rewrite.specs.Pieces.{between, AfterType, Spells, InOrder, size_of, piece_bytes, Accepted, body, Sized};

use count2000::{OBJECT_RUN, count};
use numbers::u16_if_inside;
use rules::{Answer, LAST_SIZED_ID, LONGEST, NO_READING, NO_ROOM_FOR_TEXT, TOO_LONG};
use text::{put_byte, put_text, refused, wrote};
use walk2000::{ENTRY_END, Opens, head, value};

// A list of one entry.
const ONE: u8 = 0xFE;

// A length or a count of two bytes follows.
const LONG: u8 = 0xFF;

// The longest value whose length is one byte.
const SHORT: usize = 254;

// A piece as it is written: its bytes up to `keep`, the byte `lead`, and its bytes from `start` on. The next piece is at `next`.
#[derive(Clone, Copy)]
struct Piece {
    keep: usize,
    lead: u8,
    start: usize,
    next: usize,
}

// No piece; a stream that fits a reading has none such.
fn nothing(at: usize) -> Piece
    ensures { result.next ≡ at }
{
    Piece {
        keep: at,
        lead: 0,
        start: at,
        next: at,
    }
}

// The place after an entry's type, or `at` where no entry follows.
fn after_type(s: &[u8], at: usize) -> usize
    ensures { AfterType s.now at result }
{
    match u16_if_inside(s, at) {
        Some(_) => at + 2,
        None => at,
    }
}

#[tactic(auto, using(crate::proofs::PropertyLaws::told_spells, crate::proofs::PropertyLaws::short_spells, crate::proofs::PropertyLaws::long_spells, crate::proofs::PropertyLaws::value_inside))]
fn property(s: &[u8], at: usize) -> Piece
    requires at_in_bounds { at < length s.now }
    requires at_value { goes_on_lem s.now at ≡ true }
    ensures { Spells s.now at result }
{
    let id = s[at];
    let Some(v) = value(s, at) else {
        return nothing(at);
    };
    let next = v.start + v.size;
    if id <= LAST_SIZED_ID {
        return Piece {
            keep: at,
            lead: id,
            start: v.start,
            next,
        };
    }
    let keep = at + 1;
    if v.size <= SHORT {
        return Piece {
            keep,
            lead: v.size as u8,
            start: v.start,
            next,
        };
    }
    Piece {
        keep,
        lead: LONG,
        start: keep + 1,
        next,
    }
}

// What stands after a run, and the type of the entry that follows.
#[tactic(auto, using(walk2000::proofs::Inverse::opens_plain, walk2000::proofs::Inverse::opens_listed, crate::proofs::OpeningLaws::plain_spells, crate::proofs::OpeningLaws::one_spells))]
fn opening(s: &[u8], at: usize) -> Piece
    requires at_in_bounds { at < length s.now }
    requires at_value { goes_on_lem s.now at ≡ false }
    ensures { Spells s.now at result }
{
    match head(s, at) {
        None => nothing(at),
        Some(Opens::Plain { next }) => Piece {
            keep: at,
            lead: ENTRY_END,
            start: next,
            next: after_type(s, next),
        },
        Some(Opens::Listed { count, next }) => {
            let end = after_type(s, next);
            if count == 1 {
                return Piece {
                    keep: at,
                    lead: ONE,
                    start: next,
                    next: end,
                };
            }
            Piece {
                keep: at,
                lead: LONG,
                start: at + 1,
                next: end,
            }
        }
    }
}

#[tactic(auto, unfolding(rules::specs::Access2000::goes_on_lem))]
fn piece_at(s: &[u8], at: usize) -> Piece
    requires { at < length s.now }
    ensures { Spells s.now at result }
{
    if s[at] < ENTRY_END {
        return property(s, at);
    }
    opening(s, at)
}

fn piece_size(from: usize, x: Piece) -> usize
    requires { InOrder from x }
    ensures { result ≡ size_of from x }
{
    x.keep - from + 1 + (x.next - x.start)
}

// How many bytes are written.
#[tactic(auto, using(crate::proofs::Walks::count_start))]
fn size_of(s: &[u8]) -> usize
    requires { Accepted s.now }
    ensures { Sized s.now result }
{
    let mut n = OBJECT_RUN;
    let mut p = OBJECT_RUN;
    while p < s.len() {
        let x = piece_at(s, p);
        n += piece_size(p, x);
        p = x.next;
    }
    n
}

// The stream's bytes from `start` up to `end`.
fn put_part(out: &mut [u8], at: usize, s: &[u8], start: usize, end: usize) -> usize
    requires start_le_end { start ≤ end }
    requires end_in_bounds { end ≤ length s.now }
    ensures { Wrote out.old at (between s.now start end) out.new result }
{
    put_text(out, at, &s[start..end])
}

fn put_piece(out: &mut [u8], at: usize, s: &[u8], from: usize, x: Piece) -> usize
    requires in_order { InOrder from x }
    requires next_in_bounds { x.next ≤ length s.now }
    ensures { Wrote out.old at (piece_bytes s.now from x) out.new result }
{
    let o = put_part(out, at, s, from, x.keep);
    let o = put_byte(out, o, x.lead);
    put_part(out, o, s, x.start, x.next)
}

// What is written after the ten bytes that are kept.
#[tactic(auto, using(crate::proofs::Walks::write_start, crate::proofs::Walks::write_next, crate::proofs::Walks::turn))]
fn put_pieces(out: &mut [u8], at: usize, s: &[u8]) -> usize
    requires { Accepted s.now }
    ensures { Wrote out.old at (body s.now) out.new result }
{
    let mut o = at;
    let mut p = OBJECT_RUN;
    while p < s.len() {
        let x = piece_at(s, p);
        o = put_piece(out, o, s, p, x);
        p = x.next;
    }
    o
}

// The stream with every length up to 254 in one byte and every list of one entry as FE; all else is kept. Refused with 5, 4 or 9, where nothing is written.
// Bytes after the rewritten stream stay; a buffer as long as the stream is enough.
pub fn rewrite(stream: &[u8], out: &mut [u8]) -> Answer
    ensures value { result ≡ (rewrite_exit stream.now out.old).answer }
    ensures out_after { out.new ≡ (rewrite_exit stream.now out.old).out }
{
    if LONGEST < stream.len() {
        return refused(TOO_LONG);
    }
    if count(stream).is_none() {
        return refused(NO_READING);
    }
    let size = size_of(stream);
    if out.len() < size {
        return refused(NO_ROOM_FOR_TEXT);
    }
    let at = put_part(out, 0, stream, 0, OBJECT_RUN);
    put_pieces(out, at, stream);
    wrote(size as u32)
}
