// Texts, bytes and values as they are shown to a person. Each is written into a lent buffer; the place after it is returned.
#![tactic(auto)]

ghost use Rattle.std.specs.Prelude.{◌≡◌, ◌<◌};
ghost use Rattle.rules.specs.Reading.{property_row};
ghost use Rattle.text.specs.Writer.{Wrote};
ghost use Rattle.showtext.specs.Shown.{is_turning, is_hidden, written, spelled, letters, quoted, unit_text, cut_mark, first_bytes, bytes_text, loose_text, value_text};

use csvtext::{put_character, put_hexes, scalar, waiting};
use rules::{
    MARK_BINARY, MARK_BOOL, MARK_DOUBLE, MARK_GUID, MARK_LONG, MARK_NOT_DEFAULT, MARK_SHORT,
    MARK_TEXT, Property,
};
use text::{put_byte, put_decimal, put_hex, put_text};
use utf16::is_high;
use values::{put_value, value_bytes};

// Of more bytes than these the first are shown.
const MOST_SHOWN: u32 = 32;

// The mark of Arabic letters, which turns what stands beside it.
const LETTER_MARK: u32 = 0x061C;

// ---- characters
// Marks that turn a line round, lines and paragraphs, isolates, and the mark of byte order.
fn is_turning(c: u32) -> bool
    ensures { result ≡ is_turning c }
{
    if c < 0x200E {
        return false;
    }
    if c <= 0x200F {
        return true;
    }
    if c < 0x2028 {
        return false;
    }
    if c <= 0x202E {
        return true;
    }
    if c < 0x2066 {
        return false;
    }
    if c <= 0x2069 {
        return true;
    }
    c == 0xFEFF
}

fn is_hidden(c: u32) -> bool
    ensures { result ≡ is_hidden c }
{
    if c < 0x20 {
        return true;
    }
    if c < 0x7F {
        return false;
    }
    if c <= 0x9F {
        return true;
    }
    if c == LETTER_MARK {
        return true;
    }
    is_turning(c)
}

fn put_written(out: &mut [u8], at: usize, c: u32) -> usize
    requires { c < 0x200000 }
    ensures { Wrote out.old at (written c) out.new result }
{
    if is_hidden(c) {
        let p = put_text(out, at, b"\\u");
        return put_hex(out, p, 4, c);
    }
    put_character(out, at, c)
}

fn put_spelled(out: &mut [u8], at: usize, c: u32) -> usize
    requires { c < 0x200000 }
    ensures { Wrote out.old at (spelled c) out.new result }
{
    match c {
        0x22 => put_text(out, at, b"\\\""),
        0x5C => put_text(out, at, b"\\\\"),
        0x0A => put_text(out, at, b"\\n"),
        0x0D => put_text(out, at, b"\\r"),
        0x09 => put_text(out, at, b"\\t"),
        _ => put_written(out, at, c),
    }
}

// What the unit `u` ends, after the first half `high`, or 0 where none waits.
fn put_unit(out: &mut [u8], at: usize, high: u16, u: u16) -> usize
    requires { high < 0xDC00 }
    ensures { Wrote out.old at (unit_text high u) out.new result }
{
    if is_high(u) {
        return at;
    }
    put_spelled(out, at, scalar(high, u))
}

// Kept beside `csvtext::put_doubled`: one function would take a closure that is lent `out`; its clause would be longer than the loop.
fn put_letters(out: &mut [u8], at: usize, bytes: &[u8]) -> usize
    ensures { Wrote out.old at (letters bytes.now) out.new result }
{
    let (units, _) = bytes.as_chunks::<2>();
    let mut p = at;
    let mut high = 0;
    for unit in units {
        let u = u16::from_le_bytes(*unit);
        p = put_unit(out, p, high, u);
        high = waiting(u);
    }
    p
}

// The text of these bytes in quotes.
pub fn put_quoted(out: &mut [u8], at: usize, bytes: &[u8]) -> usize
    ensures { Wrote out.old at (quoted bytes.now) out.new result }
{
    let p = put_byte(out, at, b'"');
    let p = put_letters(out, p, bytes);
    put_byte(out, p, b'"')
}

// ---- bytes
fn put_cut(out: &mut [u8], at: usize, size: u32) -> usize
    ensures { Wrote out.old at (cut_mark size) out.new result }
{
    if MOST_SHOWN < size {
        return put_text(out, at, b" ..");
    }
    at
}

// The first of these bytes of the stream, in hex.
fn put_first(out: &mut [u8], at: usize, stream: &[u8], start: u32, size: u32) -> usize
    ensures { Wrote out.old at (first_bytes stream.now start size) out.new result }
{
    if size == 0 {
        return at;
    }
    let p = put_byte(out, at, b' ');
    let p = put_hexes(out, p, value_bytes(stream, start, size.min(MOST_SHOWN)));
    put_cut(out, p, size)
}

fn put_bytes(out: &mut [u8], at: usize, stream: &[u8], start: u32, size: u32) -> usize
    ensures { Wrote out.old at (bytes_text stream.now start size) out.new result }
{
    let p = put_decimal(out, at, size);
    let p = put_text(out, p, b" bytes");
    put_first(out, p, stream, start, size)
}

// Text that isn't UTF-16.
pub fn put_loose(out: &mut [u8], at: usize, stream: &[u8], start: u32, size: u32) -> usize
    ensures { Wrote out.old at (loose_text stream.now start size) out.new result }
{
    let p = put_text(out, at, b"loose ");
    put_bytes(out, p, stream, start, size)
}

// ---- values
pub fn put_shown(out: &mut [u8], at: usize, stream: &[u8], p: Property) -> usize
    ensures { Wrote out.old at (value_text stream.now (property_row p)) out.new result }
{
    let v = p.value;
    let mark = v.mark;
    match mark {
        MARK_BOOL => put_value(out, at, MARK_BOOL, v.low, v.high, stream, p.start, p.size),
        MARK_NOT_DEFAULT => put_text(out, at, b"set"),
        MARK_SHORT => put_value(out, at, MARK_SHORT, v.low, v.high, stream, p.start, p.size),
        MARK_LONG => put_value(out, at, MARK_LONG, v.low, v.high, stream, p.start, p.size),
        MARK_DOUBLE => {
            let q = put_text(out, at, b"double ");
            put_value(out, q, MARK_DOUBLE, v.low, v.high, stream, p.start, p.size)
        }
        MARK_GUID => put_value(out, at, MARK_GUID, v.low, v.high, stream, p.start, p.size),
        MARK_TEXT => put_quoted(out, at, value_bytes(stream, p.start, p.size)),
        MARK_BINARY => {
            let q = put_text(out, at, b"binary ");
            put_bytes(out, q, stream, p.start, p.size)
        }
        _ => put_loose(out, at, stream, p.start, p.size),
    }
}
