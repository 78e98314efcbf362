// The lines of the listings. Each is written into a lent buffer at a place; the place after it is returned.
#![tactic(auto)]

ghost use Rattle.std.specs.Prelude.{◌≡◌};
ghost use Rattle.rules.specs.Answer.{refusal};
ghost use Rattle.rules.specs.Rows.{control_width, property_width, type_info_width, row_at};
ghost use Rattle.rules.specs.Listing.{or_dash, answer_line, control_line, property_line};
ghost use Rattle.names.specs.Lookup.{Lent};
ghost use Rattle.text.specs.Writer.{Wrote};
ghost use Rattle.listing.specs.Numbers.{numbers_line};
ghost use Rattle.listing.specs.InfoLine.{is_shown, name_byte, name_bytes, size_column, info_line};
ghost use Rattle.listing.specs.Shown.{line_of, width_of, lines_to};

use fields::{
    put_end, put_head, put_name_size, put_nesting, put_shown, put_type_name, put_value_name,
};
use rows::{get_control, get_info, get_property};
use rules::Answer;
use text::{put_byte, put_decimal, put_hex, put_text, refused};
use values::value_bytes;

// A line of a word and four numbers.
pub fn numbers_line(out: &mut [u8], at: usize, word: &[u8], a: u32, b: u32, c: u32, d: u32) -> usize
    ensures { Wrote out.old at (numbers_line word.now a b c d) out.new result }
{
    let p = put_text(out, at, word);
    let p = put_byte(out, p, b' ');
    let p = put_decimal(out, p, a);
    let p = put_byte(out, p, b' ');
    let p = put_decimal(out, p, b);
    let p = put_byte(out, p, b' ');
    let p = put_decimal(out, p, c);
    let p = put_byte(out, p, b' ');
    let p = put_decimal(out, p, d);
    put_end(out, p)
}

pub fn answer_line(out: &mut [u8], at: usize, a: Answer) -> usize
    ensures { Wrote out.old at (answer_line a) out.new result }
{
    numbers_line(out, at, b"answer", a.number, a.first, a.second, a.third)
}

// The listing of what is refused by a number: its answer line from the start of the buffer on.
pub fn refusal_line(out: &mut [u8], number: u32) -> usize
    ensures { Wrote out.old 0 (answer_line (refusal number)) out.new result }
{
    answer_line(out, 0, refused(number))
}

// The C line of control row `n`. The directory of names is lent.
fn control_line(
    out: &mut [u8],
    at: usize,
    stream: &[u8],
    rows: &[u32],
    n: u32,
    index: &[u32],
    letters: &[u8],
) -> usize
    requires { Lent index.now letters.now }
    ensures { Wrote out.old at (control_line stream.now n (row_at control_width n rows.now)) out.new result }
{
    let row = get_control(rows, n);
    let p = put_head(out, at, b'C', n, row.type_code);
    let p = put_type_name(out, p, index, letters, row.type_code);
    let p = put_byte(out, p, b' ');
    let p = put_name_size(out, p, stream, row.mark, row.start, row.size);
    let p = put_byte(out, p, b' ');
    let p = put_decimal(out, p, row.first);
    let p = put_byte(out, p, b' ');
    let p = put_decimal(out, p, row.count);
    let p = put_byte(out, p, b' ');
    let p = put_nesting(out, p, row.level, row.parent);
    put_end(out, p)
}

// The P line of property row `n`.
fn property_line(
    out: &mut [u8],
    at: usize,
    stream: &[u8],
    rows: &[u32],
    n: u32,
    index: &[u32],
    letters: &[u8],
) -> usize
    requires { Lent index.now letters.now }
    ensures { Wrote out.old at (property_line stream.now n (row_at property_width n rows.now)) out.new result }
{
    let row = get_property(rows, n);
    let v = row.value;
    let p = put_head(out, at, b'P', n, row.id);
    let p = put_value_name(out, p, index, letters, v.mark, row.id);
    let p = put_byte(out, p, b' ');
    let p = put_shown(out, p, stream, row);
    put_end(out, p)
}

// ---- the names of a TypeInfo stream
pub fn is_shown(b: u8) -> bool
    ensures { result ≡ is_shown b }
{
    if b < 0x20 {
        return false;
    }
    if 0x7e < b {
        return false;
    }
    b != b'\\'
}

fn put_name_byte(out: &mut [u8], at: usize, b: u8) -> usize
    ensures { Wrote out.old at (name_byte b) out.new result }
{
    if is_shown(b) {
        return put_byte(out, at, b);
    }
    let p = put_byte(out, at, b'\\');
    put_hex(out, p, 2, b as u32)
}

// Kept beside `text::put_each`: one function would take a closure that is lent `out`; its clause would be longer than the loop.
fn put_name_bytes(out: &mut [u8], at: usize, s: &[u8]) -> usize
    ensures { Wrote out.old at (name_bytes s.now) out.new result }
{
    let mut o = at;
    for b in s {
        o = put_name_byte(out, o, *b);
    }
    o
}

pub fn put_name(out: &mut [u8], at: usize, s: &[u8]) -> usize
    ensures { Wrote out.old at (or_dash (name_bytes s.now)) out.new result }
{
    if s.len() == 0 {
        put_byte(out, at, b'-')
    } else {
        put_name_bytes(out, at, s)
    }
}

// How many bytes a name has; a name that was cut had so many or more.
fn put_size(out: &mut [u8], at: usize, size: u32, cut: u32) -> usize
    ensures { Wrote out.old at (size_column size cut) out.new result }
{
    let p = put_decimal(out, at, size);
    if cut == 0 {
        return p;
    }
    put_byte(out, p, b'+')
}

// The T line of TypeInfo row `n`.
fn info_line(
    out: &mut [u8],
    at: usize,
    stream: &[u8],
    rows: &[u32],
    n: u32,
    index: &[u32],
    letters: &[u8],
) -> usize
    requires { Lent index.now letters.now }
    ensures { Wrote out.old at (info_line stream.now n (row_at type_info_width n rows.now)) out.new result }
{
    let row = get_info(rows, n);
    let name = value_bytes(stream, row.start, row.size);
    let p = put_head(out, at, b'T', n, row.type_code);
    let p = put_type_name(out, p, index, letters, row.type_code);
    let p = put_byte(out, p, b' ');
    let p = put_decimal(out, p, row.index);
    let p = put_byte(out, p, b' ');
    let p = put_size(out, p, row.size, row.cut);
    let p = put_byte(out, p, b' ');
    let p = put_name(out, p, name);
    put_end(out, p)
}

// ---- the lines of rows
// What the rows are of.
// Kept: a closure would hold stream, index and letters; its clause would be longer than the match.
#[derive(Clone, Copy)]
pub enum Kind {
    Control,
    Property,
    Info,
}

fn line(
    kind: Kind,
    out: &mut [u8],
    at: usize,
    stream: &[u8],
    rows: &[u32],
    n: u32,
    index: &[u32],
    letters: &[u8],
) -> usize
    requires { Lent index.now letters.now }
    ensures { Wrote out.old at (line_of kind stream.now n (row_at (width_of kind) n rows.now)) out.new result }
{
    match kind {
        Kind::Control => control_line(out, at, stream, rows, n, index, letters),
        Kind::Property => property_line(out, at, stream, rows, n, index, letters),
        Kind::Info => info_line(out, at, stream, rows, n, index, letters),
    }
}

// The lines of the first `count` rows.
pub fn lines(
    kind: Kind,
    out: &mut [u8],
    at: usize,
    stream: &[u8],
    rows: &[u32],
    count: u32,
    index: &[u32],
    letters: &[u8],
) -> usize
    requires { Lent index.now letters.now }
    ensures { Wrote out.old at (lines_to (line_of kind stream.now) (width_of kind) count rows.now) out.new result }
{
    let mut p = at;
    for n in 0..count {
        p = line(kind, out, p, stream, rows, n, index, letters);
    }
    p
}
