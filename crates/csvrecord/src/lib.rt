// A property's record of comma-separated text: written into a lent buffer, or only taken off a room.
#![tactic(auto)]

ghost use Rattle.std.specs.Prelude.{◌≡◌, ◌+◌, ◌-◌, ◌<◌, length, ◌++◌};
ghost use Rattle.rules.specs.Digits.{decimal};
ghost use Rattle.rules.specs.Listing.{mark_word, number32, yes_or_no};
ghost use Rattle.rules.specs.Names.{name_in_lem, names_for};
ghost use Rattle.rules.specs.Reading.{property_row};
ghost use Rattle.rules.specs.Csv.{header, or_id, record_text};
ghost use Rattle.names.specs.Lookup.{Lent};
ghost use Rattle.text.specs.Writer.{Wrote};
ghost use Rattle.csvrecord.specs.Parts.{owner_text, marked_text, named_text, value_field, tail_text, ColumnSize};

use csvtext::{field_left, hexes_left, put_field, put_hexes};
use names::HINTS;
use rules::{
    MARK_BINARY, MARK_BOOL, MARK_DOUBLE, MARK_GUID, MARK_LONG, MARK_NOT_DEFAULT, MARK_SHORT,
    MARK_TEXT, Property,
};
use text::{label_length, put_byte, put_bytes, put_decimal, put_hex, put_text};
use values::{put_value, value_bytes};

// Whose property a record tells: the object's, or a control's.
// Kept: an Option would say that nobody owns the record; the object does.
#[derive(Clone, Copy)]
pub enum Owner {
    Object,
    Control { number: u32, type_code: u32 },
}

const COMMA: u8 = b',';

// Digits of an id, of a type code.
const CODE_DIGITS: u32 = 4;

const CODE_SIZE: usize = 4;

// ---- written
pub fn put_header(out: &mut [u8], at: usize) -> usize
    ensures { Wrote out.old at (record_text header) out.new result }
{
    put_text(out, at, b"control,type,property,word,value\r\n")
}

// The two fields that tell the owner, with a comma after each.
pub fn put_owner(out: &mut [u8], at: usize, owner: Owner) -> usize
    ensures { Wrote out.old at (owner_text owner) out.new result }
{
    match owner {
        Owner::Object => put_text(out, at, b",,"),
        Owner::Control { number, type_code } => {
            let p = put_decimal(out, at, number);
            let p = put_byte(out, p, COMMA);
            let p = put_hex(out, p, CODE_DIGITS, type_code);
            put_byte(out, p, COMMA)
        }
    }
}

pub fn put_name_or_id(out: &mut [u8], at: usize, name: &[u8], id: u32) -> usize
    ensures { Wrote out.old at (or_id name.now id) out.new result }
{
    if name.len() == 0 {
        put_hex(out, at, CODE_DIGITS, id)
    } else {
        put_text(out, at, name)
    }
}

// A property's name, or its id. No table has an id of more than 16 bits.
fn put_property(
    out: &mut [u8],
    at: usize,
    index: &[u32],
    letters: &[u8],
    hints: &mut [u8; HINTS],
    mark: u32,
    id: u32,
) -> usize
    requires { Lent index.now letters.now }
    ensures { Wrote out.old at (or_id (name_in_lem (names_for mark) id) id) out.new result }
{
    let Ok(named) = u16::try_from(id) else {
        return put_hex(out, at, CODE_DIGITS, id);
    };
    put_name_or_id(
        out,
        at,
        names::value_name_near(index, letters, hints, mark, named),
        id,
    )
}

// A property's value as a field.
fn put_value_field(out: &mut [u8], at: usize, stream: &[u8], p: Property) -> usize
    ensures { Wrote out.old at (value_field stream.now (property_row p)) out.new result }
{
    let v = p.value;
    if v.mark == MARK_TEXT {
        return put_field(out, at, value_bytes(stream, p.start, p.size));
    }
    if v.mark < MARK_TEXT {
        return put_value(out, at, v.mark, v.low, v.high, stream, p.start, p.size);
    }
    put_hexes(out, at, value_bytes(stream, p.start, p.size))
}

// The word of a value, between two commas.
fn put_marked(out: &mut [u8], at: usize, mark: u32) -> usize
    ensures { Wrote out.old at (marked_text mark) out.new result }
{
    match mark {
        MARK_BOOL => put_bytes(out, at, *b",bool,"),
        MARK_NOT_DEFAULT => put_bytes(out, at, *b",notdefault,"),
        MARK_SHORT => put_bytes(out, at, *b",short,"),
        MARK_LONG => put_bytes(out, at, *b",long,"),
        MARK_DOUBLE => put_bytes(out, at, *b",double,"),
        MARK_GUID => put_bytes(out, at, *b",guid,"),
        MARK_TEXT => put_bytes(out, at, *b",text,"),
        MARK_BINARY => put_bytes(out, at, *b",binary,"),
        _ => put_bytes(out, at, *b",loose,"),
    }
}

// A property's name or id and the word of its value, with a comma after each.
fn put_named(
    out: &mut [u8],
    at: usize,
    index: &[u32],
    letters: &[u8],
    hints: &mut [u8; HINTS],
    mark: u32,
    id: u32,
) -> usize
    requires { Lent index.now letters.now }
    ensures { Wrote out.old at (named_text mark id) out.new result }
{
    let q = put_property(out, at, index, letters, hints, mark, id);
    put_marked(out, q, mark)
}

// A record after the fields that tell the owner.
fn put_tail(
    out: &mut [u8],
    at: usize,
    index: &[u32],
    letters: &[u8],
    hints: &mut [u8; HINTS],
    stream: &[u8],
    p: Property,
) -> usize
    requires { Lent index.now letters.now }
    ensures { Wrote out.old at (tail_text stream.now (property_row p)) out.new result }
{
    let v = p.value;
    let q = put_named(out, at, index, letters, hints, v.mark, p.id);
    let q = put_value_field(out, q, stream, p);
    put_bytes(out, q, *b"\r\n")
}

// A record; `owner` has the fields that tell the owner, with their commas.
pub fn put_record(
    out: &mut [u8],
    at: usize,
    index: &[u32],
    letters: &[u8],
    hints: &mut [u8; HINTS],
    stream: &[u8],
    owner: &[u8],
    p: Property,
) -> usize
    requires { Lent index.now letters.now }
    ensures { Wrote out.old at (owner.now ++ tail_text stream.now (property_row p)) out.new result }
{
    let q = put_text(out, at, owner);
    put_tail(out, q, index, letters, hints, stream, p)
}

// ---- counted
// A label is "Control_" and the number.
fn decimal_size(n: u32) -> u32
    ensures { result ≡ length (decimal n) }
{
    label_length(n) - 8
}

// How much the fields that tell the owner take of each record.
pub fn owner_size(owner: Owner) -> usize
    ensures { result ≡ length (owner_text owner) }
{
    match owner {
        Owner::Object => 2,
        Owner::Control {
            number,
            type_code: _,
        } => (decimal_size(number) as usize) + 1 + CODE_SIZE + 1,
    }
}

fn property_size(index: &[u32], letters: &[u8], mark: u32, id: u32) -> usize
    requires { Lent index.now letters.now }
    ensures { result ≡ length (or_id (name_in_lem (names_for mark) id) id) }
{
    let Ok(named) = u16::try_from(id) else {
        return CODE_SIZE;
    };
    let size = names::value_name_in(index, letters, mark, named).len();
    if size == 0 { CODE_SIZE } else { size }
}

fn word_size(mark: u32) -> usize
    ensures { result ≡ length (mark_word mark) }
{
    match mark {
        MARK_BOOL => 4,
        MARK_NOT_DEFAULT => 10,
        MARK_SHORT => 5,
        MARK_LONG => 4,
        MARK_DOUBLE => 6,
        MARK_GUID => 4,
        MARK_TEXT => 4,
        MARK_BINARY => 6,
        _ => 5,
    }
}

fn yes_size(low: u32) -> usize
    ensures { result ≡ length (yes_or_no low) }
{
    if low == 0 { 2 } else { 3 }
}

fn signed_size(low: u32) -> usize
    ensures { result ≡ length (number32 low) }
{
    let n = low.cast_signed();
    let digits = decimal_size(n.unsigned_abs()) as usize;
    if n < 0 { 1 + digits } else { digits }
}

// A value as it is listed, of a mark below Text.
fn column_size(mark: u32, low: u32) -> usize
    requires { mark < 6 }
    ensures { ColumnSize mark low result }
{
    match mark {
        MARK_BOOL => yes_size(low),
        MARK_NOT_DEFAULT => 1,
        MARK_SHORT => signed_size(low),
        MARK_LONG => signed_size(low),
        MARK_DOUBLE => 16,
        _ => 38,
    }
}

fn value_left(room: usize, stream: &[u8], p: Property) -> usize
    ensures { result ≡ room - length (value_field stream.now (property_row p)) }
{
    let v = p.value;
    if v.mark == MARK_TEXT {
        return field_left(room, value_bytes(stream, p.start, p.size));
    }
    if v.mark < MARK_TEXT {
        return room.saturating_sub(column_size(v.mark, v.low));
    }
    hexes_left(room, value_bytes(stream, p.start, p.size))
}

// What is left of a room after a record, of which the owner's fields take `owner` bytes.
pub fn record_left(
    room: usize,
    owner: usize,
    index: &[u32],
    letters: &[u8],
    stream: &[u8],
    p: Property,
) -> usize
    requires { Lent index.now letters.now }
    ensures { result ≡ room - (owner + length (tail_text stream.now (property_row p))) }
{
    let v = p.value;
    let left = room
        .saturating_sub(owner)
        .saturating_sub(property_size(index, letters, v.mark, p.id))
        .saturating_sub(word_size(v.mark))
        .saturating_sub(4);
    value_left(left, stream, p)
}
