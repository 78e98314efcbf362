// A property's value out of its bytes, and how many bytes its id tells. Every public function but sized_stored_value has an answer for every input.
#![tactic(auto)]

ghost use Rattle.std.specs.Prelude.{◌≡◌, cond, length};
ghost use Rattle.rules.specs.Utf16.{is_utf16_lem};
ghost use Rattle.rules.specs.Value.{value, integer_value_lem, long_or, short_or, bool_value, binary_value, yes_no_value, entry_value_lem, stored_value_lem, value_as_lem};
ghost use Rattle.propvalue.specs.Parts.{single_or_binary, double_or_binary, guid_or_binary};
ghost use Rattle.propvalue.specs.Sized.{size_of, SizedValue};

use numbers::{
    byte_at, integer_value, short_of, signed16, signed32, u16_at, u16_inside, u32_at, u32_inside,
    widen, word_of,
};
use rules::{
    KIND_DOUBLE, KIND_GUID, KIND_TEXT, LAST_BYTE_ID, LAST_FLAG_ID, LAST_SHORT_ID, LAST_SIZED_ID,
    MARK_BINARY, MARK_BOOL, MARK_DOUBLE, MARK_GUID, MARK_LONG, MARK_LOOSE, MARK_NOT_DEFAULT,
    MARK_SHORT, MARK_TEXT, Value,
};
use utf16::is_utf16;

// How many bytes a single has, a double and a GUID.
const SINGLE: usize = 4;

const DOUBLE: usize = 8;

const GUID: usize = 16;

fn valued(mark: u32, low: u32, high: u32) -> Value
    ensures { result ≡ value mark low high }
{
    Value { mark, low, high }
}

fn bool_value(b: u8) -> Value
    ensures { result ≡ bool_value b }
{
    valued(MARK_BOOL, u32::from(b != 0), 0)
}

fn long_value(bytes: &[u8]) -> Value
    ensures { result ≡ long_or binary_value (integer_value_lem bytes.now) }
{
    let Some(v) = integer_value(bytes) else {
        return valued(MARK_BINARY, 0, 0);
    };
    valued(MARK_LONG, word_of(v), 0)
}

#[tactic(auto, unfolding(numbers::specs::Int::short_of))]
fn short_value(bytes: &[u8]) -> Value
    ensures { result ≡ short_or binary_value (integer_value_lem bytes.now) }
{
    let Some(n) = integer_value(bytes).and_then(short_of) else {
        return valued(MARK_BINARY, 0, 0);
    };
    valued(MARK_SHORT, word_of(i32::from(n)), 0)
}

#[tactic(auto, unfolding(crate::specs::Parts::single_or_binary))]
fn single_value(bytes: &[u8]) -> Value
    ensures { result ≡ single_or_binary bytes.now }
{
    if bytes.len() == SINGLE {
        let w = widen(u32_at(bytes, 0));
        valued(MARK_DOUBLE, w.low, w.high)
    } else {
        valued(MARK_BINARY, 0, 0)
    }
}

#[tactic(auto, unfolding(crate::specs::Parts::double_or_binary))]
fn double_value(bytes: &[u8]) -> Value
    ensures { result ≡ double_or_binary bytes.now }
{
    if bytes.len() == DOUBLE {
        valued(MARK_DOUBLE, u32_at(bytes, 0), u32_at(bytes, 4))
    } else {
        valued(MARK_BINARY, 0, 0)
    }
}

#[tactic(auto, unfolding(crate::specs::Parts::guid_or_binary))]
fn guid_value(bytes: &[u8]) -> Value
    ensures { result ≡ guid_or_binary bytes.now }
{
    if bytes.len() == GUID {
        valued(MARK_GUID, 0, 0)
    } else {
        valued(MARK_BINARY, 0, 0)
    }
}

// Text, or what is shown where the bytes aren't UTF-16.
fn text_or(bytes: &[u8], other: u32) -> Value
    ensures { result ≡ cond (is_utf16_lem bytes.now) (value 6 0 0) (value other 0 0) }
{
    if is_utf16(bytes) {
        valued(MARK_TEXT, 0, 0)
    } else {
        valued(other, 0, 0)
    }
}

// ---- the later layout
#[tactic(auto, unfolding(rules::specs::Value::yes_no_value))]
pub fn yes_no_value(bytes: &[u8]) -> Value
    ensures { result ≡ yes_no_value bytes.now }
{
    match bytes.len() {
        0 => valued(MARK_NOT_DEFAULT, 0, 0),
        1 => bool_value(bytes[0]),
        _ => long_value(bytes),
    }
}

// By the type that document 01 gives the number of.
#[tactic(auto, unfolding(rules::specs::Value::entry_value_lem, crate::specs::Parts::single_or_binary, crate::specs::Parts::double_or_binary, crate::specs::Parts::guid_or_binary))]
pub fn entry_value(type_code: u32, bytes: &[u8]) -> Value
    ensures { result ≡ entry_value_lem type_code bytes.now }
{
    match type_code {
        0x01 => yes_no_value(bytes),
        0x02 => short_value(bytes),
        0x03 | 0x04 => long_value(bytes),
        0x06 => single_value(bytes),
        0x08 => double_value(bytes),
        0x09 => guid_value(bytes),
        0x0A | 0x0C => text_or(bytes, MARK_LOOSE),
        _ => valued(MARK_BINARY, 0, 0),
    }
}

// ---- the Access 2000 layout
// How many bytes a value has, where its id tells; else a length stands before them.
#[tactic(auto, unfolding(crate::specs::Sized::size_of))]
pub fn value_size(id: u8) -> Option<usize>
    ensures { result ≡ size_of id }
{
    if LAST_SHORT_ID < id {
        if LAST_SIZED_ID < id {
            return None;
        }
        return Some(4);
    }
    if LAST_BYTE_ID < id {
        return Some(2);
    }
    if LAST_FLAG_ID < id {
        return Some(1);
    }
    Some(0)
}

#[tactic(auto, unfolding(rules::specs::Value::stored_value_lem, rules::specs::Value::word32))]
pub fn stored_value(id: u8, bytes: &[u8]) -> Value
    ensures { result ≡ stored_value_lem id bytes.now }
{
    if id <= LAST_FLAG_ID {
        return valued(MARK_NOT_DEFAULT, 0, 0);
    }
    if id <= LAST_BYTE_ID {
        return valued(MARK_SHORT, u32::from(byte_at(bytes, 0)), 0);
    }
    if id <= LAST_SHORT_ID {
        return valued(MARK_SHORT, word_of(signed16(u16_at(bytes, 0))), 0);
    }
    if id <= LAST_SIZED_ID {
        return valued(MARK_LONG, word_of(signed32(u32_at(bytes, 0))), 0);
    }
    valued(MARK_BINARY, 0, 0)
}

// Bytes after a length are read by the kind of the row that ties their id.
#[tactic(auto, unfolding(rules::specs::Value::value_as_lem, rules::specs::Value::stored_value_lem, crate::specs::Parts::double_or_binary, crate::specs::Parts::guid_or_binary))]
pub fn value_as(kind: u8, id: u8, bytes: &[u8]) -> Value
    ensures { result ≡ value_as_lem kind id bytes.now }
{
    if id <= LAST_SIZED_ID {
        return stored_value(id, bytes);
    }
    match kind {
        KIND_TEXT => text_or(bytes, MARK_BINARY),
        KIND_GUID => guid_value(bytes),
        KIND_DOUBLE => double_value(bytes),
        _ => valued(MARK_BINARY, 0, 0),
    }
}

// As stored_value, of at least as many bytes as the id tells: their number isn't tested.
// Kept beside `stored_value`: the length isn't tested again (docs/SPEED.md).
#[tactic(auto, using(crate::proofs::Sizes::byte_room, crate::proofs::Sizes::short_room, crate::proofs::Sizes::long_room), unfolding(rules::specs::Value::stored_value_lem, rules::specs::Value::word32, rules::specs::Value::signed))]
pub fn sized_stored_value(id: u8, bytes: &[u8]) -> Value
    requires { SizedValue id (length bytes.now) }
    ensures { result ≡ stored_value_lem id bytes.now }
{
    if LAST_BYTE_ID < id {
        if LAST_SHORT_ID < id {
            return valued(MARK_LONG, u32_inside(bytes, 0), 0);
        }
        return valued(MARK_SHORT, word_of(signed16(u16_inside(bytes, 0))), 0);
    }
    if LAST_FLAG_ID < id {
        return valued(MARK_SHORT, u32::from(bytes[0]), 0);
    }
    valued(MARK_NOT_DEFAULT, 0, 0)
}
