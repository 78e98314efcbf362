// UTF-16 text as a field of comma-separated text: UTF-8, quoted where it must be; and bytes as hex. Each is written into a lent buffer, or only
// counted: what it takes is taken off a room, and nothing is left where it has none.
#![tactic(auto)]

ghost use Rattle.std.specs.Prelude.{◌≡◌, ◌-◌, ◌<◌, true, cond, length};
ghost use Rattle.rules.specs.Lists.{all};
ghost use Rattle.rules.specs.Utf16.{is_high};
ghost use Rattle.rules.specs.Scalars.{scalar};
ghost use Rattle.rules.specs.Utf8.{utf8_of, utf8};
ghost use Rattle.rules.specs.Csv.{is_data, doubled, field_text, hex_text};
ghost use Rattle.text.specs.Writer.{Wrote};
ghost use Rattle.csvtext.specs.Units.{unit_text, unit_data, waiting, is_letter, lows};

use text::{put_byte, put_bytes, put_hex_byte};
use utf16::is_high;

const QUOTE: u8 = b'"';

// The letters begin after the comma, and end where characters of two bytes begin. The space needs no quotes either.
const FIRST_LETTER: u16 = 0x2D;

const LAST_LETTER: u16 = 0x7F;

const SPACE: u16 = 0x20;

const QUOTE_SIGN: u32 = 0x22;

const COMMA_SIGN: u32 = 0x2C;

const CR_SIGN: u32 = 0x0D;

const LF_SIGN: u32 = 0x0A;

// The first half of a pair, the second, and the first character that is a pair.
const HIGH: u32 = 0xD800;

const LOW: u32 = 0xDC00;

const PAIRS: u32 = 0x10000;

// What the second half of a pair tells.
const HALF: u32 = 0x400;

// The character that ends with the unit `u`, after the first half `high`, or 0 where none waits.
// Kept: 0 stands for no first half in rules::specs::Scalars::scalar.
pub fn scalar(high: u16, u: u16) -> u32
    ensures { result ≡ scalar high u }
{
    if high == 0 {
        return u as u32;
    }
    PAIRS + (high as u32).saturating_sub(HIGH) * HALF + (u as u32).saturating_sub(LOW)
}

// The first half that waits after the unit `u`.
pub fn waiting(u: u16) -> u16
    ensures { result ≡ waiting u }
{
    if is_high(u) { u } else { 0 }
}

// ---- written
// Kept: a char is below 110000 hex and no surrogate; utf8_of takes any number below 200000 hex.
pub fn put_character(out: &mut [u8], at: usize, c: u32) -> usize
    requires { c < 0x200000 }
    ensures { Wrote out.old at (utf8_of c) out.new result }
{
    if c < 0x80 {
        return put_byte(out, at, c as u8);
    }
    let last = (0x80 + c % 64) as u8;
    if c < 0x800 {
        return put_bytes(out, at, [(0xC0 + c / 64) as u8, last]);
    }
    let third = (0x80 + c / 64 % 64) as u8;
    if c < 0x10000 {
        return put_bytes(out, at, [(0xE0 + c / 4096) as u8, third, last]);
    }
    let second = (0x80 + c / 4096 % 64) as u8;
    put_bytes(out, at, [(0xF0 + c / 262144) as u8, second, third, last])
}

// What the unit `u` ends, a quote doubled.
fn put_unit(out: &mut [u8], at: usize, high: u16, u: u16) -> usize
    requires { high < 0xDC00 }
    ensures { Wrote out.old at (unit_text high u) out.new result }
{
    if is_high(u) {
        return at;
    }
    let c = scalar(high, u);
    if c == QUOTE_SIGN {
        return put_bytes(out, at, [QUOTE, QUOTE]);
    }
    put_character(out, at, c)
}

fn put_doubled(out: &mut [u8], at: usize, bytes: &[u8]) -> usize
    ensures { Wrote out.old at (doubled (utf8 bytes.now)) out.new result }
{
    let (units, _) = bytes.as_chunks::<2>();
    let mut p = at;
    let mut high = 0;
    for unit in units {
        let u = u16::from_le_bytes(*unit);
        p = put_unit(out, p, high, u);
        high = waiting(u);
    }
    p
}

// ---- quoted or not
// A byte of UTF-8, or a character, that can stand without quotes.
#[tactic(auto, unfolding(rules::specs::Csv::is_data))]
pub fn is_data(c: u32) -> bool
    ensures { result ≡ is_data c }
{
    if c == COMMA_SIGN {
        return false;
    }
    if c == QUOTE_SIGN {
        return false;
    }
    if c == CR_SIGN {
        return false;
    }
    c != LF_SIGN
}

fn unit_is_data(high: u16, u: u16) -> bool
    ensures { result ≡ unit_data high u }
{
    if is_high(u) {
        return true;
    }
    is_data(scalar(high, u))
}

// No character is a comma, a quote, CR or LF.
fn is_plain(bytes: &[u8]) -> bool
    ensures { result ≡ all is_data (utf8 bytes.now) }
{
    let (units, _) = bytes.as_chunks::<2>();
    let mut high = 0;
    for unit in units {
        let u = u16::from_le_bytes(*unit);
        if !unit_is_data(high, u) {
            return false;
        }
        high = waiting(u);
    }
    true
}

// ---- letters: units that are a byte each, and need no quotes
fn is_letter(u: u16) -> bool
    ensures { result ≡ is_letter u }
{
    FIRST_LETTER <= u && u <= LAST_LETTER
}

// Whether a text is told at a glance to be its units' low bytes: letters and spaces. Where this is false nothing is told.
// No branch leaves the loop, so that several units are looked at at once.
fn all_letters(bytes: &[u8]) -> bool
    ensures { result ≡ true → field_text (utf8 bytes.now) ≡ lows bytes.now }
{
    let (units, _) = bytes.as_chunks::<2>();
    let mut all = true;
    for unit in units {
        let u = u16::from_le_bytes(*unit);
        all &= is_letter(u) | (u == SPACE);
    }
    all
}

// The low bytes of the units, one at a time.
fn put_lows_each(out: &mut [u8], at: usize, bytes: &[u8]) -> usize
    ensures { Wrote out.old at (lows bytes.now) out.new result }
{
    let (units, _) = bytes.as_chunks::<2>();
    let mut p = at;
    for unit in units {
        p = put_byte(out, p, unit[0]);
    }
    p
}

// Four at a time, then the last.
fn put_lows(out: &mut [u8], at: usize, bytes: &[u8]) -> usize
    ensures { Wrote out.old at (lows bytes.now) out.new result }
{
    let mut p = at;
    let mut rest = bytes;
    while let Some((four, more)) = rest.split_first_chunk::<8>() {
        p = put_bytes(out, p, [four[0], four[2], four[4], four[6]]);
        rest = more;
    }
    put_lows_each(out, p, rest)
}

// The text of these bytes as a field.
pub fn put_field(out: &mut [u8], at: usize, bytes: &[u8]) -> usize
    ensures { Wrote out.old at (field_text (utf8 bytes.now)) out.new result }
{
    if all_letters(bytes) {
        return put_lows(out, at, bytes);
    }
    if is_plain(bytes) {
        return put_doubled(out, at, bytes);
    }
    let p = put_byte(out, at, QUOTE);
    let p = put_doubled(out, p, bytes);
    put_byte(out, p, QUOTE)
}

// ---- counted
#[tactic(auto, unfolding(rules::specs::Utf8::utf8_of))]
fn character_size(c: u32) -> usize
    ensures { result ≡ length (utf8_of c) }
{
    if c < 0x80 {
        return 1;
    }
    if c < 0x800 {
        return 2;
    }
    if c < 0x10000 { 3 } else { 4 }
}

fn unit_size(high: u16, u: u16) -> usize
    ensures { result ≡ length (unit_text high u) }
{
    if is_high(u) {
        return 0;
    }
    let c = scalar(high, u);
    if c == QUOTE_SIGN {
        return 2;
    }
    character_size(c)
}

fn doubled_left(room: usize, bytes: &[u8]) -> usize
    ensures { result ≡ room - length (doubled (utf8 bytes.now)) }
{
    let (units, _) = bytes.as_chunks::<2>();
    let mut left = room;
    let mut high = 0;
    for unit in units {
        let u = u16::from_le_bytes(*unit);
        left = left.saturating_sub(unit_size(high, u));
        high = waiting(u);
    }
    left
}

// What is left of a room after the text of these bytes as a field.
pub fn field_left(room: usize, bytes: &[u8]) -> usize
    ensures { result ≡ room - length (field_text (utf8 bytes.now)) }
{
    if is_plain(bytes) {
        return doubled_left(room, bytes);
    }
    doubled_left(room.saturating_sub(2), bytes)
}

// ---- hex
// Kept beside `text::put_each`: one function would take a closure that is lent `out`; its clause would be longer than the loop.
pub fn put_hexes(out: &mut [u8], at: usize, bytes: &[u8]) -> usize
    ensures { Wrote out.old at (hex_text bytes.now) out.new result }
{
    let mut p = at;
    for b in bytes {
        p = put_hex_byte(out, p, *b);
    }
    p
}

// Two digits a byte.
pub fn hexes_left(room: usize, bytes: &[u8]) -> usize
    ensures { result ≡ room - length (hex_text bytes.now) }
{
    room.saturating_sub(bytes.len()).saturating_sub(bytes.len())
}
