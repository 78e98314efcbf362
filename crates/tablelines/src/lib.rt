// What a line of a code table's text says, or why it can't be taken: its words (specs/Words.antt), and the item that they make (specs/Items.antt).
#![tactic(auto)]

pub mod faults; // faults.rt: why a text makes no table

ghost use Rattle.std.specs.Prelude.{◌≡◌, ◌<◌, length};
ghost use Rattle.rules.specs.Lists.{same};
ghost use Rattle.tablelines.specs.Words as w;
ghost use Rattle.tablelines.specs.Items as i;

use faults::Fault;
use rules::{
    KIND_BYTES, KIND_DOUBLE, KIND_GUID, KIND_NUMBER, KIND_TEXT, SCOPE_ENTRY, SCOPE_FORM,
    SCOPE_REPORT,
};

// What a line says.
#[derive(Clone, Copy)]
pub enum Item {
    Nothing,
    Layout { byte: u8 },
    Header { code: u16 },
    Scope { kind: u8, code: u16 },
    Row { id: u8, target: u16, kind: u8 },
}

// What a line says, or why it can't be taken; and where the next one begins.
#[derive(Clone, Copy)]
pub struct Line {
    pub item: Result<Item, Fault>,
    pub next: usize,
}

// ---- words
fn is_blank(b: u8) -> bool
    ensures { result ≡ w.is_blank b }
{
    matches!(b, b' ' | b'\t' | b'\r')
}

// The bytes in front of the first one that passes the test, and those from it on.
fn cut<F: Fn(u8) -> bool>(s: &[u8], stops: F) -> (&[u8], &[u8])
    requires { F.IsAlwaysCallable stops }
    ensures { i.Cut (F.post stops) s.now result.0.now result.1.now }
{
    for (at, b) in s.iter().enumerate() {
        if stops(*b) {
            return s.split_at(at);
        }
    }
    s.split_at(s.len())
}

// The first word, and what stands after it.
fn word_of(s: &[u8]) -> (&[u8], &[u8])
    ensures word { result.0.now ≡ w.word s.now }
    ensures rest { result.1.now ≡ w.after_word s.now }
{
    let (_, letters) = cut(s, |b| !is_blank(b));
    cut(letters, |b| is_blank(b))
}

fn same_word(a: &[u8], b: &[u8]) -> bool
    ensures { result ≡ same a.now b.now }
{
    a == b
}

// ---- numbers
fn digit_of(b: u8) -> Option<u32>
    ensures { result ≡ i.below 16 (w.digit_of b) }
{
    char::from(b).to_digit(16)
}

fn byte_of(a: u8, b: u8) -> Option<u8>
    ensures { result ≡ i.below 256 (w.byte_of a b) }
{
    let high = digit_of(a)?;
    let low = digit_of(b)?;
    Some((16 * high + low) as u8)
}

// The number of a word of two hex digits.
fn two_of(word: &[u8]) -> Option<u8>
    ensures { result ≡ i.below 256 (w.two_of word.now) }
{
    match word {
        [a, b] => byte_of(*a, *b),
        _ => None,
    }
}

// The number of a word of four hex digits.
fn four_of(word: &[u8]) -> Option<u16>
    ensures { result ≡ i.below 65536 (w.four_of word.now) }
{
    match word {
        [a, b, c, d] => {
            let high = byte_of(*a, *b)?;
            let low = byte_of(*c, *d)?;
            Some(256 * high as u16 + low as u16)
        }
        _ => None,
    }
}

// The number of the word for a row's kind.
fn row_kind_of(word: &[u8]) -> Option<u8>
    ensures { result ≡ i.below 5 (w.row_kind_of word.now) }
{
    if same_word(word, b"number") {
        return Some(KIND_NUMBER);
    }
    if same_word(word, b"text") {
        return Some(KIND_TEXT);
    }
    if same_word(word, b"guid") {
        return Some(KIND_GUID);
    }
    if same_word(word, b"double") {
        return Some(KIND_DOUBLE);
    }
    if same_word(word, b"bytes") {
        return Some(KIND_BYTES);
    }
    None
}

// ---- items
// The number of a line that has one alone: it stands in the second word, and there is no third.
fn lone<T: Drop>(number: Option<T>, third: &[u8], digits: Fault) -> Result<T, Fault>
    ensures { result ≡ i.lone number third.now digits }
{
    if third.is_empty() {
        number.ok_or(digits)
    } else {
        Err(Fault::ManyWords)
    }
}

fn layout_item(second: &[u8], third: &[u8]) -> Result<Item, Fault>
    ensures { i.said result ≡ i.layout_item second.now third.now }
{
    let byte = lone(two_of(second), third, Fault::TwoDigits)?;
    Ok(Item::Layout { byte })
}

fn header_item(second: &[u8], third: &[u8]) -> Result<Item, Fault>
    ensures { i.said result ≡ i.header_item second.now third.now }
{
    let code = lone(four_of(second), third, Fault::FourDigits)?;
    Ok(Item::Header { code })
}

fn entry_item(second: &[u8], third: &[u8]) -> Result<Item, Fault>
    ensures { i.said result ≡ i.entry_item second.now third.now }
{
    let code = lone(four_of(second), third, Fault::FourDigits)?;
    Ok(Item::Scope {
        kind: SCOPE_ENTRY,
        code,
    })
}

// A form or a report.
fn plain_scope_item(kind: u8, second: &[u8]) -> Result<Item, Fault>
    ensures { i.said result ≡ i.plain_scope_item kind second.now }
{
    if second.is_empty() {
        Ok(Item::Scope { kind, code: 0 })
    } else {
        Err(Fault::ManyWords)
    }
}

fn row_item(first: &[u8], second: &[u8], third: &[u8], more: bool) -> Result<Item, Fault>
    ensures { i.said result ≡ i.row_item first.now second.now third.now more }
{
    let id = two_of(first).ok_or(Fault::UnknownWord)?;
    if more {
        return Err(Fault::ManyWords);
    }
    let target = four_of(second).ok_or(Fault::FourDigits)?;
    let kind = row_kind_of(third).ok_or(Fault::UnknownKind)?;
    Ok(Item::Row { id, target, kind })
}

fn item_by(first: &[u8], second: &[u8], third: &[u8], more: bool) -> Result<Item, Fault>
    ensures { i.said result ≡ i.item_by first.now second.now third.now more }
{
    if first.is_empty() {
        return Ok(Item::Nothing);
    }
    if same_word(first, b"layout") {
        return layout_item(second, third);
    }
    if same_word(first, b"header") {
        return header_item(second, third);
    }
    if same_word(first, b"form") {
        return plain_scope_item(SCOPE_FORM, second);
    }
    if same_word(first, b"report") {
        return plain_scope_item(SCOPE_REPORT, second);
    }
    if same_word(first, b"entry") {
        return entry_item(second, third);
    }
    row_item(first, second, third, more)
}

fn item_in(s: &[u8]) -> Result<Item, Fault>
    ensures { i.said result ≡ i.item_in s.now }
{
    let (first, rest) = word_of(s);
    let (second, rest) = word_of(rest);
    let (third, rest) = word_of(rest);
    let (more, _) = word_of(rest);
    item_by(first, second, third, !more.is_empty())
}

// What the line at a place says. A line ends with a byte 10, the last one with the text; what stands from a # on is a remark.
pub fn line_at(text: &[u8], at: usize) -> Line
    requires { at < length text.now }
    ensures { i.LineAt text.now at result }
{
    let (line, _) = cut(&text[at..], |b| b == b'\n');
    let (said, _) = cut(line, |b| b == b'#');
    Line {
        item: item_in(said),
        next: at + line.len() + 1,
    }
}
