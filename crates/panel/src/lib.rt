// The rules of panels: a Blob is read, and its control rows are judged one by one.
#![tactic(auto)]

ghost use Rattle.std.specs.Prelude.{◌≡◌, ◌+◌, ◌<◌};
ghost use Rattle.rules.specs.Lists.{keep, same};
ghost use Rattle.rules.specs.Rows.{property_width, row_at};
ghost use Rattle.rules.specs.Answer.{answer};
ghost use Rattle.rules.specs.Panel.{has_type_name, is_new_name, is_box, is_source, is_one_text, is_filled, is_placing, is_placed, broken, verdict, panel_exit};
ghost use Rattle.names.specs.Lookup.{Lent};
ghost use Rattle.rows.specs.Get.{shown_by_lem};
ghost use Rattle.blob.specs.Exit.{exited};
ghost use Rattle.panel.specs.ByRows.{controls_from, bytes_at, names_before, between, Rows, Before};
ghost use Rattle.panel.specs.Sources.{NextSource};
ghost use Rattle.panel.specs.Marks as marked;
ghost use Rattle.panel.specs.Marks.{spread, place_by, tag_by, Marked, Noted};
ghost use Rattle.panel.specs.Tried.{rule_number, Tried};

use rows::{CONTROL_WIDTH, get_control, get_id, get_property};
use rules::{Answer, MARK_SHORT, MARK_TEXT, NAME_TEXT};

// What a row breaks, by the numbers that an answer gives.
#[derive(Clone, Copy, PartialEq, Eq)]
enum Rule {
    NoTypeName = 1,
    OtherName = 2,
    SameName = 3,
    NoSource = 4,
    BadPlace = 5,
    TooDeep = 6,
}

impl From<Rule> for u32 {
    ghost from_gives = { λ rule n. n ≡ rule_number rule };

    fn from(rule: Rule) -> u32 {
        rule as u32
    }
}

// The rows of a reading, with its stream.
#[derive(Clone, Copy)]
struct Reading<'a> {
    stream: &'a [u8],
    controls: &'a [u32],
    properties: &'a [u32],
    count: u32,
    ghost rows: { Rows stream.now controls.now count },
}

// The table of type names.
#[derive(Clone, Copy)]
struct TypeNames<'a> {
    index: &'a [u32],
    letters: &'a [u8],
    ghost lent: { Lent index.now letters.now },
}

const DEEPEST: u32 = 7;

// The types of text boxes and combo boxes, as a Blob has them and as TypeInfo has them for forms and for reports.
const TEXT_BOX: u32 = 0x006D;

const FORM_TEXT_BOX: u32 = 0x126D;

const REPORT_TEXT_BOX: u32 = 0x1B6D;

const COMBO_BOX: u32 = 0x006F;

const FORM_COMBO_BOX: u32 = 0x136F;

const REPORT_COMBO_BOX: u32 = 0x1B6F;

// The ids of properties.
const CONTROL_SOURCE: u32 = 0x001B;

const HEIGHT: u32 = 0x002C;

const LEFT: u32 = 0x0036;

const TOP: u32 = 0x008D;

const WIDTH: u32 = 0x0096;

// A number below 0 has this or more in its low word.
const NEGATIVE: u32 = 0x80000000;

// The words of a control row that a name has.
const NAME_START: usize = 2;

const NAME_SIZE: usize = 3;

// Names leave marks in so many places: a mark is the tag of all names of its place, or that they have several. 754 names are hardly ever taken for one another.
const PLACES: usize = 16384;

const TAGS: u32 = 254;

const SEVERAL: u8 = 255;

// How bytes are spread: multiplied, kept to 32 bits; the place is the middle of the square.
const SPREAD: u32 = 16777619;

const MIDDLE: usize = 0x2000000;

// ---- rule 1
impl<'a> TypeNames<'a> {
    fn has(self, type_code: u32) -> bool
        ensures { result ≡ has_type_name type_code }
    {
        let Ok(code) = u16::try_from(type_code) else {
            return false;
        };
        !names::type_name_in(self.index, self.letters, code).is_empty()
    }
}

// ---- rule 3
// Kept: == begins with the first byte; names often differ in their last alone.
fn same_bytes(a: &[u8], b: &[u8]) -> bool
    ensures { result ≡ same a.now b.now }
{
    a.len() == b.len() && a.iter().rev().zip(b.iter().rev()).all(|(x, y)| *x == *y)
}

// These bytes as a number.
fn spread_of(name: &[u8]) -> u32
    ensures { result ≡ spread name.now }
{
    name.iter().rev().fold(
        0,
        |n: u32, b| n.wrapping_mul(SPREAD).wrapping_add(u32::from(*b)),
    )
}

#[tactic(auto, unfolding(crate::specs::Marks::place_by))]
fn place_of(number: u32) -> usize
    ensures { result ≡ place_by number }
{
    let n = number as usize;
    n * n / MIDDLE % PLACES
}

fn tag_of(number: u32) -> u8
    ensures { result ≡ tag_by number }
{
    (number % TAGS + 1) as u8
}

// What a mark is after one more name.
#[tactic(auto, using(crate::proofs::MarkLaws::none_yet, crate::proofs::MarkLaws::its_own, crate::proofs::MarkLaws::several))]
fn changed(mark: u8, tag: u8) -> u8
    ensures { result ≡ marked.changed mark tag }
{
    if mark == 0 {
        return tag;
    }
    if mark == tag {
        return tag;
    }
    SEVERAL
}

impl<'a> Reading<'a> {
    // The bytes that row `n` names.
    fn name_of(self, n: u32) -> &'a [u8]
        requires { Before self.stream.now self.controls.now (n + 1) }
        ensures { result.now ≡ bytes_at self.entry.stream.now self.entry.controls.now n }
    {
        let at = (n as usize) * CONTROL_WIDTH;
        let start = self.controls[at + NAME_START] as usize;
        let size = self.controls[at + NAME_SIZE] as usize;
        &self.stream[start..start + size]
    }

    // No row before row `n` has this name.
    fn is_new(self, n: u32, name: &[u8]) -> bool
        requires { Before self.stream.now self.controls.now n }
        ensures { result ≡ is_new_name (names_before self.entry.stream.now self.entry.controls.now n) name.now }
    {
        for j in (0..n).rev() {
            if same_bytes(self.name_of(j), name) {
                return false;
            }
        }
        true
    }

    // Whether no row before row `n` has this name, which is marked. Names are compared only where that doesn't change the mark.
    fn note_name(self, marks: &mut [u8; PLACES], n: u32, name: &[u8]) -> bool
        requires before { Before self.stream.now self.controls.now n }
        requires marked { Marked self.stream.now self.controls.now n marks.old }
        ensures { Noted self.entry.stream.now self.entry.controls.now n name.now marks.new result }
    {
        let number = spread_of(name);
        let place = place_of(number);
        let mark = marks[place];
        let next = changed(mark, tag_of(number));
        marks[place] = next;
        if mark == next {
            return self.is_new(n, name);
        }
        true
    }
}

// ---- rule 4
fn is_box(type_code: u32) -> bool
    ensures { result ≡ is_box type_code }
{
    match type_code {
        TEXT_BOX | FORM_TEXT_BOX | REPORT_TEXT_BOX => true,
        COMBO_BOX | FORM_COMBO_BOX | REPORT_COMBO_BOX => true,
        _ => false,
    }
}

fn is_source(properties: &[u32], j: u32) -> bool
    ensures { result ≡ is_source (shown_by_lem (row_at property_width j properties.now)) }
{
    get_id(properties, j) == CONTROL_SOURCE
}

// The first property row from `from` on that is a source.
fn next_source(properties: &[u32], from: u32, to: u32) -> Option<u32>
    ensures { NextSource properties.now from to result }
{
    (from..to).find(|j| is_source(properties, *j))
}

// Of the property rows from `from` on one is a source, and that is text of a byte or more.
fn is_one_text(properties: &[u32], from: u32, to: u32) -> bool
    ensures { result ≡ is_one_text (keep is_source (between properties.now from to)) }
{
    let Some(at) = next_source(properties, from, to) else {
        return false;
    };
    if next_source(properties, at + 1, to).is_some() {
        return false;
    }
    let source = get_property(properties, at);
    source.value.mark == MARK_TEXT && 0 < source.size
}

fn is_filled(properties: &[u32], type_code: u32, from: u32, to: u32) -> bool
    ensures { result ≡ is_filled type_code (between properties.now from to) }
{
    !is_box(type_code) || is_one_text(properties, from, to)
}

// ---- rule 5
fn is_placing(properties: &[u32], j: u32) -> bool
    ensures { result ≡ is_placing (shown_by_lem (row_at property_width j properties.now)) }
{
    let p = get_property(properties, j);
    match p.id {
        LEFT | TOP => p.value.mark == MARK_SHORT,
        WIDTH | HEIGHT => p.value.mark == MARK_SHORT && p.value.low < NEGATIVE,
        _ => true,
    }
}

fn is_placed(properties: &[u32], from: u32, to: u32) -> bool
    ensures { result ≡ is_placed (between properties.now from to) }
{
    (from..to).all(|j| is_placing(properties, j))
}

// ---- all of them
impl<'a> Reading<'a> {
    // The first rule that row `i` breaks, or none and its name is marked.
    fn tried(self, names: TypeNames, marks: &mut [u8; PLACES], i: u32) -> Result<(), Rule>
        requires inside { i < self.count }
        requires before { Before self.stream.now self.controls.now i }
        requires marked { Marked self.stream.now self.controls.now i marks.old }
        ensures { Tried self.entry.stream.now self.entry.controls.now self.entry.properties.now i marks.new result }
    {
        let row = get_control(self.controls, i);
        if !names.has(row.type_code) {
            return Err(Rule::NoTypeName);
        }
        if row.mark != NAME_TEXT {
            return Err(Rule::OtherName);
        }
        if !self.note_name(marks, i, self.name_of(i)) {
            return Err(Rule::SameName);
        }
        let from = row.first;
        let to = row.first + row.count;
        if !is_filled(self.properties, row.type_code, from, to) {
            return Err(Rule::NoSource);
        }
        if !is_placed(self.properties, from, to) {
            return Err(Rule::BadPlace);
        }
        if DEEPEST < row.level {
            return Err(Rule::TooDeep);
        }
        Ok(())
    }
}

fn judged(yes: u32, row: u32, rule: u32) -> Answer
    ensures { result ≡ answer 0 yes row rule }
{
    Answer {
        number: 0,
        first: yes,
        second: row,
        third: rule,
    }
}

// The first of the control rows that breaks a rule, with the first rule that it breaks.
fn judge(reading: Reading, names: TypeNames) -> Answer
    ensures { result ≡ verdict (broken reading.entry.stream.now (controls_from reading.entry.controls.now reading.entry.properties.now 0 reading.entry.count)) }
{
    let mut marks = [0; PLACES];
    for i in 0..reading.count {
        if let Err(rule) = reading.tried(names, &mut marks, i) {
            return judged(0, i, u32::from(rule));
        }
    }
    judged(1, 0, 0)
}

// Reads a Blob, and judges the reading by the rules of panels. The rows stay written; a refusal leaves both slices as they were.
pub fn check_panel(
    table: &[u8],
    stream: &[u8],
    controls: &mut [u32],
    properties: &mut [u32],
) -> Answer
    ensures { exited result controls.new properties.new ≡ panel_exit table.now stream.now controls.old properties.old }
{
    let a = blob::read_blob(table, stream, controls, properties);
    if a.number != 0 {
        return a;
    }
    let index = nametables::index();
    let letters = nametables::letters();
    let reading = Reading {
        stream,
        controls,
        properties,
        count: a.first,
    };
    let names = TypeNames {
        index: &index,
        letters: &letters,
    };
    judge(reading, names)
}
