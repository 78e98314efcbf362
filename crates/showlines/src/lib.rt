// A Blob shown to a person: lines with what it is, its controls and their properties, written into a lent buffer.
#![tactic(auto)]

ghost use Rattle.std.specs.Prelude.{◌≡◌};
ghost use Rattle.rules.specs.CodeTable.{header};
ghost use Rattle.rules.specs.Names.{name_in_lem, names_for};
ghost use Rattle.rules.specs.Reading.{property_row};
ghost use Rattle.rules.specs.Csv.{or_id};
ghost use Rattle.names.specs.Lookup.{Lent};
ghost use Rattle.rows.specs.Put.{control_words};
ghost use Rattle.text.specs.Writer.{Wrote};
ghost use Rattle.csvrows.specs.Rows.{RowsReady, ControlsReady};
ghost use Rattle.showlines.specs.Lines.{later_kind, reading_kind, reading_text, first_line, object_line, blanks, object_owner, header_mark, stored_type, control_scope, control_owner, scope_text, is_unmapped, unmapped_text, key_text, property_line, or_code, type_text, name_text, control_line};
ghost use Rattle.showlines.specs.Rows.{rows_text, controls_text, one_if_unmapped, unmapped_from, unmapped_in, slices_text};
ghost use Rattle.showlines.specs.Shown.{shown_by_lem, shown_blob, shown_paired, info_line, ReadReady};
ghost use Rattle.blob.specs.Exit.{exited};

use codetable::{CODE_SIZE, HEADER_AT, HEADER_COUNT_AT};
use countlater::OBJECT_AT;
use csvrecord::put_name_or_id;
use fields::put_end;
use listing::{answer_line, numbers_line};
use node2000::{FORM_HEADER, REPORT_HEADER, is_report};
use numbers::{byte_at, u16_at};
use rows::{ControlRow, get_control, get_id, get_property};
use rules::{Answer, NAME_LOOSE, NAME_NUMBERED, Property, READ, UNMAPPED};
use run2000::bit_or;
use showtext::{put_loose, put_quoted, put_shown};
use text::{put_byte, put_decimal, put_hex, put_text};
use values::value_bytes;

// No table of names has an id above this one.
const LAST_NAMED: u32 = 0xffff;

// The reading that a stream has: of Access 2000, or a later one.
#[derive(Clone, Copy)]
pub enum Reading {
    Form,
    Report,
    Tree,
    Scan,
    TooShort,
}

// The scope in which codes are looked up: an entry's has its code, and the later layout has none.
#[derive(Clone, Copy)]
pub enum Scope {
    OfForm,
    OfReport,
    OfEntry(u32),
    NoScope,
}

// Whose properties are shown, and how deep they stand.
#[derive(Clone, Copy)]
pub struct Owner {
    pub scope: Scope,
    pub depth: usize,
}

// What is told of a reading: which one it is, and its counts.
#[derive(Clone, Copy)]
pub struct Counts {
    pub reading: Reading,
    pub controls: u32,
    pub properties: u32,
    pub own: u32,
}

// ---- which reading
#[tactic(auto, unfolding(crate::specs::Lines::later_kind))]
fn later_kind(stream: &[u8]) -> Reading
    ensures { result ≡ later_kind stream.now }
{
    if stream.len() < OBJECT_AT {
        return Reading::TooShort;
    }
    let counts = countlater::count(stream);
    if counts.tree {
        Reading::Tree
    } else {
        Reading::Scan
    }
}

#[tactic(auto, unfolding(crate::specs::Lines::reading_kind))]
fn reading_kind(table: &[u8], stream: &[u8]) -> Reading
    ensures { result ≡ reading_kind table.now stream.now }
{
    if blob::is_2000(table, stream) {
        if is_report(stream) {
            return Reading::Report;
        }
        return Reading::Form;
    }
    later_kind(stream)
}

#[tactic(auto, unfolding(crate::specs::Lines::reading_text))]
fn put_reading(out: &mut [u8], at: usize, reading: Reading) -> usize
    ensures { Wrote out.old at (reading_text reading) out.new result }
{
    match reading {
        Reading::Form => put_text(out, at, b"Access 2000 form"),
        Reading::Report => put_text(out, at, b"Access 2000 report"),
        Reading::Tree => put_text(out, at, b"later tree"),
        Reading::Scan => put_text(out, at, b"later scan"),
        Reading::TooShort => put_text(out, at, b"too short"),
    }
}

fn first_line(
    out: &mut [u8],
    at: usize,
    reading: Reading,
    controls: u32,
    properties: u32,
    unmapped: u32,
) -> usize
    ensures { Wrote out.old at (first_line reading controls properties unmapped) out.new result }
{
    let p = put_reading(out, at, reading);
    let p = put_text(out, p, b", ");
    let p = put_decimal(out, p, controls);
    let p = put_text(out, p, b" controls, ");
    let p = put_decimal(out, p, properties);
    let p = put_text(out, p, b" properties, ");
    let p = put_decimal(out, p, unmapped);
    put_text(out, p, b" unmapped\n")
}

#[tactic(auto, unfolding(crate::specs::Lines::object_line))]
fn object_line(out: &mut [u8], at: usize, reading: Reading) -> usize
    ensures { Wrote out.old at (object_line reading) out.new result }
{
    match reading {
        Reading::Form => put_text(out, at, b"form\n"),
        Reading::Report => put_text(out, at, b"report\n"),
        _ => put_text(out, at, b"object\n"),
    }
}

// ---- owners
#[tactic(auto, unfolding(crate::specs::Lines::object_scope))]
fn object_owner(reading: Reading) -> Owner
    ensures { result ≡ object_owner reading }
{
    let scope = match reading {
        Reading::Form => Scope::OfForm,
        Reading::Report => Scope::OfReport,
        _ => Scope::NoScope,
    };
    Owner { scope, depth: 1 }
}

#[tactic(auto, unfolding(crate::specs::Lines::header_mark))]
fn header_mark(reading: Reading) -> u32
    ensures { result ≡ header_mark reading }
{
    match reading {
        Reading::Report => REPORT_HEADER,
        _ => FORM_HEADER,
    }
}

// The type as stored: the first header code that gives this one, or itself.
fn stored_type(table: &[u8], mark: u32, type_code: u32) -> u32
    ensures { result ≡ stored_type (header table.now) mark type_code }
{
    let count = usize::from(byte_at(table, HEADER_COUNT_AT));
    for k in 0..count {
        let code = u16_at(table, HEADER_AT + CODE_SIZE * k) as u32;
        if bit_or(mark, code) == type_code {
            return code;
        }
    }
    type_code
}

#[tactic(auto, unfolding(crate::specs::Lines::control_scope))]
fn control_scope(table: &[u8], reading: Reading, type_code: u32) -> Scope
    ensures { result ≡ control_scope table.now reading type_code }
{
    match reading {
        Reading::Form | Reading::Report => {
            Scope::OfEntry(stored_type(table, header_mark(reading), type_code))
        }
        _ => Scope::NoScope,
    }
}

fn control_owner(table: &[u8], reading: Reading, row: ControlRow) -> Owner
    ensures { result ≡ control_owner table.now reading (control_words row) }
{
    let depth = (row.level as usize) + 2;
    Owner {
        scope: control_scope(table, reading, row.type_code),
        depth,
    }
}

// ---- a property's line
fn put_blanks(out: &mut [u8], at: usize, depth: usize) -> usize
    ensures { Wrote out.old at (blanks depth) out.new result }
{
    let mut p = at;
    for _ in 0..depth {
        p = put_text(out, p, b"  ");
    }
    p
}

#[tactic(auto, unfolding(crate::specs::Lines::scope_text))]
fn put_scope(out: &mut [u8], at: usize, scope: Scope) -> usize
    ensures { Wrote out.old at (scope_text scope) out.new result }
{
    match scope {
        Scope::OfForm => put_text(out, at, b"form"),
        Scope::OfReport => put_text(out, at, b"report"),
        Scope::OfEntry(code) => {
            let p = put_text(out, at, b"entry ");
            put_hex(out, p, 4, code)
        }
        Scope::NoScope => at,
    }
}

#[tactic(auto, unfolding(crate::specs::Lines::is_unmapped))]
fn is_unmapped(scope: Scope, id: u32) -> bool
    ensures { result ≡ is_unmapped scope id }
{
    match scope {
        Scope::NoScope => false,
        _ => UNMAPPED <= id,
    }
}

fn put_unmapped(out: &mut [u8], at: usize, scope: Scope, id: u32) -> usize
    ensures { Wrote out.old at (unmapped_text scope id) out.new result }
{
    let p = put_text(out, at, b"!! unmapped code ");
    let p = put_hex(out, p, 2, id);
    let p = put_text(out, p, b" of ");
    put_scope(out, p, scope)
}

// A property's name, or its id.
fn put_property(
    out: &mut [u8],
    at: usize,
    index: &[u32],
    letters: &[u8],
    mark: u32,
    id: u32,
) -> usize
    requires { Lent index.now letters.now }
    ensures { Wrote out.old at (or_id (name_in_lem (names_for mark) id) id) out.new result }
{
    if LAST_NAMED < id {
        return put_hex(out, at, 4, id);
    }
    put_name_or_id(
        out,
        at,
        names::value_name_in(index, letters, mark, id as u16),
        id,
    )
}

fn put_key(
    out: &mut [u8],
    at: usize,
    index: &[u32],
    letters: &[u8],
    scope: Scope,
    mark: u32,
    id: u32,
) -> usize
    requires { Lent index.now letters.now }
    ensures { Wrote out.old at (key_text scope mark id) out.new result }
{
    if is_unmapped(scope, id) {
        return put_unmapped(out, at, scope, id);
    }
    put_property(out, at, index, letters, mark, id)
}

fn property_line(
    out: &mut [u8],
    at: usize,
    index: &[u32],
    letters: &[u8],
    stream: &[u8],
    owner: Owner,
    p: Property,
) -> usize
    requires { Lent index.now letters.now }
    ensures { Wrote out.old at (property_line stream.now owner (property_row p)) out.new result }
{
    let v = p.value;
    let q = put_blanks(out, at, owner.depth);
    let q = put_key(out, q, index, letters, owner.scope, v.mark, p.id);
    let q = put_text(out, q, b" = ");
    let q = put_shown(out, q, stream, p);
    put_end(out, q)
}

// The lines of `count` property rows of one owner, from row `first` on.
fn put_rows(
    out: &mut [u8],
    at: usize,
    index: &[u32],
    letters: &[u8],
    stream: &[u8],
    owner: Owner,
    rows: &[u32],
    first: u32,
    count: u32,
) -> usize
    requires { RowsReady index.now letters.now first count }
    ensures { Wrote out.old at (rows_text stream.now owner rows.now first count) out.new result }
{
    let mut p = at;
    for i in first..first + count {
        let shown = get_property(rows, i);
        p = property_line(out, p, index, letters, stream, owner, shown);
    }
    p
}

// ---- a control's line
fn put_type_or_code(out: &mut [u8], at: usize, name: &[u8], code: u32) -> usize
    ensures { Wrote out.old at (or_code name.now code) out.new result }
{
    if name.len() == 0 {
        let p = put_text(out, at, b"type ");
        put_hex(out, p, 4, code)
    } else {
        put_text(out, at, name)
    }
}

fn put_type(out: &mut [u8], at: usize, index: &[u32], letters: &[u8], code: u32) -> usize
    requires { Lent index.now letters.now }
    ensures { Wrote out.old at (type_text code) out.new result }
{
    if LAST_NAMED < code {
        return put_type_or_code(out, at, &letters[..0], code);
    }
    put_type_or_code(
        out,
        at,
        names::type_name_in(index, letters, code as u16),
        code,
    )
}

fn put_name(out: &mut [u8], at: usize, stream: &[u8], mark: u32, start: u32, size: u32) -> usize
    ensures { Wrote out.old at (name_text stream.now mark start size) out.new result }
{
    if mark == NAME_NUMBERED {
        let p = put_text(out, at, b"Control_");
        return put_decimal(out, p, start);
    }
    if mark == NAME_LOOSE {
        return put_loose(out, at, stream, start, size);
    }
    put_quoted(out, at, value_bytes(stream, start, size))
}

fn control_line(
    out: &mut [u8],
    at: usize,
    index: &[u32],
    letters: &[u8],
    stream: &[u8],
    n: u32,
    row: ControlRow,
) -> usize
    requires { Lent index.now letters.now }
    ensures { Wrote out.old at (control_line stream.now n (control_words row)) out.new result }
{
    let p = put_blanks(out, at, (row.level as usize) + 1);
    let p = put_byte(out, p, b'#');
    let p = put_decimal(out, p, n);
    let p = put_byte(out, p, b' ');
    let p = put_type(out, p, index, letters, row.type_code);
    let p = put_byte(out, p, b' ');
    let p = put_name(out, p, stream, row.mark, row.start, row.size);
    put_end(out, p)
}

// The lines of the controls, each with its properties.
fn put_controls(
    out: &mut [u8],
    at: usize,
    index: &[u32],
    letters: &[u8],
    table: &[u8],
    stream: &[u8],
    controls: &[u32],
    rows: &[u32],
    counts: Counts,
) -> usize
    requires { ControlsReady index.now letters.now controls.now counts.controls counts.own }
    ensures { Wrote out.old at (controls_text table.now stream.now counts.reading controls.now rows.now 0 counts.controls counts.own) out.new result }
{
    let mut p = at;
    let mut next = counts.own;
    for n in 0..counts.controls {
        let control = get_control(controls, n);
        let owner = control_owner(table, counts.reading, control);
        let many = control.count;
        p = control_line(out, p, index, letters, stream, n, control);
        p = put_rows(out, p, index, letters, stream, owner, rows, next, many);
        next += many;
    }
    p
}

// ---- the whole
#[tactic(auto, unfolding(crate::specs::Rows::one_if_unmapped))]
fn one_if_unmapped(id: u32) -> u32
    ensures { result ≡ one_if_unmapped id }
{
    u32::from(UNMAPPED <= id)
}

// How many of the first `count` rows have the mark of an unmapped code.
fn marked(rows: &[u32], count: u32) -> u32
    ensures { result ≡ unmapped_from rows.now 0 count }
{
    let mut found = 0;
    for i in 0..count {
        found += one_if_unmapped(get_id(rows, i));
    }
    found
}

#[tactic(auto, unfolding(crate::specs::Rows::unmapped_in))]
fn unmapped(reading: Reading, rows: &[u32], count: u32) -> u32
    ensures { result ≡ unmapped_in reading rows.now count }
{
    match reading {
        Reading::Form | Reading::Report => marked(rows, count),
        _ => 0,
    }
}

fn put_slices(
    out: &mut [u8],
    index: &[u32],
    letters: &[u8],
    table: &[u8],
    stream: &[u8],
    controls: &[u32],
    rows: &[u32],
    counts: Counts,
) -> usize
    requires { ControlsReady index.now letters.now controls.now counts.controls counts.own }
    ensures { Wrote out.old 0 (slices_text table.now stream.now controls.now rows.now counts) out.new result }
{
    let reading = counts.reading;
    let lacking = unmapped(reading, rows, counts.properties);
    let p = first_line(out, 0, reading, counts.controls, counts.properties, lacking);
    let p = object_line(out, p, reading);
    let owner = object_owner(reading);
    let p = put_rows(out, p, index, letters, stream, owner, rows, 0, counts.own);
    put_controls(
        out, p, index, letters, table, stream, controls, rows, counts,
    )
}

// Writes what is shown of a reading, by its answer and its rows.
fn put_read(
    out: &mut [u8],
    index: &[u32],
    letters: &[u8],
    table: &[u8],
    stream: &[u8],
    controls: &[u32],
    rows: &[u32],
    a: Answer,
) -> usize
    requires { ReadReady index.now letters.now controls.now a }
    ensures { Wrote out.old 0 (shown_by_lem table.now stream.now (exited a controls.now rows.now)) out.new result }
{
    if a.number != READ {
        return answer_line(out, 0, a);
    }
    let counts = Counts {
        reading: reading_kind(table, stream),
        controls: a.first,
        properties: a.second,
        own: a.third,
    };
    put_slices(out, index, letters, table, stream, controls, rows, counts)
}

// Reads a Blob into the lent rows and shows it, from the start of `out` on.
pub fn show_blob(
    table: &[u8],
    stream: &[u8],
    controls: &mut [u32],
    properties: &mut [u32],
    index: &[u32],
    letters: &[u8],
    out: &mut [u8],
) -> usize
    requires { Lent index.now letters.now }
    ensures { Wrote out.old 0 (shown_blob table.now stream.now controls.old properties.old) out.new result }
{
    let a = blob::read_blob(table, stream, controls, properties);
    put_read(out, index, letters, table, stream, controls, properties, a)
}

// ---- with TypeInfo
fn info_line(out: &mut [u8], a: Answer) -> usize
    ensures { Wrote out.old 0 (info_line a) out.new result }
{
    numbers_line(out, 0, b"typeinfo", a.number, a.first, a.second, a.third)
}

// Reads TypeInfo and a later Blob into the lent rows, gives the controls the types of TypeInfo and shows them.
pub fn show_paired(
    table: &[u8],
    info: &[u8],
    stream: &[u8],
    infos: &mut [u32],
    controls: &mut [u32],
    properties: &mut [u32],
    index: &[u32],
    letters: &[u8],
    out: &mut [u8],
) -> usize
    requires { Lent index.now letters.now }
    ensures { Wrote out.old 0 (shown_paired table.now info.now stream.now infos.old controls.old properties.old) out.new result }
{
    let i = typeinfo::read_type_info(info, infos);
    if i.number != READ {
        return info_line(out, i);
    }
    let layout = codetable::layout(table) as u32;
    let a = blob::read_later(layout, stream, controls, properties);
    pairing::pair(stream, controls, a.first, info, infos, i.first);
    put_read(out, index, letters, table, stream, controls, properties, a)
}
