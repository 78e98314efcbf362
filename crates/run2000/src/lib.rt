// A run of an Access 2000 stream: its properties written as rows, and the name that it holds.
#![tactic(auto)]

ghost use Rattle.std.specs.Prelude.{◌≡◌, ◌+◌, ◌≤◌, length};
ghost use Rattle.std.specs.Int.Bits.{bit_or};
ghost use Rattle.coderows.specs.Look.{body_rows};
ghost use Rattle.rules.specs.Bytes.{part};
ghost use Rattle.rules.specs.Value.{value_as_lem};
ghost use Rattle.run2000.specs.Runs as runs;

use codehints::{HINTS, find_row};
use coderows::{Body, Tie};
use propvalue::{sized_stored_value, stored_value, value_as};
use rows::put_property;
use rules::{KIND_TEXT, LAST_ID, LAST_SIZED_ID, MARK_TEXT, Name, Property, UNMAPPED, Value};
use utf16::{is_plain, is_utf16};
use walk2000::value;

// No property has this id.
pub const NO_ID: u8 = 0xFF;

// The place after a run, the row after its last, and the name that it holds.
#[derive(Clone, Copy)]
pub struct RunRows {
    pub at: usize,
    pub row: usize,
    pub name: Name,
}

// A property of a run: its id, and where its value's bytes stand.
#[derive(Clone, Copy)]
pub struct Stored {
    pub id: u8,
    pub start: usize,
    pub size: usize,
}

// The name of a run as far as it was read, and the id that the name has: none has it once a name was met.
#[derive(Clone, Copy)]
struct Naming {
    name: Name,
    wanted: u8,
}

// The bytes of a property's value.
pub fn part(s: &[u8], p: Stored) -> &[u8]
    requires { p.start + p.size ≤ length s.now }
    ensures { result.now ≡ part s.now p.start p.size }
{
    &s[p.start..p.start + p.size]
}

// A mark or a prefix joined by OR with a code.
pub fn bit_or(mark: u32, code: u32) -> u32
    ensures { result ≡ bit_or mark code }
{
    mark | code
}

// The value of an id that a row of this kind ties. What is most often met, a value whose size the id tells or plain text, is told here; the rest by value_as.
fn value_by_kind(s: &[u8], kind: u8, p: Stored) -> Value
    requires { runs.Sound s.now p.id p.start p.size }
    ensures { result ≡ value_as_lem kind p.id (part s.now p.start p.size) }
{
    let bytes = part(s, p);
    if p.id <= LAST_SIZED_ID {
        return sized_stored_value(p.id, bytes);
    }
    if kind == KIND_TEXT && is_plain(bytes) {
        return Value {
            mark: MARK_TEXT,
            low: 0,
            high: 0,
        };
    }
    value_as(kind, p.id, bytes)
}

// A property as it is shown, by the rows of its scope.
fn property(table: &[u8], hints: &mut [u8; HINTS], body: Body, s: &[u8], p: Stored) -> Property
    requires { runs.Inside table.now body s.now p.id p.start p.size }
    ensures { result ≡ runs.shown_in (body_rows table.now body) s.now (runs.prop_of p) }
{
    let (id, value) = match find_row(table, hints, body, p.id) {
        Some(Tie { target, kind }) => (target as u32, value_by_kind(s, kind, p)),
        None => (
            bit_or(UNMAPPED, p.id as u32),
            stored_value(p.id, part(s, p)),
        ),
    };
    Property {
        id,
        value,
        start: p.start as u32,
        size: p.size as u32,
    }
}

// The name that a property holds whose value was read with this mark: only UTF-16 is marked as text.
fn name_at(s: &[u8], mark: u32, p: Stored) -> Name
    requires { runs.NameReady s.now mark p.start p.size }
    ensures { result ≡ runs.name_at s.now p.start p.size }
{
    if mark == MARK_TEXT || is_utf16(part(s, p)) {
        Name::Text {
            start: p.start as u32,
            size: p.size as u32,
        }
    } else {
        Name::Numbered
    }
}

// A property more of the run: the first with the wanted id has the name.
fn next_name(so_far: Naming, s: &[u8], mark: u32, p: Stored) -> Naming
    requires { runs.NameReady s.now mark p.start p.size }
    ensures { result ≡ runs.next_name s.now p.id p.start p.size so_far }
{
    if p.id == so_far.wanted {
        return Naming {
            name: name_at(s, mark, p),
            wanted: NO_ID,
        };
    }
    so_far
}

fn run_rows(at: usize, row: usize, naming: Naming) -> RunRows
    ensures { result ≡ runs.run_rows at row naming }
{
    let name = naming.name;
    RunRows { at, row, name }
}

// Writes a row for each property of the run at `at`, from row `first` on; the name is that of the first property with the id `wanted`, whose value has a length.
pub fn properties(
    table: &[u8],
    hints: &mut [u8; HINTS],
    body: Body,
    s: &[u8],
    at: usize,
    rows: &mut [u32],
    first: usize,
    wanted: u8,
) -> RunRows
    requires { runs.RunReady table.now body s.now at rows.old first wanted }
    ensures { runs.RunDone table.now body s.now at rows.old first wanted rows.new result }
{
    let mut p = at;
    let mut n = first;
    let mut naming = Naming {
        name: Name::Numbered,
        wanted,
    };
    while p < s.len() && s[p] <= LAST_ID {
        let Some(v) = value(s, p) else {
            return run_rows(p, n, naming);
        };
        let q = Stored {
            id: s[p],
            start: v.start,
            size: v.size,
        };
        let shown = property(table, hints, body, s, q);
        if LAST_SIZED_ID < q.id {
            naming = next_name(naming, s, shown.value.mark, q);
        }
        put_property(rows, n, shown);
        p = v.start + v.size;
        n += 1;
    }
    run_rows(p, n, naming)
}
