// A code table as text; specs/Text.antt says it line by line. Each part is written into a lent buffer; the place after it is returned.
#![tactic(auto)]

ghost use Rattle.std.specs.Prelude.{◌≡◌, ◌+◌, ◌*◌, ◌<◌, ◌^◌};
ghost use Rattle.rules.specs.NameTables.{control_type_names};
ghost use Rattle.rules.specs.Names.{name_in_lem, names_for};
ghost use Rattle.rules.specs.CodeTable.{codes_at, ties_at, scopes_at};
ghost use Rattle.text.specs.Writer.{Wrote};
ghost use Rattle.tabletext.specs.Text as t;

use codetable::{
    CODE_AT, CODE_SIZE, HEADER_AT, HEADER_COUNT_AT, ROW_COUNT_AT, ROW_SIZE, SCOPE_COUNT_AT,
    SCOPE_SIZE, read_row,
};
use numbers::{byte_number, u16_number};
use rules::{MARK_BINARY, MARK_DOUBLE, MARK_GUID, MARK_LONG, MARK_TEXT};
use text::{put_byte, put_hex, put_text};

// The numbers of `rules` in the types that they are compared in here.
const LAST_SIZED_ID: usize = rules::LAST_SIZED_ID as usize;

const KIND_NUMBER: usize = rules::KIND_NUMBER as usize;

const KIND_TEXT: usize = rules::KIND_TEXT as usize;

const KIND_GUID: usize = rules::KIND_GUID as usize;

const KIND_DOUBLE: usize = rules::KIND_DOUBLE as usize;

const SCOPE_FORM: u32 = rules::SCOPE_FORM as u32;

const SCOPE_REPORT: u32 = rules::SCOPE_REPORT as u32;

const SCOPE_ENTRY: u32 = rules::SCOPE_ENTRY as u32;

// ---- names
// A name, after the sign of a comment.
#[tactic(auto, using(text::proofs::Chain::nothing), unfolding(crate::specs::Text::remark))]
fn put_remark(out: &mut [u8], at: usize, name: &[u8]) -> usize
    ensures { Wrote out.old at (t.remark name.now) out.new result }
{
    if name.len() == 0 {
        return at;
    }
    let p = put_text(out, at, b"  # ");
    put_text(out, p, name)
}

fn put_target_name(out: &mut [u8], at: usize, mark: u32, target: u16) -> usize
    ensures { Wrote out.old at (t.remark (name_in_lem (names_for mark) target)) out.new result }
{
    let index = nametables::index();
    let letters = nametables::letters();
    put_remark(
        out,
        at,
        names::value_name_in(&index, &letters, mark, target),
    )
}

fn put_type_name(out: &mut [u8], at: usize, code: u16) -> usize
    ensures { Wrote out.old at (t.remark (name_in_lem control_type_names code)) out.new result }
{
    let index = nametables::index();
    let letters = nametables::letters();
    put_remark(out, at, names::type_name_in(&index, &letters, code))
}

// ---- rows
#[tactic(auto, unfolding(crate::specs::Text::kind_word))]
fn put_kind(out: &mut [u8], at: usize, kind: usize) -> usize
    ensures { Wrote out.old at (t.kind_word kind) out.new result }
{
    match kind {
        KIND_NUMBER => put_text(out, at, b"number"),
        KIND_TEXT => put_text(out, at, b"text"),
        KIND_GUID => put_text(out, at, b"guid"),
        KIND_DOUBLE => put_text(out, at, b"double"),
        _ => put_text(out, at, b"bytes"),
    }
}

#[tactic(auto, unfolding(crate::specs::Text::kind_mark))]
fn mark_of(id: usize, kind: usize) -> u32
    ensures { result ≡ t.kind_mark id kind }
{
    if id <= LAST_SIZED_ID {
        return MARK_LONG;
    }
    match kind {
        KIND_NUMBER => MARK_BINARY,
        KIND_TEXT => MARK_TEXT,
        KIND_GUID => MARK_GUID,
        KIND_DOUBLE => MARK_DOUBLE,
        _ => MARK_BINARY,
    }
}

pub fn put_row(out: &mut [u8], at: usize, id: usize, target: usize, kind: usize) -> usize
    requires { (id < 256) × (target < 65536) }
    ensures { Wrote out.old at (t.row_line (record { id = id; target = target; kind = kind })) out.new result }
{
    let p = put_hex(out, at, 2, id as u32);
    let p = put_byte(out, p, b' ');
    let p = put_hex(out, p, 4, target as u32);
    let p = put_byte(out, p, b' ');
    let p = put_kind(out, p, kind);
    let p = put_target_name(out, p, mark_of(id, kind), target as u16);
    put_byte(out, p, b'\n')
}

// The n rows from start on.
fn put_rows(out: &mut [u8], at: usize, table: &[u8], start: usize, n: usize) -> usize
    requires { start + 4 * n < 2 ^ 59 }
    ensures { Wrote out.old at (t.row_lines (ties_at table.now start n)) out.new result }
{
    let mut p = at;
    for i in 0..n {
        let r = read_row(table, start + ROW_SIZE * i);
        p = put_row(out, p, r.id, r.target, r.kind);
    }
    p
}

// ---- scopes
#[tactic(auto, unfolding(crate::specs::Text::scope_name))]
pub fn put_scope_name(out: &mut [u8], at: usize, kind: u32, code: u32) -> usize
    ensures { Wrote out.old at (t.scope_name kind code) out.new result }
{
    match kind {
        SCOPE_FORM => put_text(out, at, b"form"),
        SCOPE_REPORT => put_text(out, at, b"report"),
        _ => {
            let p = put_text(out, at, b"entry ");
            put_hex(out, p, 4, code)
        }
    }
}

#[tactic(auto, using(text::proofs::Chain::nothing), unfolding(crate::specs::Text::type_remark))]
pub fn put_type_remark(out: &mut [u8], at: usize, kind: u32, code: u16) -> usize
    ensures { Wrote out.old at (t.type_remark kind code) out.new result }
{
    if kind < SCOPE_ENTRY {
        return at;
    }
    put_type_name(out, at, code)
}

fn put_scope(out: &mut [u8], at: usize, kind: usize, code: usize) -> usize
    requires { (kind < 256) × (code < 65536) }
    ensures { Wrote out.old at (t.scope_line kind code) out.new result }
{
    let p = put_byte(out, at, b'\n');
    let p = put_scope_name(out, p, kind as u32, code as u32);
    let p = put_type_remark(out, p, kind as u32, code as u16);
    put_byte(out, p, b'\n')
}

// The n scopes whose contents start at start and whose bodies at bodies.
fn put_scopes(
    out: &mut [u8],
    at: usize,
    table: &[u8],
    start: usize,
    bodies: usize,
    n: usize,
) -> usize
    requires { (start + 5 * n < 2 ^ 32) × (bodies + 262144 * n < 2 ^ 58) }
    ensures { Wrote out.old at (t.scope_lines (scopes_at table.now start bodies n)) out.new result }
{
    let mut p = at;
    let mut body = bodies;
    for i in 0..n {
        let place = start + SCOPE_SIZE * i;
        let kind = byte_number(table, place);
        let code = u16_number(table, place + CODE_AT);
        let count = u16_number(table, place + ROW_COUNT_AT);
        let q = put_scope(out, p, kind, code);
        p = put_rows(out, q, table, body, count);
        body += ROW_SIZE * count;
    }
    p
}

// ---- the table
fn put_header(out: &mut [u8], at: usize, code: usize) -> usize
    requires { code < 65536 }
    ensures { Wrote out.old at (t.header_line code) out.new result }
{
    let p = put_text(out, at, b"header ");
    let p = put_hex(out, p, 4, code as u32);
    put_byte(out, p, b'\n')
}

// The n header codes from start on.
fn put_headers(out: &mut [u8], at: usize, table: &[u8], start: usize, n: usize) -> usize
    requires { start + 2 * n < 2 ^ 32 }
    ensures { Wrote out.old at (t.header_lines (codes_at table.now start n)) out.new result }
{
    let mut p = at;
    for i in 0..n {
        p = put_header(out, p, u16_number(table, start + CODE_SIZE * i));
    }
    p
}

// The text of a table from the buffer's start on.
pub fn table_text(table: &[u8], out: &mut [u8]) -> usize
    ensures { Wrote out.old 0 (t.table_text table.now) out.new result }
{
    let headers = byte_number(table, HEADER_COUNT_AT);
    let scopes = u16_number(table, SCOPE_COUNT_AT);
    let contents = HEADER_AT + CODE_SIZE * headers;
    let p = put_text(out, 0, b"layout ");
    let p = put_hex(out, p, 2, byte_number(table, 0) as u32);
    let p = put_byte(out, p, b'\n');
    let p = put_headers(out, p, table, HEADER_AT, headers);
    put_scopes(
        out,
        p,
        table,
        contents,
        contents + SCOPE_SIZE * scopes,
        scopes,
    )
}
