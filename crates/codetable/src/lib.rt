// The code table that a caller lends, as bytes: whether it is well formed, its layout and header codes, and its rows one by one.
#![tactic(auto)]

ghost use Rattle.std.specs.Prelude.{◌≡◌, ◌+◌, ◌*◌, ◌≤◌, ◌<◌, ◌^◌, length};
ghost use Rattle.rules.specs.Lists.{has, ascends};
ghost use Rattle.rules.specs.CodeTable as t;
ghost use Rattle.codetable.specs.Reads.{ReadsRow, ScopesSmall};

use numbers::{byte_number, number_of, u16_number};
use rules::{KIND_BYTES, LAST_ID, SCOPE_ENTRY};

// Where the number of header codes stands, the number of scopes, and the header codes.
pub const HEADER_COUNT_AT: usize = 1;

pub const SCOPE_COUNT_AT: usize = 2;

pub const HEADER_AT: usize = 4;

// How many bytes a header code has, a scope of the contents, a row.
pub const CODE_SIZE: usize = 2;

pub const SCOPE_SIZE: usize = 5;

pub const ROW_SIZE: usize = 4;

// In a scope of the contents the code stands after the kind, and the number of rows after that.
pub const CODE_AT: usize = 1;

pub const ROW_COUNT_AT: usize = 3;

// In a row the target stands after the id, low byte first, and the kind of its value after that, as its last byte.
pub const TARGET_AT: usize = 1;

const TARGET_HIGH_AT: usize = TARGET_AT + 1;

pub const KIND_AT: usize = 3;

// A table has no more header codes and scopes than these.
pub const MOST_HEADERS: usize = 4;

pub const MOST_SCOPES: usize = 64;

// A scope's kind and code are one number, kind * CODES + code: they ascend as it does.
pub const CODES: usize = 65536;

// No well-formed table has more bytes.
pub const LONGEST_TABLE: usize = 65100;

// The last target, and its high byte.
pub const LAST_TARGET: u16 = 0x7FFF;

const TARGET_HIGH: u8 = 0x7F;

// The last of the kinds of scopes; only it has codes.
const LAST_SCOPE_KIND: usize = SCOPE_ENTRY as usize;

// One more than what may follow the last id.
const PAST_IDS: usize = LAST_ID as usize + 2;

// The numbers of a row: id, target, and the kind of its value.
#[derive(Clone, Copy)]
pub struct RowRead {
    pub id: usize,
    pub target: usize,
    pub kind: usize,
}

// The row at a place. Where it ends inside the table, one test serves all of its bytes.
pub fn read_row(table: &[u8], at: usize) -> RowRead
    requires { at + 3 < 2 ^ 60 }
    ensures { ReadsRow table.now at result }
{
    if at + KIND_AT < table.len() {
        return RowRead {
            id: number_of(table[at]),
            target: number_of(table[at + TARGET_AT]) + 256 * number_of(table[at + TARGET_AT + 1]),
            kind: number_of(table[at + KIND_AT]),
        };
    }
    RowRead {
        id: byte_number(table, at),
        target: u16_number(table, at + TARGET_AT),
        kind: byte_number(table, at + KIND_AT),
    }
}

// The n codes from start on ascend.
fn codes_ascend(table: &[u8], start: usize, n: usize) -> bool
    requires { start + 2 * n < 2 ^ 60 }
    ensures { result ≡ ascends 0 (t.codes_at table.now start n) }
{
    let mut least = 0;
    for i in 0..n {
        let code = u16_number(table, start + CODE_SIZE * i);
        if code < least {
            return false;
        }
        least = code + 1;
    }
    true
}

// The n rows from start on, all inside the table, are well formed. Their ids ascend, so the last tells whether all are at most 0xFC.
fn ties_ok(table: &[u8], start: usize, n: usize) -> bool
    requires { start + 4 * n ≤ length table.now }
    ensures { result ≡ t.ties_ok (t.ties_at table.now start n) }
{
    let mut least = 0;
    for i in 0..n {
        let at = start + ROW_SIZE * i;
        let id = number_of(table[at]);
        if id < least {
            return false;
        }
        if TARGET_HIGH < table[at + TARGET_HIGH_AT] {
            return false;
        }
        if KIND_BYTES < table[at + KIND_AT] {
            return false;
        }
        least = id + 1;
    }
    least < PAST_IDS
}

// The n scopes whose contents start at start and whose bodies at bodies are well formed, and the last body ends where the table does.
fn scopes_fit(table: &[u8], start: usize, bodies: usize, n: usize) -> bool
    requires { ScopesSmall start bodies n }
    ensures { result ≡ t.scopes_fit table.now start bodies n }
{
    let mut body = bodies;
    let mut least = 0;
    for i in 0..n {
        let at = start + SCOPE_SIZE * i;
        let kind = byte_number(table, at);
        let code = u16_number(table, at + CODE_AT);
        let count = u16_number(table, at + ROW_COUNT_AT);
        if LAST_SCOPE_KIND < kind {
            return false;
        }
        if kind != LAST_SCOPE_KIND {
            if code != 0 {
                return false;
            }
        }
        let key = kind * CODES + code;
        if key < least {
            return false;
        }
        // bodies only grow, and the last ends where the table does
        if table.len() < body + ROW_SIZE * count {
            return false;
        }
        if !ties_ok(table, body, count) {
            return false;
        }
        least = key + 1;
        body += ROW_SIZE * count;
    }
    body == table.len()
}

// The table may be taken: every rule of its bytes holds, and no byte is left over.
pub fn well_formed(table: &[u8]) -> bool
    ensures { result ≡ t.well_formed_lem table.now }
{
    let headers = byte_number(table, HEADER_COUNT_AT);
    let scopes = u16_number(table, SCOPE_COUNT_AT);
    if MOST_HEADERS < headers {
        return false;
    }
    if MOST_SCOPES < scopes {
        return false;
    }
    if !codes_ascend(table, HEADER_AT, headers) {
        return false;
    }
    let contents = HEADER_AT + CODE_SIZE * headers;
    scopes_fit(table, contents, contents + SCOPE_SIZE * scopes, scopes)
}

// The layout byte.
pub fn layout(table: &[u8]) -> u8
    ensures { result ≡ t.layout table.now }
{
    numbers::byte_at(table, 0)
}

// One of the header codes is `code`.
pub fn is_header(table: &[u8], code: u16) -> bool
    ensures { result ≡ has code (t.header table.now) }
{
    let wanted = code as usize;
    (0..byte_number(table, HEADER_COUNT_AT)).any(|i| u16_number(table, HEADER_AT + CODE_SIZE * i)
        == wanted)
}
