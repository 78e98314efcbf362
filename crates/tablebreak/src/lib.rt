// Where a code table first breaks one of document 01's rules, and which: specs/Rules.antt has them by number.
#![tactic(auto)]

ghost use Rattle.std.specs.Prelude.{◌≡◌, ◌+◌, ◌*◌, ◌≤◌, ◌<◌, ◌^◌, length};
ghost use Rattle.tablebreak.specs.Rules as law;

use codetable::{
    CODE_AT, CODE_SIZE, CODES, HEADER_AT, HEADER_COUNT_AT, KIND_AT, LONGEST_TABLE, MOST_HEADERS,
    MOST_SCOPES, ROW_COUNT_AT, ROW_SIZE, SCOPE_COUNT_AT, SCOPE_SIZE, TARGET_AT, read_row,
};
use numbers::{byte_number, u16_number};

// The rules by number; those up to SCOPE_ORDER are of the contents.
// Kept: `tablewords::break_line` takes a break of any number, 0 and those of no rule too.
pub const MANY_HEADERS: u32 = 1;

pub const MANY_SCOPES: u32 = 2;

pub const HEADER_ORDER: u32 = 3;

pub const SCOPE_KIND: u32 = 4;

pub const SCOPE_CODE: u32 = 5;

pub const SCOPE_ORDER: u32 = 6;

pub const ID_ORDER: u32 = 7;

pub const ID_HIGH: u32 = 8;

pub const TARGET_HIGH: u32 = 9;

pub const ROW_KIND: u32 = 10;

pub const TOO_SHORT: u32 = 11;

pub const TOO_LONG: u32 = 12;

pub const OVER_LONGEST: u32 = 13;

// The limits of document 01.
const LAST_ID: usize = rules::LAST_ID as usize;

const LAST_TARGET: usize = codetable::LAST_TARGET as usize;

// The last kind of a scope, which alone has codes, and the last kind of a row.
const SCOPE_ENTRY: usize = rules::SCOPE_ENTRY as usize;

const KIND_BYTES: usize = rules::KIND_BYTES as usize;

// A rule broken at a byte. Scopes and rows are counted from 1, and 0 where the rule is of none; kind and code are the scope's.
// `found` is what stands there, `before` what stands before it.
#[derive(Clone, Copy)]
pub struct Break {
    pub rule: u32,
    pub at: u32,
    pub scope: u32,
    pub kind: u32,
    pub code: u32,
    pub row: u32,
    pub found: u32,
    pub before: u32,
}

// ---- a break
// A rule of the table as a whole.
fn broken(rule: u32, at: usize, found: usize, before: usize) -> Break
    requires { law.BreakFits at found before }
    ensures { result ≡ law.broken rule at found before }
{
    Break {
        rule,
        at: at as u32,
        scope: 0,
        kind: 0,
        code: 0,
        row: 0,
        found: found as u32,
        before: before as u32,
    }
}

// A rule of a scope, or of one of its rows.
fn placed(found: Break, scope: usize, kind: usize, code: usize, row: usize) -> Break
    requires { law.PlaceFits scope kind code row }
    ensures { result ≡ law.placed found scope kind code row }
{
    Break {
        rule: found.rule,
        at: found.at,
        scope: scope as u32,
        kind: kind as u32,
        code: code as u32,
        row: row as u32,
        found: found.found,
        before: found.before,
    }
}

// ---- where it is
// The n header codes.
fn header_break(table: &[u8], n: usize) -> Option<Break>
    requires { 4 + 2 * n < 2 ^ 32 }
    ensures { law.Told result (law.header_break table.now 4 0 n) }
{
    let mut least = 0;
    for i in 0..n {
        let at = HEADER_AT + CODE_SIZE * i;
        let code = u16_number(table, at);
        if code < least {
            return Some(broken(HEADER_ORDER, at, code, least - 1));
        }
        least = code + 1;
    }
    None
}

// A scope of the contents; the one before it has the key least - 1.
fn order_rule(at: usize, key: usize, least: usize) -> Option<Break>
    requires { (at < 2 ^ 32) × (least < 2 ^ 32) }
    ensures { law.Told result (law.order_rule at key least) }
{
    if key < least {
        let last = least - 1;
        return Some(broken(SCOPE_ORDER, at, last / CODES, last % CODES));
    }
    None
}

fn scope_rule(at: usize, kind: usize, code: usize, least: usize) -> Option<Break>
    requires { law.ScopeFits at kind code least }
    ensures { law.Told result (law.scope_rule at kind code least) }
{
    if SCOPE_ENTRY < kind {
        return Some(broken(SCOPE_KIND, at, kind, 0));
    }
    let key = kind * CODES + code;
    if kind == SCOPE_ENTRY {
        return order_rule(at, key, least);
    }
    if 0 < code {
        return Some(broken(SCOPE_CODE, at + CODE_AT, code, 0));
    }
    order_rule(at, key, least)
}

// The n scopes whose contents start at start.
fn scope_break(table: &[u8], start: usize, n: usize) -> Option<Break>
    requires { start + 5 * n + 2 < 2 ^ 32 }
    ensures { law.Told result (law.scope_break table.now start 0 1 n) }
{
    let mut least = 0;
    for i in 0..n {
        let at = start + SCOPE_SIZE * i;
        let kind = byte_number(table, at);
        let code = u16_number(table, at + CODE_AT);
        if let Some(found) = scope_rule(at, kind, code, least) {
            return Some(placed(found, i + 1, kind, code, 0));
        }
        least = kind * CODES + code + 1;
    }
    None
}

// Where the bodies of n scopes end; they start at bodies.
fn bodies_end(table: &[u8], start: usize, bodies: usize, n: usize) -> usize
    requires { law.ScopesReady start bodies n }
    ensures { law.BodiesEnd table.now start bodies n result }
{
    let mut end = bodies;
    for i in 0..n {
        end += ROW_SIZE * u16_number(table, start + SCOPE_SIZE * i + ROW_COUNT_AT);
    }
    end
}

// A row; the one before it has the id least - 1.
fn row_rule(at: usize, id: usize, target: usize, kind: usize, least: usize) -> Option<Break>
    requires { law.RowFits at id target kind least }
    ensures { law.Told result (law.row_rule at id target kind least) }
{
    if id < least {
        return Some(broken(ID_ORDER, at, id, least - 1));
    }
    if LAST_ID < id {
        return Some(broken(ID_HIGH, at, id, 0));
    }
    if LAST_TARGET < target {
        return Some(broken(TARGET_HIGH, at + TARGET_AT, target, 0));
    }
    if KIND_BYTES < kind {
        return Some(broken(ROW_KIND, at + KIND_AT, kind, 0));
    }
    None
}

// The n rows from start on, of one scope.
fn row_break(
    table: &[u8],
    start: usize,
    n: usize,
    scope: usize,
    kind: usize,
    code: usize,
) -> Option<Break>
    requires { law.RowsReady start n scope kind code }
    ensures { law.Told result (law.row_break table.now start 0 scope kind code 1 n) }
{
    let mut least = 0;
    for i in 0..n {
        let at = start + ROW_SIZE * i;
        let r = read_row(table, at);
        if let Some(found) = row_rule(at, r.id, r.target, r.kind, least) {
            return Some(placed(found, scope, kind, code, i + 1));
        }
        least = r.id + 1;
    }
    None
}

// The rows of n scopes.
fn rows_break(table: &[u8], start: usize, bodies: usize, n: usize) -> Option<Break>
    requires { law.ScopesReady start bodies n }
    ensures { law.Told result (law.rows_break table.now start bodies 1 n) }
{
    let mut body = bodies;
    for i in 0..n {
        let at = start + SCOPE_SIZE * i;
        let kind = byte_number(table, at);
        let code = u16_number(table, at + CODE_AT);
        let count = u16_number(table, at + ROW_COUNT_AT);
        if let Some(found) = row_break(table, body, count, i + 1, kind, code) {
            return Some(found);
        }
        body += ROW_SIZE * count;
    }
    None
}

// The length against the contents, and then the rows.
fn body_break(table: &[u8], contents: usize, bodies: usize, scopes: usize) -> Option<Break>
    requires { law.BodyReady table.now contents bodies scopes }
    ensures { law.Told result (law.body_break table.now) }
{
    let size = table.len();
    let end = bodies_end(table, contents, bodies, scopes);
    if size < end {
        return Some(broken(TOO_SHORT, size, end - size, 0));
    }
    if end < size {
        return Some(broken(TOO_LONG, end, size - end, 0));
    }
    rows_break(table, contents, bodies, scopes)
}

// The order of specs/Rules.antt.
fn search(table: &[u8]) -> Option<Break>
    requires { length table.now ≤ law.longest }
    ensures { law.Told result (law.searched table.now) }
{
    let size = table.len();
    if size < HEADER_AT {
        return Some(broken(TOO_SHORT, size, HEADER_AT - size, 0));
    }
    let headers = byte_number(table, HEADER_COUNT_AT);
    if MOST_HEADERS < headers {
        return Some(broken(MANY_HEADERS, HEADER_COUNT_AT, headers, 0));
    }
    let scopes = u16_number(table, SCOPE_COUNT_AT);
    if MOST_SCOPES < scopes {
        return Some(broken(MANY_SCOPES, SCOPE_COUNT_AT, scopes, 0));
    }
    let contents = HEADER_AT + CODE_SIZE * headers;
    let bodies = contents + SCOPE_SIZE * scopes;
    if size < bodies {
        return Some(broken(TOO_SHORT, size, bodies - size, 0));
    }
    if let Some(found) = header_break(table, headers) {
        return Some(found);
    }
    if let Some(found) = scope_break(table, contents, scopes) {
        return Some(found);
    }
    body_break(table, contents, bodies, scopes)
}

// Where a table breaks a rule first; nothing is broken where it is well formed.
pub fn first_break(table: &[u8]) -> Option<Break>
    ensures { law.Told result (law.break_of table.now) }
{
    if codetable::well_formed(table) {
        return None;
    }
    if LONGEST_TABLE < table.len() {
        return Some(broken(OVER_LONGEST, LONGEST_TABLE, 0, 0));
    }
    search(table)
}
