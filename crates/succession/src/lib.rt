// The first row of a code table for which another has another row or none; whether a newer table succeeds an older.
#![tactic(auto)]

ghost use Rattle.std.specs.Prelude.{◌≡◌, true};
ghost use Rattle.rules.specs.CodeTable as t;
ghost use Rattle.rules.specs.Differences.{succeeds};
ghost use Rattle.succession.specs.Lacks.{rows_other, scopes_other, scopes_lack};
ghost use Rattle.succession.specs.Found.{TwoRows, ListedTable, is_held, as_lack};

use coderows::{SCOPE_LIST_WORDS, Tie, list_scopes, scope_near, seek_row};
use codetable::{
    CODE_AT, CODE_SIZE, HEADER_AT, HEADER_COUNT_AT, ROW_COUNT_AT, ROW_SIZE, SCOPE_COUNT_AT,
    SCOPE_SIZE,
};
use join::same_head;
use numbers::{byte_number, u16_number};
use tablebytes::{Row, row_at};

// A row of the one table, and what the other has for its scope and id.
#[derive(Clone, Copy)]
pub struct Lack {
    pub kind: u8,
    pub code: u16,
    pub row: Row,
    pub other: Option<Tie>,
}

// What was found for a row's id is this row; or nothing, where that doesn't count.
fn is_held(row: Row, other: Option<Tie>, missing: bool) -> bool
    ensures { result ≡ is_held missing row other }
{
    match other {
        Some(tie) => tie.target == row.target && tie.kind == row.kind,
        None => !missing,
    }
}

// The first of n rows of a scope for which the other table has another there, or none where that counts.
// Kept: `missing` is a Bool in rows_other of specs/Lacks.antt.
fn rows_other(
    one: &[u8],
    start: usize,
    n: usize,
    other: &[u8],
    from: usize,
    rows: usize,
    kind: u8,
    code: u16,
    missing: bool,
) -> Option<Lack>
    requires { TwoRows start n other.now from rows }
    ensures { result ≡ as_lack (rows_other missing kind code (t.ties_at other.now from rows) (t.ties_at one.now start n)) }
{
    for i in 0..n {
        let row = row_at(one, start + ROW_SIZE * i);
        let sought = seek_row(other, from, rows, row.id as usize);
        let there = sought.row;
        if !is_held(row, there, missing) {
            return Some(Lack {
                kind,
                code,
                row,
                other: there,
            });
        }
    }
    None
}

// The same of a whole table, where the other's scopes are listed.
fn scopes_other(
    one: &[u8],
    other: &[u8],
    listed: &[u32; SCOPE_LIST_WORDS],
    missing: bool,
) -> Option<Lack>
    requires { ListedTable other.now listed.now }
    ensures { result ≡ as_lack (scopes_other missing other.now (t.scopes one.now)) }
{
    let scopes = u16_number(one, SCOPE_COUNT_AT);
    let contents = HEADER_AT + CODE_SIZE * byte_number(one, HEADER_COUNT_AT);
    let mut body = contents + SCOPE_SIZE * scopes;
    for i in 0..scopes {
        let place = contents + SCOPE_SIZE * i;
        let kind = byte_number(one, place) as u8;
        let code = u16_number(one, place + CODE_AT) as u16;
        let n = u16_number(one, place + ROW_COUNT_AT);
        let scope = scope_near(other, listed, kind, code, 0);
        let theirs = scope.body;
        let from = theirs.start as usize;
        let rows = theirs.count as usize;
        let lack = rows_other(one, body, n, other, from, rows, kind, code, missing);
        if lack.is_some() {
            return lack;
        }
        body += ROW_SIZE * n;
    }
    None
}

// The first row of a table for which the other, which is well formed, has another in the same scope with the same id; or none, where `missing` is true.
pub fn first_other(one: &[u8], other: &[u8], missing: bool) -> Option<Lack>
    requires { t.well_formed_lem other.now ≡ true }
    ensures { result ≡ as_lack (scopes_other missing other.now (t.scopes one.now)) }
{
    let mut listed = [0; SCOPE_LIST_WORDS];
    list_scopes(other, &mut listed);
    scopes_other(one, other, &listed, missing)
}

// The first row of the older table that the newer, which is well formed, hasn't.
pub fn first_lack(older: &[u8], newer: &[u8]) -> Option<Lack>
    requires { t.well_formed_lem newer.now ≡ true }
    ensures { result ≡ as_lack (scopes_lack newer.now (t.scopes older.now)) }
{
    first_other(older, newer, true)
}

// The newer table, which is well formed, has the older's layout byte and header codes, and every row of it.
pub fn succeeds(older: &[u8], newer: &[u8]) -> bool
    requires { t.well_formed_lem newer.now ≡ true }
    ensures { result ≡ succeeds older.now newer.now }
{
    if !same_head(older, newer) {
        return false;
    }
    first_lack(older, newer).is_none()
}
