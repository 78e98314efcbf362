// Two code tables joined: the scopes and the rows of either, each once, in order. Both tables are walked at once: to count, and to find two different rows
// for one scope and id; then to write.
#![tactic(auto)]

ghost use Rattle.std.specs.Prelude.{◌≡◌, true, ◌∷◌, ◌++◌, ◌+◌, ◌-◌, ◌*◌, ◌<◌, ◌^◌};
ghost use Rattle.rules.specs.Lists.{same};
ghost use Rattle.rules.specs.CodeTable as t;
ghost use Rattle.rules.specs.Bytes.{two_bytes_lem};
ghost use Rattle.rules.specs.Join.{join_rows, join_scopes, same_row_lem, ties_bytes, same_head_lem, join_exit};
ghost use Rattle.text.specs.Writer.{Wrote};
ghost use Rattle.tablebytes.specs.Rows.{tie_of};
ghost use Rattle.joinlaws.proofs.TableBytesLaws.{codes_bytes, contents_bytes, bodies_bytes};
ghost use Rattle.join.specs.Walk.{alone, Walks, NextTurn, rows_in_lem, RowsWalk, RowLeft, rows_after, RowsTurn, counted, scopes_of, ReadsKey, ScopesWalk, ScopeLeft, taken, stayed, ScopesTurn, sized, kind_of, code_of, Formed, Agreed, head_bytes};

use codetable::{
    CODE_AT, CODE_SIZE, CODES, HEADER_AT, HEADER_COUNT_AT, MOST_SCOPES, ROW_COUNT_AT, ROW_SIZE,
    SCOPE_COUNT_AT, SCOPE_SIZE, layout, well_formed,
};
use numbers::{byte_number, u16_number};
use rules::{Answer, BAD_TABLE, MORE_SCOPES, NO_ROOM_FOR_TEXT, OTHER_HEAD, TWO_ROWS};
use tablebytes::{Row, put_row, put_scope, put_two, row_at};
use text::{put_byte, refused, wrote};

// Rows of a scope that are left: where the next one is, and how many they are.
#[derive(Clone, Copy)]
struct Rows {
    at: usize,
    left: usize,
}

// Scopes of a table that are left: where the contents tell the next one, where its rows start, and how many scopes they are.
#[derive(Clone, Copy)]
struct Scopes {
    at: usize,
    body: usize,
    left: usize,
}

// The next row of two scopes, whether it is the only one with its id, and what is left.
// Kept: `agreed` tells of the row and not whether there is one; `put_rows` writes it either way.
#[derive(Clone, Copy)]
struct RowTurn {
    row: Row,
    agreed: bool,
    one: Rows,
    other: Rows,
}

// What a turn takes of a table's scopes: the rows of the scope that it takes, or none, and the scopes that are left.
#[derive(Clone, Copy)]
struct Taken {
    rows: Rows,
    rest: Scopes,
}

// The next scope of two tables, kind and code as one number, and what is taken of each.
#[derive(Clone, Copy)]
struct ScopeTurn {
    key: usize,
    front: Taken,
    back: Taken,
}

// How many scopes and rows two tables have together.
#[derive(Clone, Copy)]
struct Size {
    scopes: usize,
    rows: usize,
}

// Of two walks, with so many left and these numbers next, the first goes on by itself: its number is less, or the second is at its end.
#[tactic(auto, unfolding(crate::specs::Walk::alone))]
fn alone(left: usize, number: usize, others: usize, other: usize) -> bool
    ensures { result ≡ alone left number others other }
{
    if left == 0 {
        return false;
    }
    if others == 0 {
        return true;
    }
    number < other
}

// ---- rows
fn same_row(x: Row, y: Row) -> bool
    ensures { result ≡ same_row_lem (tie_of x) (tie_of y) }
{
    x.target == y.target && x.kind == y.kind
}

// The rows after the next one.
fn rows_after(a: Rows) -> Rows
    requires { RowLeft a }
    ensures { result ≡ rows_after a }
{
    Rows {
        at: a.at + ROW_SIZE,
        left: a.left - 1,
    }
}

fn row_turn(one: &[u8], a: Rows, other: &[u8], b: Rows) -> RowTurn
    requires { NextTurn RowsWalk one.now a other.now b (a.left + b.left) }
    ensures { RowsTurn one.now a other.now b result }
{
    let x = row_at(one, a.at);
    let y = row_at(other, b.at);
    if alone(a.left, x.id as usize, b.left, y.id as usize) {
        let rest = rows_after(a);
        return RowTurn {
            row: x,
            agreed: true,
            one: rest,
            other: b,
        };
    }
    if alone(b.left, y.id as usize, a.left, x.id as usize) {
        let rest = rows_after(b);
        return RowTurn {
            row: y,
            agreed: true,
            one: a,
            other: rest,
        };
    }
    let agreed = same_row(x, y);
    let front = rows_after(a);
    let back = rows_after(b);
    RowTurn {
        row: x,
        agreed,
        one: front,
        other: back,
    }
}

// How many rows two scopes have together, if no id has two different ones.
fn count_rows(one: &[u8], front: Rows, other: &[u8], back: Rows) -> Option<usize>
    requires { Walks RowsWalk one.now front other.now back }
    ensures { result ≡ counted (rows_in_lem one.now front) (rows_in_lem other.now back) }
{
    let mut a = front;
    let mut b = back;
    let mut rows = 0;
    while 0 < a.left + b.left {
        let turn = row_turn(one, a, other, b);
        if !turn.agreed {
            return None;
        }
        rows += 1;
        a = turn.one;
        b = turn.other;
    }
    Some(rows)
}

// ---- scopes
// Kind and code of the next scope as one number.
fn key_at(table: &[u8], a: Scopes) -> usize
    requires { a.at < 2 ^ 32 }
    ensures { ReadsKey table.now a.at result }
{
    byte_number(table, a.at) * CODES + u16_number(table, a.at + CODE_AT)
}

fn take(table: &[u8], a: Scopes) -> Taken
    requires { ScopeLeft a }
    ensures { result ≡ taken table.now a }
{
    let count = u16_number(table, a.at + ROW_COUNT_AT);
    let rows = Rows {
        at: a.body,
        left: count,
    };
    let rest = Scopes {
        at: a.at + SCOPE_SIZE,
        body: a.body + ROW_SIZE * count,
        left: a.left - 1,
    };
    Taken { rows, rest }
}

fn stay(a: Scopes) -> Taken
    ensures { result ≡ stayed a }
{
    let rows = Rows { at: 0, left: 0 };
    Taken { rows, rest: a }
}

fn scope_turn(one: &[u8], a: Scopes, other: &[u8], b: Scopes) -> ScopeTurn
    requires { NextTurn ScopesWalk one.now a other.now b (a.left + b.left) }
    ensures { ScopesTurn one.now a other.now b result }
{
    let x = key_at(one, a);
    let y = key_at(other, b);
    if alone(a.left, x, b.left, y) {
        let front = take(one, a);
        let back = stay(b);
        return ScopeTurn {
            key: x,
            front,
            back,
        };
    }
    if alone(b.left, y, a.left, x) {
        let front = stay(a);
        let back = take(other, b);
        return ScopeTurn {
            key: y,
            front,
            back,
        };
    }
    let front = take(one, a);
    let back = take(other, b);
    ScopeTurn {
        key: x,
        front,
        back,
    }
}

fn scopes_of(table: &[u8]) -> Scopes
    ensures { result ≡ scopes_of table.now }
{
    let contents = HEADER_AT + CODE_SIZE * byte_number(table, HEADER_COUNT_AT);
    let scopes = u16_number(table, SCOPE_COUNT_AT);
    Scopes {
        at: contents,
        body: contents + SCOPE_SIZE * scopes,
        left: scopes,
    }
}

// The same of two tables, with the number of scopes.
fn count_scopes(one: &[u8], other: &[u8]) -> Option<Size>
    requires { Formed one.now other.now }
    ensures { result ≡ sized (t.scopes one.now) (t.scopes other.now) }
{
    let mut a = scopes_of(one);
    let mut b = scopes_of(other);
    let mut scopes = 0;
    let mut rows = 0;
    while 0 < a.left + b.left {
        let turn = scope_turn(one, a, other, b);
        let here = count_rows(one, turn.front.rows, other, turn.back.rows)?;
        scopes += 1;
        rows += here;
        a = turn.front.rest;
        b = turn.back.rest;
    }
    Some(Size { scopes, rows })
}

// ---- heads
// The first n header codes of two tables are the same.
fn same_codes(one: &[u8], other: &[u8], n: usize) -> bool
    requires { n < 256 }
    ensures { result ≡ same (t.codes_at one.now 4 n) (t.codes_at other.now 4 n) }
{
    for i in 0..n {
        let at = HEADER_AT + CODE_SIZE * i;
        if u16_number(one, at) != u16_number(other, at) {
            return false;
        }
    }
    true
}

#[tactic(auto, unfolding(rules::specs::Join::same_head_lem))]
pub fn same_head(one: &[u8], other: &[u8]) -> bool
    ensures { result ≡ same_head_lem one.now other.now }
{
    if layout(one) != layout(other) {
        return false;
    }
    let codes = byte_number(one, HEADER_COUNT_AT);
    if codes != byte_number(other, HEADER_COUNT_AT) {
        return false;
    }
    same_codes(one, other, codes)
}

// ---- writing
fn put_codes(out: &mut [u8], at: usize, table: &[u8]) -> usize
    ensures { Wrote out.old at (codes_bytes (t.header table.now)) out.new result }
{
    let codes = byte_number(table, HEADER_COUNT_AT);
    let mut o = at;
    for i in 0..codes {
        o = put_two(out, o, u16_number(table, HEADER_AT + CODE_SIZE * i) as u16);
    }
    o
}

fn put_head(out: &mut [u8], table: &[u8], scopes: u16) -> usize
    ensures { Wrote out.old 0 (head_bytes table.now scopes) out.new result }
{
    let o = put_byte(out, 0, layout(table));
    let o = put_byte(out, o, byte_number(table, HEADER_COUNT_AT) as u8);
    let o = put_two(out, o, scopes);
    put_codes(out, o, table)
}

// Kind and code are told as one number.
fn put_key(out: &mut [u8], at: usize, key: usize, rows: u16) -> usize
    requires { key < 2 ^ 24 }
    ensures { Wrote out.old at (kind_of key ∷ two_bytes_lem (code_of key) ++ two_bytes_lem rows) out.new result }
{
    put_scope(out, at, (key / CODES) as u8, (key % CODES) as u16, rows)
}

fn put_contents(out: &mut [u8], at: usize, one: &[u8], other: &[u8]) -> usize
    requires { Agreed one.now other.now }
    ensures { Wrote out.old at (contents_bytes (join_scopes (t.scopes one.now) (t.scopes other.now))) out.new result }
{
    let mut a = scopes_of(one);
    let mut b = scopes_of(other);
    let mut o = at;
    while 0 < a.left + b.left {
        let turn = scope_turn(one, a, other, b);
        // No id has two different rows where the tables agree.
        let here = count_rows(one, turn.front.rows, other, turn.back.rows).unwrap();
        o = put_key(out, o, turn.key, here as u16);
        a = turn.front.rest;
        b = turn.back.rest;
    }
    o
}

fn put_rows(out: &mut [u8], at: usize, one: &[u8], front: Rows, other: &[u8], back: Rows) -> usize
    requires { Walks RowsWalk one.now front other.now back }
    ensures { Wrote out.old at (ties_bytes (join_rows (rows_in_lem one.now front) (rows_in_lem other.now back))) out.new result }
{
    let mut a = front;
    let mut b = back;
    let mut o = at;
    while 0 < a.left + b.left {
        let turn = row_turn(one, a, other, b);
        let row = turn.row;
        o = put_row(out, o, row.id, row.target, row.kind);
        a = turn.one;
        b = turn.other;
    }
    o
}

// Kept beside `put_contents`: what a turn writes would be a closure that is lent `out`; its clause would be longer than the loop.
fn put_bodies(out: &mut [u8], at: usize, one: &[u8], other: &[u8]) -> usize
    requires { Formed one.now other.now }
    ensures { Wrote out.old at (bodies_bytes (join_scopes (t.scopes one.now) (t.scopes other.now))) out.new result }
{
    let mut a = scopes_of(one);
    let mut b = scopes_of(other);
    let mut o = at;
    while 0 < a.left + b.left {
        let turn = scope_turn(one, a, other, b);
        o = put_rows(out, o, one, turn.front.rows, other, turn.back.rows);
        a = turn.front.rest;
        b = turn.back.rest;
    }
    o
}

// ---- joining
pub fn join(one: &[u8], other: &[u8], out: &mut [u8]) -> Answer
    ensures value { result ≡ (join_exit one.now other.now out.old).answer }
    ensures out_after { out.new ≡ (join_exit one.now other.now out.old).out }
{
    if !well_formed(one) {
        return refused(BAD_TABLE);
    }
    if !well_formed(other) {
        return refused(BAD_TABLE);
    }
    if !same_head(one, other) {
        return refused(OTHER_HEAD);
    }
    let Some(sized) = count_scopes(one, other) else {
        return refused(TWO_ROWS);
    };
    if MOST_SCOPES < sized.scopes {
        return refused(MORE_SCOPES);
    }
    let size = HEADER_AT
        + CODE_SIZE * byte_number(one, HEADER_COUNT_AT)
        + SCOPE_SIZE * sized.scopes
        + ROW_SIZE * sized.rows;
    if out.len() < size {
        return refused(NO_ROOM_FOR_TEXT);
    }
    let at = put_head(out, one, sized.scopes as u16);
    let at = put_contents(out, at, one, other);
    put_bodies(out, at, one, other);
    wrote(size as u32)
}
