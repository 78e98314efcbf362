// Look-ups in a code table that go first where the last one for the same ended: the scope of a code, the row of an id. Such a hint may be wrong; nothing but time rests on it.
#![tactic(auto)]

ghost use Rattle.std.specs.Prelude.{◌≡◌, ◌<◌};
ghost use Rattle.rules.specs.Lists.{find};
ghost use Rattle.rules.specs.CodeTable.{ties_at, is_tied};
ghost use Rattle.coderows.specs.Look.{Listed, Finds, Sorted, body_rows, as_row};
ghost use Rattle.codehints.specs.Slots.{slots, RowAsked, RowsAsked};

use coderows::{Body, SCOPE_LIST_WORDS, Tie, row_near, scope_near, seek_row};
use numbers::{low_byte, number_of};

// Hints for rows, and after them hints for scopes: the low byte of a place each.
const ROW_HINTS: usize = 4096;

const SCOPE_HINTS: usize = 256;

pub const HINTS: usize = ROW_HINTS + SCOPE_HINTS;

// Spreads the rows of different scopes over the hints.
const SPREAD: usize = 11;

fn row_slot(start: usize, id: usize) -> usize
    requires { RowAsked start id }
    ensures { result < slots }
{
    (SPREAD * start + id) % ROW_HINTS
}

fn scope_slot(code: usize) -> usize
    ensures { result < slots }
{
    ROW_HINTS + code % SCOPE_HINTS
}

// Where the rows of a scope are, in a well-formed table with these scopes.
pub fn find_scope(
    table: &[u8],
    hints: &mut [u8; HINTS],
    scopes: &[u32; SCOPE_LIST_WORDS],
    scope_kind: u8,
    code: u16,
) -> Body
    ensures { Listed table.now scopes.now → Finds table.now scope_kind code result }
{
    let slot = scope_slot(code as usize);
    let scope = scope_near(table, scopes, scope_kind, code, number_of(hints[slot]));
    hints[slot] = low_byte(scope.near);
    scope.body
}

// What n rows say of an id, where the ids ascend; the row at which the search ends is noted.
fn learn_row(
    table: &[u8],
    hints: &mut [u8; HINTS],
    slot: usize,
    start: usize,
    n: usize,
    wanted: usize,
) -> Option<Tie>
    requires { RowsAsked slot start n }
    ensures { Sorted (ties_at table.now start n) → result ≡ as_row (find (is_tied wanted) (ties_at table.now start n)) }
{
    let sought = seek_row(table, start, n, wanted);
    hints[slot] = low_byte(sought.near);
    sought.row
}

// What the rows that were found say of an id, where their ids ascend.
#[tactic(auto, unfolding(coderows::specs::Look::body_rows))]
pub fn find_row(table: &[u8], hints: &mut [u8; HINTS], body: Body, id: u8) -> Option<Tie>
    ensures { Sorted (body_rows table.now body) → result ≡ as_row (find (is_tied id) (body_rows table.now body)) }
{
    let start = body.start as usize;
    let n = body.count as usize;
    let wanted = id as usize;
    let slot = row_slot(start, wanted);
    match row_near(table, start, n, wanted, number_of(hints[slot])) {
        Some(row) => row,
        None => learn_row(table, hints, slot, start, n, wanted),
    }
}
