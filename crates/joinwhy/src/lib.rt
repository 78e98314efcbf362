// Why two code tables can't be joined; specs/Why.antt says it line by line. The lines are written into a lent buffer at a place; the place after them is returned.
#![tactic(auto)]

ghost use Rattle.std.specs.Prelude.{◌+◌, ◌*◌, ◌<◌, ◌^◌};
ghost use Rattle.rules.specs.CodeTable as t;
ghost use Rattle.text.specs.Writer.{Wrote};
ghost use Rattle.succession.specs.Found.{as_lack};
ghost use Rattle.joinwhy.specs.Why as w;

use coderows::Tie;
use codetable::{CODE_SIZE, HEADER_AT, HEADER_COUNT_AT, well_formed};
use numbers::{byte_number, u16_number};
use rules::{OTHER_HEAD, TWO_ROWS};
use succession::{Lack, first_other};
use tabletext::{put_row, put_scope_name, put_type_remark};
use text::{put_byte, put_hex, put_text};

// ---- two different rows
// What the other table has for an id.
#[tactic(auto, unfolding(crate::specs::Why::other_line))]
fn put_other(out: &mut [u8], at: usize, id: u8, other: Option<Tie>) -> usize
    ensures { Wrote out.old at (w.other_line id other) out.new result }
{
    match other {
        Some(tie) => put_row(out, at, id as usize, tie.target as usize, tie.kind as usize),
        None => put_text(out, at, b"none\n"),
    }
}

// A scope, the one table's row, and what the other has for its id.
#[tactic(auto, using(text::proofs::Chain::nothing), unfolding(crate::specs::Why::lack_text))]
pub fn put_lack(out: &mut [u8], at: usize, lack: Option<Lack>) -> usize
    ensures { Wrote out.old at (w.lack_text lack) out.new result }
{
    let Some(lack) = lack else {
        return at;
    };
    let p = put_scope_name(out, at, lack.kind as u32, lack.code as u32);
    let p = put_type_remark(out, p, lack.kind as u32, lack.code);
    let p = put_byte(out, p, b'\n');
    let row = lack.row;
    let p = put_row(
        out,
        p,
        row.id as usize,
        row.target as usize,
        row.kind as usize,
    );
    put_other(out, p, row.id, lack.other)
}

fn put_clash(out: &mut [u8], at: usize, one: &[u8], other: &[u8]) -> usize
    ensures { Wrote out.old at (w.lack_text (as_lack (w.first_clash one.now other.now))) out.new result }
{
    if !well_formed(one) {
        return at;
    }
    if !well_formed(other) {
        return at;
    }
    let clash = first_other(one, other, false);
    put_lack(out, at, clash)
}

// ---- two heads
// The n codes from start on.
fn put_codes(out: &mut [u8], at: usize, table: &[u8], start: usize, n: usize) -> usize
    requires { start + 2 * n < 2 ^ 32 }
    ensures { Wrote out.old at (w.code_words (t.codes_at table.now start n)) out.new result }
{
    let mut p = at;
    for i in 0..n {
        let q = put_byte(out, p, b' ');
        p = put_hex(out, q, 4, u16_number(table, start + CODE_SIZE * i) as u32);
    }
    p
}

fn put_head(out: &mut [u8], at: usize, table: &[u8]) -> usize
    ensures { Wrote out.old at (w.head_line table.now) out.new result }
{
    let p = put_text(out, at, b"layout ");
    let p = put_hex(out, p, 2, byte_number(table, 0) as u32);
    let p = put_text(out, p, b" header");
    let p = put_codes(
        out,
        p,
        table,
        HEADER_AT,
        byte_number(table, HEADER_COUNT_AT),
    );
    put_byte(out, p, b'\n')
}

// What is said of two tables where joining them gives the answer `number`.
#[tactic(auto, using(text::proofs::Chain::nothing), unfolding(crate::specs::Why::why))]
pub fn put_why(out: &mut [u8], at: usize, number: u32, one: &[u8], other: &[u8]) -> usize
    ensures { Wrote out.old at (w.why number one.now other.now) out.new result }
{
    if number == OTHER_HEAD {
        let p = put_head(out, at, one);
        return put_head(out, p, other);
    }
    if number == TWO_ROWS {
        return put_clash(out, at, one, other);
    }
    at
}
