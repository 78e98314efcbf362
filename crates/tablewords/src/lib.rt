// The words for a code table that isn't well formed: one line with the place and the rule that it breaks there.
#![tactic(auto)]

ghost use Rattle.std.specs.Prelude.{◌≤◌};
ghost use Rattle.text.specs.Writer.{Wrote};
ghost use Rattle.tablewords.specs.Words as w;

use tablebreak::{
    Break, HEADER_ORDER, ID_HIGH, ID_ORDER, MANY_HEADERS, MANY_SCOPES, ROW_KIND, SCOPE_CODE,
    SCOPE_KIND, TARGET_HIGH, TOO_LONG, TOO_SHORT,
};
use tabletext::put_scope_name;
use text::{put_byte, put_decimal, put_hex, put_text};

// The rules before it are of the contents, those from it on of rows and of the length.
const FIRST_BODY_RULE: u32 = ID_ORDER;

#[tactic(auto, using(text::proofs::Chain::nothing), unfolding(crate::specs::Words::scope_place))]
fn put_scope_place(out: &mut [u8], at: usize, scope: u32) -> usize
    ensures { Wrote out.old at (w.scope_place scope) out.new result }
{
    if scope == 0 {
        return at;
    }
    let p = put_text(out, at, b", scope ");
    put_decimal(out, p, scope)
}

fn put_row_place(out: &mut [u8], at: usize, row: u32, kind: u32, code: u32) -> usize
    ensures { Wrote out.old at (w.row_place row kind code) out.new result }
{
    let p = put_text(out, at, b", row ");
    let p = put_decimal(out, p, row);
    let p = put_text(out, p, b" of ");
    put_scope_name(out, p, kind, code)
}

#[tactic(auto, unfolding(crate::specs::Words::within))]
fn put_within(out: &mut [u8], at: usize, b: Break) -> usize
    ensures { Wrote out.old at (w.within b) out.new result }
{
    if b.row == 0 {
        return put_scope_place(out, at, b.scope);
    }
    put_row_place(out, at, b.row, b.kind, b.code)
}

// A text with a number in decimal, or in hex, or with two numbers in hex.
fn put_counted(out: &mut [u8], at: usize, before: &[u8], n: u32, after: &[u8]) -> usize
    ensures { Wrote out.old at (w.counted before.now n after.now) out.new result }
{
    let p = put_text(out, at, before);
    let p = put_decimal(out, p, n);
    put_text(out, p, after)
}

fn put_coded(out: &mut [u8], at: usize, before: &[u8], digits: u32, n: u32, after: &[u8]) -> usize
    ensures { Wrote out.old at (w.coded before.now digits n after.now) out.new result }
{
    let p = put_text(out, at, before);
    let p = put_hex(out, p, digits, n);
    put_text(out, p, after)
}

fn put_ordered(
    out: &mut [u8],
    at: usize,
    before: &[u8],
    digits: u32,
    n: u32,
    other: u32,
    after: &[u8],
) -> usize
    ensures { Wrote out.old at (w.ordered before.now digits n other after.now) out.new result }
{
    let p = put_text(out, at, before);
    let p = put_hex(out, p, digits, n);
    let p = put_text(out, p, b" stands after ");
    let p = put_hex(out, p, digits, other);
    put_text(out, p, after)
}

fn put_scopes_order(out: &mut [u8], at: usize, b: Break) -> usize
    ensures { Wrote out.old at (w.scopes_order b) out.new result }
{
    let p = put_scope_name(out, at, b.kind, b.code);
    let p = put_text(out, p, b" stands after ");
    let p = put_scope_name(out, p, b.found, b.before);
    put_text(out, p, b"; form, report, entries by code must ascend")
}

// The rules of the contents, up to SCOPE_ORDER.
#[tactic(auto, unfolding(crate::specs::Words::contents_rule, crate::specs::Words::contents_words))]
fn put_contents_rule(out: &mut [u8], at: usize, b: Break) -> usize
    ensures { Wrote out.old at (w.contents_rule b) out.new result }
{
    let rule = b.rule;
    match rule {
        0 => put_text(out, at, b"nothing is broken"),
        MANY_HEADERS => put_counted(out, at, b"there are ", b.found, b" header codes; at most 4"),
        MANY_SCOPES => put_counted(out, at, b"there are ", b.found, b" scopes; at most 64"),
        HEADER_ORDER => put_ordered(
            out,
            at,
            b"header code ",
            4,
            b.found,
            b.before,
            b"; they must ascend",
        ),
        SCOPE_KIND => put_counted(out, at, b"kind ", b.found, b" is above 2 (entry)"),
        SCOPE_CODE => put_coded(
            out,
            at,
            b"code ",
            4,
            b.found,
            b"; a form or report has 0000",
        ),
        _ => put_scopes_order(out, at, b),
    }
}

// The rules of rows and of the length, from FIRST_BODY_RULE on.
#[tactic(auto, unfolding(crate::specs::Words::body_rule, crate::specs::Words::body_words))]
fn put_body_rule(out: &mut [u8], at: usize, b: Break) -> usize
    requires { 7 ≤ b.rule }
    ensures { Wrote out.old at (w.body_rule b) out.new result }
{
    let rule = b.rule;
    match rule {
        ID_ORDER => put_ordered(out, at, b"id ", 2, b.found, b.before, b"; ids must ascend"),
        ID_HIGH => put_coded(out, at, b"id ", 2, b.found, b" is above FC"),
        TARGET_HIGH => put_coded(out, at, b"target ", 4, b.found, b" is above 7FFF"),
        ROW_KIND => put_counted(out, at, b"kind ", b.found, b" is above 4 (bytes)"),
        TOO_SHORT => put_counted(out, at, b"it is too short; bytes missing: ", b.found, b""),
        TOO_LONG => put_counted(out, at, b"it is too long; bytes left over: ", b.found, b""),
        _ => put_text(out, at, b"it goes on here; a table has at most 65100 bytes"),
    }
}

#[tactic(auto, unfolding(crate::specs::Words::rule_text))]
fn put_rule(out: &mut [u8], at: usize, b: Break) -> usize
    ensures { Wrote out.old at (w.rule_text b) out.new result }
{
    if b.rule < FIRST_BODY_RULE {
        put_contents_rule(out, at, b)
    } else {
        put_body_rule(out, at, b)
    }
}

// The line of a break, from the buffer's start on.
pub fn break_line(b: Break, out: &mut [u8]) -> usize
    ensures { Wrote out.old 0 (w.break_text b) out.new result }
{
    let p = put_text(out, 0, b"byte ");
    let p = put_decimal(out, p, b.at);
    let p = put_within(out, p, b);
    let p = put_text(out, p, b": ");
    let p = put_rule(out, p, b);
    put_byte(out, p, b'\n')
}
