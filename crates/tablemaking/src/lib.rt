// The code table that a text says, or the first line that breaks a rule: lines are judged first (specs/Judged.antt), then written (specs/Made.antt).
#![tactic(auto)]

ghost use Rattle.std.specs.Prelude.{◌≡◌, ◌∷◌, ◌+◌, ◌≤◌, ◌<◌, ◌^◌, Ok, length, drop};
ghost use Rattle.rules.specs.CodeTable.{key_of};
ghost use Rattle.text.specs.Writer.{Wrote};
ghost use Rattle.tablelines.specs.Items as i;
ghost use Rattle.tablemaking.specs.Judged as j;
ghost use Rattle.tablemaking.specs.Made as m;

use codetable::{CODE_SIZE, LAST_TARGET, ROW_SIZE, SCOPE_SIZE};
use rules::LAST_ID;
use tablebytes::{put_row, put_scope, put_two};
use tablelines::faults::Fault;
use tablelines::{Item, line_at};
use text::put_byte;

const LONGEST_TEXT: usize = 2097152;

// The limits of document 01.
const MOST_HEADERS: u32 = codetable::MOST_HEADERS as u32;

const MOST_SCOPES: u32 = codetable::MOST_SCOPES as u32;

// How many bytes the counts have.
const HEAD_SIZE: usize = 4;

// What the lines so far say: the layout byte, how many header codes, scopes and rows, and the least code, key and id that may follow.
#[derive(Clone, Copy)]
struct Seen {
    layout: Option<u8>,
    headers: u32,
    least_header: u32,
    scopes: u32,
    least_key: u32,
    rows: u32,
    least_id: u32,
}

// What the table of a text has.
#[derive(Clone, Copy)]
struct Counts {
    layout: u8,
    headers: u32,
    scopes: u32,
    rows: u32,
}

// The line that is refused, 0 for the text as a whole, and why.
// Kept: `why_line` takes 0 for the text as a whole.
#[derive(Clone, Copy, PartialEq, Eq)]
pub struct Refusal {
    pub fault: Fault,
    pub line: u32,
}

// ---- what the lines say so far
fn nothing_seen() -> Seen
    ensures { result ≡ j.nothing_seen }
{
    Seen {
        layout: None,
        headers: 0,
        least_header: 0,
        scopes: 0,
        least_key: 0,
        rows: 0,
        least_id: 0,
    }
}

// What they say with one line more, or the rule that it breaks.
fn with_layout(mut seen: Seen, byte: u8) -> Result<Seen, Fault>
    ensures { j.Follows seen (i.Layout byte) result }
{
    if seen.layout.is_some() {
        return Err(Fault::LayoutTwice);
    }
    seen.layout = Some(byte);
    Ok(seen)
}

fn with_header(mut seen: Seen, code: u16) -> Result<Seen, Fault>
    ensures { j.Follows seen (i.Header code) result }
{
    if seen.layout.is_none() {
        return Err(Fault::LayoutFirst);
    }
    if 0 < seen.scopes {
        return Err(Fault::HeaderLate);
    }
    if (code as u32) < seen.least_header {
        return Err(Fault::HeaderOrder);
    }
    if MOST_HEADERS <= seen.headers {
        return Err(Fault::ManyHeaders);
    }
    seen.headers += 1;
    seen.least_header = code as u32 + 1;
    Ok(seen)
}

fn key_of(kind: u8, code: u16) -> u32
    ensures { result ≡ key_of kind code }
{
    (kind as u32) * 65536 + (code as u32)
}

fn with_scope(mut seen: Seen, kind: u8, code: u16) -> Result<Seen, Fault>
    ensures { j.Follows seen (i.Scope kind code) result }
{
    let key = key_of(kind, code);
    if seen.layout.is_none() {
        return Err(Fault::LayoutFirst);
    }
    if key < seen.least_key {
        return Err(Fault::ScopeOrder);
    }
    if MOST_SCOPES <= seen.scopes {
        return Err(Fault::ManyScopes);
    }
    seen.scopes += 1;
    seen.least_key = key + 1;
    seen.least_id = 0;
    Ok(seen)
}

fn with_row(mut seen: Seen, id: u8, target: u16, kind: u8) -> Result<Seen, Fault>
    requires { seen.rows + 1 < 2 ^ 32 }
    ensures { j.Follows seen (i.Row id target kind) result }
{
    if seen.layout.is_none() {
        return Err(Fault::LayoutFirst);
    }
    if seen.scopes == 0 {
        return Err(Fault::RowEarly);
    }
    if LAST_ID < id {
        return Err(Fault::IdHigh);
    }
    if (id as u32) < seen.least_id {
        return Err(Fault::IdOrder);
    }
    if LAST_TARGET < target {
        return Err(Fault::TargetHigh);
    }
    seen.rows += 1;
    seen.least_id = id as u32 + 1;
    Ok(seen)
}

fn with_line(seen: Seen, item: Result<Item, Fault>) -> Result<Seen, Fault>
    requires { seen.rows + 1 < 2 ^ 32 }
    ensures { j.Follows seen (i.said item) result }
{
    match item? {
        Item::Nothing => Ok(seen),
        Item::Layout { byte } => with_layout(seen, byte),
        Item::Header { code } => with_header(seen, code),
        Item::Scope { kind, code } => with_scope(seen, kind, code),
        Item::Row { id, target, kind } => with_row(seen, id, target, kind),
    }
}

// ---- the first line that breaks a rule
fn judge_end(seen: Seen, lines: u32) -> Result<Counts, Refusal>
    requires { lines + 1 < 2 ^ 32 }
    ensures { j.judged_lem result ≡ j.judge_end seen lines }
{
    match seen.layout {
        Some(layout) => Ok(Counts {
            layout,
            headers: seen.headers,
            scopes: seen.scopes,
            rows: seen.rows,
        }),
        None => Err(Refusal {
            fault: Fault::NoLayout,
            line: lines + 1,
        }),
    }
}

fn judge(text: &[u8]) -> Result<Counts, Refusal>
    requires { length text.now ≤ m.longest_text }
    ensures { j.judged_lem result ≡ j.judged text.now }
{
    let mut seen = nothing_seen();
    let mut lines = 0;
    let mut at = 0;
    while at < text.len() {
        let line = line_at(text, at);
        lines += 1;
        seen = match with_line(seen, line.item) {
            Ok(more) => more,
            Err(fault) => return Err(Refusal { fault, line: lines }),
        };
        at = line.next;
    }
    judge_end(seen, lines)
}

// ---- the table's parts
// The header code of a line that says one.
fn put_if_header(out: &mut [u8], at: usize, item: Item) -> usize
    ensures { Wrote out.old at (m.code_bytes (i.said (Ok item))) out.new result }
{
    match item {
        Item::Header { code } => put_two(out, at, code),
        _ => at,
    }
}

fn put_if_row(out: &mut [u8], at: usize, item: Item) -> usize
    ensures { Wrote out.old at (m.row_bytes (i.said (Ok item))) out.new result }
{
    match item {
        Item::Row { id, target, kind } => put_row(out, at, id, target, kind),
        _ => at,
    }
}

// A line's part of the bodies, or of the header codes.
// Kept: a closure in place of `bodies` would be lent `out`; its clause would be longer than both steps.
fn put_part(out: &mut [u8], at: usize, item: Result<Item, Fault>, bodies: bool) -> usize
    ensures { Wrote out.old at (m.part_bytes_lem bodies (i.said item)) out.new result }
{
    let Ok(item) = item else {
        return at;
    };
    if bodies {
        return put_if_row(out, at, item);
    }
    put_if_header(out, at, item)
}

// The rows of all lines, or their header codes.
fn put_parts(text: &[u8], bodies: bool, out: &mut [u8], at: usize) -> usize
    requires { length text.now ≤ m.longest_text }
    ensures { Wrote out.old at (m.parts_said bodies (i.items_of text.now)) out.new result }
{
    let mut p = at;
    let mut place = 0;
    while place < text.len() {
        let line = line_at(text, place);
        let item = line.item;
        p = put_part(out, p, item, bodies);
        place = line.next;
    }
    p
}

fn is_scope(item: Result<Item, Fault>) -> bool
    ensures { result ≡ m.is_scope (i.said item) }
{
    let Ok(item) = item else {
        return false;
    };
    matches!(item, Item::Scope { .. })
}

fn rows_in(item: Result<Item, Fault>) -> u32
    ensures { m.CountsRows (i.said item) result }
{
    let Ok(item) = item else {
        return 0;
    };
    match item {
        Item::Row { id, target, kind } => 1,
        _ => 0,
    }
}

// How many rows stand from a place on above the next scope.
fn rows_from(text: &[u8], from: usize) -> u32
    requires { length text.now ≤ m.longest_text }
    ensures { result ≡ length (m.rows_of (i.items_of (drop from text.now))) }
{
    let mut rows = 0;
    let mut place = from;
    while place < text.len() {
        let line = line_at(text, place);
        let item = line.item;
        if is_scope(item) {
            return rows;
        }
        rows += rows_in(item);
        place = line.next;
    }
    rows
}

// A scope's place in the contents, of a line that says one; its rows begin at the next line.
fn put_if_scope(
    text: &[u8],
    next: usize,
    item: Result<Item, Fault>,
    out: &mut [u8],
    at: usize,
) -> usize
    requires { m.ScopesReady text.now (i.said item ∷ i.items_of (drop next text.now)) }
    ensures { Wrote out.old at (m.scope_said (i.said item) (i.items_of (drop next text.now))) out.new result }
{
    let Ok(item) = item else {
        return at;
    };
    match item {
        Item::Scope { kind, code } => put_scope(out, at, kind, code, rows_from(text, next) as u16),
        _ => at,
    }
}

// The scopes.
fn put_scopes(text: &[u8], out: &mut [u8], at: usize) -> usize
    requires { m.ScopesReady text.now (i.items_of text.now) }
    ensures { Wrote out.old at (m.scopes_said (i.items_of text.now)) out.new result }
{
    let mut p = at;
    let mut place = 0;
    while place < text.len() {
        let line = line_at(text, place);
        let item = line.item;
        let next = line.next;
        p = put_if_scope(text, next, item, out, p);
        place = next;
    }
    p
}

// ---- the table
// The table of a text that was judged, from the buffer's start on.
fn put_table(text: &[u8], counts: Counts, out: &mut [u8]) -> usize
    requires { m.TakenAs text.now (j.kept_lem counts) }
    ensures { Wrote out.old 0 (m.table_said text.now) out.new result }
{
    let p = put_byte(out, 0, counts.layout);
    let p = put_byte(out, p, counts.headers as u8);
    let p = put_two(out, p, counts.scopes as u16);
    let p = put_parts(text, false, out, p);
    let p = put_scopes(text, out, p);
    put_parts(text, true, out, p)
}

// The table of a text, whose size is returned, or the first line that can't be taken and why.
pub fn make_table(text: &[u8], out: &mut [u8]) -> Result<usize, Refusal>
    ensures { m.MadeAs (m.make_exit text.now out.old) (m.made_lem result) out.new }
{
    if LONGEST_TEXT < text.len() {
        return Err(Refusal {
            fault: Fault::LongText,
            line: 0,
        });
    }
    let counts = judge(text)?;
    let size = HEAD_SIZE
        + CODE_SIZE * (counts.headers as usize)
        + SCOPE_SIZE * (counts.scopes as usize)
        + ROW_SIZE * (counts.rows as usize);
    if out.len() < size {
        return Err(Refusal {
            fault: Fault::NoRoom,
            line: 0,
        });
    }
    put_table(text, counts, out);
    Ok(size)
}
