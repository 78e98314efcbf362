// The TypeInfo reader: entries are counted first, then written as rows. Names stay bytes of the stream.
#![tactic(auto)]

ghost use Rattle.std.specs.Prelude.{◌≡◌, map, ◌+◌, ◌≤◌, ◌<◌, ◌^◌, length, drop, MatchOption};
ghost use Rattle.rules.specs.Answer.{answer};
ghost use Rattle.rules.specs.Rows.{type_info_width};
ghost use Rattle.rules.specs.TypeInfo.{before_nul, nul_terminated, info_at, next_info, type_info_row, type_info_exit};
ghost use Rattle.rows.specs.Put.{put};
ghost use Rattle.typeinfo.specs.Entries.{as_named, as_entry, past_tail, header_of, fit_of_lem, answer_to, answer_of, reported_at, one_if, put_if, RowRoom, Room};

use numbers::{u16_inside, u32_at, u32_inside};
use rows::{INFO_WIDTH, InfoRow};
use rules::{
    Answer, LONGEST, MORE_CONTROLS, OTHER_MAGIC, READ, TOO_LONG, TOO_MANY_ENTRIES, TOO_SHORT,
};

// The header: its size, its first four bytes as a number, and where the number of entries stands.
const HEADER_SIZE: usize = 32;

const MAGIC: u32 = 0xACCD_EAF7;

const COUNT_AT: usize = 12;

// What an entry has before its names: type code, two bytes more, index.
const ENTRY_HEAD: usize = 8;

const INDEX_AT: usize = 4;

// The low byte of an ActiveX control's type, and how many bytes follow its names.
const ACTIVE_X: u16 = 0x77;

const ACTIVE_X_TAIL: usize = 36;

// The type of an entry that isn't reported.
const UNREPORTED: u16 = 0x1EFF;

// Where a name stands, and the place after its NUL. `cut` is 1 where the stream's end ended it, 0 where a NUL did.
// Kept: `cut` is a number, the word of the rows that C lends.
#[derive(Clone, Copy)]
pub struct Named {
    pub start: usize,
    pub size: usize,
    pub next: usize,
    pub cut: u32,
}

// An entry with the name that it goes by, and where the next one starts.
#[derive(Clone, Copy)]
pub struct Entry {
    pub type_code: u16,
    pub index: u32,
    pub name: Named,
    pub next: usize,
}

// Why no row is written. Of rows too few it says how many are asked for.
#[derive(Clone, Copy, PartialEq, Eq)]
pub enum Refusal {
    TooLong,
    TooShort,
    OtherMagic,
    TooManyEntries,
    TooFewRows(u32),
}

fn answer(number: u32, first: u32) -> Answer
    ensures { result ≡ answer number first 0 0 }
{
    Answer {
        number,
        first,
        second: 0,
        third: 0,
    }
}

impl Refusal {
    fn answer(self) -> Answer
        ensures { result ≡ answer_to self }
    {
        match self {
            Refusal::TooLong => answer(TOO_LONG, 0),
            Refusal::TooShort => answer(TOO_SHORT, 0),
            Refusal::OtherMagic => answer(OTHER_MAGIC, 0),
            Refusal::TooManyEntries => answer(TOO_MANY_ENTRIES, 0),
            Refusal::TooFewRows(asked) => answer(MORE_CONTROLS, asked),
        }
    }
}

// The first place from `start` on that holds a NUL, or the end.
// Both ways out of the loop hand on `end`: with a `return` in it the code that follows is slower.
fn nul_from(s: &[u8], start: usize) -> usize
    requires { start ≤ length s.now }
    ensures { result ≡ start + before_nul (drop start s.now) }
{
    let mut end = start;
    for i in start..s.len() {
        if s[i] == 0 {
            break;
        }
        end = i + 1;
    }
    end
}

fn nul_terminated(s: &[u8], start: usize) -> Named
    requires { start ≤ length s.now }
    ensures { result ≡ as_named (nul_terminated s.now start) }
{
    let end = nul_from(s, start);
    if end < s.len() {
        return Named {
            start,
            size: end - start,
            next: end + 1,
            cut: 0,
        };
    }
    Named {
        start,
        size: end - start,
        next: end,
        cut: 1,
    }
}

// The place after an entry's names, and after what an ActiveX control has more.
#[tactic(auto, using(crate::proofs::EntryLaws::tail_cut, crate::proofs::EntryLaws::tail_whole, crate::proofs::EntryLaws::no_tail))]
fn past_tail(len: usize, type_code: u16, next: usize) -> usize
    requires { next ≤ len }
    ensures { result ≡ past_tail len type_code next }
{
    if type_code & 0xFF == ACTIVE_X {
        if len - next < ACTIVE_X_TAIL {
            return len;
        }
        return next + ACTIVE_X_TAIL;
    }
    next
}

// The entry at `at`.
fn type_info_entry(s: &[u8], at: usize) -> Entry
    requires { at + 8 ≤ length s.now }
    ensures { result ≡ as_entry (info_at s.now at) (next_info s.now at) }
{
    let type_code = u16_inside(s, at);
    let index = u32_inside(s, at + INDEX_AT);
    let first = nul_terminated(s, at + ENTRY_HEAD);
    let second = nul_terminated(s, first.next);
    let next = past_tail(s.len(), type_code, second.next);
    let name = if second.size == 0 { first } else { second };
    Entry {
        type_code,
        index,
        name,
        next,
    }
}

// The entry at `p`, if one can stand there.
fn entry_from(s: &[u8], p: usize) -> Option<Entry>
    requires { p ≤ length s.now }
    ensures { MatchOption result (length s.now < p + 8) (λ e. (p + 8 ≤ length s.now) × (e ≡ as_entry (info_at s.now p) (next_info s.now p))) }
{
    if s.len() - p < ENTRY_HEAD {
        return None;
    }
    Some(type_info_entry(s, p))
}

// How many entries the header says there are, where nothing speaks against it.
#[tactic(auto, using(crate::proofs::HeaderLaws::refusals))]
fn type_info_count(s: &[u8]) -> Result<u32, Refusal>
    ensures { result ≡ header_of s.now }
{
    if s.len() > LONGEST {
        return Err(Refusal::TooLong);
    }
    if s.len() < HEADER_SIZE {
        return Err(Refusal::TooShort);
    }
    let magic = u32_at(s, 0);
    let count = u32_at(s, COUNT_AT);
    let asked = count as usize;
    let most = (s.len() - HEADER_SIZE) / ENTRY_HEAD;
    if magic != MAGIC {
        return Err(Refusal::OtherMagic);
    }
    if most < asked {
        return Err(Refusal::TooManyEntries);
    }
    Ok(count)
}

// One more where an entry of this type is reported.
#[tactic(auto, unfolding(crate::specs::Entries::one_if))]
fn counted(found: u32, type_code: u16) -> u32
    requires { found + 1 < 2 ^ 32 }
    ensures { result ≡ found + one_if type_code }
{
    if type_code == UNREPORTED {
        return found;
    }
    found + 1
}

// How many of at most `count` entries are reported.
fn count_entries(s: &[u8], count: u32) -> u32
    requires { 32 ≤ length s.now }
    ensures { result ≡ length (reported_at s.now 32 count) }
{
    let mut p = HEADER_SIZE;
    let mut found = 0;
    for _ in 0..count {
        let Some(e) = entry_from(s, p) else {
            return found;
        };
        found = counted(found, e.type_code);
        p = e.next;
    }
    found
}

// Entries are counted only where the header's count of them, which is never passed, is above the room.
#[tactic(auto, using(crate::proofs::EntryLaws::at_most, crate::proofs::ExitLaws::whole, crate::proofs::ExitLaws::short))]
fn room_for(s: &[u8], count: u32, room: usize) -> Result<(), Refusal>
    requires { 32 ≤ length s.now }
    ensures { result ≡ fit_of_lem room (length (reported_at s.now 32 count)) }
{
    if count as usize <= room {
        return Ok(());
    }
    let found = count_entries(s, count);
    if room < found as usize {
        return Err(Refusal::TooFewRows(found));
    }
    Ok(())
}

// Writes the entry as row `at` where it is reported, and says which row is next.
fn put_reported(rows: &mut [u32], at: usize, e: Entry) -> usize
    requires { RowRoom rows.old at e }
    ensures value { result ≡ at + one_if e.type_code }
    ensures rows_after { rows.new ≡ put type_info_width rows.old at (put_if e) }
{
    if e.type_code == UNREPORTED {
        return at;
    }
    rows::put_info(
        rows,
        at,
        InfoRow {
            type_code: e.type_code as u32,
            index: e.index,
            start: e.name.start as u32,
            size: e.name.size as u32,
            cut: e.name.cut,
        },
    );
    at + 1
}

// Writes a row for each reported entry of at most `count`, and says how many these are.
// Kept beside `count_entries`: a shared walk would take a closure that is lent rows; its clause would be longer than this loop.
fn write_entries(s: &[u8], count: u32, rows: &mut [u32]) -> usize
    requires { Room s.now count rows.old }
    ensures value { result ≡ length (reported_at s.now 32 count) }
    ensures rows_after { rows.new ≡ put type_info_width rows.old 0 (map type_info_row (reported_at s.now 32 count)) }
{
    let mut p = HEADER_SIZE;
    let mut at = 0;
    for _ in 0..count {
        let Some(e) = entry_from(s, p) else {
            return at;
        };
        at = put_reported(rows, at, e);
        p = e.next;
    }
    at
}

// Writes all that is reported, or nothing, and says how many rows that is.
fn write_rows(stream: &[u8], rows: &mut [u32]) -> Result<u32, Refusal>
    ensures value { answer_of result ≡ (type_info_exit stream.now rows.old).answer }
    ensures rows_after { rows.new ≡ (type_info_exit stream.now rows.old).rows }
{
    let count = type_info_count(stream)?;
    room_for(stream, count, rows.len() / INFO_WIDTH)?;
    Ok(write_entries(stream, count, rows) as u32)
}

// Reads TypeInfo into rows of type code, index, name start, name length, and whether the name was cut.
pub fn read_type_info(stream: &[u8], rows: &mut [u32]) -> Answer
    ensures value { result ≡ (type_info_exit stream.now rows.old).answer }
    ensures rows_after { rows.new ≡ (type_info_exit stream.now rows.old).rows }
{
    match write_rows(stream, rows) {
        Ok(found) => answer(READ, found),
        Err(refusal) => refusal.answer(),
    }
}
