// Running totals over many streams: what a stream adds, the ceiling, and the record that is lent to each count and altered there.
#![tactic(auto)]

ghost use Rattle.std.specs.Prelude.{◌≡◌, true, ◌+◌, length};
ghost use Rattle.rules.specs.Lists.{all};
ghost use Rattle.rules.specs.Blob.{is2000, outcome};
ghost use Rattle.rules.specs.Totals.{holds, sums, sum, within, totals_exit};
ghost use Rattle.tally.specs.Places.{Tallied};
ghost use Rattle.totals.specs.Laid.{laid};
ghost use Rattle.totals.specs.Exit.{exited};

use blob::is_2000;
use codetable::well_formed;
use rules::{Answer, BAD_TABLE, LONGEST, OVER_CEILING, TOO_LONG, Totalled, Totals};
use tally::{CEILING, MAPPED_AT, MARKS_AT, TYPES_AT, UNMAPPED_AT, WORDS, count_answer};
use text::refused;

// Answers as `read_blob` does in room for so many rows; what is read is counted.
fn counted(
    table: &[u8],
    stream: &[u8],
    control_room: u32,
    property_room: u32,
    words: &mut [u32],
) -> Answer
    ensures { Tallied (is2000 table.now stream.now) (outcome table.now stream.now control_room property_room) words.old result words.new }
{
    if stream.len() > LONGEST {
        return refused(TOO_LONG);
    }
    if !well_formed(table) {
        return refused(BAD_TABLE);
    }
    if is_2000(table, stream) {
        return tally2000::tally(table, stream, control_room, property_room, words);
    }
    tallylater::tally(stream, control_room, property_room, words)
}

// Is no sum of two numbers at one place above the ceiling?
fn all_fit(old: &[u32], more: &[u32]) -> bool
    requires { length old.now ≡ length more.now }
    ensures { result ≡ all holds (sums old.now more.now) }
{
    for (i, n) in old.iter().enumerate() {
        if !one_fits(*n, more[i]) {
            return false;
        }
    }
    true
}

fn one_fits(old: u32, more: u32) -> bool
    ensures { result ≡ holds (old + more) }
{
    old <= CEILING - more
}

// Adds each number to the one at its place.
fn add_all(into: &mut [u32], more: &[u32])
    requires { (length into.old ≡ length more.now) × (all holds (sums into.old more.now) ≡ true) }
    ensures { into.new ≡ sums into.old more.now }
{
    for (i, n) in more.iter().enumerate() {
        into[i] += *n;
    }
}

// Does every total stay within the ceiling?
fn fits(old: Totals, words: &[u32]) -> bool
    requires { length words.now ≡ 48 }
    ensures { result ≡ within (sum old (laid words.now)) }
{
    all_fit(&old.answers, &words[..TYPES_AT])
        && all_fit(&old.types, &words[TYPES_AT..UNMAPPED_AT])
        && one_fits(old.unmapped, words[UNMAPPED_AT])
        && one_fits(old.mapped, words[MAPPED_AT])
        && all_fit(&old.marks, &words[MARKS_AT..WORDS])
}

// The record with what was counted added.
fn sum_of(old: Totals, words: &[u32]) -> Totals
    requires { (length words.now ≡ 48) × (within (sum old (laid words.now)) ≡ true) }
    ensures { result ≡ sum old (laid words.now) }
{
    let mut answers = old.answers;
    add_all(&mut answers, &words[..TYPES_AT]);
    let mut types = old.types;
    add_all(&mut types, &words[TYPES_AT..UNMAPPED_AT]);
    let mut marks = old.marks;
    add_all(&mut marks, &words[MARKS_AT..WORDS]);
    Totals {
        answers,
        types,
        unmapped: old.unmapped + words[UNMAPPED_AT],
        mapped: old.mapped + words[MAPPED_AT],
        marks,
    }
}

// A stream counted into a record, by value.
pub fn totalled(
    old: Totals,
    table: &[u8],
    stream: &[u8],
    control_room: u32,
    property_room: u32,
) -> Totalled
    ensures { result ≡ totals_exit old table.now stream.now control_room property_room }
{
    let mut words = [0; WORDS];
    let answer = counted(table, stream, control_room, property_room, &mut words);
    count_answer(&mut words, answer.number);
    if !fits(old, &words) {
        return Totalled {
            answer: refused(OVER_CEILING),
            totals: old,
        };
    }
    Totalled {
        answer,
        totals: sum_of(old, &words),
    }
}

// Counts a stream into the record that is lent. Answers as `read_blob` does in room for so many rows, or 12 where a total would pass the ceiling; then the record stays.
pub fn count_blob(
    totals: &mut Totals,
    table: &[u8],
    stream: &[u8],
    control_room: u32,
    property_room: u32,
) -> Answer
    ensures { exited result totals.new ≡ totals_exit totals.old table.now stream.now control_room property_room }
{
    let r = totalled(*totals, table, stream, control_room, property_room);
    *totals = r.totals;
    r.answer
}
