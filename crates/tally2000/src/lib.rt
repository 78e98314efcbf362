// What an Access 2000 stream adds to running totals: judged by its counts, then gone through once. No row is kept.
#![tactic(auto)]

ghost use Rattle.std.specs.Prelude.{◌≡◌};
ghost use Rattle.form2000.specs.Acts.{ReadReady};
ghost use Rattle.tally2000.specs.Counting as counting;

use codehints::HINTS;
use coderows::{Body, SCOPE_LIST_WORDS};
use count2000::{OBJECT_RUN, count};
use cursor::{STACK_WORDS, top};
use cursor2000::{past, reported};
use form2000::object_scope;
use node2000::{is_report, type_code};
use numbers::u16_at;
use rows::{CONTROL_WIDTH, PROPERTY_WIDTH, counted, judge};
use rules::{Answer, NO_READING, SCOPE_ENTRY};
use shown2000::{Scopes, property, stored_at};
use tally::{count_property, count_type};
use walk2000::{Opens, head};

// Counts the properties of the run at `at`, and gives the place after it.
fn count_run(table: &[u8], body: Body, s: &[u8], at: usize, words: &mut [u32]) -> usize
    requires { counting.RunReady table.now body s.now at }
    ensures { counting.RunDone table.now body s.now at words.old words.new result }
{
    let mut p = at;
    while let Some(q) = stored_at(s, p) {
        count_property(words, true, property(table, body, s, q));
        p = q.start + q.size;
    }
    p
}

// Counts the entry at `at` without its list, and gives the place after its run.
fn count_node(scopes: &mut Scopes, s: &[u8], at: usize, words: &mut [u32]) -> usize
    requires { counting.NodeReady scopes.old.table.now s.now at }
    ensures same { scopes.new.table.now ≡ scopes.old.table.now }
    ensures counted { counting.NodeDone scopes.old.table.now s.now at words.old words.new result }
{
    let entry_type = u16_at(s, at);
    let body = scopes.find(SCOPE_ENTRY, entry_type);
    let table = scopes.table;
    let end = count_run(table, body, s, at + 2, words);
    count_type(words, type_code(table, is_report(s), entry_type));
    end
}

// Counts what is reported of the top list, which has `n` entries from `at` on.
fn count_top(scopes: &mut Scopes, s: &[u8], n: u32, at: usize, words: &mut [u32])
    requires { counting.TopReady scopes.old.table.now s.now n at }
    ensures { counting.TopDone scopes.old.table.now s.now n at words.old words.new }
{
    let mut stack = [0; STACK_WORDS];
    let mut c = reported(s, top(at, n));
    let mut i: u32 = 0;
    while 0 < c.left {
        let end = count_node(scopes, s, c.at, words);
        c = reported(s, past(s, &mut stack, c, i, end));
        i += 1;
    }
}

// Counts a stream that fits a reading: the object's run, then what is reported of the top list.
fn count_stream(table: &[u8], s: &[u8], words: &mut [u32])
    requires { counting.StreamReady table.now s.now }
    ensures { counting.StreamDone table.now s.now words.old words.new }
{
    let mut hints = [0; HINTS];
    let mut listed = [0; SCOPE_LIST_WORDS];
    let mut scopes = Scopes::of(table, &mut hints, &mut listed);
    let body = scopes.find(object_scope(s), 0);
    let end = count_run(table, body, s, OBJECT_RUN, words);
    match head(s, end) {
        Some(Opens::Listed { count, next }) => {
            count_top(&mut scopes, s, count as u32, next, words);
        }
        Some(Opens::Plain { .. }) => {}
        None => {}
    }
}

// Answers as the reader does in room for so many rows; what is read is counted.
pub fn tally(
    table: &[u8],
    stream: &[u8],
    control_room: u32,
    property_room: u32,
    words: &mut [u32],
) -> Answer
    requires { ReadReady table.now stream.now }
    ensures { counting.Counted table.now stream.now control_room property_room words.old result words.new }
{
    let Some(all) = count(stream) else {
        return counted(NO_READING, 0, 0, 0);
    };
    let control_words = control_room as usize * CONTROL_WIDTH;
    let property_words = property_room as usize * PROPERTY_WIDTH;
    let a = judge(
        all.controls,
        all.props,
        all.own,
        control_words,
        property_words,
    );
    if a.number != 0 {
        return a;
    }
    count_stream(table, stream, words);
    a
}
