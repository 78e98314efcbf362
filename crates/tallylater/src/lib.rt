// What a stream of the later layout adds to running totals: judged by its counts, then gone through once. No row is kept.
#![tactic(auto)]

ghost use Rattle.std.specs.Prelude.{◌≤◌, length};
ghost use Rattle.rules.specs.Answer.{longest};
ghost use Rattle.tallylater.specs.Counting as counting;

use countlater::{GROUP_AT, Group, OBJECT_AT, count};
use cursor::{STACK_WORDS, top};
use cursorlater::{past, reported};
use later::next_property;
use matchlater::{MATCH_SIZE, find_match};
use numbers::u16_at;
use rows::{CONTROL_WIDTH, PROPERTY_WIDTH, counted, judge};
use rules::{Answer, READ};
use tally::{count_property, count_type};

// The type of a control that the scan finds.
const NO_TYPE: u32 = 0;

// Counts the properties of the group at `at`, which reaches to `limit` at most.
fn count_group(s: &[u8], limit: usize, at: usize, words: &mut [u32]) -> Group
    requires { counting.GroupReady s.now limit }
    ensures { counting.GroupDone s.now limit at words.old words.new result }
{
    let mut group = Group {
        count: 0,
        stop: at,
        trailer: None,
    };
    while let Some(next) = next_property(s, limit, group) {
        count_property(words, false, next.property);
        group = next.group;
    }
    group
}

// Counts the reported of the `n` top nodes from `at` on, with all below them.
fn count_sections(s: &[u8], n: u32, at: usize, words: &mut [u32])
    requires { counting.SectionsReady s.now n at }
    ensures { counting.SectionsDone s.now n at words.old words.new }
{
    let mut stack = [0; STACK_WORDS];
    let mut c = reported(s, top(at, n));
    let mut i: u32 = 0;
    while 0 < c.left {
        let g = count_group(s, s.len(), c.at + GROUP_AT, words);
        count_type(words, u16_at(s, c.at) as u32);
        c = reported(s, past(s, &mut stack, c, i, g));
        i += 1;
    }
}

// Counts what the scan from `from` on finds.
fn count_scanned(s: &[u8], from: usize, words: &mut [u32])
    requires { counting.ScanReady s.now from }
    ensures { counting.ScanDone s.now from words.old words.new }
{
    let mut a = find_match(s, from);
    while a < s.len() {
        let limit = find_match(s, a + MATCH_SIZE);
        let g = count_group(s, limit, a, words);
        if 0 < g.count {
            count_type(words, NO_TYPE);
        }
        a = limit;
    }
}

// Counts the tree after the object's group.
fn count_tree(s: &[u8], own: Group, words: &mut [u32])
    requires { counting.TreeReady s.now own }
    ensures { counting.TreeDone s.now own words.old words.new }
{
    if let Some(top) = own.children(s) {
        count_sections(s, top.count as u32, top.next, words);
    }
}

// Counts a stream of 14 bytes or more: the object's properties, then its controls.
fn count_blob(s: &[u8], tree: bool, words: &mut [u32])
    requires { counting.BlobReady s.now tree }
    ensures { counting.BlobDone s.now words.old words.new }
{
    let g = count_group(s, s.len(), OBJECT_AT, words);
    if tree {
        count_tree(s, g, words);
    } else {
        count_scanned(s, g.stop, words);
    }
}

// Answers as the reader does in room for so many rows; what is read is counted.
pub fn tally(stream: &[u8], control_room: u32, property_room: u32, words: &mut [u32]) -> Answer
    requires { length stream.now ≤ longest }
    ensures { counting.Counted stream.now control_room property_room words.old result words.new }
{
    if stream.len() < OBJECT_AT {
        return counted(READ, 0, 0, 0);
    }
    let n = count(stream);
    let control_words = control_room as usize * CONTROL_WIDTH;
    let property_words = property_room as usize * PROPERTY_WIDTH;
    let a = judge(
        n.controls,
        n.own + n.props,
        n.own,
        control_words,
        property_words,
    );
    if a.number != READ {
        return a;
    }
    count_blob(stream, n.tree, words);
    a
}
