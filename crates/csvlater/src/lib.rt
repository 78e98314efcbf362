// What the records of a stream of the later layout take of a room, by a walk that keeps no row.
#![tactic(auto)]

ghost use Rattle.csvlater.specs.Room as room;

use countlater::{GROUP_AT, Group, OBJECT_AT, count};
use csvrecord::{Owner, owner_size, record_left};
use cursor::{STACK_WORDS, top};
use cursorlater::{past, reported};
use later::next_property;
use matchlater::{MATCH_SIZE, find_match};
use numbers::u16_at;

// The type of a control that the scan finds.
const NO_TYPE: u32 = 0;

// A group that was gone through, and what is left of the room after it.
#[derive(Clone, Copy)]
pub struct GroupLeft {
    pub group: Group,
    pub left: usize,
}

// After the records of the group at `at`, of each of which the owner's fields take `owner` bytes.
fn group_left(
    s: &[u8],
    limit: usize,
    at: usize,
    index: &[u32],
    letters: &[u8],
    owner: usize,
    all: usize,
) -> GroupLeft
    requires { room.GroupReady s.now limit index.now letters.now }
    ensures { room.GroupDone s.now limit at owner all result }
{
    let mut group = Group {
        count: 0,
        stop: at,
        trailer: None,
    };
    let mut left = all;
    while let Some(next) = next_property(s, limit, group) {
        left = record_left(left, owner, index, letters, s, next.property);
        group = next.group;
    }
    GroupLeft { group, left }
}

// After the records of the reported of the `n` top nodes from `at` on, with all below them.
fn sections_left(s: &[u8], n: u32, at: usize, index: &[u32], letters: &[u8], all: usize) -> usize
    requires { room.SectionsReady s.now n at index.now letters.now }
    ensures { room.SectionsDone s.now n at all result }
{
    let mut stack = [0; STACK_WORDS];
    let mut c = reported(s, top(at, n));
    let mut i: u32 = 0;
    let mut left = all;
    while 0 < c.left {
        let owner = owner_size(Owner::Control {
            number: i,
            type_code: u16_at(s, c.at) as u32,
        });
        let g = group_left(s, s.len(), c.at + GROUP_AT, index, letters, owner, left);
        c = reported(s, past(s, &mut stack, c, i, g.group));
        left = g.left;
        i += 1;
    }
    left
}

// After the records of what the scan from `from` on finds.
fn scanned_left(s: &[u8], from: usize, index: &[u32], letters: &[u8], all: usize) -> usize
    requires { room.ScanReady s.now from index.now letters.now }
    ensures { room.ScanDone s.now from all result }
{
    let mut a = find_match(s, from);
    let mut i: u32 = 0;
    let mut left = all;
    while a < s.len() {
        let limit = find_match(s, a + MATCH_SIZE);
        let owner = owner_size(Owner::Control {
            number: i,
            type_code: NO_TYPE,
        });
        let g = group_left(s, limit, a, index, letters, owner, left);
        if 0 < g.group.count {
            left = g.left;
            i += 1;
        }
        a = limit;
    }
    left
}

// After the records of the tree after the object's group.
fn tree_left(s: &[u8], own: Group, index: &[u32], letters: &[u8], all: usize) -> usize
    requires { room.TreeReady s.now own index.now letters.now }
    ensures { room.TreeDone s.now own all result }
{
    match own.children(s) {
        Some(top) => sections_left(s, top.count as u32, top.next, index, letters, all),
        None => all,
    }
}

// After the records of a stream of 14 bytes or more: the object's, then the controls'.
fn blob_left(s: &[u8], tree: bool, index: &[u32], letters: &[u8], all: usize) -> usize
    requires { room.BlobReady s.now tree index.now letters.now }
    ensures { room.BlobDone s.now all result }
{
    let owner = owner_size(Owner::Object);
    let g = group_left(s, s.len(), OBJECT_AT, index, letters, owner, all);
    if tree {
        return tree_left(s, g.group, index, letters, g.left);
    }
    scanned_left(s, g.group.stop, index, letters, g.left)
}

// What is left of a room after the records of a stream.
pub fn sheet_left(s: &[u8], index: &[u32], letters: &[u8], all: usize) -> usize
    requires { room.StreamReady s.now index.now letters.now }
    ensures { room.BlobDone s.now all result }
{
    if s.len() < OBJECT_AT {
        return all;
    }
    let n = count(s);
    blob_left(s, n.tree, index, letters, all)
}
