// What an Access 2000 stream's records take of a room, by a walk that keeps no row.
#![tactic(auto)]

ghost use Rattle.std.specs.Prelude.{◌≡◌};
ghost use Rattle.csv2000.specs.Room as room;

use codehints::HINTS;
use coderows::{Body, SCOPE_LIST_WORDS};
use count2000::OBJECT_RUN;
use csvrecord::{Owner, owner_size, record_left};
use cursor::{STACK_WORDS, top};
use cursor2000::{past, reported};
use form2000::object_scope;
use node2000::{is_report, type_code};
use numbers::u16_at;
use rules::SCOPE_ENTRY;
use shown2000::{Scopes, property, stored_at};
use walk2000::{Opens, head};

// The place after a run or an entry, and what is left of the room.
#[derive(Clone, Copy)]
pub struct Left {
    pub at: usize,
    pub left: usize,
}

// After the records of the run at `at`, of each of which the owner's fields take `owner` bytes.
fn run_left(
    table: &[u8],
    body: Body,
    s: &[u8],
    at: usize,
    index: &[u32],
    letters: &[u8],
    owner: usize,
    all: usize,
) -> Left
    requires { room.RunReady table.now body s.now at index.now letters.now }
    ensures { room.RunDone table.now body s.now at owner all result }
{
    let mut p = at;
    let mut left = all;
    while let Some(q) = stored_at(s, p) {
        let shown = property(table, body, s, q);
        left = record_left(left, owner, index, letters, s, shown);
        p = q.start + q.size;
    }
    Left { at: p, left }
}

// After the records of the entry at `at`, which is control `n`, without its list.
fn node_left(
    scopes: &mut Scopes,
    s: &[u8],
    at: usize,
    index: &[u32],
    letters: &[u8],
    n: u32,
    all: usize,
) -> Left
    requires { room.NodeReady scopes.old.table.now s.now at index.now letters.now }
    ensures same { scopes.new.table.now ≡ scopes.old.table.now }
    ensures left { room.NodeDone scopes.old.table.now s.now at n all result }
{
    let entry_type = u16_at(s, at);
    let body = scopes.find(SCOPE_ENTRY, entry_type);
    let table = scopes.table;
    let owner = owner_size(Owner::Control {
        number: n,
        type_code: type_code(table, is_report(s), entry_type),
    });
    run_left(table, body, s, at + 2, index, letters, owner, all)
}

// After the records of what is reported of the top list, which has `n` entries from `at` on.
fn top_left(
    scopes: &mut Scopes,
    s: &[u8],
    n: u32,
    at: usize,
    index: &[u32],
    letters: &[u8],
    all: usize,
) -> usize
    requires { room.TopReady scopes.old.table.now s.now n at index.now letters.now }
    ensures { room.TopDone scopes.old.table.now s.now n at all result }
{
    let mut stack = [0; STACK_WORDS];
    let mut c = reported(s, top(at, n));
    let mut i: u32 = 0;
    let mut left = all;
    while 0 < c.left {
        let e = node_left(scopes, s, c.at, index, letters, i, left);
        c = reported(s, past(s, &mut stack, c, i, e.at));
        left = e.left;
        i += 1;
    }
    left
}

// What is left of a room after the records of a stream that fits a reading: the object's, then the controls'.
pub fn sheet_left(table: &[u8], s: &[u8], index: &[u32], letters: &[u8], all: usize) -> usize
    requires { room.StreamReady table.now s.now index.now letters.now }
    ensures { room.StreamDone table.now s.now all result }
{
    let mut hints = [0; HINTS];
    let mut listed = [0; SCOPE_LIST_WORDS];
    let mut scopes = Scopes::of(table, &mut hints, &mut listed);
    let body = scopes.find(object_scope(s), 0);
    let owner = owner_size(Owner::Object);
    let own = run_left(table, body, s, OBJECT_RUN, index, letters, owner, all);
    match head(s, own.at) {
        Some(Opens::Listed { count, next }) => top_left(
            &mut scopes,
            s,
            count as u32,
            next,
            index,
            letters,
            own.left,
        ),
        Some(Opens::Plain { .. }) => own.left,
        None => own.left,
    }
}
