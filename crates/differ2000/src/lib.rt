// The properties of an Access 2000 stream that a newer code table shows otherwise than the older that it succeeds: one walk, two look-ups for each property. No row of a reading is kept.
#![tactic(auto)]

ghost use Rattle.std.specs.Prelude.{◌≡◌, ◌<◌};
ghost use Rattle.differ2000.specs.Listing as l;

use codehints::HINTS;
use coderows::{Body, SCOPE_LIST_WORDS};
use count2000::OBJECT_RUN;
use cursor::{STACK_WORDS, top};
use cursor2000::{past, reported};
use form2000::object_scope;
use numbers::u16_at;
use rows::put_row;
use rules::{SCOPE_ENTRY, UNMAPPED};
use run2000::{Stored, bit_or};
use shown2000::{Scopes, find_row, property, stored_at};
use walk2000::{Opens, head};

// How many words a difference's row has.
pub const DIFFERENCE_WIDTH: usize = 10;

// The control row of the object's own properties.
// Kept: a word of the rows that C lends, handed on as it is.
const NO_CONTROL: u32 = 0xFFFFFFFF;

// The words of a difference's row.
#[derive(Clone, Copy)]
struct Difference {
    property: u32,
    control: u32,
    code: u32,
    scope_kind: u32,
    scope_code: u32,
    older_id: u32,
    newer_id: u32,
    newer_mark: u32,
    start: u32,
    size: u32,
}

// Where a list goes on: the place in the stream, the control row, the next property row, and the next row of the list.
#[derive(Clone, Copy)]
pub struct Place {
    pub at: usize,
    pub control: u32,
    pub property: u32,
    pub listed: u32,
}

// A scope, and where its rows are in either table.
#[derive(Clone, Copy)]
struct Scope {
    kind: u8,
    code: u16,
    older: Body,
    newer: Body,
}

impl Difference {
    // The row as it is lent.
    fn words(self) -> [u32; DIFFERENCE_WIDTH]
        ensures { result ≡ l.words self }
    {
        [
            self.property,
            self.control,
            self.code,
            self.scope_kind,
            self.scope_code,
            self.older_id,
            self.newer_id,
            self.newer_mark,
            self.start,
            self.size,
        ]
    }
}

// Writes row `at` of a list where it fits.
#[tactic(auto, unfolding(crate::specs::Listing::put_fit))]
fn put_fit(rows: &mut [u32], at: usize, row: Difference)
    requires { at < 4294967296 }
    ensures { rows.new ≡ l.put_fit rows.old at (l.words row) }
{
    if at * DIFFERENCE_WIDTH + DIFFERENCE_WIDTH <= rows.len() {
        put_row(rows, at, row.words());
    }
}

// Lists a property whose id the older table doesn't tie, where the newer does, and gives the row after.
fn list_untied(
    newer: &[u8],
    scope: Scope,
    s: &[u8],
    rows: &mut [u32],
    from: Place,
    p: Stored,
) -> u32
    requires { l.UntiedReady newer.now scope s.now from p }
    ensures { l.UntiedDone newer.now scope s.now rows.old from p rows.new result }
{
    let shown = property(newer, scope.newer, s, p);
    if UNMAPPED <= shown.id {
        return from.listed;
    }
    let row = Difference {
        property: from.property,
        control: from.control,
        code: p.id as u32,
        scope_kind: scope.kind as u32,
        scope_code: scope.code as u32,
        older_id: bit_or(UNMAPPED, p.id as u32),
        newer_id: shown.id,
        newer_mark: shown.value.mark,
        start: shown.start,
        size: shown.size,
    };
    put_fit(rows, from.listed as usize, row);
    from.listed + 1
}

// Lists a property where it differs, and gives the row after.
fn list_property(
    older: &[u8],
    newer: &[u8],
    scope: Scope,
    s: &[u8],
    rows: &mut [u32],
    from: Place,
    p: Stored,
) -> u32
    requires { l.PropertyReady older.now newer.now scope s.now from p }
    ensures { l.PropertyDone older.now newer.now scope s.now rows.old from p rows.new result }
{
    match find_row(older, scope.older, p.id) {
        Some(_) => from.listed,
        None => list_untied(newer, scope, s, rows, from, p),
    }
}

// Lists the properties of the run at a place, and gives the place after it.
fn list_run(
    older: &[u8],
    newer: &[u8],
    scope: Scope,
    s: &[u8],
    rows: &mut [u32],
    from: Place,
) -> Place
    requires { l.RunReady older.now newer.now scope s.now from }
    ensures { l.RunDone older.now newer.now scope s.now rows.old from rows.new result }
{
    let mut here = from;
    while let Some(p) = stored_at(s, here.at) {
        let listed = list_property(older, newer, scope, s, rows, here, p);
        here = Place {
            at: p.start + p.size,
            property: here.property + 1,
            listed,
            ..here
        };
    }
    here
}

// Lists the properties of the entry at a place without its list, and gives the place after its run.
fn list_node(
    older: &mut Scopes,
    newer: &mut Scopes,
    s: &[u8],
    rows: &mut [u32],
    from: Place,
) -> Place
    requires { l.NodeReady older.old.table.now newer.old.table.now s.now from }
    ensures same { l.SameTables older.old newer.old older.new newer.new }
    ensures listed { l.NodeDone older.old.table.now newer.old.table.now s.now rows.old from rows.new result }
{
    let code = u16_at(s, from.at);
    let scope = Scope {
        kind: SCOPE_ENTRY,
        code,
        older: older.find(SCOPE_ENTRY, code),
        newer: newer.find(SCOPE_ENTRY, code),
    };
    let run = Place {
        at: from.at + 2,
        ..from
    };
    list_run(older.table, newer.table, scope, s, rows, run)
}

// Lists what is reported of the top list, which has `n` entries from a place on, and gives the row after.
fn list_top(
    older: &mut Scopes,
    newer: &mut Scopes,
    s: &[u8],
    n: u32,
    rows: &mut [u32],
    from: Place,
) -> u32
    requires { l.TopReady older.old.table.now newer.old.table.now s.now n from }
    ensures { l.TopDone older.old.table.now newer.old.table.now s.now n rows.old from rows.new result }
{
    let mut stack = [0; STACK_WORDS];
    let mut c = reported(s, top(from.at, n));
    let mut control: u32 = 0;
    let mut property = from.property;
    let mut listed = from.listed;
    while 0 < c.left {
        let here = Place {
            at: c.at,
            control,
            property,
            listed,
        };
        let e = list_node(older, newer, s, rows, here);
        c = reported(s, past(s, &mut stack, c, control, e.at));
        control += 1;
        property = e.property;
        listed = e.listed;
    }
    listed
}

// Lists the differences of a stream that fits a reading, those rows that fit, and gives how many there are.
pub fn list_stream(older: &[u8], newer: &[u8], s: &[u8], rows: &mut [u32]) -> u32
    requires { l.StreamReady older.now newer.now s.now }
    ensures { l.StreamDone older.now newer.now s.now rows.old rows.new result }
{
    let mut hints = [0; HINTS];
    let mut listed = [0; SCOPE_LIST_WORDS];
    let mut in_older = Scopes::of(older, &mut hints, &mut listed);
    let mut newer_hints = [0; HINTS];
    let mut newer_listed = [0; SCOPE_LIST_WORDS];
    let mut in_newer = Scopes::of(newer, &mut newer_hints, &mut newer_listed);
    let kind = object_scope(s);
    let scope = Scope {
        kind,
        code: 0,
        older: in_older.find(kind, 0),
        newer: in_newer.find(kind, 0),
    };
    let from = Place {
        at: OBJECT_RUN,
        control: NO_CONTROL,
        property: 0,
        listed: 0,
    };
    let own = list_run(older, newer, scope, s, rows, from);
    match head(s, own.at) {
        Some(Opens::Listed { count, next }) => {
            let start = Place {
                at: next,
                control: 0,
                property: own.property,
                listed: own.listed,
            };
            list_top(&mut in_older, &mut in_newer, s, count as u32, rows, start)
        }
        Some(Opens::Plain { .. }) => own.listed,
        None => own.listed,
    }
}
