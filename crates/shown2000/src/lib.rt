// The properties of a run of an Access 2000 stream as a code table shows them, for whoever walks a stream beside the reader: run2000 has functions of its own
// for this, which go by hints and are compiled into the reader's loop (docs/SPEED.md).
#![tactic(auto)]

ghost use Rattle.std.specs.Prelude.{◌≡◌, ◌+◌, ◌≤◌, length};
ghost use Rattle.coderows.specs.Look.{Listed, Finds, Sorted, as_row, body_rows};
ghost use Rattle.rules.specs.CodeTable.{is_tied};
ghost use Rattle.rules.specs.Lists.{find};
ghost use Rattle.rules.specs.Told.{told_as};
ghost use Rattle.run2000.specs.Runs as runs;
ghost use Rattle.shown2000.specs.Next as next;

use codehints::{HINTS, find_scope};
use coderows::{Body, SCOPE_LIST_WORDS, Tie, list_scopes, seek_row};
use propvalue::{stored_value, value_as};
use rules::{LAST_ID, Property, UNMAPPED};
use run2000::{Stored, bit_or, part};
use walk2000::value;

// A code table, and what makes the look-ups of its scopes short: a list of them, and hints. Both are lent, since returned they would be copied by memcpy.
#[derive(Drop)]
pub struct Scopes<'a> {
    pub table: &'a [u8],
    pub hints: &'a mut [u8; HINTS],
    pub listed: &'a [u32; SCOPE_LIST_WORDS],
    pub ghost is_list: { Listed table.now listed.now },
}

impl<'a> Scopes<'a> {
    pub fn of(
        table: &'a [u8],
        hints: &'a mut [u8; HINTS],
        listed: &'a mut [u32; SCOPE_LIST_WORDS],
    ) -> Scopes<'a>
        ensures { result.table.now ≡ table.now }
    {
        list_scopes(table, listed);
        Scopes {
            table,
            hints,
            listed,
        }
    }

    // Where the rows of a scope are, in a well-formed table.
    pub fn find(&mut self, kind: u8, code: u16) -> Body
        ensures rows { Finds self.old.table.now kind code result }
        ensures same { self.new.table.now ≡ self.old.table.now }
    {
        find_scope(self.table, self.hints, self.listed, kind, code)
    }
}

// The property of a run that stands at a place: none where the run ends.
pub fn stored_at(s: &[u8], at: usize) -> Option<Stored>
    ensures { result ≡ told_as next.stored (next.next_at s.now at) }
{
    if at < s.len() && s[at] <= LAST_ID {
        let v = value(s, at)?;
        return Some(Stored {
            id: s[at],
            start: v.start,
            size: v.size,
        });
    }
    None
}

// What the rows that were found say of an id, where their ids ascend.
#[tactic(auto, unfolding(coderows::specs::Look::body_rows))]
pub fn find_row(table: &[u8], body: Body, id: u8) -> Option<Tie>
    ensures { Sorted (body_rows table.now body) → result ≡ as_row (find (is_tied id) (body_rows table.now body)) }
{
    seek_row(table, body.start as usize, body.count as usize, id as usize).row
}

// A property as it is shown, by the rows of its scope.
pub fn property(table: &[u8], body: Body, s: &[u8], p: Stored) -> Property
    requires { runs.Inside table.now body s.now p.id p.start p.size }
    ensures { result ≡ runs.shown_in (body_rows table.now body) s.now (runs.prop_of p) }
{
    let bytes = part(s, p);
    let (id, value) = match find_row(table, body, p.id) {
        Some(Tie { target, kind }) => (target as u32, value_as(kind, p.id, bytes)),
        None => (bit_or(UNMAPPED, p.id as u32), stored_value(p.id, bytes)),
    };
    Property {
        id,
        value,
        start: p.start as u32,
        size: p.size as u32,
    }
}
