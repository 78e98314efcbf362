// What a newer code table changes in a stream: the properties that come out otherwise, each with what the two tables show.
#![tactic(auto)]

ghost use Rattle.std.specs.Prelude.{◌≡◌};
ghost use Rattle.rules.specs.Answer.{answer};
ghost use Rattle.rules.specs.Differences.{differences_exit};
ghost use Rattle.differ2000.specs.Listing.{StreamReady};
ghost use Rattle.differences.specs.Exit.{exited, Fits};

use blob::{is_2000, read_blob};
use codetable::well_formed;
use differ2000::{DIFFERENCE_WIDTH, list_stream};
use rules::{Answer, BAD_TABLE, LONGEST, MORE_CONTROLS, NO_READING, READ, TOO_LONG};
use succession::succeeds;
use text::refused;

// The newer table is no successor of the older.
// Kept: an answer's number, as those of rules::Answer.
pub const NO_SUCCESSOR: u32 = 19;

fn counted(number: u32, rows: u32, properties: u32) -> Answer
    ensures { result ≡ answer number rows properties 0 }
{
    Answer {
        number,
        first: rows,
        second: properties,
        third: 0,
    }
}

// Lists the differences of an Access 2000 stream that fits a reading with so many properties: first they are counted, into room where no row fits.
fn listed(older: &[u8], newer: &[u8], stream: &[u8], rows: &mut [u32], properties: u32) -> Answer
    requires { StreamReady older.now newer.now stream.now }
    ensures { Fits older.now newer.now stream.now rows.old properties result rows.new }
{
    let mut nowhere = [0; 1];
    let n = list_stream(older, newer, stream, &mut nowhere);
    if rows.len() / DIFFERENCE_WIDTH < n as usize {
        return counted(MORE_CONTROLS, n, properties);
    }
    list_stream(older, newer, stream, rows);
    counted(READ, n, properties)
}

// A row for each property of a stream that the newer table shows otherwise than the older. A refusal leaves the rows as they were.
pub fn differences(older: &[u8], newer: &[u8], stream: &[u8], rows: &mut [u32]) -> Answer
    ensures { exited result rows.new ≡ differences_exit older.now newer.now stream.now rows.old }
{
    if stream.len() > LONGEST {
        return refused(TOO_LONG);
    }
    if !well_formed(older) {
        return refused(BAD_TABLE);
    }
    if !well_formed(newer) {
        return refused(BAD_TABLE);
    }
    if !succeeds(older, newer) {
        return refused(NO_SUCCESSOR);
    }
    let mut controls = [0; 1];
    let mut properties = [0; 1];
    let seen = read_blob(older, stream, &mut controls, &mut properties);
    if seen.number == NO_READING {
        return refused(NO_READING);
    }
    if is_2000(older, stream) {
        return listed(older, newer, stream, rows, seen.second);
    }
    counted(READ, 0, seen.second)
}
