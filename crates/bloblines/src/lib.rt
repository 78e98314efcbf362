// The listing of a Blob after its code table, read into rows and written whole into a lent buffer.
#![tactic(auto)]

ghost use Rattle.names.specs.Lookup.{Lent};
ghost use Rattle.listing.specs.Bound.{longest_listing};
ghost use Rattle.listing.specs.Written.{Written};
ghost use Rattle.bloblines.specs.Blobs.{lines_in, listed_in_lem, most_in};
ghost use Rattle.bloblines.specs.Listed.{listed};

use listing::{Kind, refusal_line};
use rows::{CONTROL_WIDTH, PROPERTY_WIDTH};
use rules::{BAD_TABLE, TOO_LONG};

// The longest Blob that is listed.
const LONGEST_BLOB: usize = 4194304;

// The longest input of document 01's program, and how many controls and properties that has room for.
const LONGEST_INPUT: usize = 32768;

const CONTROL_ROOM: usize = 256;

const PROPERTY_ROOM: usize = 1024;

// No listing of that program is longer.
pub const LONGEST_LISTING: usize = 120627;

// Reads a Blob into the lent rows and writes its lines.
fn blob_lines(
    table: &[u8],
    stream: &[u8],
    controls: &mut [u32],
    properties: &mut [u32],
    index: &[u32],
    letters: &[u8],
    out: &mut [u8],
) -> usize
    requires { Lent index.now letters.now }
    ensures { Written out.old (lines_in table.now stream.now controls.old properties.old) (most_in controls.old properties.old) out.new result }
{
    let a = blob::read_blob(table, stream, controls, properties);
    let p = listing::answer_line(out, 0, a);
    if a.number != 0 {
        return p;
    }
    let p = listing::lines(
        Kind::Control,
        out,
        p,
        stream,
        controls,
        a.first,
        index,
        letters,
    );
    listing::lines(
        Kind::Property,
        out,
        p,
        stream,
        properties,
        a.second,
        index,
        letters,
    )
}

// Writes the listing of an input from the start of `out` on, as far as there is room, and returns where it ends.
// The input is the length of the code table, the code table, a Blob.
pub fn write_listing(
    input: &[u8],
    controls: &mut [u32],
    properties: &mut [u32],
    index: &[u32],
    letters: &[u8],
    out: &mut [u8],
) -> usize
    requires { Lent index.now letters.now }
    ensures { Written out.old (listed_in_lem input.now controls.old properties.old) (most_in controls.old properties.old) out.new result }
{
    if input.len() < 4 {
        return refusal_line(out, BAD_TABLE);
    }
    let size = numbers::u32_at(input, 0) as usize;
    if input.len() - 4 < size {
        return refusal_line(out, BAD_TABLE);
    }
    let start = 4 + size;
    if LONGEST_BLOB < input.len() - start {
        return refusal_line(out, TOO_LONG);
    }
    blob_lines(
        &input[4..start],
        &input[start..],
        controls,
        properties,
        index,
        letters,
        out,
    )
}

// The same in the room of document 01's program. `more` says that bytes came after the input, and is a refusal.
pub fn write_form_listing(
    input: &[u8],
    more: bool,
    index: &[u32],
    letters: &[u8],
    out: &mut [u8],
) -> usize
    requires { Lent index.now letters.now }
    ensures { Written out.old (listed input.now more) longest_listing out.new result }
{
    if more || LONGEST_INPUT < input.len() {
        return refusal_line(out, TOO_LONG);
    }
    let mut controls = [0; CONTROL_ROOM * CONTROL_WIDTH];
    let mut properties = [0; PROPERTY_ROOM * PROPERTY_WIDTH];
    write_listing(input, &mut controls, &mut properties, index, letters, out)
}
