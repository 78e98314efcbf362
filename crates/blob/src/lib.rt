// A Blob of either layout, and the name of a control.
#![tactic(auto)]

ghost use Rattle.std.specs.Prelude.{◌≡◌, true, ◌+◌, ◌≤◌, length};
ghost use Rattle.rules.specs.Answer.{longest};
ghost use Rattle.rules.specs.CodeTable.{well_formed_lem};
ghost use Rattle.rules.specs.Access2000.{stream_of};
ghost use Rattle.rules.specs.Blob.{speaks2000, is2000, read_by, exit, exit2000, exit_later};
ghost use Rattle.rules.specs.NamePart.{name_part, part_bytes_lem};
ghost use Rattle.rows.specs.Judge.{Exits};
ghost use Rattle.blob.specs.Exit.{exited, part_or, place_or, part_place};

use rules::{
    Answer, BAD_TABLE, LONGEST, NAME_LOOSE, NAME_NUMBERED, NAME_TEXT, OTHER_LAYOUT, TOO_LONG,
};
use text::refused;

// The stream's first byte is the code table's layout byte.
#[tactic(auto, unfolding(rules::specs::Blob::is2000))]
pub fn is_2000(table: &[u8], stream: &[u8]) -> bool
    ensures { result ≡ is2000 table.now stream.now }
{
    speaks_2000(u32::from(codetable::layout(table)), stream)
}

// Reads a stream of the Access 2000 layout.
fn spoken_2000(table: &[u8], stream: &[u8], controls: &mut [u32], properties: &mut [u32]) -> Answer
    requires { (well_formed_lem table.now ≡ true) × (length stream.now ≤ longest) }
    ensures { Exits (read_by table.now stream.now (stream_of stream.now)) controls.old properties.old result controls.new properties.new }
{
    form2000::read(table, stream, controls, properties)
}

// Reads a Blob into rows of controls and of properties. A refusal leaves both slices as they were.
// Kept: rows and their words apart, two slices as C lends them.
pub fn read_blob(
    table: &[u8],
    stream: &[u8],
    controls: &mut [u32],
    properties: &mut [u32],
) -> Answer
    ensures { exited result controls.new properties.new ≡ exit table.now stream.now controls.old properties.old }
{
    if stream.len() > LONGEST {
        return refused(TOO_LONG);
    }
    if !codetable::well_formed(table) {
        return refused(BAD_TABLE);
    }
    if is_2000(table, stream) {
        return spoken_2000(table, stream, controls, properties);
    }
    later::read(stream, controls, properties)
}

// The part of `s` from `start` on, of so many bytes; the empty part at the start of `other` where `s` doesn't have it.
// Kept: `get` doesn't say where a part stands, as the clause `place` of `control_name` does.
fn part_or<'a>(s: &'a [u8], start: usize, length: usize, other: &'a [u8]) -> &'a [u8]
    ensures result_value { result.now ≡ part_or s.now start length }
    ensures ref_ptr_value { result.ref_ptr ≡ place_or s.now s.entry.ref_ptr start length other.entry.ref_ptr }
{
    if s.len() < start || s.len() - start < length {
        return &other[..0];
    }
    &s[start..start + length]
}

// The name of a control by the words of its row: a part of the stream, or of the label buffer for a numbered one. Its bytes, and where they stand.
pub fn control_name<'a>(
    stream: &'a [u8],
    label: &'a [u8],
    mark: u32,
    start: u32,
    length: u32,
) -> &'a [u8]
    ensures result_value { result.now ≡ part_bytes_lem stream.now label.now (name_part stream.now label.now mark start length) }
    ensures place { result.ref_ptr ≡ part_place stream.entry.ref_ptr label.entry.ref_ptr (name_part stream.now label.now mark start length) }
{
    match mark {
        NAME_TEXT | NAME_LOOSE => part_or(stream, start as usize, length as usize, stream),
        NAME_NUMBERED => part_or(label, 0, length as usize, stream),
        _ => &stream[..0],
    }
}

// ---- a reader for each layout
// The stream's first byte is this layout byte.
fn speaks_2000(layout: u32, stream: &[u8]) -> bool
    ensures { result ≡ speaks2000 layout stream.now }
{
    match stream {
        [first, ..] => u32::from(*first) == layout,
        [] => false,
    }
}

// Reads a Blob of the Access 2000 layout; one that speaks for the later layout is refused. A refusal leaves both slices as they were.
pub fn read_2000(
    table: &[u8],
    stream: &[u8],
    controls: &mut [u32],
    properties: &mut [u32],
) -> Answer
    ensures { exited result controls.new properties.new ≡ exit2000 table.now stream.now controls.old properties.old }
{
    if stream.len() > LONGEST {
        return refused(TOO_LONG);
    }
    if !codetable::well_formed(table) {
        return refused(BAD_TABLE);
    }
    if !is_2000(table, stream) {
        return refused(OTHER_LAYOUT);
    }
    spoken_2000(table, stream, controls, properties)
}

// Reads a Blob of the later layout; one that begins with the layout byte is refused, and no stream begins with a number above 255. A refusal leaves both slices as they were.
pub fn read_later(
    layout: u32,
    stream: &[u8],
    controls: &mut [u32],
    properties: &mut [u32],
) -> Answer
    ensures { exited result controls.new properties.new ≡ exit_later layout stream.now controls.old properties.old }
{
    if stream.len() > LONGEST {
        return refused(TOO_LONG);
    }
    if speaks_2000(layout, stream) {
        return refused(OTHER_LAYOUT);
    }
    later::read(stream, controls, properties)
}
