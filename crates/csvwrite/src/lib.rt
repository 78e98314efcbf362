// Writes the properties of a Blob as comma-separated text. Unless the room is ample, what the text takes is counted before a row is written.
#![tactic(auto)]

ghost use Rattle.std.specs.Prelude.{◌≡◌, true, ◌/◌, ◌≤◌};
ghost use Rattle.rules.specs.Rows.{control_width, property_width};
ghost use Rattle.rules.specs.Csv.{countable, csv_exit};
ghost use Rattle.csvwrite.specs.Sheet.{is_read_lem, is_enough, csv_left, ample, Readable, Measured, Fits, Roomy};

use csvrows::put_sheet;
use rows::{CONTROL_WIDTH, PROPERTY_WIDTH};
use rules::{Answer, MORE_CONTROLS, MORE_PROPERTIES, NO_ROOM_FOR_SHEET, READ};

// The header record's bytes.
const HEADER_SIZE: usize = 34;

// A record has so many bytes at most, and twice those of its value: 16 for the owner, 26 for the name, 10 for the word, 38 for a value without its bytes,
// two commas, CR and LF.
const RECORD_MOST: usize = 94;

// Lengths have 32 bits.
const MOST: usize = 0xffff_ffff;

// An answer with a reading's counts: read, or refused for want of rows.
fn is_read(number: u32) -> bool
    ensures { result ≡ is_read_lem number }
{
    if number == READ {
        return true;
    }
    if number == MORE_CONTROLS {
        return true;
    }
    number == MORE_PROPERTIES
}

// Whether so many words are room for the rows; `needed` is what is answered where none is lent.
fn enough(needed: Answer, control_words: usize, property_words: usize) -> bool
    ensures { result ≡ is_enough needed (control_words / control_width) (property_words / property_width) }
{
    if !is_read(needed.number) {
        return false;
    }
    if control_words / CONTROL_WIDTH < needed.first as usize {
        return false;
    }
    needed.second as usize <= property_words / PROPERTY_WIDTH
}

fn countable(room: usize) -> usize
    ensures { result ≡ countable room }
{
    room.min(MOST)
}

// What is left of a room after the records of a Blob, the header not counted.
fn records_left(table: &[u8], stream: &[u8], index: &[u32], letters: &[u8], all: usize) -> usize
    requires { Readable table.now stream.now index.now letters.now }
    ensures { Measured table.now stream.now all result }
{
    if blob::is_2000(table, stream) {
        return csv2000::sheet_left(table, stream, index, letters, all);
    }
    csvlater::sheet_left(stream, index, letters, all)
}

// Whether the text fits so many bytes.
fn text_fits(table: &[u8], stream: &[u8], index: &[u32], letters: &[u8], room: usize) -> bool
    requires { Readable table.now stream.now index.now letters.now }
    ensures { Fits table.now stream.now «room» result }
{
    let all = (countable(room) + 1).saturating_sub(HEADER_SIZE);
    0 < records_left(table, stream, index, letters, all)
}

// Whether the text of so many rows or fewer, of a stream so long, surely fits so many bytes. Where this is false nothing is told.
fn is_ample(rows: usize, length: usize, room: usize) -> bool
    ensures { result ≡ true → ample rows length ≤ countable room }
{
    if MOST < rows || MOST < length {
        return false;
    }
    HEADER_SIZE + RECORD_MOST * rows + 2 * length <= countable(room)
}

// Reads a Blob into the lent rows and writes its text, for which there is room.
fn write_all(
    table: &[u8],
    stream: &[u8],
    controls: &mut [u32],
    properties: &mut [u32],
    out: &mut [u8],
) -> Answer
    requires { Roomy table.now stream.now controls.old properties.old out.old }
    ensures { csv_left result controls.new properties.new out.new ≡ csv_exit table.now stream.now controls.old properties.old out.old }
{
    let a = blob::read_blob(table, stream, controls, properties);
    if a.number != READ {
        return a;
    }
    let index = nametables::index();
    let letters = nametables::letters();
    let size = put_sheet(
        out, &index, &letters, stream, controls, a.first, properties, a.third,
    );
    text::wrote(size as u32)
}

// Reads a Blob into the lent rows and writes them as comma-separated text. A refusal writes no row and no byte.
pub fn write_csv(
    table: &[u8],
    stream: &[u8],
    controls: &mut [u32],
    properties: &mut [u32],
    out: &mut [u8],
) -> Answer
    ensures { csv_left result controls.new properties.new out.new ≡ csv_exit table.now stream.now controls.old properties.old out.old }
{
    if is_ample(properties.len() / PROPERTY_WIDTH, stream.len(), out.len()) {
        return write_all(table, stream, controls, properties, out);
    }
    let mut no_controls = [0; 1];
    let mut no_properties = [0; 1];
    let needed = blob::read_blob(table, stream, &mut no_controls, &mut no_properties);
    if !enough(needed, controls.len(), properties.len()) {
        return blob::read_blob(table, stream, controls, properties);
    }
    let index = nametables::index();
    let letters = nametables::letters();
    if !text_fits(table, stream, &index, &letters, out.len()) {
        return text::refused(NO_ROOM_FOR_SHEET);
    }
    write_all(table, stream, controls, properties, out)
}
