// Comma-separated text with five fields in every record, read into lent room. The text is walked twice, a byte at a time: to count, and then to write.
#![tactic(auto)]

ghost use Rattle.std.specs.Prelude.{◌≡◌, [], ◌∷◌, ◌+◌, ◌-◌, ◌*◌, ◌≤◌, ◌<◌, ◌^◌, length};
ghost use Rattle.rules.specs.Rows.{field_width};
ghost use Rattle.rules.specs.Csv.{field_end, step, read_from, countable, fields_exit};
ghost use Rattle.rules.specs.declared.Mode.TheVariants.{Start, Plain, Quoted, Closing, Returned};
ghost use Rattle.rows.specs.Put.{put};
ghost use Rattle.csvlaws.proofs.CsvReaderLaws.{counted};
ghost use Rattle.csvread.specs.Places.{begin, place_after, counted_as, end_of, last_of, Room, Fits, Wrote, rows_of, out_of};

use csvtext::is_data;
use rules::{Answer, Mode, NO_ROOM_FOR_SHEET, NOT_A_SHEET, READ, Step};
use text::refused;

const COMMA: u8 = b',';

const QUOTE: u8 = b'"';

const CR: u8 = 0x0D;

const LF: u8 = 0x0A;

// A record's fifth field, counted from 0.
const LAST_FIELD: u32 = 4;

// How many words a field's row has.
const FIELD_WIDTH: usize = 2;

// Counts, starts and lengths have 32 bits.
const MOST: usize = 0xFFFFFFFF;

// Where the text is read: the reader's mode, the field of the record, and how many bytes and fields came before.
#[derive(Clone, Copy)]
struct Place {
    mode: Mode,
    field: u32,
    bytes: usize,
    fields: usize,
}

// How many bytes and fields a text has.
#[derive(Clone, Copy)]
struct Size {
    bytes: usize,
    fields: usize,
}

// ---- a byte
// What may stand after the field: a comma, or CR after the fifth.
fn field_end(field: u32, b: u8) -> Step
    ensures { result ≡ field_end field b }
{
    if b == COMMA {
        if field < LAST_FIELD {
            return Step::Close {
                mode: Mode::Start,
                field: field + 1,
            };
        }
        return Step::Refuse;
    }
    if b == CR {
        if field == LAST_FIELD {
            return Step::Close {
                mode: Mode::Returned,
                field: 0,
            };
        }
        return Step::Refuse;
    }
    Step::Refuse
}

fn plain_step(field: u32, b: u8) -> Step
    ensures { result ≡ step Plain field b }
{
    if is_data(u32::from(b)) {
        return Step::Put {
            mode: Mode::Plain,
            field,
        };
    }
    field_end(field, b)
}

fn start_step(field: u32, b: u8) -> Step
    ensures { result ≡ step Start field b }
{
    if b == QUOTE {
        return Step::Pass {
            mode: Mode::Quoted,
            field,
        };
    }
    plain_step(field, b)
}

fn quoted_step(field: u32, b: u8) -> Step
    ensures { result ≡ step Quoted field b }
{
    if b == QUOTE {
        return Step::Pass {
            mode: Mode::Closing,
            field,
        };
    }
    Step::Put {
        mode: Mode::Quoted,
        field,
    }
}

fn closing_step(field: u32, b: u8) -> Step
    ensures { result ≡ step Closing field b }
{
    if b == QUOTE {
        return Step::Put {
            mode: Mode::Quoted,
            field,
        };
    }
    field_end(field, b)
}

fn returned_step(field: u32, b: u8) -> Step
    ensures { result ≡ step Returned field b }
{
    if b == LF {
        return Step::Pass {
            mode: Mode::Start,
            field: 0,
        };
    }
    Step::Refuse
}

fn step(mode: Mode, field: u32, b: u8) -> Step
    ensures { result ≡ step mode field b }
{
    match mode {
        Mode::Start => start_step(field, b),
        Mode::Plain => plain_step(field, b),
        Mode::Quoted => quoted_step(field, b),
        Mode::Closing => closing_step(field, b),
        Mode::Returned => returned_step(field, b),
    }
}

// ---- counting
fn begin() -> Place
    ensures { result ≡ begin }
{
    Place {
        mode: Mode::Start,
        field: 0,
        bytes: 0,
        fields: 0,
    }
}

// The place after a byte, unless the byte may not stand there.
// Kept: the bounds are of a turn and not of a Place.
fn place_after(p: Place, s: Step) -> Option<Place>
    requires bytes_bound { p.bytes < 2 ^ 63 }
    requires fields_bound { p.fields < 2 ^ 63 }
    ensures { result ≡ place_after p s }
{
    let bytes = p.bytes;
    let fields = p.fields;
    match s {
        Step::Pass { mode, field } => Some(Place {
            mode,
            field,
            bytes,
            fields,
        }),
        Step::Put { mode, field } => Some(Place {
            mode,
            field,
            bytes: bytes + 1,
            fields,
        }),
        Step::Close { mode, field } => Some(Place {
            mode,
            field,
            bytes,
            fields: fields + 1,
        }),
        Step::Refuse => None,
    }
}

// The size of a text that ends in a field, which must be the fifth.
fn last(p: Place) -> Option<Size>
    requires { p.fields < 2 ^ 63 }
    ensures { result ≡ counted_as (last_of p) }
{
    if p.field == LAST_FIELD {
        return Some(Size {
            bytes: p.bytes,
            fields: p.fields + 1,
        });
    }
    None
}

// The size of a text that ends here, if it may.
fn end(p: Place) -> Option<Size>
    requires { p.fields < 2 ^ 63 }
    ensures { result ≡ counted_as (end_of p) }
{
    let mode = p.mode;
    match mode {
        Mode::Start => {
            if p.field == 0 {
                return Some(Size {
                    bytes: p.bytes,
                    fields: p.fields,
                });
            }
            last(p)
        }
        Mode::Plain => last(p),
        Mode::Quoted => None,
        Mode::Closing => last(p),
        Mode::Returned => None,
    }
}

// The size of a text, if it is of the grammar.
fn count(text: &[u8]) -> Option<Size>
    ensures { result ≡ counted_as (counted (read_from Start 0 text.now)) }
{
    let mut p = begin();
    for b in text {
        let mode = p.mode;
        let s = step(mode, p.field, *b);
        p = place_after(p, s)?;
    }
    end(p)
}

// ---- writing
// Writes row `n` of the fields: where the field's bytes start, and how many they are.
fn put_span(rows: &mut [u32], n: usize, start: usize, end: usize)
    requires field_width_in_bounds { n * field_width + field_width ≤ length rows.old }
    requires start_le_end { start ≤ end }
    requires end_bound { end < 2 ^ 32 }
    ensures { rows.new ≡ put field_width rows.old n ((start ∷ (end - start) ∷ []) ∷ []) }
{
    let k = n * FIELD_WIDTH;
    rows[k] = start as u32;
    rows[k + 1] = (end - start) as u32;
}

// Writes what a byte adds: itself, or the row of the field that it ends. Returns where the field starts that the reader is in then.
fn put_step(rows: &mut [u32], out: &mut [u8], p: Place, start: usize, s: Step, b: u8) -> usize
    requires { Fits rows.old out.old p start s }
    ensures { Wrote rows.old out.old p start s b rows.new out.new result }
{
    let at = p.bytes;
    match s {
        Step::Pass { mode: _, field: _ } => start,
        Step::Put { mode: _, field: _ } => {
            out[at] = b;
            start
        }
        Step::Close { mode: _, field: _ } => {
            put_span(rows, p.fields, start, at);
            at
        }
        Step::Refuse => start,
    }
}

// Writes the fields of a text that is of the grammar, `fields` of them, into room that is enough.
fn write(text: &[u8], rows: &mut [u32], out: &mut [u8], fields: usize)
    requires { Room text.now rows.old out.old fields }
    ensures rows_after { rows.new ≡ rows_of (read_from Start 0 text.now) rows.old }
    ensures out_after { out.new ≡ out_of (read_from Start 0 text.now) out.old }
{
    let mut p = begin();
    let mut start = 0;
    for b in text {
        let mode = p.mode;
        let s = step(mode, p.field, *b);
        start = put_step(rows, out, p, start, s, *b);
        let Some(place) = place_after(p, s) else {
            return;
        };
        p = place;
    }
    if p.fields < fields {
        put_span(rows, p.fields, start, p.bytes);
    }
}

// How much of lent room can be counted.
fn countable(room: usize) -> usize
    ensures { result ≡ countable «room» }
{
    room.min(MOST)
}

// The fields of comma-separated text, five in every record, the last CR LF optional: their bytes, quotes undone, end to end in `out`, and in `fields` a start
// and a length for each. The counts are the bytes and the fields. Refused with 14 or 13, where nothing is written.
pub fn read_csv(text: &[u8], fields: &mut [u32], out: &mut [u8]) -> Answer
    ensures value { result ≡ (fields_exit text.now fields.old out.old).answer }
    ensures fields_after { fields.new ≡ (fields_exit text.now fields.old out.old).rows }
    ensures out_after { out.new ≡ (fields_exit text.now fields.old out.old).out }
{
    if text.len() == 0 {
        return refused(NOT_A_SHEET);
    }
    let Some(Size { bytes, fields: n }) = count(text) else {
        return refused(NOT_A_SHEET);
    };
    if countable(out.len()) < bytes {
        return refused(NO_ROOM_FOR_SHEET);
    }
    if countable(fields.len() / FIELD_WIDTH) < n {
        return refused(NO_ROOM_FOR_SHEET);
    }
    write(text, fields, out, n);
    Answer {
        number: READ,
        first: bytes as u32,
        second: n as u32,
        third: 0,
    }
}
