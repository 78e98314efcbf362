// Prints how many rows are enough for every stream of at most so many bytes. Standard input has the number as four bytes, the lowest first.
#![tactic(auto)]

ghost use Rattle.std.specs.Prelude.{◌≡◌, ◌≤◌};
ghost use Rattle.rules.specs.Answer.{longest};
ghost use Rattle.text.specs.Writer.{Wrote};
ghost use Rattle.roomlist.specs.Rooms.{Small, blob_bytes, info_bytes, blob_line, info_line, length_line, room_lines};

use rules::Room;
use text::{put_decimal, put_text};

// A word of a row has four bytes, and so has the length that is read.
const WORD_SIZE: u32 = 4;

const LENGTH_SIZE: usize = 4;

// Room for all that is printed.
const LINES_ROOM: usize = 512;

// ---- the bytes of rows
// The widths of rows as numbers of 32 bits.
const CONTROL_WORDS: u32 = rows::CONTROL_WIDTH as u32;

const PROPERTY_WORDS: u32 = rows::PROPERTY_WIDTH as u32;

const INFO_WORDS: u32 = rows::INFO_WIDTH as u32;

fn blob_bytes(room: Room) -> u32
    requires { Small room }
    ensures { result ≡ blob_bytes room }
{
    WORD_SIZE * (CONTROL_WORDS * room.controls + PROPERTY_WORDS * room.properties)
}

fn info_bytes(rows: u32) -> u32
    requires { rows ≤ longest }
    ensures { result ≡ info_bytes rows }
{
    WORD_SIZE * (INFO_WORDS * rows)
}

// ---- lines
// Kept: `print`'s clause tells the lines byte for byte, and no clause tells what a macro prints.
fn put_blob(out: &mut [u8], at: usize, layout: &[u8], room: Room) -> usize
    requires { Small room }
    ensures { Wrote out.old at (blob_line layout.now room) out.new result }
{
    let p = put_text(out, at, layout);
    let p = put_decimal(out, p, room.controls);
    let p = put_text(out, p, b" control rows, ");
    let p = put_decimal(out, p, room.properties);
    let p = put_text(out, p, b" property rows, ");
    let p = put_decimal(out, p, blob_bytes(room));
    put_text(out, p, b" bytes\n")
}

fn put_info(out: &mut [u8], at: usize, rows: u32) -> usize
    requires { rows ≤ longest }
    ensures { Wrote out.old at (info_line rows) out.new result }
{
    let p = put_text(out, at, b"TypeInfo: ");
    let p = put_decimal(out, p, rows);
    let p = put_text(out, p, b" rows, ");
    let p = put_decimal(out, p, info_bytes(rows));
    put_text(out, p, b" bytes\n")
}

fn put_length(out: &mut [u8], at: usize, length: u32) -> usize
    ensures { Wrote out.old at (length_line length) out.new result }
{
    let p = put_text(out, at, b"up to ");
    let p = put_decimal(out, p, length);
    put_text(out, p, b" bytes\n")
}

fn put_rooms(out: &mut [u8], length: u32) -> usize
    ensures { Wrote out.old 0 (room_lines length) out.new result }
{
    let n = length as usize;
    let p = put_length(out, 0, length);
    let p = put_blob(out, p, b"Blob, either layout: ", room::room_for(n));
    let p = put_blob(out, p, b"Blob, Access 2000: ", room::room_2000(n));
    let p = put_blob(out, p, b"Blob, later: ", room::room_later(n));
    put_info(out, p, room::type_info_room(n))
}

// Prints what there is to say of a length.
fn print(rt: &HostRuntime, length: u32, lines: &[u8])
    requires { lines.now ≡ room_lines length }
{
    streams::write_all(rt, lines);
}

fn main(rt: HostRuntime) {
    let mut input = [0; LENGTH_SIZE];
    streams::read_full(&rt, &mut input);
    let length = u32::from_le_bytes(input);
    let mut out = [0; LINES_ROOM];
    let end = put_rooms(&mut out, length);
    print(&rt, length, &out[..end]);
}
