// Writes the Blob that standard input holds after its code table as comma-separated text; specs/Sheets.antt says what is printed.
#![tactic(auto)]

ghost use Rattle.std.specs.Prelude.{◌≡◌, List, ◌++◌, ℕ, ◌≤◌, ◌<◌, length};
ghost use Rattle.inputs.specs.Begun.{Begun};
ghost use Rattle.csvout.specs.Sheets.{longest_input, sheet_for, text_size, Refused, Parted};

use inputs::{by_length, filled};
use rows::{CONTROL_WIDTH, PROPERTY_WIDTH};
use rules::{BAD_TABLE, READ, TOO_LONG};

// The longest Blob that is written.
const LONGEST_BLOB: usize = 4194304;

// A code table of up to 65,536 bytes always has room beside a Blob.
const LONGEST: usize = 4 + 65536 + LONGEST_BLOB;

// A shorter input than this has no length of a code table.
const SHORT: usize = 4;

// Room for the rows of a Blob, and for its text.
const CONTROLS: usize = 16384 * CONTROL_WIDTH;

const PROPERTIES: usize = 262144 * PROPERTY_WIDTH;

const TEXT: usize = 33554432;

// Room for the line of an answer, which has at most 51 bytes.
const LINE: usize = 64;

// Prints what is said of standard input, of which `input` was read and `more` tells whether bytes came after it: a line, and the text after it.
fn print(rt: &HostRuntime, input: &[u8], more: bool, line: &[u8], text: &[u8])
    requires { (whole : List ℕ) → Begun input.now more whole → line.now ++ text.now ≡ sheet_for whole }
{
    streams::write_all(rt, line);
    streams::write_all(rt, text);
}

fn refuse(rt: &HostRuntime, input: &[u8], more: bool, number: u32)
    requires { Refused input.now more number }
{
    let mut line = [0; LINE];
    let end = listing::refusal_line(&mut line, number);
    print(rt, input, more, &line[..end], &input[..0]);
}

// So few bytes have no length of a code table.
fn refuse_few(rt: &HostRuntime, input: &[u8])
    requires { length input.now < 4 }
{
    refuse(rt, input, false, BAD_TABLE);
}

// How many bytes of text an answer says were written.
#[tactic(auto, unfolding(crate::specs::Sheets::text_size))]
fn text_size(number: u32, first: usize) -> usize
    ensures { result ≡ text_size number first }
{
    if number == READ { first } else { 0 }
}

// It is compiled apart from its caller, so that a refused input does not need the stack of its rows and its text.
#[inline(never)]
fn put_sheet(rt: &HostRuntime, input: &[u8], table: &[u8], stream: &[u8])
    requires { Parted input.now table.now stream.now }
{
    let mut controls = filled::<u32, CONTROLS>(0);
    let mut properties = filled::<u32, PROPERTIES>(0);
    let mut out = filled::<u8, TEXT>(0);
    let a = csvwrite::write_csv(table, stream, &mut controls, &mut properties, &mut out);
    let mut line = [0; LINE];
    let end = listing::answer_line(&mut line, 0, a);
    let size = text_size(a.number, a.first as usize);
    print(rt, input, false, &line[..end], &out[..size]);
}

fn put(rt: &HostRuntime, input: &[u8])
    requires { length input.now ≤ longest_input }
{
    if input.len() < 4 {
        refuse_few(rt, input);
        return;
    }
    let size = numbers::u32_at(input, 0) as usize;
    if input.len() - 4 < size {
        refuse(rt, input, false, BAD_TABLE);
        return;
    }
    let start = 4 + size;
    if LONGEST_BLOB < input.len() - start {
        refuse(rt, input, false, TOO_LONG);
        return;
    }
    put_sheet(rt, input, &input[4..start], &input[start..]);
}

// A longer input than is read is refused.
fn put_large(rt: &HostRuntime, input: &[u8], room: usize)
    requires fits { length input.now ≤ room }
    requires most { room ≡ longest_input }
{
    if inputs::has_more(rt, input.len(), room) {
        return refuse(rt, input, true, TOO_LONG);
    }
    put(rt, input);
}

fn main(rt: HostRuntime) {
    by_length::<SHORT, LONGEST, _, _>(
        &rt,
        |input| refuse_few(&rt, input),
        |input, room| put_large(&rt, input, room),
    );
}
