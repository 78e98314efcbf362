// Shows the Blob that standard input holds after its code table and TypeInfo; specs/Printed.antt says what is printed.
#![tactic(auto)]

ghost use Rattle.std.specs.Prelude.{◌≡◌, List, ℕ, ◌≤◌, ◌<◌, length};
ghost use Rattle.text.specs.Writer.{Wrote};
ghost use Rattle.tabletext.specs.Input.{Began};
ghost use Rattle.showform.specs.Printed.{parts_shown, shown_in, printed, most_read, Ready, Refused};

use inputs::{by_length, filled};
use listing::refusal_line;
use numbers::u32_at;
use rows::{CONTROL_WIDTH, INFO_WIDTH, PROPERTY_WIDTH};
use rules::{BAD_TABLE, NO_ROOM_FOR_TEXT, TOO_LONG};
use showlines::{show_blob, show_paired};

// The longest Blob and the longest TypeInfo that are read.
const LONGEST_STREAM: usize = 4194304;

// The longest table that is read; no well-formed one is as long.
const LONGEST_TABLE: usize = 65536;

const LONGEST_INPUT: usize = 4 + LONGEST_TABLE + 4 + 2 * LONGEST_STREAM;

// One byte more is read, so that a longer input is told.
const SPACE: usize = LONGEST_INPUT + 1;

// A shorter input than this is read into little room.
const SHORT: usize = 16384;

// Text for which there is little room, and much.
const SMALL_TEXT: usize = 1048576;

const TEXT_ROOM: usize = 50331648;

// One byte more than the longest text has, so that a longer one is told.
const LARGE_TEXT: usize = TEXT_ROOM + 1;

// Room for the line of an answer, which has at most 51 bytes.
const LINE: usize = 64;

// The words of rows that are lent for a short input and for a long one.
const SMALL_INFOS: usize = 2048 * INFO_WIDTH;

const SMALL_CONTROLS: usize = 5461 * CONTROL_WIDTH;

const SMALL_PROPERTIES: usize = 16384 * PROPERTY_WIDTH;

const LARGE_INFOS: usize = 524284 * INFO_WIDTH;

const LARGE_CONTROLS: usize = 16384 * CONTROL_WIDTH;

const LARGE_PROPERTIES: usize = 262144 * PROPERTY_WIDTH;

// ---- what is shown
fn write_parts(
    table: &[u8],
    info: &[u8],
    stream: &[u8],
    infos: &mut [u32],
    controls: &mut [u32],
    properties: &mut [u32],
    out: &mut [u8],
) -> usize
    ensures { Wrote out.old 0 (parts_shown table.now info.now stream.now infos.old controls.old properties.old) out.new result }
{
    if LONGEST_STREAM < info.len() {
        return refusal_line(out, TOO_LONG);
    }
    if LONGEST_STREAM < stream.len() {
        return refusal_line(out, TOO_LONG);
    }
    let index = nametables::index();
    let letters = nametables::letters();
    if info.len() == 0 {
        return show_blob(table, stream, controls, properties, &index, &letters, out);
    }
    show_paired(
        table, info, stream, infos, controls, properties, &index, &letters, out,
    )
}

fn write_shown(
    input: &[u8],
    infos: &mut [u32],
    controls: &mut [u32],
    properties: &mut [u32],
    out: &mut [u8],
) -> usize
    ensures { Wrote out.old 0 (shown_in input.now infos.old controls.old properties.old) out.new result }
{
    if LONGEST_INPUT < input.len() {
        return refusal_line(out, TOO_LONG);
    }
    let start = 4 + u32_at(input, 0) as usize;
    let info_at = start + 4;
    let at = info_at + u32_at(input, start) as usize;
    if input.len() < at {
        return refusal_line(out, BAD_TABLE);
    }
    write_parts(
        &input[4..start],
        &input[info_at..at],
        &input[at..],
        infos,
        controls,
        properties,
        out,
    )
}

// ---- printed
// Prints what is shown of all that standard input has, of which `input` was read.
fn print(rt: &HostRuntime, input: &[u8], shown: &[u8])
    requires { (all : List ℕ) → Began most_read input.now all → shown.now ≡ printed all }
{
    streams::write_all(rt, shown);
}

// What is shown has no room.
fn refuse(rt: &HostRuntime, input: &[u8])
    requires { Refused input.now }
{
    let mut line = [0; LINE];
    let end = refusal_line(&mut line, NO_ROOM_FOR_TEXT);
    print(rt, input, &line[..end]);
}

fn show(
    rt: &HostRuntime,
    input: &[u8],
    infos: &mut [u32],
    controls: &mut [u32],
    properties: &mut [u32],
)
    requires { Ready input.now infos.old controls.old properties.old }
{
    let mut out = filled::<u8, LARGE_TEXT>(0);
    let end = write_shown(input, infos, controls, properties, &mut out);
    if TEXT_ROOM < end {
        refuse(rt, input);
        return;
    }
    print(rt, input, &out[..end]);
}

// It is compiled apart from `show_small`, so that a short text doesn't need the stack of a long one.
#[inline(never)]
fn show_short(rt: &HostRuntime, input: &[u8])
    requires { length input.now < 16384 }
{
    let mut infos = filled::<u32, SMALL_INFOS>(0);
    let mut controls = filled::<u32, SMALL_CONTROLS>(0);
    let mut properties = filled::<u32, SMALL_PROPERTIES>(0);
    show(rt, input, &mut infos, &mut controls, &mut properties);
}

// So short an input most often has a short text.
fn show_small(rt: &HostRuntime, input: &[u8])
    requires { length input.now < 16384 }
{
    let mut infos = filled::<u32, SMALL_INFOS>(0);
    let mut controls = filled::<u32, SMALL_CONTROLS>(0);
    let mut properties = filled::<u32, SMALL_PROPERTIES>(0);
    let mut out = filled::<u8, SMALL_TEXT>(0);
    let end = write_shown(input, &mut infos, &mut controls, &mut properties, &mut out);
    if end < SMALL_TEXT {
        return print(rt, input, &out[..end]);
    }
    show_short(rt, input);
}

// `room` is how much was read at most: only by it is it known that nothing is left out.
fn show_large(rt: &HostRuntime, input: &[u8], room: usize)
    requires long { 16384 ≤ length input.now }
    requires fits { length input.now ≤ room }
    requires most { room ≡ most_read }
{
    let mut infos = filled::<u32, LARGE_INFOS>(0);
    let mut controls = filled::<u32, LARGE_CONTROLS>(0);
    let mut properties = filled::<u32, LARGE_PROPERTIES>(0);
    show(rt, input, &mut infos, &mut controls, &mut properties);
}

fn main(rt: HostRuntime) {
    by_length::<SHORT, SPACE, _, _>(
        &rt,
        |input| show_small(&rt, input),
        |input, room| show_large(&rt, input, room),
    );
}
