// Judges the Blob that standard input holds after its code table by the rules of panels; specs/Judged.antt says what is printed.
#![tactic(auto)]

ghost use Rattle.std.specs.Prelude.{◌≡◌, List, ℕ, ◌≤◌, ◌<◌, length};
ghost use Rattle.rules.specs.Panel.{panel_exit};
ghost use Rattle.text.specs.Writer.{Wrote};
ghost use Rattle.listing.specs.Written.{Written};
ghost use Rattle.tabletext.specs.Input.{Began};
ghost use Rattle.panelsay.specs.Judged.{row_line, said, judged, judged_of, most_read, most_said, Ready};

use inputs::{by_length, filled};
use listing::{answer_line, numbers_line, refusal_line};
use numbers::u32_at;
use rows::{CONTROL_WIDTH, ControlRow, PROPERTY_WIDTH, get_control};
use rules::{BAD_TABLE, LONGEST};

// The longest table that is read; no well-formed one is as long.
const LONGEST_TABLE: usize = 65536;

// One byte more is read than the longest stream has, so that a longer one is told.
const SPACE: usize = 4 + LONGEST_TABLE + LONGEST + 1;

// A shorter input than this is read into little room.
const SHORT: usize = 16384;

// Room for two lines, which have at most 51 and 52 bytes.
const SAID: usize = 128;

// Room for the rows of every Blob in a short input, and of every other.
const FEW_CONTROLS: usize = 5461 * CONTROL_WIDTH;

const FEW_PROPERTIES: usize = 16384 * PROPERTY_WIDTH;

const CONTROLS: usize = 16384 * CONTROL_WIDTH;

const PROPERTIES: usize = 262144 * PROPERTY_WIDTH;

// ---- what is printed
// A control's type and the words of its name.
fn row_line(out: &mut [u8], at: usize, row: ControlRow) -> usize
    ensures { Wrote out.old at (row_line row.type_code row.mark row.start row.size) out.new result }
{
    numbers_line(
        out,
        at,
        b"control",
        row.type_code,
        row.mark,
        row.start,
        row.size,
    )
}

// The answer, and the control row that its second count names.
fn write_said(
    table: &[u8],
    stream: &[u8],
    controls: &mut [u32],
    properties: &mut [u32],
    out: &mut [u8],
) -> usize
    ensures { Written out.old (said (panel_exit table.now stream.now controls.old properties.old)) most_said out.new result }
{
    let a = panel::check_panel(table, stream, controls, properties);
    let p = answer_line(out, 0, a);
    let row = get_control(controls, a.second);
    row_line(out, p, row)
}

fn write_judged(input: &[u8], controls: &mut [u32], properties: &mut [u32], out: &mut [u8]) -> usize
    ensures { Written out.old (judged input.now controls.old properties.old) most_said out.new result }
{
    if input.len() < 4 {
        return refusal_line(out, BAD_TABLE);
    }
    let size = u32_at(input, 0) as usize;
    if input.len() - 4 < size {
        return refusal_line(out, BAD_TABLE);
    }
    let start = 4 + size;
    write_said(&input[4..start], &input[start..], controls, properties, out)
}

// Prints what is said of all that standard input has, of which `input` was read.
fn print(rt: &HostRuntime, input: &[u8], text: &[u8])
    requires { (all : List ℕ) → Began most_read input.now all → text.now ≡ judged_of all }
{
    streams::write_all(rt, text);
}

fn judge(rt: &HostRuntime, input: &[u8], controls: &mut [u32], properties: &mut [u32])
    requires { Ready input.now controls.old properties.old }
{
    let mut out = [0; SAID];
    let end = write_judged(input, controls, properties, &mut out);
    print(rt, input, &out[..end]);
}

fn judge_small(rt: &HostRuntime, input: &[u8])
    requires { length input.now < 16384 }
{
    let mut controls = filled::<u32, FEW_CONTROLS>(0);
    let mut properties = filled::<u32, FEW_PROPERTIES>(0);
    judge(rt, input, &mut controls, &mut properties);
}

// `room` is how much was read at most: only by it is it known that nothing is left out.
fn judge_large(rt: &HostRuntime, input: &[u8], room: usize)
    requires long { 16384 ≤ length input.now }
    requires fits { length input.now ≤ room }
    requires most { room ≡ most_read }
{
    let mut controls = filled::<u32, CONTROLS>(0);
    let mut properties = filled::<u32, PROPERTIES>(0);
    judge(rt, input, &mut controls, &mut properties);
}

fn main(rt: HostRuntime) {
    by_length::<SHORT, SPACE, _, _>(
        &rt,
        |input| judge_small(&rt, input),
        |input, room| judge_large(&rt, input, room),
    );
}
