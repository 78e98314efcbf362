// Makes a code table of the text on standard input: prints `table`, its size and its bytes, or the line that is refused and why.
#![tactic(auto)]

ghost use Rattle.std.specs.Prelude.{◌≡◌, ◌≤◌, ◌<◌, List, ◌++◌, ℕ, length};
ghost use Rattle.tabletext.specs.Input.{Began};
ghost use Rattle.tablemaking.specs.Made.{longest_text};
ghost use Rattle.tablemake.specs.Printed.{printed, MakeReady};
ghost use Rattle.tablemake.specs.Making.{TableMade, TextRefused, Makes};

use tablemaking::Refusal;

// A text has at most 2,097,152 bytes: one more is read, so that a longer one is told.
const INPUT_ROOM: usize = 2097153;

// A table has at most 65,100 bytes, a line 93.
const TABLE_ROOM: usize = 65100;

const LINE_ROOM: usize = 128;

// Prints all that is printed of standard input, of which `text` was read into room for `room` bytes: a line, then a table.
fn print_table(rt: &HostRuntime, text: &[u8], room: usize, line: &[u8], table: &[u8])
    requires { (all : List ℕ) → Began room text.now all → line.now ++ table.now ≡ printed all }
{
    streams::write_all(rt, line);
    streams::write_all(rt, table);
}

// The same, where it is a line alone.
fn print_refusal(rt: &HostRuntime, text: &[u8], room: usize, line: &[u8])
    requires { (all : List ℕ) → Began room text.now all → line.now ≡ printed all }
{
    streams::write_all(rt, line);
}

// Prints that a table of `size` bytes was made, and the table.
fn say_made(rt: &HostRuntime, text: &[u8], room: usize, size: usize, out: &[u8], line: &mut [u8])
    requires line_room { 128 ≤ length line.old }
    requires all_read { longest_text < room }
    requires made { TableMade text.now out.now size }
{
    let end = tablewhy::size_line(size as u32, line);
    print_table(rt, text, room, &line[..end], &out[..size]);
}

// Prints why no table was made.
fn say_refused(rt: &HostRuntime, text: &[u8], room: usize, refusal: Refusal, line: &mut [u8])
    requires line_room { 128 ≤ length line.old }
    requires all_read { longest_text < room }
    requires refused { TextRefused text.now refusal }
{
    let end = tablewhy::why_line(refusal.fault.number(), refusal.line, line);
    print_refusal(rt, text, room, &line[..end]);
}

// The table of a text, in room for any table.
fn table_of(text: &[u8], out: &mut [u8]) -> Result<usize, Refusal>
    requires { length out.old ≡ 65100 }
    ensures { Makes text.now out.new result }
{
    tablemaking::make_table(text, out)
}

fn make(rt: &HostRuntime, text: &[u8], room: usize, out: &mut [u8], line: &mut [u8])
    requires { MakeReady out.old line.old room }
{
    match table_of(text, out) {
        Ok(size) => say_made(rt, text, room, size, out, line),
        Err(refusal) => say_refused(rt, text, room, refusal, line),
    }
}

fn run(rt: &HostRuntime, input: &mut [u8], out: &mut [u8], line: &mut [u8])
    requires { MakeReady out.old line.old (length input.old) }
{
    let room = input.len();
    let size = streams::read_full(rt, input);
    make(rt, &input[..size], room, out, line);
}

fn main(rt: HostRuntime) {
    let mut input = [0; INPUT_ROOM];
    let mut out = [0; TABLE_ROOM];
    let mut line = [0; LINE_ROOM];
    run(&rt, &mut input, &mut out, &mut line);
}
