// Prints the text of the code table on standard input, or the line that says where it breaks which rule.
#![tactic(auto)]

ghost use Rattle.std.specs.Prelude.{◌≡◌, List, ℕ};
ghost use Rattle.tablebreak.specs.Rules.{Names, break_of, unbroken};
ghost use Rattle.tabletext.specs.Input.{Began};
ghost use Rattle.tableshow.specs.Shown.{shown_text, ShownIn, ShowReady};

use tablebreak::Break;

// A table has at most 65,100 bytes: one more is read, so that a longer one is told.
const INPUT_ROOM: usize = 65101;

// What is shown of a table has no more bytes than this.
const SHOWN_ROOM: usize = 731386;

// The line that says which rule a table breaks first, and where.
fn show_break(table: &[u8], found: Break, out: &mut [u8]) -> usize
    requires { Names found (break_of table.now) }
    ensures { ShownIn out.old table.now out.new result }
{
    tablewords::break_line(found, out)
}

// The text of a table that breaks none.
fn show_text(table: &[u8], out: &mut [u8]) -> usize
    requires { break_of table.now ≡ unbroken }
    ensures { ShownIn out.old table.now out.new result }
{
    tabletext::table_text(table, out)
}

// The text of a table, or the line that says where it breaks which rule, from the buffer's start on.
fn show_table(table: &[u8], out: &mut [u8]) -> usize
    ensures { ShownIn out.old table.now out.new result }
{
    match tablebreak::first_break(table) {
        Some(found) => show_break(table, found, out),
        None => show_text(table, out),
    }
}

// Prints what is shown of all that standard input has, of which `table` was read into room for `room` bytes.
fn print(rt: &HostRuntime, table: &[u8], room: usize, shown: &[u8])
    requires { (all : List ℕ) → Began room table.now all → shown.now ≡ shown_text all }
{
    streams::write_all(rt, shown);
}

// Kept beside tablejoin's `run`: each prints by another definition.
fn show(rt: &HostRuntime, input: &mut [u8], out: &mut [u8])
    requires { ShowReady input.old out.old }
{
    let room = input.len();
    let size = streams::read_full(rt, input);
    let table = &input[..size];
    let end = show_table(table, out);
    print(rt, table, room, &out[..end]);
}

fn main(rt: HostRuntime) {
    let mut input = [0; INPUT_ROOM];
    let mut out = [0; SHOWN_ROOM];
    show(&rt, &mut input, &mut out);
}
