// Joins the two code tables that standard input holds after the length of the first; specs/Said.antt says what is printed.
#![tactic(auto)]

ghost use Rattle.std.specs.Prelude.{◌≡◌, List, ℕ};
ghost use Rattle.rules.specs.Answer.{refusal};
ghost use Rattle.rules.specs.Listing.{answer_line};
ghost use Rattle.text.specs.Writer.{Wrote};
ghost use Rattle.tabletext.specs.Input.{Began};
ghost use Rattle.tablejoin.specs.Said.{said, join_said, Lent};

use codetable::LONGEST_TABLE;
use listing::answer_line;
use rules::BAD_TABLE;
use text::{put_text, refused};

// The longest line of an answer, and with the longest table after it.
const LONGEST_LINE: usize = 51;

const LONGEST_SAID: usize = LONGEST_LINE + LONGEST_TABLE;

// The first table's length takes four bytes.
const LENGTH_SIZE: usize = 4;

// One byte more is read than two tables can have with the length, so that longer input is told.
const SPACE: usize = LENGTH_SIZE + 2 * LONGEST_TABLE + 1;

// The answer to two tables, and after it the joined table or why there is none.
fn write_said(one: &[u8], other: &[u8], out: &mut [u8]) -> usize
    ensures { Wrote out.old 0 (said one.now other.now) out.new result }
{
    let mut table = [0; LONGEST_TABLE];
    let a = join::join(one, other, &mut table);
    let p = answer_line(out, 0, a);
    if a.number != 0 {
        return joinwhy::put_why(out, p, a.number, one, other);
    }
    let size = a.first as usize;
    put_text(out, p, &table[..size])
}

fn write_refusal(out: &mut [u8]) -> usize
    ensures { Wrote out.old 0 (answer_line (refusal 8)) out.new result }
{
    let a = refused(BAD_TABLE);
    answer_line(out, 0, a)
}

fn write_input(input: &[u8], out: &mut [u8]) -> usize
    ensures { Wrote out.old 0 (join_said input.now) out.new result }
{
    if input.len() < LENGTH_SIZE {
        return write_refusal(out);
    }
    let size = numbers::u32_at(input, 0) as usize;
    if input.len() - LENGTH_SIZE < size {
        return write_refusal(out);
    }
    let start = LENGTH_SIZE + size;
    write_said(&input[LENGTH_SIZE..start], &input[start..], out)
}

// Prints what is said of all that standard input has, of which `input` was read into room for `room` bytes.
fn print(rt: &HostRuntime, input: &[u8], room: usize, text: &[u8])
    requires { (all : List ℕ) → Began room input.now all → text.now ≡ join_said all }
{
    streams::write_all(rt, text);
}

fn run(rt: &HostRuntime, space: &mut [u8], out: &mut [u8])
    requires { Lent space.old out.old }
{
    let room = space.len();
    let size = streams::read_full(rt, space);
    let input = &space[..size];
    let end = write_input(input, out);
    print(rt, input, room, &out[..end]);
}

fn main(rt: HostRuntime) {
    let mut space = [0; SPACE];
    let mut out = [0; LONGEST_SAID];
    run(&rt, &mut space, &mut out);
}
