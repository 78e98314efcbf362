// Lists what a newer code table changes in a Blob. Standard input holds the older table and the newer, each after its length, then the Blob; specs/Listed.antt says what is printed.
#![tactic(auto)]

ghost use Rattle.std.specs.Prelude.{◌≡◌, true, List, ℕ, ◌+◌, ◌≤◌, ◌<◌, length, MatchOption};
ghost use Rattle.rules.specs.Bytes.{part};
ghost use Rattle.rules.specs.CodeTable.{well_formed_lem};
ghost use Rattle.rules.specs.Rows.{difference_width, row_at};
ghost use Rattle.rules.specs.Listing.{word, table_length};
ghost use Rattle.text.specs.Writer.{Wrote};
ghost use Rattle.listing.specs.Shown.{lines_to};
ghost use Rattle.listing.specs.Written.{Written};
ghost use Rattle.tabletext.specs.Input.{Began};
ghost use Rattle.difflist.specs.Lines.{spaced, difference_line, why_not};
ghost use Rattle.difflist.specs.Listed.{said, listed, listed_of, most_read, most_said, Cut, Ready};

use blob::read_blob;
use differ2000::DIFFERENCE_WIDTH;
use differences::{NO_SUCCESSOR, differences};
use fields::put_end;
use inputs::{by_length, filled};
use listing::{answer_line, refusal_line};
use numbers::u32_at;
use rows::{CONTROL_WIDTH, PROPERTY_WIDTH};
use rules::{BAD_TABLE, LONGEST, OTHER_HEAD};
use succession::first_lack;
use text::{put_byte, put_decimal};

// The longest table that is read; no well-formed one is as long.
const LONGEST_TABLE: usize = 65536;

// One byte more is read than two tables and the longest stream have with the lengths, so that a longer one is told.
const SPACE: usize = 8 + 2 * LONGEST_TABLE + LONGEST + 1;

// A shorter input than this is read into little room.
const SHORT: usize = 16384;

// Differences for which there is little room, and much.
const SMALL_ROWS: usize = 16384;

const LARGE_ROWS: usize = 131072;

// How long all is that is said but the differences, and the line of one.
const BEFORE: usize = 233;

const LINE: usize = 156;

// The words of rows that are lent for a short input and for a long one, and the room for what is said of it.
const SMALL_ROW_WORDS: usize = SMALL_ROWS * DIFFERENCE_WIDTH;

const SMALL_CONTROL_WORDS: usize = 5461 * CONTROL_WIDTH;

const SMALL_PROPERTY_WORDS: usize = 16384 * PROPERTY_WIDTH;

const SMALL_SAID: usize = BEFORE + SMALL_ROWS * LINE;

const LARGE_ROW_WORDS: usize = LARGE_ROWS * DIFFERENCE_WIDTH;

const LARGE_CONTROL_WORDS: usize = 16384 * CONTROL_WIDTH;

const LARGE_PROPERTY_WORDS: usize = 262144 * PROPERTY_WIDTH;

const LARGE_SAID: usize = BEFORE + LARGE_ROWS * LINE;

// Of a control's row the words that are shown: its type, and mark, start and length of its name.
const NAME_WORDS: usize = 4;

// ---- the lines of differences
// So many words from a place on, as far as the slice has them.
fn part_of(words: &[u32], from: usize, size: usize) -> &[u32]
    ensures { result.now ≡ part words.now from size }
{
    let rest = &words[from.min(words.len())..];
    &rest[..size.min(rest.len())]
}

// The second word of a row, which in a difference is its control; 0 where the row lacks it.
fn second_word(row: &[u32]) -> u32
    ensures { result ≡ word row.now 1 }
{
    row.get(1).copied().unwrap_or(0)
}

// Words in decimal, each after a blank.
// Kept: `print`'s clause tells the lines byte for byte, and no clause tells what a macro prints.
fn put_words(out: &mut [u8], at: usize, words: &[u32]) -> usize
    ensures { Wrote out.old at (spaced words.now) out.new result }
{
    let mut p = at;
    for word in words {
        let o = put_byte(out, p, b' ');
        p = put_decimal(out, o, *word);
    }
    p
}

// The D line of difference row `n`.
fn difference_line(out: &mut [u8], at: usize, rows: &[u32], n: u32, controls: &[u32]) -> usize
    ensures { Wrote out.old at (difference_line controls.now n (row_at difference_width n rows.now)) out.new result }
{
    let row = part_of(rows, (n as usize) * DIFFERENCE_WIDTH, DIFFERENCE_WIDTH);
    let control = second_word(row) as usize;
    let named = part_of(controls, control * CONTROL_WIDTH, NAME_WORDS);
    let p = put_byte(out, at, b'D');
    let p = put_words(out, p, row);
    let p = put_words(out, p, named);
    put_end(out, p)
}

// The lines of the first `count` rows.
fn difference_lines(out: &mut [u8], at: usize, rows: &[u32], count: u32, controls: &[u32]) -> usize
    ensures { Wrote out.old at (lines_to (difference_line controls.now) difference_width count rows.now) out.new result }
{
    let mut p = at;
    for n in 0..count {
        p = difference_line(out, p, rows, n, controls);
    }
    p
}

// ---- why the newer table is no successor
fn put_why_not(out: &mut [u8], at: usize, older: &[u8], newer: &[u8]) -> usize
    requires { well_formed_lem newer.now ≡ true }
    ensures { Wrote out.old at (why_not older.now newer.now) out.new result }
{
    if !join::same_head(older, newer) {
        return joinwhy::put_why(out, at, OTHER_HEAD, older, newer);
    }
    let lack = first_lack(older, newer);
    joinwhy::put_lack(out, at, lack)
}

// ---- all that is said
// The answer, and after it the differences or why the newer table is no successor.
fn write_said(
    older: &[u8],
    newer: &[u8],
    stream: &[u8],
    rows: &mut [u32],
    controls: &mut [u32],
    properties: &mut [u32],
    out: &mut [u8],
) -> usize
    ensures { Written out.old (said older.now newer.now stream.now rows.old controls.old properties.old) (most_said rows.old) out.new result }
{
    let a = differences(older, newer, stream, rows);
    let p = answer_line(out, 0, a);
    if a.number == NO_SUCCESSOR {
        return put_why_not(out, p, older, newer);
    }
    if a.number != 0 {
        return p;
    }
    let b = read_blob(newer, stream, controls, properties);
    let p = answer_line(out, p, b);
    if b.number != 0 {
        return p;
    }
    difference_lines(out, p, rows, a.first, controls)
}

// A table after its length, and what follows it.
fn cut_table(input: &[u8]) -> Option<(&[u8], &[u8])>
    ensures { MatchOption result (length input.now < 4 + table_length input.now) (λ r. Cut input.now r.0.now r.1.now) }
{
    let rest = input.get(4..)?;
    rest.split_at_checked(u32_at(input, 0) as usize)
}

fn write_listed(
    input: &[u8],
    rows: &mut [u32],
    controls: &mut [u32],
    properties: &mut [u32],
    out: &mut [u8],
) -> usize
    ensures { Written out.old (listed input.now rows.old controls.old properties.old) (most_said rows.old) out.new result }
{
    let Some((older, rest)) = cut_table(input) else {
        return refusal_line(out, BAD_TABLE);
    };
    let Some((newer, stream)) = cut_table(rest) else {
        return refusal_line(out, BAD_TABLE);
    };
    write_said(older, newer, stream, rows, controls, properties, out)
}

// ---- standard input and output
// Prints what is said of all that standard input has, of which `input` was read.
fn print(rt: &HostRuntime, input: &[u8], text: &[u8])
    requires { (all : List ℕ) → Began most_read input.now all → text.now ≡ listed_of all }
{
    streams::write_all(rt, text);
}

fn list(
    rt: &HostRuntime,
    input: &[u8],
    rows: &mut [u32],
    controls: &mut [u32],
    properties: &mut [u32],
    out: &mut [u8],
)
    requires { Ready input.now rows.old controls.old properties.old out.old }
{
    let end = write_listed(input, rows, controls, properties, out);
    print(rt, input, &out[..end]);
}

fn list_small(rt: &HostRuntime, input: &[u8])
    requires { length input.now < 16384 }
{
    let mut rows = filled::<u32, SMALL_ROW_WORDS>(0);
    let mut controls = filled::<u32, SMALL_CONTROL_WORDS>(0);
    let mut properties = filled::<u32, SMALL_PROPERTY_WORDS>(0);
    let mut out = filled::<u8, SMALL_SAID>(0);
    list(
        rt,
        input,
        &mut rows,
        &mut controls,
        &mut properties,
        &mut out,
    );
}

// `room` is how much was read at most: only by it is it known that nothing is left out.
fn list_large(rt: &HostRuntime, input: &[u8], room: usize)
    requires long { 16384 ≤ length input.now }
    requires fits { length input.now ≤ room }
    requires most { room ≡ most_read }
{
    let mut rows = filled::<u32, LARGE_ROW_WORDS>(0);
    let mut controls = filled::<u32, LARGE_CONTROL_WORDS>(0);
    let mut properties = filled::<u32, LARGE_PROPERTY_WORDS>(0);
    let mut out = filled::<u8, LARGE_SAID>(0);
    list(
        rt,
        input,
        &mut rows,
        &mut controls,
        &mut properties,
        &mut out,
    );
}

fn main(rt: HostRuntime) {
    by_length::<SHORT, SPACE, _, _>(
        &rt,
        |input| list_small(&rt, input),
        |input, room| list_large(&rt, input, room),
    );
}
