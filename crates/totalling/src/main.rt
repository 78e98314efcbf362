// Counts the Blob that standard input holds after its code table into the record that stands before both; specs/Counted.antt says what is printed.
#![tactic(auto)]

ghost use Rattle.std.specs.Prelude.{◌≡◌, List, ℕ, ◌+◌, ◌*◌, ◌≤◌, length};
ghost use Rattle.text.specs.Writer.{Wrote};
ghost use Rattle.tabletext.specs.Input.{Began};
ghost use Rattle.listing.specs.Written.{Written};
ghost use Rattle.totalling.specs.Counted.{numbers_at, record_in, four_bytes_lem, number_bytes, record_bytes, said_for, counted, most_read, most_said, counted_of_lem};

use listing::{answer_line, refusal_line};
use numbers::u32_at;
use rules::{BAD_TABLE, LONGEST, Totals};
use text::put_text;

// Where the input's parts stand: room for rows, the record's numbers, the table's length, the table.
const PROPERTY_ROOM_AT: usize = 4;

const ANSWERS_AT: usize = 8;

const TYPES_AT: usize = 32;

const UNMAPPED_AT: usize = 156;

const MAPPED_AT: usize = 160;

const MARKS_AT: usize = 164;

const LENGTH_AT: usize = 200;

const TABLE_AT: usize = 204;

// The longest table that is read; no well-formed one is as long.
const LONGEST_TABLE: usize = 65536;

// One byte more is read than the longest stream has, so that a longer one is told.
const SPACE: usize = TABLE_AT + LONGEST_TABLE + LONGEST + 1;

// A shorter input than this is read into little room.
const SHORT: usize = 65536;

// Room for the line of an answer, which has at most 51 bytes, and for the record's 192.
const SAID: usize = 256;

// ---- the record as it is read
fn numbers_in<const N: usize>(input: &[u8], at: usize) -> [u32; N]
    requires { at + 4 * N ≤ 204 }
    ensures { result ≡ numbers_at input.now at N }
{
    let mut numbers = [0; N];
    for (i, n) in numbers.iter_mut().enumerate() {
        *n = u32_at(input, at + 4 * i);
    }
    numbers
}

fn record_in(input: &[u8]) -> Totals
    ensures { result ≡ record_in input.now }
{
    Totals {
        answers: numbers_in(input, ANSWERS_AT),
        types: numbers_in(input, TYPES_AT),
        unmapped: u32_at(input, UNMAPPED_AT),
        mapped: u32_at(input, MAPPED_AT),
        marks: numbers_in(input, MARKS_AT),
    }
}

// ---- and as it is written
fn put_four(out: &mut [u8], at: usize, n: u32) -> usize
    ensures { Wrote out.old at (four_bytes_lem n) out.new result }
{
    put_text(out, at, &n.to_le_bytes())
}

// Kept beside `text::put_each`: one function would take a closure that is lent `out`; its clause would be longer than the loop.
fn put_numbers(out: &mut [u8], at: usize, numbers: &[u32]) -> usize
    ensures { Wrote out.old at (number_bytes numbers.now) out.new result }
{
    let mut p = at;
    for n in numbers {
        p = put_four(out, p, *n);
    }
    p
}

fn put_record(out: &mut [u8], at: usize, t: Totals) -> usize
    ensures { Wrote out.old at (record_bytes t) out.new result × (length (record_bytes t) ≡ 192) }
{
    let p = put_numbers(out, at, &t.answers);
    let p = put_numbers(out, p, &t.types);
    let p = put_four(out, p, t.unmapped);
    let p = put_four(out, p, t.mapped);
    put_numbers(out, p, &t.marks)
}

// ---- what is printed
// The answer to a stream, and the record at exit; record and room are the input's.
fn write_said(input: &[u8], table: &[u8], stream: &[u8], out: &mut [u8]) -> usize
    ensures { Written out.old (said_for input.now table.now stream.now) most_said out.new result }
{
    let old = record_in(input);
    let controls = u32_at(input, 0);
    let properties = u32_at(input, PROPERTY_ROOM_AT);
    let counted = totals::totalled(old, table, stream, controls, properties);
    let p = answer_line(out, 0, counted.answer);
    put_record(out, p, counted.totals)
}

fn write_counted(input: &[u8], out: &mut [u8]) -> usize
    ensures { Written out.old (counted input.now) most_said out.new result }
{
    if input.len() < TABLE_AT {
        return refusal_line(out, BAD_TABLE);
    }
    let size = u32_at(input, LENGTH_AT) as usize;
    if input.len() - TABLE_AT < size {
        return refusal_line(out, BAD_TABLE);
    }
    let start = TABLE_AT + size;
    write_said(input, &input[TABLE_AT..start], &input[start..], out)
}

// Prints what is said of all that standard input has, of which `input` was read.
fn print(rt: &HostRuntime, input: &[u8], text: &[u8])
    requires { (all : List ℕ) → Began most_read input.now all → text.now ≡ counted_of_lem all }
{
    streams::write_all(rt, text);
}

fn count(rt: &HostRuntime, input: &[u8])
    requires { length input.now ≤ most_read }
{
    let mut out = [0; SAID];
    let end = write_counted(input, &mut out);
    print(rt, input, &out[..end]);
}

// `room` is how much was read at most: only by it is it known that nothing is left out.
fn count_large(rt: &HostRuntime, input: &[u8], room: usize)
    requires fits { length input.now ≤ room }
    requires most { room ≡ most_read }
{
    count(rt, input);
}

fn main(rt: HostRuntime) {
    inputs::by_length::<SHORT, SPACE, _, _>(
        &rt,
        |input| count(&rt, input),
        |input, room| count_large(&rt, input, room),
    );
}
