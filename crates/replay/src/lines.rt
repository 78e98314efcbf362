// The lines that are printed. One is put into a lent buffer from its start on, and then written in one go.
ghost use Rattle.std.specs.Prelude.{◌≡◌, ◌<◌, take, drop};

use rows::{CONTROL_WIDTH, INFO_WIDTH, PROPERTY_WIDTH};
use rules::Answer;
use text::{put_byte, put_decimal, put_hex};

// Rows of one kind.
#[derive(Clone, Copy)]
pub enum Rows {
    Controls,
    Properties,
    Infos,
}

impl Rows {
    fn letter(self) -> u8 {
        match self {
            Rows::Controls => b'C',
            Rows::Properties => b'P',
            Rows::Infos => b'T',
        }
    }

    fn width(self) -> usize
        ensures { 0 < result }
    {
        match self {
            Rows::Controls => CONTROL_WIDTH,
            Rows::Properties => PROPERTY_WIDTH,
            Rows::Infos => INFO_WIDTH,
        }
    }
}

// The first `size` bytes of `s`, or all where it has fewer.
pub fn front(s: &[u8], size: usize) -> &[u8]
    ensures { result.now ≡ take size s.now }
{
    &s[..size.min(s.len())]
}

// What is left of `s` from `start` on.
pub fn behind(s: &[u8], start: usize) -> &[u8]
    ensures { result.now ≡ drop start s.now }
{
    &s[start.min(s.len())..]
}

fn end_line(rt: &HostRuntime, out: &mut [u8], at: usize) {
    let n = put_byte(out, at, b'\n');
    streams::write_all(rt, front(out, n));
}

// A letter, and each word in decimal after a blank.
// Kept: by Display, and println's buffer of 1,024 bytes, a list of rows or bytes takes up to twice as long.
fn print_words(rt: &HostRuntime, letter: u8, words: &[u32], out: &mut [u8]) {
    let mut p = put_byte(out, 0, letter);
    for word in words {
        let o = put_byte(out, p, b' ');
        p = put_decimal(out, o, *word);
    }
    end_line(rt, out, p);
}

pub fn print_answer(rt: &HostRuntime, a: Answer, out: &mut [u8]) {
    let words = [a.number, a.first, a.second, a.third];
    print_words(rt, b'A', &words, out);
}

// The first `count` rows; no more than there are.
pub fn print_rows(rt: &HostRuntime, of: Rows, rows: &[u32], count: u32, out: &mut [u8]) {
    for words in rows.chunks_exact(of.width()).take(count as usize) {
        print_words(rt, of.letter(), words, out);
    }
}

// The B line: each byte in hex after a blank.
pub fn print_bytes(rt: &HostRuntime, bytes: &[u8], out: &mut [u8]) {
    let mut p = put_byte(out, 0, b'B');
    for byte in bytes {
        let o = put_byte(out, p, b' ');
        p = put_hex(out, o, 2, u32::from(*byte));
    }
    end_line(rt, out, p);
}

// The K line: how many bytes hold `old`, up to the first that doesn't.
pub fn print_kept(rt: &HostRuntime, bytes: &[u8], old: u8, out: &mut [u8]) {
    let kept = bytes.iter().position(|b| *b != old).unwrap_or(bytes.len());
    let words = [u32::try_from(kept).unwrap_or(u32::MAX)];
    print_words(rt, b'K', &words, out);
}
