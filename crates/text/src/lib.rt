// Text in a lent buffer. A `put` function writes at a place and returns the place after it; what has no room is left out.
#![tactic(auto)]

ghost use Rattle.std.specs.Prelude.{◌≡◌, [], ◌∷◌, ◌++◌, ◌+◌, ◌-◌, ◌/◌, ◌%◌, ◌^◌, ◌≤◌, ◌<◌, length};
ghost use Rattle.rules.specs.Answer.{refusal, answer};
ghost use Rattle.rules.specs.Digits.{digit, decimal, hex};
ghost use Rattle.rules.specs.Texts.{hexes, guid_text_lem, label, guid_exit, label_exit};
ghost use Rattle.text.specs.Writer.{Wrote};
ghost use Rattle.text.specs.Copies.{Copied, tens};

use rules::{Answer, NO_ROOM_FOR_TEXT, NOT_A_GUID};

// How many bytes a GUID has, and its text; the latter also as an answer counts it.
const GUID_SIZE: usize = 16;

const GUID_TEXT_SIZE: usize = 38;

const GUID_TEXT_COUNT: u32 = GUID_TEXT_SIZE as u32;

// "Control_" and one digit.
const SHORTEST_LABEL: u32 = 9;

// Digits from ten on are letters, the tenth an A.
const LETTERS: u8 = b'A' - 10;

// ---- bytes and digits
pub fn put_byte(out: &mut [u8], at: usize, b: u8) -> usize
    ensures { Wrote out.old at (b ∷ []) out.new result }
{
    if at < out.len() {
        out[at] = b;
        return at + 1;
    }
    at
}

// From how many places on so many bytes have room, where there are `size` in all. Of a buffer this is the same at each place.
fn places(size: usize, count: usize) -> usize
    requires { size < 2 ^ 63 }
    ensures { result ≡ size + 1 - count }
{
    if size < count {
        return 0;
    }
    size - count + 1
}

// ---- several bytes at once
// All of them, for which there is room: as many as the type says, so that they are moved at once.
fn set<const N: usize>(out: &mut [u8], at: usize, bytes: [u8; N]) -> usize
    requires { at + N ≤ length out.old }
    ensures { Wrote out.old at bytes.entry out.new result }
{
    let end = at + N;
    out[at..end].copy_from_slice(&bytes);
    end
}

// Copies `s`, for which there is room, as far as whole pieces of N bytes go. What is left of it is returned too.
fn copy_pieces<'a, const N: usize>(out: &mut [u8], at: usize, s: &'a [u8]) -> (usize, &'a [u8])
    requires room { at + length s.now ≤ length out.old }
    requires piece { (0 < N) × (N ≤ 4) }
    ensures { Copied N out.old at s.now out.new result.0 result.1.now }
{
    let mut o = at;
    let mut rest = s;
    while let Some((piece, more)) = rest.split_first_chunk::<N>() {
        o = set(out, o, *piece);
        rest = more;
    }
    (o, rest)
}

// In two halves: a loop over pieces that are moved whole would become a call of memcpy, and the archive is to call nothing but memset.
fn set_eight(out: &mut [u8], at: usize, bytes: &[u8; 8]) -> usize
    requires { at + 8 ≤ length out.old }
    ensures { Wrote out.old at bytes.now out.new result }
{
    let [a, b, c, d, e, f, g, h] = *bytes;
    let middle = set(out, at, [a, b, c, d]);
    set(out, middle, [e, f, g, h])
}

// The bytes of `s`, for which there is room.
fn copy(out: &mut [u8], at: usize, s: &[u8]) -> usize
    requires { at + length s.now ≤ length out.old }
    ensures { Wrote out.old at s.now out.new result }
{
    let mut o = at;
    let mut rest = s;
    while let Some((piece, more)) = rest.split_first_chunk::<8>() {
        o = set_eight(out, o, piece);
        rest = more;
    }
    let (o, rest) = copy_pieces::<4>(out, o, rest);
    let (o, rest) = copy_pieces::<2>(out, o, rest);
    let (o, _) = copy_pieces::<1>(out, o, rest);
    o
}

// ---- whatever room there is
// A byte at a time.
fn put_each(out: &mut [u8], at: usize, s: &[u8]) -> usize
    ensures { Wrote out.old at s.now out.new result }
{
    let mut o = at;
    for b in s {
        o = put_byte(out, o, *b);
    }
    o
}

// As many bytes as the type says.
pub fn put_bytes<const N: usize>(out: &mut [u8], at: usize, bytes: [u8; N]) -> usize
    ensures { Wrote out.old at bytes.entry out.new result }
{
    if at < places(out.len(), N) {
        return set(out, at, bytes);
    }
    put_each(out, at, &bytes)
}

pub fn put_text(out: &mut [u8], at: usize, s: &[u8]) -> usize
    ensures { Wrote out.old at s.now out.new result }
{
    if at < places(out.len(), s.len()) {
        return copy(out, at, s);
    }
    put_each(out, at, s)
}

fn digit_of(n: u32) -> u8
    requires { n < 16 }
    ensures { result ≡ digit n }
{
    if n < 10 {
        b'0' + (n as u8)
    } else {
        LETTERS + (n as u8)
    }
}

fn put_digit(out: &mut [u8], at: usize, n: u32) -> usize
    requires { n < 16 }
    ensures { Wrote out.old at (digit n ∷ []) out.new result }
{
    put_byte(out, at, digit_of(n))
}

// A number below 100 in two digits, and one below 10000 in four.
fn put_tens(out: &mut [u8], at: usize, n: u32) -> usize
    requires { n < 100 }
    ensures { Wrote out.old at (tens n) out.new result }
{
    put_bytes(out, at, [digit_of(n / 10), digit_of(n % 10)])
}

fn put_thousands(out: &mut [u8], at: usize, n: u32) -> usize
    requires { n < 10000 }
    ensures { Wrote out.old at (tens (n / 100) ++ tens (n % 100)) out.new result }
{
    let q = n / 100;
    let r = n % 100;
    put_bytes(
        out,
        at,
        [
            digit_of(q / 10),
            digit_of(q % 10),
            digit_of(r / 10),
            digit_of(r % 10),
        ],
    )
}

// A number of four digits at most.
fn put_short(out: &mut [u8], at: usize, n: u32) -> usize
    requires { n < 10000 }
    ensures { Wrote out.old at (decimal n) out.new result }
{
    if n < 10 {
        return put_digit(out, at, n);
    }
    if n < 100 {
        return put_tens(out, at, n);
    }
    if n < 1000 {
        let p = put_digit(out, at, n / 100);
        return put_tens(out, p, n % 100);
    }
    put_thousands(out, at, n)
}

pub fn put_decimal(out: &mut [u8], at: usize, n: u32) -> usize
    ensures { Wrote out.old at (decimal n) out.new result }
{
    if n < 10000 {
        put_short(out, at, n)
    } else {
        let o = put_decimal(out, at, n / 10000);
        put_thousands(out, o, n % 10000)
    }
}

// The last `k` digits of `n` to the base 16.
pub fn put_hex(out: &mut [u8], at: usize, k: u32, n: u32) -> usize
    ensures { Wrote out.old at (hex k n) out.new result }
{
    if k == 0 {
        at
    } else {
        let o = put_hex(out, at, k - 1, n / 16);
        put_digit(out, o, n % 16)
    }
}

// ---- GUID text
// A byte as two digits to the base 16.
fn hex_digits(b: u8) -> [u8; 2]
    ensures { result ≡ hex 2 b }
{
    let n = b as u32;
    [digit_of(n / 16), digit_of(n % 16)]
}

pub fn put_hex_byte(out: &mut [u8], at: usize, b: u8) -> usize
    ensures { Wrote out.old at (hex 2 b) out.new result }
{
    put_bytes(out, at, hex_digits(b))
}

// The bytes of `g` at two places.
fn put_pair(out: &mut [u8], at: usize, g: &[u8], i: usize, j: usize) -> usize
    ensures { Wrote out.old at (hexes g.now (i ∷ j ∷ [])) out.new result }
{
    let [a, b] = hex_digits(numbers::byte_at(g, i));
    let [c, d] = hex_digits(numbers::byte_at(g, j));
    put_bytes(out, at, [a, b, c, d])
}

pub fn put_guid(out: &mut [u8], at: usize, g: &[u8]) -> usize
    ensures { Wrote out.old at (guid_text_lem g.now) out.new result }
{
    let p = put_byte(out, at, b'{');
    let p = put_pair(out, p, g, 3, 2);
    let p = put_pair(out, p, g, 1, 0);
    let p = put_byte(out, p, b'-');
    let p = put_pair(out, p, g, 5, 4);
    let p = put_byte(out, p, b'-');
    let p = put_pair(out, p, g, 7, 6);
    let p = put_byte(out, p, b'-');
    let p = put_pair(out, p, g, 8, 9);
    let p = put_byte(out, p, b'-');
    let p = put_pair(out, p, g, 10, 11);
    let p = put_pair(out, p, g, 12, 13);
    let p = put_pair(out, p, g, 14, 15);
    put_byte(out, p, b'}')
}

pub fn refused(number: u32) -> Answer
    ensures { result ≡ refusal number }
{
    Answer {
        number,
        first: 0,
        second: 0,
        third: 0,
    }
}

pub fn wrote(size: u32) -> Answer
    ensures { result ≡ answer 0 size 0 0 }
{
    Answer {
        number: 0,
        first: size,
        second: 0,
        third: 0,
    }
}

pub fn guid_text(guid: &[u8], out: &mut [u8]) -> Answer
    ensures value { result ≡ (guid_exit guid.now out.old).answer }
    ensures out_after { out.new ≡ (guid_exit guid.now out.old).out }
{
    if guid.len() != GUID_SIZE {
        return refused(NOT_A_GUID);
    }
    if out.len() < GUID_TEXT_SIZE {
        return refused(NO_ROOM_FOR_TEXT);
    }
    put_guid(out, 0, guid);
    wrote(GUID_TEXT_COUNT)
}

// ---- labels
pub fn label_length(n: u32) -> u32
    ensures { result ≡ length (label n) }
{
    SHORTEST_LABEL + n.checked_ilog10().unwrap_or(0)
}

pub fn label_text(n: u32, out: &mut [u8]) -> Answer
    ensures value { result ≡ (label_exit n out.old).answer }
    ensures out_after { out.new ≡ (label_exit n out.old).out }
{
    let size = label_length(n);
    if out.len() < (size as usize) {
        return refused(NO_ROOM_FOR_TEXT);
    }
    let at = put_text(out, 0, b"Control_");
    put_decimal(out, at, n);
    wrote(size)
}
