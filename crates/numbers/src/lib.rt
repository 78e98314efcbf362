// Numbers out of bytes: one byte, two or four of a slice, low byte first; signed numbers; a single widened to a double.
#![tactic(auto)]

ghost use Rattle.std.specs.Prelude.{◌≡◌, ◌+◌, ◌*◌, ◌%◌, ◌≤◌, ◌<◌, ◌^◌, length};
ghost use Rattle.std.specs.Float.{binary32, binary64};
ghost use Rattle.std.specs.Float.Ieee.{of_bits};
ghost use Rattle.rules.specs.Bytes.{byte, u16, u32, half_at_lem};
ghost use Rattle.rules.specs.Value.{signed, word32, integer_value_lem, widened, widened_nan};
ghost use Rattle.rules.specs.Told.{told};
ghost use Rattle.numbers.specs.Int.{short_of};
ghost use Rattle.numbers.specs.Reads.{Small};
ghost use Rattle.numbers.specs.Wide.{words_of, bits_of};

// ---- at any place: a byte past the end is 0
pub fn byte_at(s: &[u8], at: usize) -> u8
    ensures { result ≡ byte s.now at }
{
    s.get(at).copied().unwrap_or(0)
}

#[tactic(auto, using(crate::proofs::Past::no_u16), unfolding(rules::specs::Bytes::u16))]
pub fn u16_at(s: &[u8], at: usize) -> u16
    ensures { result ≡ u16 s.now at }
{
    if at < s.len() {
        u16::from_le_bytes([s[at], byte_at(s, at + 1)])
    } else {
        0
    }
}

// Where all four are inside, one test serves them. The upper half is 0 where its place is past the last that there is.
#[tactic(auto, using(crate::proofs::Past::no_u16), unfolding(rules::specs::Bytes::u32))]
pub fn u32_at(s: &[u8], at: usize) -> u32
    ensures { result ≡ u32 s.now at }
{
    if 3 < s.len() && at < s.len() - 3 {
        return u32_inside(s, at);
    }
    let low = u32::from(u16_at(s, at));
    match at.checked_add(2) {
        Some(next) => low + 65536 * u32::from(u16_at(s, next)),
        None => low,
    }
}

// ---- inside: the bytes are there, and are read without a test
#[tactic(auto, unfolding(rules::specs::Bytes::u16))]
pub fn u16_inside(s: &[u8], at: usize) -> u16
    requires { at + 2 ≤ length s.now }
    ensures { result ≡ u16 s.now at }
{
    u16::from_le_bytes([s[at], s[at + 1]])
}

#[tactic(auto, unfolding(rules::specs::Bytes::u32, rules::specs::Bytes::u16))]
pub fn u32_inside(s: &[u8], at: usize) -> u32
    requires { at + 4 ≤ length s.now }
    ensures { result ≡ u32 s.now at }
{
    u32::from_le_bytes([s[at], s[at + 1], s[at + 2], s[at + 3]])
}

// ---- as a usize, with its bound
pub fn number_of(x: u8) -> usize
    ensures { Small x 256 result }
{
    usize::from(x)
}

// The byte at a place, or 0 past the end.
pub fn byte_number(s: &[u8], at: usize) -> usize
    ensures { Small (byte s.now at) 256 result }
{
    number_of(byte_at(s, at))
}

// The two bytes at a place, a byte past the end being 0. Where both are inside, one test serves them.
// Kept: tried as `usize::from(u16_at(s, at))`, slower: 1.3 times as long at places at random.
#[tactic(auto, unfolding(rules::specs::Bytes::u16))]
pub fn u16_number(s: &[u8], at: usize) -> usize
    requires { at < 2 ^ 60 }
    ensures { Small (u16 s.now at) 65536 result }
{
    if at + 1 < s.len() {
        return number_of(s[at]) + 256 * number_of(s[at + 1]);
    }
    byte_number(s, at) + 256 * byte_number(s, at + 1)
}

// Two bytes, where both are there.
#[tactic(auto, unfolding(rules::specs::Bytes::half_at_lem, rules::specs::Bytes::byte_at))]
pub fn u16_if_inside(s: &[u8], at: usize) -> Option<usize>
    ensures { result ≡ told (half_at_lem s.now at) }
{
    let low = *s.get(at)?;
    let high = *s.get(at + 1)?;
    Some(number_of(low) + 256 * number_of(high))
}

// ---- as a byte
pub fn low_byte(n: usize) -> u8
    ensures { result ≡ n % 256 }
{
    (n % 256) as u8
}

// ---- whole numbers
#[tactic(auto, unfolding(rules::specs::Value::signed))]
pub fn signed16(n: u16) -> i32
    ensures { result ≡ signed 0x8000 n }
{
    i32::from(n.cast_signed())
}

#[tactic(auto, unfolding(rules::specs::Value::signed))]
pub fn signed32(n: u32) -> i32
    ensures { result ≡ signed 0x80000000 n }
{
    n.cast_signed()
}

// The 32 bits of a number, in two's complement.
#[tactic(auto, unfolding(rules::specs::Value::word32))]
pub fn word_of(v: i32) -> u32
    ensures { result ≡ word32 v }
{
    v.cast_unsigned()
}

#[tactic(auto, unfolding(crate::specs::Int::short_of, rules::specs::Value::fits16))]
pub fn short_of(v: i32) -> Option<i16>
    ensures { result ≡ short_of v }
{
    i16::try_from(v).ok()
}

#[tactic(auto, unfolding(rules::specs::Value::integer_value_lem))]
pub fn integer_value(bytes: &[u8]) -> Option<i32>
    ensures { result ≡ told (integer_value_lem bytes.now) }
{
    match bytes.len() {
        1 => Some(i32::from(bytes[0])),
        2 => Some(signed16(u16_inside(bytes, 0))),
        4 => Some(signed32(u32_inside(bytes, 0))),
        _ => None,
    }
}

// ---- fractions
#[derive(Clone, Copy)]
pub struct Wide {
    pub low: u32,
    pub high: u32,
}

// A NaN keeps its sign and fraction; the OR sets the fraction's top bit, whatever it was.
#[tactic(auto, using(crate::proofs::Widening::nan_fits, crate::proofs::Widening::fraction_fits, crate::proofs::Widening::nan_is))]
fn widen_nan(low: u32) -> u64
    ensures { result ≡ widened_nan low }
{
    let b = low as u64;
    let sign = (b >> 31) << 63;
    let fraction = ((b % 0x80_0000) << 29) | 0x8_0000_0000_0000;
    sign + 0x7ff0_0000_0000_0000 + fraction
}

#[tactic(auto, using(crate::proofs::Widening::not_nan_bits, crate::proofs::Widening::not_nan, crate::proofs::Widening::loses_nothing, crate::proofs::Widening::nan_widened, crate::proofs::Widening::number_widened))]
fn widen_bits(low: u32) -> u64
    ensures { result ≡ widened low }
{
    if 0x7f80_0000 < low % 0x8000_0000 {
        widen_nan(low)
    } else {
        let x = f32::from_bits(low);
        f64::to_bits(x as f64)
    }
}

// The double of a single: its bits, and that nothing is rounded.
#[tactic(auto, using(crate::proofs::Widening::same_words))]
pub fn widen(low: u32) -> Wide
    ensures value { result ≡ words_of (widened low) }
    ensures exact { of_bits binary64 (bits_of result) ≡ of_bits binary32 low }
{
    let w = widen_bits(low);
    Wide {
        low: (w % 0x1_0000_0000) as u32,
        high: (w / 0x1_0000_0000) as u32,
    }
}
