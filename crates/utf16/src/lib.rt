// Whether bytes are UTF-16: units of two bytes, low byte first, whose surrogates stand in pairs; and how many characters they are.
#![tactic(auto)]

ghost use Rattle.std.specs.Prelude.{◌≡◌, true, length, count_by};
ghost use Rattle.rules.specs.Utf16.{is_utf16_lem, is_high, is_low};
ghost use Rattle.rules.specs.Scalars.{scalars};
ghost use Rattle.utf16.specs.Plain.{four_below, ends_one, Skipped};

// The first surrogate, the first that comes second in a pair, and the first unit above both.
const HIGH: u16 = 0xD800;

const LOW: u16 = 0xDC00;

const ABOVE: u16 = 0xE000;

// The high byte of a surrogate or of a unit above is this or more.
const HIGH_BYTE: u8 = 0xD8;

pub fn is_high(u: u16) -> bool
    ensures { result ≡ is_high u }
{
    HIGH <= u && u < LOW
}

fn is_low(u: u16) -> bool
    ensures { result ≡ is_low u }
{
    LOW <= u && u < ABOVE
}

// None of the four units is a surrogate or above, as their high bytes tell.
fn plain_four(units: &[u8; 8]) -> bool
    ensures { result ≡ four_below units.now }
{
    units[1] < HIGH_BYTE && units[3] < HIGH_BYTE && units[5] < HIGH_BYTE && units[7] < HIGH_BYTE
}

// Skips units from the start on, four at a time, as long as all four are below the surrogates.
fn past_fours(bytes: &[u8]) -> usize
    ensures { Skipped bytes.now 0 result }
{
    let (fours, _) = bytes.as_chunks::<8>();
    for (n, four) in fours.iter().enumerate() {
        if !plain_four(four) {
            return 8 * n;
        }
    }
    8 * fours.len()
}

// Skips the units from the start on that are below the surrogates, most often all there are.
fn past_plain(bytes: &[u8]) -> usize
    ensures { Skipped bytes.now 0 result }
{
    let start = past_fours(bytes);
    let (units, _) = bytes[start..].as_chunks::<2>();
    for (n, unit) in units.iter().enumerate() {
        if HIGH <= u16::from_le_bytes(*unit) {
            return start + 2 * n;
        }
    }
    start + 2 * units.len()
}

// Whether bytes are told to be UTF-16 at a glance: no unit is a surrogate or above. Where this is false nothing is told.
pub fn is_plain(bytes: &[u8]) -> bool
    ensures { result ≡ true → is_utf16_lem bytes.now ≡ true }
{
    past_plain(bytes) == bytes.len()
}

// Whether bytes are UTF-16: a low surrogate stands right after a high one (`pending`), and nowhere else.
pub fn is_utf16(bytes: &[u8]) -> bool
    ensures { result ≡ is_utf16_lem bytes.now }
{
    let start = past_plain(bytes);
    let (units, odd) = bytes[start..].as_chunks::<2>();
    let mut pending = false;
    for unit in units {
        let u = u16::from_le_bytes(*unit);
        if is_low(u) != pending {
            return false;
        }
        pending = is_high(u);
    }
    odd.is_empty() && !pending
}

// How many characters units end: each ends one, but the first half of a pair, which waits for the second.
fn ended(units: &[[u8; 2]]) -> usize
    ensures { result ≡ count_by ends_one units.now }
{
    units
        .iter()
        .filter(|unit| !is_high(u16::from_le_bytes(**unit)))
        .count()
}

// How many characters bytes of UTF-16 are: a pair is one.
pub fn characters(bytes: &[u8]) -> usize
    ensures { result ≡ length (scalars bytes.now) }
{
    let start = past_plain(bytes);
    let (units, _) = bytes[start..].as_chunks::<2>();
    start / 2 + ended(units)
}
