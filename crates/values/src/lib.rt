// How the value of a property is shown: the word of its mark, and what it is. Each is written into a lent buffer; the place after it is returned.
#![tactic(auto)]

ghost use Rattle.std.specs.Prelude.{◌≡◌};
ghost use Rattle.rules.specs.Bytes.{part};
ghost use Rattle.rules.specs.Listing.{mark_word, yes_or_no, number32, characters, value_column};
ghost use Rattle.text.specs.Writer.{Wrote};

use rules::{
    MARK_BINARY, MARK_BOOL, MARK_DOUBLE, MARK_GUID, MARK_LONG, MARK_NOT_DEFAULT, MARK_SHORT,
    MARK_TEXT,
};
use text::{put_byte, put_decimal, put_guid, put_hex, put_text};

#[tactic(auto, unfolding(rules::specs::Listing::mark_word))]
pub fn put_word(out: &mut [u8], at: usize, mark: u32) -> usize
    ensures { Wrote out.old at (mark_word mark) out.new result }
{
    match mark {
        MARK_BOOL => put_text(out, at, b"bool"),
        MARK_NOT_DEFAULT => put_text(out, at, b"notdefault"),
        MARK_SHORT => put_text(out, at, b"short"),
        MARK_LONG => put_text(out, at, b"long"),
        MARK_DOUBLE => put_text(out, at, b"double"),
        MARK_GUID => put_text(out, at, b"guid"),
        MARK_TEXT => put_text(out, at, b"text"),
        MARK_BINARY => put_text(out, at, b"binary"),
        _ => put_text(out, at, b"loose"),
    }
}

#[tactic(auto, unfolding(rules::specs::Listing::yes_or_no))]
fn put_yes(out: &mut [u8], at: usize, low: u32) -> usize
    ensures { Wrote out.old at (yes_or_no low) out.new result }
{
    if low == 0 {
        put_text(out, at, b"no")
    } else {
        put_text(out, at, b"yes")
    }
}

// The number that 32 bits are in two's complement.
fn put_signed(out: &mut [u8], at: usize, low: u32) -> usize
    ensures { Wrote out.old at (number32 low) out.new result }
{
    let n = low.cast_signed();
    if n < 0 {
        let p = put_byte(out, at, b'-');
        return put_decimal(out, p, n.unsigned_abs());
    }
    put_decimal(out, at, n.unsigned_abs())
}

// The bytes of a value, as far as the stream has them.
pub fn value_bytes(stream: &[u8], start: u32, size: u32) -> &[u8]
    ensures { result.now ≡ part stream.now start size }
{
    let first = start as usize;
    if stream.len() <= first {
        return &stream[..0];
    }
    let most = size as usize;
    if stream.len() - first <= most {
        return &stream[first..];
    }
    let end = first + most;
    &stream[first..end]
}

// How many characters the text of these bytes of the stream has.
pub fn put_characters(out: &mut [u8], at: usize, stream: &[u8], start: u32, size: u32) -> usize
    ensures { Wrote out.old at (characters (part stream.now start size)) out.new result }
{
    let count = utf16::characters(value_bytes(stream, start, size));
    put_decimal(out, at, count as u32)
}

#[tactic(auto, unfolding(rules::specs::Listing::value_column))]
pub fn put_value(
    out: &mut [u8],
    at: usize,
    mark: u32,
    low: u32,
    high: u32,
    stream: &[u8],
    start: u32,
    size: u32,
) -> usize
    ensures { Wrote out.old at (value_column mark low high size (part stream.now start size)) out.new result }
{
    match mark {
        MARK_BOOL => put_yes(out, at, low),
        MARK_NOT_DEFAULT => put_byte(out, at, b'-'),
        MARK_SHORT => put_signed(out, at, low),
        MARK_LONG => put_signed(out, at, low),
        MARK_DOUBLE => {
            let p = put_hex(out, at, 8, high);
            put_hex(out, p, 8, low)
        }
        MARK_GUID => put_guid(out, at, value_bytes(stream, start, size)),
        MARK_TEXT => put_characters(out, at, stream, start, size),
        _ => put_decimal(out, at, size),
    }
}
