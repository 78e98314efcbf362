// The listing of a later Blob whose controls are paired with TypeInfo, written whole into a lent buffer.
#![tactic(auto)]

ghost use Rattle.std.specs.Prelude.{◌≡◌, true, ◌∷◌, ◌<◌, min, drop};
ghost use Rattle.rules.specs.Lists.{all};
ghost use Rattle.rules.specs.Pairing.{infos_in, is_named, control_ok, may_pair};
ghost use Rattle.rules.specs.Listing.{or_dash};
ghost use Rattle.names.specs.Lookup.{Lent};
ghost use Rattle.text.specs.Writer.{Wrote};
ghost use Rattle.rows.specs.Put.{control_words};
ghost use Rattle.pairlines.specs.Pairs.{is_letter, unit_text, units_text, shown_name, is_unpaired, count_line};
ghost use Rattle.pairlines.specs.Told.{unpaired_to, Tells, Paired, Listed};

use fields::put_end;
use listing::Kind::Control;
use listing::answer_line;
use pairing::paired_type;
use rows::{ControlRow, get_control};
use rules::{NAME_LOOSE, NAME_NUMBERED};
use text::{put_byte, put_decimal, put_hex, put_text};
use values::value_bytes;

// So many bytes of a loose name are shown, and of one in UTF-16 twice as many.
const LONGEST_SHOWN: u32 = 255;

// Where lines end, and how many controls they are of.
#[derive(Clone, Copy)]
pub struct Told {
    pub at: usize,
    pub count: u32,
}

// TypeInfo rows with their stream, and how many of them there are.
#[derive(Clone, Copy)]
pub struct TypeInfo<'a> {
    pub stream: &'a [u8],
    pub rows: &'a [u32],
    pub count: u32,
}

// ---- names
fn is_letter(low: u8, high: u8) -> bool
    ensures { result ≡ is_letter low high }
{
    high == 0 && listing::is_shown(low)
}

fn put_unit(out: &mut [u8], at: usize, low: u8, high: u8) -> usize
    ensures { Wrote out.old at (unit_text low high) out.new result }
{
    if is_letter(low, high) {
        return put_byte(out, at, low);
    }
    let p = put_text(out, at, b"\\u");
    let p = put_hex(out, p, 2, high as u32);
    put_hex(out, p, 2, low as u32)
}

fn put_units(out: &mut [u8], at: usize, s: &[u8]) -> usize
    ensures { Wrote out.old at (units_text s.now) out.new result }
{
    let mut p = at;
    for unit in s.chunks_exact(2) {
        p = put_unit(out, p, unit[0], unit[1]);
    }
    p
}

fn put_unit_name(out: &mut [u8], at: usize, s: &[u8]) -> usize
    ensures { Wrote out.old at (or_dash (units_text s.now)) out.new result }
{
    if s.len() < 2 {
        put_byte(out, at, b'-')
    } else {
        put_units(out, at, s)
    }
}

fn put_shown_name(out: &mut [u8], at: usize, stream: &[u8], row: ControlRow) -> usize
    ensures { Wrote out.old at (shown_name stream.now (control_words row)) out.new result }
{
    if row.mark == NAME_NUMBERED {
        let p = put_text(out, at, b"Control_");
        return put_decimal(out, p, row.start);
    }
    if row.mark == NAME_LOOSE {
        let size = row.size.min(LONGEST_SHOWN);
        return listing::put_name(out, at, value_bytes(stream, row.start, size));
    }
    let size = row.size.min(2 * LONGEST_SHOWN);
    put_unit_name(out, at, value_bytes(stream, row.start, size))
}

// ---- controls that found no row
// The row with another type.
fn typed(row: ControlRow, type_code: u32) -> ControlRow
    ensures { control_words result ≡ type_code ∷ drop 1 (control_words row) }
{
    ControlRow { type_code, ..row }
}

// A control that found no row keeps its type, whatever that is.
fn is_unpaired(stream: &[u8], row: ControlRow, info: TypeInfo) -> bool
    requires row_value { control_ok stream.now (control_words row) ≡ true }
    requires infos_value { all (is_named info.stream.now) (infos_in info.count info.rows.now) ≡ true }
    ensures { result ≡ is_unpaired stream.now info.entry.stream.now (infos_in info.entry.count info.entry.rows.now) (control_words row) }
{
    let one = paired_type(stream, typed(row, 0), info.stream, info.rows, info.count);
    let other = paired_type(stream, typed(row, 1), info.stream, info.rows, info.count);
    one != other
}

// The U line of control row `n`, where it found no row.
fn tell(out: &mut [u8], told: Told, stream: &[u8], row: ControlRow, n: u32, info: TypeInfo) -> Told
    requires row_value { control_ok stream.now (control_words row) ≡ true }
    requires infos_value { all (is_named info.stream.now) (infos_in info.count info.rows.now) ≡ true }
    requires count_bound { told.count < 4294967295 }
    ensures { Tells stream.now info.entry.stream.now (infos_in info.entry.count info.entry.rows.now) n (control_words row) out.old told out.new result }
{
    if !is_unpaired(stream, row, info) {
        return told;
    }
    let p = put_byte(out, told.at, b'U');
    let p = put_byte(out, p, b' ');
    let p = put_decimal(out, p, n);
    let p = put_byte(out, p, b' ');
    let p = put_shown_name(out, p, stream, row);
    let at = put_end(out, p);
    Told {
        at,
        count: told.count + 1,
    }
}

fn count_line(out: &mut [u8], at: usize, n: u32) -> usize
    ensures { Wrote out.old at (count_line n) out.new result }
{
    let p = put_text(out, at, b"unpaired ");
    let p = put_decimal(out, p, n);
    put_end(out, p)
}

// The U lines, and how many there are.
fn unpaired_lines(
    out: &mut [u8],
    at: usize,
    stream: &[u8],
    controls: &[u32],
    control_count: u32,
    info: TypeInfo,
) -> usize
    requires { may_pair stream.now controls.now control_count info.stream.now info.rows.now info.count ≡ true }
    ensures { Wrote out.old at (unpaired_to stream.now info.entry.stream.now (infos_in info.entry.count info.entry.rows.now) control_count controls.now) out.new result }
{
    let mut told = Told { at, count: 0 };
    for n in 0..control_count {
        let row = get_control(controls, n);
        told = tell(out, told, stream, row, n, info);
    }
    count_line(out, told.at, told.count)
}

// ---- the whole
// Reads both streams into the lent rows, pairs the controls and writes the lines.
fn pair_lines(
    layout: u32,
    info_stream: &[u8],
    stream: &[u8],
    infos: &mut [u32],
    controls: &mut [u32],
    properties: &mut [u32],
    index: &[u32],
    letters: &[u8],
    out: &mut [u8],
) -> usize
    requires { Lent index.now letters.now }
    ensures { Paired layout info_stream.now stream.now infos.old controls.old properties.old out.old out.new result }
{
    let t = typeinfo::read_type_info(info_stream, infos);
    let p = answer_line(out, 0, t);
    if t.number != 0 {
        return p;
    }
    let a = blob::read_later(layout, stream, controls, properties);
    let p = answer_line(out, p, a);
    if a.number != 0 {
        return p;
    }
    pairing::pair(stream, controls, a.first, info_stream, infos, t.first);
    let p = listing::lines(Control, out, p, stream, controls, a.first, index, letters);
    let info = TypeInfo {
        stream: info_stream,
        rows: infos,
        count: t.first,
    };
    unpaired_lines(out, p, stream, controls, a.first, info)
}

// What stands from a place on.
fn behind(s: &[u8], start: usize) -> &[u8]
    ensures { result.now ≡ drop start s.now }
{
    s.get(start..).unwrap_or(&s[..0])
}

// Writes the listing of an input from the start of `out` on, as far as there is room, and returns where it ends.
// The input is the layout byte and the length of TypeInfo, four bytes each, TypeInfo, a Blob.
pub fn write_pairs(
    input: &[u8],
    infos: &mut [u32],
    controls: &mut [u32],
    properties: &mut [u32],
    index: &[u32],
    letters: &[u8],
    out: &mut [u8],
) -> usize
    requires { Lent index.now letters.now }
    ensures { Listed input.now infos.old controls.old properties.old out.old out.new result }
{
    let layout = numbers::u32_at(input, 0);
    let size = numbers::u32_at(input, 4);
    let info_stream = value_bytes(input, 8, size);
    let stream = behind(input, 8 + size as usize);
    pair_lines(
        layout,
        info_stream,
        stream,
        infos,
        controls,
        properties,
        index,
        letters,
        out,
    )
}
