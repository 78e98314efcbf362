// The fields of a line. Each is written into a lent buffer; the place after it is returned.
#![tactic(auto)]

ghost use Rattle.std.specs.Prelude.{[], ◌∷◌, ◌++◌};
ghost use Rattle.rules.specs.Lists.{text};
ghost use Rattle.rules.specs.Bytes.{part};
ghost use Rattle.rules.specs.Digits.{decimal, hex};
ghost use Rattle.rules.specs.NameTables.{control_type_names};
ghost use Rattle.rules.specs.Names.{name_in_lem, names_for};
ghost use Rattle.rules.specs.Reading.{property_row};
ghost use Rattle.rules.specs.Listing.{or_dash, name_column, parent_column};
ghost use Rattle.names.specs.Lookup.{Lent};
ghost use Rattle.text.specs.Writer.{Wrote};
ghost use Rattle.fields.specs.Parts.{fields, shown_fields};

use rows::NO_PARENT;
use rules::{NAME_LOOSE, NAME_NUMBERED, Property};
use text::{put_byte, put_decimal, put_hex, put_text};
use values::{put_characters, put_value, put_word};

// LF ends each line.
pub fn put_end(out: &mut [u8], at: usize) -> usize
    ensures { Wrote out.old at (text "\n") out.new result }
{
    put_byte(out, at, b'\n')
}

// What both kinds of row begin with: a letter, the row's number, its first word in hex; a blank after each.
pub fn put_head(out: &mut [u8], at: usize, letter: u8, n: u32, code: u32) -> usize
    ensures { Wrote out.old at (fields ((letter ∷ []) ∷ decimal n ∷ hex 4 code ∷ [])) out.new result }
{
    let p = put_byte(out, at, letter);
    let p = put_byte(out, p, b' ');
    let p = put_decimal(out, p, n);
    let p = put_byte(out, p, b' ');
    let p = put_hex(out, p, 4, code);
    put_byte(out, p, b' ')
}

fn put_name(out: &mut [u8], at: usize, name: &[u8]) -> usize
    ensures { Wrote out.old at (or_dash name.now) out.new result }
{
    if name.len() == 0 {
        put_byte(out, at, b'-')
    } else {
        put_text(out, at, name)
    }
}

// No table has an id of more than 16 bits.
pub fn put_type_name(out: &mut [u8], at: usize, index: &[u32], letters: &[u8], code: u32) -> usize
    requires { Lent index.now letters.now }
    ensures { Wrote out.old at (or_dash (name_in_lem control_type_names code)) out.new result }
{
    let Ok(code) = u16::try_from(code) else {
        return put_byte(out, at, b'-');
    };
    put_name(out, at, names::type_name_in(index, letters, code))
}

pub fn put_value_name(
    out: &mut [u8],
    at: usize,
    index: &[u32],
    letters: &[u8],
    mark: u32,
    id: u32,
) -> usize
    requires { Lent index.now letters.now }
    ensures { Wrote out.old at (or_dash (name_in_lem (names_for mark) id)) out.new result }
{
    let Ok(id) = u16::try_from(id) else {
        return put_byte(out, at, b'-');
    };
    put_name(out, at, names::value_name_in(index, letters, mark, id))
}

// How many characters a control's name has, or bytes where these aren't UTF-16; a control without one is numbered.
pub fn put_name_size(
    out: &mut [u8],
    at: usize,
    stream: &[u8],
    mark: u32,
    start: u32,
    size: u32,
) -> usize
    ensures { Wrote out.old at (name_column mark size (part stream.now start size)) out.new result }
{
    if mark == NAME_NUMBERED {
        return put_byte(out, at, b'-');
    }
    if mark == NAME_LOOSE {
        let p = put_decimal(out, at, size);
        return put_byte(out, p, b'b');
    }
    put_characters(out, at, stream, start, size)
}

fn put_parent(out: &mut [u8], at: usize, parent: u32) -> usize
    ensures { Wrote out.old at (parent_column parent) out.new result }
{
    if parent == NO_PARENT {
        put_byte(out, at, b'-')
    } else {
        put_decimal(out, at, parent)
    }
}

// Where a control is nested: its level and its parent's row.
pub fn put_nesting(out: &mut [u8], at: usize, level: u32, parent: u32) -> usize
    ensures { Wrote out.old at (decimal level ++ (text " " ++ parent_column parent)) out.new result }
{
    let p = put_decimal(out, at, level);
    let p = put_byte(out, p, b' ');
    put_parent(out, p, parent)
}

// The word and the value of a property.
pub fn put_shown(out: &mut [u8], at: usize, stream: &[u8], p: Property) -> usize
    ensures { Wrote out.old at (shown_fields stream.now (property_row p)) out.new result }
{
    let v = p.value;
    let next = put_word(out, at, v.mark);
    let next = put_byte(out, next, b' ');
    put_value(out, next, v.mark, v.low, v.high, stream, p.start, p.size)
}
