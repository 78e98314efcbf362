// The names of values and of control types, by their ids.
#![tactic(auto)]

ghost use Rattle.std.specs.Prelude.{◌≡◌, [], true, ◌≤◌, ◌<◌, T, length};
ghost use Rattle.rules.specs.Lists.{ascends};
ghost use Rattle.rules.specs.NameTables.{text_names, number_names, bytes_names, control_type_names};
ghost use Rattle.rules.specs.Names.{name_in_lem, names_for, name_exit};
ghost use Rattle.rules.specs.Texts.{text_exit};
ghost use Rattle.nametables.specs.Directory.{all_names};
ghost use Rattle.names.specs.Lookup.{Lent, LentRow, LentRows, Rows, rows_in_lem, name_at, place_in, slots, longest_name};

use numbers::low_byte;
use rules::{
    Answer, MARK_BINARY, MARK_BOOL, MARK_DOUBLE, MARK_GUID, MARK_LOOSE, MARK_TEXT, NO_ROOM_FOR_TEXT,
};

// ---- names that are parts of a lent directory
// The place of `id` in `ids`, by halving, or their number where it has none.
// Kept: an id that isn't there has the place after the last, as specs/Lookup.antt says; tally::type_place counts all others there.
pub fn place_in(ids: &[u32], id: u32) -> usize
    requires { T (ascends 0 ids.now) }
    ensures { result ≡ place_in ids.now id }
{
    ids.binary_search(&id).unwrap_or(ids.len())
}

// The name of a row. The starts come after the ids, and are one more.
fn row_name<'a>(index: &[u32], letters: &'a [u8], row: usize) -> &'a [u8]
    requires { LentRow index.now letters.now row }
    ensures { result.now ≡ name_at all_names row }
{
    let at = index.len() / 2 + row;
    let start = index[at] as usize;
    let end = index[at + 1] as usize;
    &letters[start..end]
}

// Kept: a name that isn't there is empty, as in name_in_lem of rules.
fn nothing_of(letters: &[u8]) -> &[u8]
    ensures { result.now ≡ [] }
{
    &letters[..0]
}

// Rows of the directory, from one up to another.
#[derive(Clone, Copy)]
struct Span {
    from: usize,
    to: usize,
}

// The name of `id` in these rows; empty where there is none.
fn name_in<'a>(index: &[u32], letters: &'a [u8], rows: Span, id: u16) -> &'a [u8]
    requires { LentRows index.now letters.now rows.from rows.to }
    ensures { result.now ≡ name_in_lem (rows_in_lem rows.from rows.to) id }
{
    let i = place_in(&index[rows.from..rows.to], id as u32);
    if i < rows.to - rows.from {
        return row_name(index, letters, rows.from + i);
    }
    nothing_of(letters)
}

// The name of a control type. Whoever looks many up lends the directory once.
// Kept: README lends the ids and the letters apart.
pub fn type_name_in<'a>(index: &[u32], letters: &'a [u8], id: u16) -> &'a [u8]
    requires { Lent index.now letters.now }
    ensures { result.now ≡ name_in_lem control_type_names id }
{
    let rows = Span {
        from: nametables::CONTROL_TYPE,
        to: nametables::END,
    };
    name_in(index, letters, rows, id)
}

// The rows that name the values of a mark: none where there is no such mark.
fn rows_for(mark: u32) -> Span
    ensures { Rows result.from result.to (names_for mark) }
{
    match mark {
        MARK_BOOL..=MARK_DOUBLE => Span {
            from: nametables::NUMBER,
            to: nametables::BYTES,
        },
        MARK_TEXT | MARK_LOOSE => Span {
            from: nametables::TEXT,
            to: nametables::NUMBER,
        },
        MARK_GUID | MARK_BINARY => Span {
            from: nametables::BYTES,
            to: nametables::CONTROL_TYPE,
        },
        _ => Span {
            from: nametables::TEXT,
            to: nametables::TEXT,
        },
    }
}

// The name of a value by its mark and id.
pub fn value_name_in<'a>(index: &[u32], letters: &'a [u8], mark: u32, id: u16) -> &'a [u8]
    requires { Lent index.now letters.now }
    ensures { result.now ≡ name_in_lem (names_for mark) id }
{
    name_in(index, letters, rows_for(mark), id)
}

// ---- names looked for first where the last search for the same ended
// A hint for each mark and low byte of an id: the low byte of a row. It may be wrong; nothing but time rests on it.
const MARK_SLOTS: usize = 16;

const ID_SLOTS: usize = 256;

pub const HINTS: usize = MARK_SLOTS * ID_SLOTS;

fn slot(mark: u32, id: u16) -> usize
    ensures { result < slots }
{
    (mark as usize) % MARK_SLOTS * ID_SLOTS + (id as usize) % ID_SLOTS
}

// Whether `id` is told to stand at the place `near`. Where this is false nothing is told.
fn is_at(ids: &[u32], near: usize, id: u32) -> bool
    requires { T (ascends 0 ids.now) }
    ensures { result ≡ true → near ≡ place_in ids.now id }
{
    near < ids.len() && ids[near] == id
}

// The place of `id` in `ids`, or their number where it has none.
fn place_near(ids: &[u32], hint: u8, id: u32) -> usize
    requires { T (ascends 0 ids.now) }
    ensures { result ≡ place_in ids.now id }
{
    let near = hint as usize;
    if is_at(ids, near, id) {
        return near;
    }
    place_in(ids, id)
}

// The name of `id` in these rows; where its row is found is noted.
fn name_near<'a>(
    index: &[u32],
    letters: &'a [u8],
    hints: &mut [u8; HINTS],
    at: usize,
    rows: Span,
    id: u16,
) -> &'a [u8]
    requires { LentRows index.now letters.now rows.from rows.to × (at < slots) }
    ensures { result.now ≡ name_in_lem (rows_in_lem rows.from rows.to) id }
{
    let hint = hints[at];
    let i = place_near(&index[rows.from..rows.to], hint, id as u32);
    hints[at] = low_byte(i);
    if i < rows.to - rows.from {
        return row_name(index, letters, rows.from + i);
    }
    nothing_of(letters)
}

// The name of a value by its mark and id, for whoever looks up many.
pub fn value_name_near<'a>(
    index: &[u32],
    letters: &'a [u8],
    hints: &mut [u8; HINTS],
    mark: u32,
    id: u16,
) -> &'a [u8]
    requires { Lent index.now letters.now }
    ensures { result.now ≡ name_in_lem (names_for mark) id }
{
    name_near(index, letters, hints, slot(mark, id), rows_for(mark), id)
}

// ---- names written into a lent buffer
// Names of more bytes than 32 bits count aren't in the tables.
fn write_name(name: &[u8], out: &mut [u8]) -> Answer
    requires { length name.now ≤ longest_name }
    ensures value { result ≡ (text_exit name.now out.old).answer }
    ensures out_after { out.new ≡ (text_exit name.now out.old).out }
{
    if out.len() < name.len() {
        return text::refused(NO_ROOM_FOR_TEXT);
    }
    text::put_text(out, 0, name);
    text::wrote(name.len() as u32)
}

pub fn control_type_name(id: u16, out: &mut [u8]) -> Answer
    ensures value { result ≡ (name_exit control_type_names id out.old).answer }
    ensures out_after { out.new ≡ (name_exit control_type_names id out.old).out }
{
    let index = nametables::index();
    let letters = nametables::letters();
    write_name(type_name_in(&index, &letters, id), out)
}

// The name of a value by its mark and id.
pub fn value_name(mark: u32, id: u16, out: &mut [u8]) -> Answer
    ensures value { result ≡ (name_exit (names_for mark) id out.old).answer }
    ensures out_after { out.new ≡ (name_exit (names_for mark) id out.old).out }
{
    let index = nametables::index();
    let letters = nametables::letters();
    write_name(value_name_in(&index, &letters, mark, id), out)
}

#[tactic(auto, unfolding(rules::specs::Names::names_for))]
pub fn text_name(id: u16, out: &mut [u8]) -> Answer
    ensures value { result ≡ (name_exit text_names id out.old).answer }
    ensures out_after { out.new ≡ (name_exit text_names id out.old).out }
{
    value_name(MARK_TEXT, id, out)
}

#[tactic(auto, unfolding(rules::specs::Names::names_for))]
pub fn number_name(id: u16, out: &mut [u8]) -> Answer
    ensures value { result ≡ (name_exit number_names id out.old).answer }
    ensures out_after { out.new ≡ (name_exit number_names id out.old).out }
{
    value_name(MARK_BOOL, id, out)
}

#[tactic(auto, unfolding(rules::specs::Names::names_for))]
pub fn bytes_name(id: u16, out: &mut [u8]) -> Answer
    ensures value { result ≡ (name_exit bytes_names id out.old).answer }
    ensures out_after { out.new ≡ (name_exit bytes_names id out.old).out }
{
    value_name(MARK_GUID, id, out)
}
