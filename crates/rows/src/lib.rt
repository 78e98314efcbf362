// What a reading is lent and answers, whatever the layout: rows with their widths and words by name, the cursor of whoever writes them,
// what was counted of a stream, and the answer for these counts in the room that there is.
#![tactic(auto)]

ghost use Rattle.std.specs.Prelude.{◌≡◌, [], ◌∷◌, ◌++◌, ◌+◌, ◌*◌, ◌/◌, ◌≤◌, length};
ghost use Rattle.rules.specs.Answer.{answer};
ghost use Rattle.rules.specs.Rows.{control_width, property_width, type_info_width, row_at};
ghost use Rattle.rules.specs.Reading.{name_words, property_row};
ghost use Rattle.rules.specs.Listing.{word};
ghost use Rattle.rules.specs.Tree.{is_section};
ghost use Rattle.rows.specs.Put.{put, control_words, info_words};
ghost use Rattle.rows.specs.Get.{InRow, ControlOf, PropertyOf, InfoOf};
ghost use Rattle.rows.specs.Judge.{Answerable, Judged};

use rules::{
    Answer, MORE_CONTROLS, MORE_PROPERTIES, NAME_LOOSE, NAME_NUMBERED, NAME_TEXT, Name, Property,
    READ, Value,
};
use text::label_length;

// How many words a control's row has.
pub const CONTROL_WIDTH: usize = 8;

// The same of a property's row.
pub const PROPERTY_WIDTH: usize = 6;

// The same of a TypeInfo row.
pub const INFO_WIDTH: usize = 5;

// The parent word of a control that has none.
// Kept: a word of the rows that C lends, handed on as it is.
pub const NO_PARENT: u32 = 0xFFFFFFFF;

// The types of sections.
const FIRST_SECTION: usize = 0x98;

const LAST_SECTION: usize = 0x9E;

// The words of a control's row.
#[derive(Clone, Copy)]
pub struct ControlRow {
    pub type_code: u32,
    pub mark: u32,
    pub start: u32,
    pub size: u32,
    pub first: u32,
    pub count: u32,
    pub level: u32,
    pub parent: u32,
}

impl ControlRow {
    // The row as it is lent.
    fn words(self) -> [u32; CONTROL_WIDTH]
        ensures { result ≡ control_words self }
    {
        [
            self.type_code,
            self.mark,
            self.start,
            self.size,
            self.first,
            self.count,
            self.level,
            self.parent,
        ]
    }
}

// Where a control stands in the tree: its level below the reported top entry, and its parent's row.
#[derive(Clone, Copy)]
pub struct Nesting {
    pub level: u32,
    pub parent: u32,
}

// The words of a TypeInfo row.
#[derive(Clone, Copy)]
pub struct InfoRow {
    pub type_code: u32,
    pub index: u32,
    pub start: u32,
    pub size: u32,
    pub cut: u32,
}

impl InfoRow {
    // The row as it is lent.
    fn words(self) -> [u32; INFO_WIDTH]
        ensures { result ≡ info_words self }
    {
        [self.type_code, self.index, self.start, self.size, self.cut]
    }
}

// What was counted from a place of a stream on: controls, their properties, and the place after them.
#[derive(Clone, Copy)]
pub struct Tally {
    pub controls: usize,
    pub props: usize,
    pub next: usize,
}

// Where a writer goes on: the place in the stream, and the next row of each slice.
#[derive(Clone, Copy)]
pub struct Next {
    pub at: usize,
    pub control: usize,
    pub property: usize,
}

// A control's row: it is control `n` of the output, and its `count` property rows begin at row `first`.
pub fn control_row(
    type_code: u32,
    name: Name,
    n: u32,
    first: u32,
    count: u32,
    nesting: Nesting,
) -> ControlRow
    ensures { control_words result ≡ type_code ∷ name_words n name ++ (first ∷ count ∷ nesting.level ∷ nesting.parent ∷ []) }
{
    let level = nesting.level;
    let parent = nesting.parent;
    match name {
        Name::Text { start, size } => ControlRow {
            type_code,
            mark: NAME_TEXT,
            start,
            size,
            first,
            count,
            level,
            parent,
        },
        Name::Numbered => ControlRow {
            type_code,
            mark: NAME_NUMBERED,
            start: n,
            size: label_length(n),
            first,
            count,
            level,
            parent,
        },
        Name::Loose { start, size } => ControlRow {
            type_code,
            mark: NAME_LOOSE,
            start,
            size,
            first,
            count,
            level,
            parent,
        },
    }
}

// A type of sections. At the top, an entry without a list is reported where it has one.
pub fn is_section(entry_type: usize) -> bool
    ensures { result ≡ is_section entry_type }
{
    FIRST_SECTION <= entry_type && entry_type <= LAST_SECTION
}

// Writes row `at`, where a row has `N` words.
#[tactic(auto, using(crate::proofs::PutLaws::put_copied))]
pub fn put_row<const N: usize>(rows: &mut [u32], at: usize, row: [u32; N])
    requires { at * N + N ≤ length rows.old }
    ensures { rows.new ≡ put N rows.old at (row.entry ∷ []) }
{
    let k = at * N;
    rows[k..k + N].copy_from_slice(&row);
}

// Writes row `at` of the control rows.
pub fn put_control(rows: &mut [u32], at: usize, row: ControlRow)
    requires { at * control_width + control_width ≤ length rows.old }
    ensures { rows.new ≡ put control_width rows.old at (control_words row ∷ []) }
{
    put_row(rows, at, row.words());
}

// Writes row `at` of the property rows.
pub fn put_property(rows: &mut [u32], at: usize, p: Property)
    requires { at * property_width + property_width ≤ length rows.old }
    ensures { rows.new ≡ put property_width rows.old at (property_row p ∷ []) }
{
    let v = p.value;
    put_row(rows, at, [p.id, v.mark, v.low, v.high, p.start, p.size]);
}

// Writes row `at` of the TypeInfo rows.
pub fn put_info(rows: &mut [u32], at: usize, row: InfoRow)
    requires { at * type_info_width + type_info_width ≤ length rows.old }
    ensures { rows.new ≡ put type_info_width rows.old at (info_words row ∷ []) }
{
    put_row(rows, at, row.words());
}

// Word `i` of row `n`, where a row has `width` words; 0 where the rows end before it.
fn word_of(rows: &[u32], width: usize, n: u32, i: usize) -> u32
    requires { InRow «width» i }
    ensures { result ≡ word (row_at «width» n rows.now) i }
{
    let at = (n as usize) * width + i;
    if at < rows.len() { rows[at] } else { 0 }
}

// Reads row `n` of the control rows; a word that the slice lacks is 0.
pub fn get_control(rows: &[u32], n: u32) -> ControlRow
    ensures { ControlOf (row_at control_width n rows.now) result }
{
    ControlRow {
        type_code: word_of(rows, CONTROL_WIDTH, n, 0),
        mark: word_of(rows, CONTROL_WIDTH, n, 1),
        start: word_of(rows, CONTROL_WIDTH, n, 2),
        size: word_of(rows, CONTROL_WIDTH, n, 3),
        first: word_of(rows, CONTROL_WIDTH, n, 4),
        count: word_of(rows, CONTROL_WIDTH, n, 5),
        level: word_of(rows, CONTROL_WIDTH, n, 6),
        parent: word_of(rows, CONTROL_WIDTH, n, 7),
    }
}

// The id in row `n` of the property rows; 0 where the slice lacks it.
pub fn get_id(rows: &[u32], n: u32) -> u32
    ensures { result ≡ word (row_at property_width n rows.now) 0 }
{
    word_of(rows, PROPERTY_WIDTH, n, 0)
}

// Reads row `n` of the property rows; a word that the slice lacks is 0.
pub fn get_property(rows: &[u32], n: u32) -> Property
    ensures { PropertyOf (row_at property_width n rows.now) result }
{
    Property {
        id: get_id(rows, n),
        value: Value {
            mark: word_of(rows, PROPERTY_WIDTH, n, 1),
            low: word_of(rows, PROPERTY_WIDTH, n, 2),
            high: word_of(rows, PROPERTY_WIDTH, n, 3),
        },
        start: word_of(rows, PROPERTY_WIDTH, n, 4),
        size: word_of(rows, PROPERTY_WIDTH, n, 5),
    }
}

// Reads row `n` of the TypeInfo rows; a word that the slice lacks is 0.
pub fn get_info(rows: &[u32], n: u32) -> InfoRow
    ensures { InfoOf (row_at type_info_width n rows.now) result }
{
    InfoRow {
        type_code: word_of(rows, INFO_WIDTH, n, 0),
        index: word_of(rows, INFO_WIDTH, n, 1),
        start: word_of(rows, INFO_WIDTH, n, 2),
        size: word_of(rows, INFO_WIDTH, n, 3),
        cut: word_of(rows, INFO_WIDTH, n, 4),
    }
}

// ---- what was counted, in the room that there is
// An answer with a reading's counts: controls, property rows, and the object's among these.
pub fn counted(number: u32, controls: usize, props: usize, own: usize) -> Answer
    requires { Answerable controls props own }
    ensures { result ≡ answer number controls props own }
{
    Answer {
        number,
        first: controls as u32,
        second: props as u32,
        third: own as u32,
    }
}

// The answer for a reading with these counts, where so many words are lent for control rows and so many for property rows.
pub fn judge(
    controls: usize,
    props: usize,
    own: usize,
    control_words: usize,
    property_words: usize,
) -> Answer
    requires { Answerable controls props own }
    ensures { Judged controls props own (control_words / control_width) (property_words / property_width) result }
{
    if control_words / CONTROL_WIDTH < controls {
        return counted(MORE_CONTROLS, controls, props, own);
    }
    if property_words / PROPERTY_WIDTH < props {
        return counted(MORE_PROPERTIES, controls, props, own);
    }
    counted(READ, controls, props, own)
}
