// The structs, enums and numbers that the definitions share with the code. What they mean stands in specs/.
#![tactic(auto)]

// Document 01's answer number with its three counts.
// Kept: numbers and no Result: document 01 numbers the answers, C reads them, and 6 and 7 have counts too.
#[derive(Clone, Copy)]
pub struct Answer {
    pub number: u32,
    pub first: u32,
    pub second: u32,
    pub third: u32,
}

// A property's value: mark, low and high.
#[derive(Clone, Copy)]
pub struct Value {
    pub mark: u32,
    pub low: u32,
    pub high: u32,
}

// A property as it is shown: the value's bytes start at `start` and are `size` many.
#[derive(Clone, Copy)]
pub struct Property {
    pub id: u32,
    pub value: Value,
    pub start: u32,
    pub size: u32,
}

// A control's name: UTF-16 text, a number from its place in the output, or text that isn't UTF-16.
#[derive(Clone, Copy)]
pub enum Name {
    Text { start: u32, size: u32 },
    Numbered,
    Loose { start: u32, size: u32 },
}

// How many rows a caller lends.
#[derive(Clone, Copy)]
pub struct Room {
    pub controls: u32,
    pub properties: u32,
}

// Running totals over many streams: by answer number, by type name, unmapped and mapped properties, by mark.
// What each place counts stands in specs/Totals.antt. It is laid out as C lays it out, since C programs lend it.
#[repr(C)]
#[derive(Clone, Copy)]
pub struct Totals {
    pub answers: [u32; 6],
    pub types: [u32; 31],
    pub unmapped: u32,
    pub mapped: u32,
    pub marks: [u32; 9],
}

// What a stream's count comes to: the answer, and the totals at exit.
#[derive(Clone, Copy)]
pub struct Totalled {
    pub answer: Answer,
    pub totals: Totals,
}

// Where a reader of comma-separated text is: at the start of a field, in one that isn't quoted, in one that is, after a quote in that one, after CR.
#[derive(Clone, Copy)]
pub enum Mode {
    Start,
    Plain,
    Quoted,
    Closing,
    Returned,
}

// What a byte does, with where the reader is then and in which field of the record: it is none of a field's; it is the field's; it ends the field; it may not stand there.
#[derive(Clone, Copy)]
pub enum Step {
    Pass { mode: Mode, field: u32 },
    Put { mode: Mode, field: u32 },
    Close { mode: Mode, field: u32 },
    Refuse,
}

// ---- answers: read or written, and the refusals (specs/Answer.antt)
pub const READ: u32 = 0;

pub const TOO_SHORT: u32 = 1;

pub const OTHER_MAGIC: u32 = 2;

pub const TOO_MANY_ENTRIES: u32 = 3;

pub const NO_READING: u32 = 4;

pub const TOO_LONG: u32 = 5;

pub const MORE_CONTROLS: u32 = 6;

pub const MORE_PROPERTIES: u32 = 7;

pub const BAD_TABLE: u32 = 8;

pub const NO_ROOM_FOR_TEXT: u32 = 9;

pub const NOT_A_GUID: u32 = 10;

pub const BAD_ROWS: u32 = 11;

pub const OVER_CEILING: u32 = 12;

pub const NO_ROOM_FOR_SHEET: u32 = 13;

pub const NOT_A_SHEET: u32 = 14;

pub const OTHER_LAYOUT: u32 = 15;

pub const OTHER_HEAD: u32 = 16;

pub const TWO_ROWS: u32 = 17;

pub const MORE_SCOPES: u32 = 18;

// The longest stream that is read, in bytes.
pub const LONGEST: usize = 16777216;

// ---- marks of a value (specs/Value.antt)
// Kept: numbers, the words of the rows that C lends.
pub const MARK_BOOL: u32 = 0;

pub const MARK_NOT_DEFAULT: u32 = 1;

pub const MARK_SHORT: u32 = 2;

pub const MARK_LONG: u32 = 3;

pub const MARK_DOUBLE: u32 = 4;

pub const MARK_GUID: u32 = 5;

pub const MARK_TEXT: u32 = 6;

pub const MARK_BINARY: u32 = 7;

// Text that isn't UTF-16.
pub const MARK_LOOSE: u32 = 8;

// ---- marks of a control's name
// Kept: numbers, as the marks of a value.
pub const NAME_TEXT: u32 = 0;

pub const NAME_NUMBERED: u32 = 1;

pub const NAME_LOOSE: u32 = 2;

// ---- the code table (specs/CodeTable.antt): kinds of a scope, kinds of a row's value
// Kept: numbers, the bytes of the code table that is lent.
pub const SCOPE_FORM: u8 = 0;

pub const SCOPE_REPORT: u8 = 1;

pub const SCOPE_ENTRY: u8 = 2;

pub const KIND_NUMBER: u8 = 0;

pub const KIND_TEXT: u8 = 1;

pub const KIND_GUID: u8 = 2;

pub const KIND_DOUBLE: u8 = 3;

pub const KIND_BYTES: u8 = 4;

// The mark of a code that the table lacks, joined to it by OR.
pub const UNMAPPED: u32 = 0x8000;

// ---- what an id of an Access 2000 property tells of its value: to here no byte, one, two, four, and from there on a length
pub const LAST_FLAG_ID: u8 = 0x2F;

pub const LAST_BYTE_ID: u8 = 0x5F;

pub const LAST_SHORT_ID: u8 = 0x7F;

pub const LAST_SIZED_ID: u8 = 0xBC;

pub const LAST_ID: u8 = 0xFC;
