// What a reading adds to running totals, counted as it is met: a word for each number of the record, in the record's order.
#![tactic(auto)]

mod types; // types.rt: the types that have a name

ghost use Rattle.std.specs.Prelude.{◌≡◌, cond, ◌&&◌, ◌+◌, leb};
ghost use Rattle.totallaws.proofs.TotalsLaws.{type_place};
ghost use Rattle.tally.specs.Places.{bump, bumps, types_at, property_places, answer_place};

use names::place_in;
use rules::{NO_READING, Property, TOO_MANY_ENTRIES, UNMAPPED};
use types::{TYPE_CODES, TYPE_PLACES};

// How many numbers a record has.
pub const WORDS: usize = 48;

// Where the types begin after the answers; unmapped and mapped properties; where the marks begin.
pub const TYPES_AT: usize = 6;

pub const UNMAPPED_AT: usize = 37;

pub const MAPPED_AT: usize = 38;

pub const MARKS_AT: usize = 39;

// The largest number of a record.
pub const CEILING: u32 = 4294967295;

// No type below this one has a name, as 0 has none: that of a control which the scan of a later stream finds.
const FIRST_TYPE: u32 = 0x64;

const OTHER_TYPES: usize = 30;

// The refusals up to this one are TypeInfo's, and have no place.
const LAST_LEFT_OUT: usize = TOO_MANY_ENTRIES as usize;

// One more at a place. A number at the ceiling stays, and so does all where there is no such place.
#[tactic(auto, using(crate::proofs::BumpLaws::bump_up, crate::proofs::BumpLaws::bump_past))]
pub fn bump(words: &mut [u32], place: usize)
    ensures { words.new ≡ bump words.old place }
{
    if place < words.len() {
        words[place] = words[place].saturating_add(1);
    }
}

// The place of a type among those that are counted by name.
fn type_place(type_code: u32) -> usize
    ensures { result ≡ type_place type_code }
{
    if type_code < FIRST_TYPE {
        return OTHER_TYPES;
    }
    // Kept: two lists, since place_in looks a code up among codes alone.
    let codes = TYPE_CODES;
    let places = TYPE_PLACES;
    let i = place_in(&codes, type_code);
    places[i] as usize
}

// Counts a control by its type.
pub fn count_type(words: &mut [u32], type_code: u32)
    ensures { words.new ≡ bump words.old (types_at + type_place type_code) }
{
    bump(words, TYPES_AT + type_place(type_code));
}

// Where a property is counted as unmapped or mapped.
fn mapping_place(in_2000: bool, id: u32) -> usize
    ensures { result ≡ cond (in_2000 && leb 0x8000 id) 37 38 }
{
    if in_2000 && UNMAPPED <= id {
        UNMAPPED_AT
    } else {
        MAPPED_AT
    }
}

// Counts a property, unmapped or mapped and by its mark.
// Kept: `in_2000` is a Bool in property_places.
pub fn count_property(words: &mut [u32], in_2000: bool, p: Property)
    ensures { words.new ≡ bumps words.old (property_places in_2000 p) }
{
    let v = p.value;
    bump(words, mapping_place(in_2000, p.id));
    bump(words, MARKS_AT + v.mark as usize);
}

// Counts a stream by its answer's number: READ, or NO_READING to BAD_TABLE.
pub fn count_answer(words: &mut [u32], number: u32)
    ensures { words.new ≡ bump words.old (answer_place number) }
{
    let place = if number < NO_READING {
        0
    } else {
        number as usize - LAST_LEFT_OUT
    };
    bump(words, place);
}
