// How many rows to lend so that no stream of at most `length` bytes needs more. They are rows and not words, and fit 32 bits for every length.
#![tactic(auto)]

ghost use Rattle.std.specs.Prelude.{◌≡◌, ◌-◌};
ghost use Rattle.rules.specs.Room.{readable, room2000, room_later_lem, room_for, type_info_room_lem};

use rules::Room;

// The longest stream that is read, in bytes.
const LONGEST: u32 = rules::LONGEST as u32;

// The bytes of an Access 2000 stream that hold no row, and the fewest of an entry.
const HEAD_2000: u32 = 11;

const ENTRY_2000: u32 = 3;

// The same of a later stream, and the fewest of a property.
const HEAD_LATER: u32 = 14;

const PROPERTY_LATER: u32 = 18;

// The same of a TypeInfo stream, and the fewest of an entry.
const HEAD_INFO: u32 = 32;

const ENTRY_INFO: u32 = 8;

// A longer stream is refused before it needs a row.
fn readable(length: usize) -> u32
    ensures { result ≡ readable length }
{
    length.min(LONGEST as usize) as u32
}

// The bytes after the first `head` of them.
fn after_head(length: usize, head: u32) -> u32
    ensures { result ≡ readable length - head }
{
    readable(length).saturating_sub(head)
}

// For streams that the caller knows to be of the Access 2000 layout.
#[tactic(auto, unfolding(rules::specs::Room::room2000))]
pub fn room_2000(length: usize) -> Room
    ensures { result ≡ room2000 length }
{
    let n = after_head(length, HEAD_2000);
    Room {
        controls: n / ENTRY_2000,
        properties: n,
    }
}

// For streams that the caller knows to be of the later layout.
#[tactic(auto, unfolding(rules::specs::Room::room_later_lem))]
pub fn room_later(length: usize) -> Room
    ensures { result ≡ room_later_lem length }
{
    let n = after_head(length, HEAD_LATER) / PROPERTY_LATER;
    Room {
        controls: n,
        properties: n,
    }
}

// For streams of either layout: Access 2000 needs the more.
#[tactic(auto, unfolding(rules::specs::Room::room2000, rules::specs::Room::room_later_lem, rules::specs::Room::room_for))]
pub fn room_for(length: usize) -> Room
    ensures { result ≡ room_for length }
{
    room_2000(length)
}

// Rows of TypeInfo.
#[tactic(auto, unfolding(rules::specs::Room::type_info_room_lem))]
pub fn type_info_room(length: usize) -> u32
    ensures { result ≡ type_info_room_lem length }
{
    after_head(length, HEAD_INFO) / ENTRY_INFO
}
