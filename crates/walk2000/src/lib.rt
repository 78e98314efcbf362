// Reads the parts of an Access 2000 stream: a value, a run, and what stands after a run. A cursor is a place in the stream, by value.
#![tactic(auto)]

ghost use Rattle.std.specs.Prelude.{◌≡◌, ◌<◌, length};
ghost use Rattle.rules.specs.Access2000.{length_at, extent_at, property_at, run_at, head_at_lem};
ghost use Rattle.rules.specs.Told.{told_as};
ghost use Rattle.walk2000.specs.Told as told;

use numbers::u16_if_inside;
use propvalue::value_size;

// What stands after a run: the entry's end, a list of one entry, or a list whose count follows. A run ends before any of them.
pub const ENTRY_END: u8 = 0xFD;

const LIST_OF_ONE: u8 = 0xFE;

const LIST: u8 = 0xFF;

// A length of two bytes follows; every other byte is the length.
const LONG_LENGTH: u8 = 0xFF;

// Where a value's bytes stand.
#[derive(Clone, Copy)]
pub struct Extent {
    pub start: usize,
    pub size: usize,
}

// How many properties a run has, and the place after it.
#[derive(Clone, Copy)]
pub struct Run {
    pub count: usize,
    pub next: usize,
}

// What stands after a run: the end of an entry, or a list.
#[derive(Clone, Copy)]
pub enum Opens {
    Plain { next: usize },
    Listed { count: usize, next: usize },
}

// The length at `at`, and where the bytes after it start. FD and FE are numbers here, as any other below FF.
#[tactic(auto, using(rules::proofs::ToldLaws::told_some, rules::proofs::ToldLaws::told_none), unfolding(rules::specs::Access2000::length_at, rules::specs::Bytes::byte_at))]
fn length_at(s: &[u8], at: usize) -> Option<Extent>
    ensures { result ≡ told_as told.extent (length_at s.now at) }
{
    let n = *s.get(at)?;
    let start = at + 1;
    if n == LONG_LENGTH {
        let size = u16_if_inside(s, start)?;
        return Some(Extent {
            start: start + 2,
            size,
        });
    }
    Some(Extent {
        start,
        size: usize::from(n),
    })
}

#[tactic(auto, unfolding(rules::specs::Access2000::extent_at, propvalue::specs::Sized::size_of))]
fn extent_at(s: &[u8], id: u8, at: usize) -> Option<Extent>
    ensures { result ≡ told_as told.extent (extent_at s.now id at) }
{
    match value_size(id) {
        Some(size) => Some(Extent { start: at, size }),
        None => length_at(s, at),
    }
}

// The value of the property at `at`, where one starts there.
#[tactic(auto, using(crate::proofs::Extents::told_near, rules::proofs::ToldLaws::told_as_some, rules::proofs::ToldLaws::told_as_none), unfolding(rules::specs::Access2000::property_at))]
pub fn value(s: &[u8], at: usize) -> Option<Extent>
    requires { at < length s.now }
    ensures { result ≡ told_as told.value (property_at s.now at) }
{
    let v = extent_at(s, s[at], at + 1)?;
    if s.len() < v.start + v.size {
        return None;
    }
    Some(v)
}

// The run at `at`: up to the next FD, FE or FF, or the end.
#[tactic(auto, using(crate::proofs::Runs::passed_none, crate::proofs::Runs::passed_stop, crate::proofs::Runs::passed_bad, crate::proofs::Runs::ends, rules::proofs::Access2000Laws::past_end), unfolding(rules::specs::Access2000::goes_on_lem))]
pub fn run_at(s: &[u8], at: usize) -> Option<Run>
    ensures { result ≡ told_as told.run (run_at s.now at) }
{
    let mut next = at;
    let mut count = 0;
    while next < s.len() && s[next] < ENTRY_END {
        let v = value(s, next)?;
        next = v.start + v.size;
        count += 1;
    }
    Some(Run { count, next })
}

#[tactic(auto, using(rules::proofs::ToldLaws::told_some, rules::proofs::ToldLaws::told_none), unfolding(rules::specs::Access2000::head_at_lem, rules::specs::Bytes::byte_at))]
pub fn head(s: &[u8], at: usize) -> Option<Opens>
    ensures { result ≡ told_as told.head (head_at_lem s.now at) }
{
    let b = *s.get(at)?;
    let next = at + 1;
    match b {
        ENTRY_END => Some(Opens::Plain { next }),
        LIST_OF_ONE => Some(Opens::Listed { count: 1, next }),
        LIST => {
            let count = u16_if_inside(s, next)?;
            Some(Opens::Listed {
                count,
                next: next + 2,
            })
        }
        _ => None,
    }
}
