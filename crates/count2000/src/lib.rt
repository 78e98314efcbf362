// Counts what an Access 2000 stream has.
#![tactic(auto)]

ghost use Rattle.std.specs.Prelude.{◌≡◌};
ghost use Rattle.rules.specs.Tree.{levels};
ghost use Rattle.rules.specs.Access2000.{entries_at, stream_of};
ghost use Rattle.rules.specs.Told.{told_as};
ghost use Rattle.rows.specs.Counting.{tally_top};
ghost use Rattle.count2000.specs.Told as told;

use numbers::u16_if_inside;
use rows::{Tally, is_section};
use walk2000::{Opens, head, run_at};

// Where the object's run starts.
pub const OBJECT_RUN: usize = 10;

// How many levels are left below the top list.
const BELOW_TOP: usize = 255;

// An entry with all below it. `kept` says whether it is reported at the top.
// Kept: a flag and no Option: the place after the entry is needed either way.
#[derive(Clone, Copy)]
struct EntryTally {
    kept: bool,
    tally: Tally,
}

// What a whole stream has: reported entries, property rows, and those of the object.
#[derive(Clone, Copy)]
pub struct StreamTally {
    pub controls: usize,
    pub props: usize,
    pub own: usize,
}

// The entry at `at`; `left` levels are left below it.
#[cycle(entry_list)]
#[tactic(auto, using(rules::proofs::ToldLaws::told_some, rules::proofs::ToldLaws::told_none, rules::proofs::ToldLaws::told_as_none, walk2000::proofs::Inverse::run_of, walk2000::proofs::Inverse::opens_plain, walk2000::proofs::Inverse::opens_listed, rows::proofs::TakenLaws::tally_of), unfolding(rules::specs::Access2000::entry_at, rules::specs::Access2000::close_at))]
fn entry(s: &[u8], at: usize, left: usize) -> Option<EntryTally>
    ensures { told.EntryRead s.now at left result }
{
    let entry_type = u16_if_inside(s, at)?;
    let own = run_at(s, at + 2)?;
    match head(s, own.next)? {
        Opens::Plain { next } => Some(EntryTally {
            kept: is_section(entry_type),
            tally: Tally {
                controls: 1,
                props: own.count,
                next,
            },
        }),
        Opens::Listed { count, next } => {
            let below = list(s, next, count, left)?;
            Some(EntryTally {
                kept: true,
                tally: Tally {
                    controls: 1 + below.controls,
                    props: own.count + below.props,
                    next: below.next,
                },
            })
        }
    }
}

// `n` entries from `at` on, with `left` levels left: with none left there may be no entry.
#[cycle(entry_list)]
#[tactic(auto, using(crate::proofs::Lists::list_all, crate::proofs::Lists::list_deep, crate::proofs::Lists::list_bad, crate::proofs::Lists::list_more, crate::proofs::Entries::entry_room))]
fn list(s: &[u8], at: usize, n: usize, left: usize) -> Option<Tally>
    ensures { told.ListRead s.now at n left result }
{
    let mut all = Tally {
        controls: 0,
        props: 0,
        next: at,
    };
    for _ in 0..n {
        let one = entry(s, all.next, left.checked_sub(1)?)?.tally;
        all = Tally {
            controls: all.controls + one.controls,
            props: all.props + one.props,
            next: one.next,
        };
    }
    Some(all)
}

// The top list, of which only some entries are reported.
#[tactic(auto, using(crate::proofs::Lists::top_all, crate::proofs::Lists::top_refused, crate::proofs::Lists::top_kept, crate::proofs::Lists::top_left, crate::proofs::Entries::entry_room))]
fn top(s: &[u8], at: usize, n: usize) -> Option<Tally>
    ensures { result ≡ tally_top (entries_at levels s.now n at) }
{
    let mut all = Tally {
        controls: 0,
        props: 0,
        next: at,
    };
    for _ in 0..n {
        let e = entry(s, all.next, BELOW_TOP)?;
        if e.kept {
            all.controls += e.tally.controls;
            all.props += e.tally.props;
        }
        all.next = e.tally.next;
    }
    Some(all)
}

// Counts a whole stream: the object's run, the top list, and no byte more.
#[tactic(auto, using(rules::proofs::ToldLaws::told_as_none, walk2000::proofs::Inverse::run_of, walk2000::proofs::Inverse::opens_plain, walk2000::proofs::Inverse::opens_listed, rows::proofs::TakenLaws::top_of), unfolding(rules::specs::Access2000::stream_of))]
pub fn count(s: &[u8]) -> Option<StreamTally>
    ensures { result ≡ told_as told.stream_tally (stream_of s.now) }
{
    let own = run_at(s, OBJECT_RUN)?;
    let Opens::Listed { count, next } = head(s, own.next)? else {
        return None;
    };
    let all = top(s, next, count)?;
    if all.next != s.len() {
        return None;
    }
    Some(StreamTally {
        controls: all.controls,
        props: own.count + all.props,
        own: own.count,
    })
}
