// A walk over the entries of an Access 2000 stream that fits a reading, by a loop.
#![tactic(auto)]

ghost use Rattle.rules.specs.Tree.{is_reported};
ghost use Rattle.cursor.specs.Cursors.{Passed, PastReady, Past};
ghost use Rattle.cursor2000.specs.Steps.{step_at, list_at_lem, Skips};

use cursor::{Cursor, STACK_WORDS, after_entry};
use numbers::u16_if_inside;
use rows::is_section;
use walk2000::{Opens, head, run_at};

// The place after an entry of the top list that is skipped: it has no list, and no type of a section, so its run is all there is to walk.
fn skip(s: &[u8], at: usize) -> Option<usize>
    ensures { Skips s.now at result }
{
    let entry_type = u16_if_inside(s, at)?;
    if is_section(entry_type) {
        return None;
    }
    let run = run_at(s, at + 2)?;
    match head(s, run.next)? {
        Opens::Plain { next } => Some(next),
        Opens::Listed { .. } => None,
    }
}

// Skips the entries of the top list that aren't reported.
pub fn reported(s: &[u8], c: Cursor) -> Cursor
    ensures { Passed (step_at s.now) is_reported c result }
{
    if 0 < c.level {
        return c;
    }
    let mut here = c;
    for left in (0..c.left).rev() {
        let Some(at) = skip(s, here.at) else {
            break;
        };
        here = Cursor { at, left, ..c };
    }
    here
}

// Goes on after the entry at `c`, which has row `row`, and whose run ends at `run`.
#[tactic(auto, using(rules::proofs::ToldLaws::told_as_none, walk2000::proofs::Inverse::opens_plain, walk2000::proofs::Inverse::opens_listed), unfolding(crate::specs::Steps::list_at_lem))]
pub fn past(s: &[u8], stack: &mut [u32; STACK_WORDS], c: Cursor, row: u32, run: usize) -> Cursor
    requires { PastReady stack.old c (list_at_lem s.now run) }
    ensures { Past stack.old c row (list_at_lem s.now run) stack.new result }
{
    match head(s, run) {
        Some(Opens::Plain { next }) => after_entry(stack, c, row, 0, next),
        Some(Opens::Listed { count, next }) => after_entry(stack, c, row, count as u32, next),
        None => c,
    }
}
