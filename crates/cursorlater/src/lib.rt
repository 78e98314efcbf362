// A walk over the nodes of a later stream that fits a tree, by a loop.
#![tactic(auto)]

ghost use Rattle.rules.specs.Tree.{is_reported};
ghost use Rattle.countlater.specs.Count.{behind};
ghost use Rattle.cursor.specs.Cursors.{Passed, PastReady, Past};
ghost use Rattle.cursorlater.specs.Steps.{step_at};

use countlater::{Group, top_node_at};
use cursor::{Cursor, STACK_WORDS, after_entry};

// Passes over the top nodes that aren't reported.
pub fn reported(s: &[u8], c: Cursor) -> Cursor
    ensures { Passed (step_at s.now) is_reported c result }
{
    if 0 < c.level {
        return c;
    }
    let mut at = c.at;
    for left in (0..c.left).rev() {
        match top_node_at(s, at) {
            Some(next) => at = next,
            None => {
                return Cursor {
                    at,
                    left: left + 1,
                    ..c
                };
            }
        }
    }
    Cursor { at, left: 0, ..c }
}

// Goes on after the node at `c`, which has row `row`, and this group.
pub fn past(s: &[u8], stack: &mut [u32; STACK_WORDS], c: Cursor, row: u32, group: Group) -> Cursor
    requires { PastReady stack.old c (behind s.now group) }
    ensures { Past stack.old c row (behind s.now group) stack.new result }
{
    match group.children(s) {
        Some(below) => after_entry(stack, c, row, below.count as u32, below.next),
        None => c,
    }
}
