// A walk over the entries of a tree in output order, by a loop. What it means stands in specs/.
#![tactic(auto)]

ghost use Rattle.std.specs.Prelude.{◌≡◌, ◌≤◌};
ghost use Rattle.rules.specs.Tree.{no_parent, levels};
ghost use Rattle.cursor.specs.Stack.{Before, Unwound, Moved};
ghost use Rattle.cursor.specs.Cursors.{cursor};

use rows::NO_PARENT;

// How many words the lent stack has: two for each level.
const LEVELS: usize = 256;

const LEVEL_WORDS: usize = 2;

pub const STACK_WORDS: usize = LEVELS * LEVEL_WORDS;

// Where a walk stands: before an entry, or at the end where `left` is 0. `level` is that of the innermost list that is open, `left` how many of
// its entries are left, and `parent` the row of the entry that holds it. The lists around it stand on a lent stack, two words for each level.
#[derive(Clone, Copy)]
pub struct Cursor {
    pub at: usize,
    pub level: usize,
    pub left: u32,
    pub parent: u32,
}

// Before the first of `n` entries of the top list, which start at `at`.
pub fn top(at: usize, n: u32) -> Cursor
    ensures { result ≡ cursor at 0 n no_parent }
{
    Cursor {
        at,
        level: 0,
        left: n,
        parent: NO_PARENT,
    }
}

// Closes the lists that have no entry left.
#[tactic(auto, using(crate::proofs::StackLaws::closing_more, crate::proofs::StackLaws::closed_last, crate::proofs::StackLaws::closed_some))]
fn unwound(stack: &[u32; STACK_WORDS], c: Cursor) -> Cursor
    requires { c.level ≤ levels }
    ensures { Unwound stack.now c result }
{
    let mut inner = c;
    for level in (0..c.level).rev() {
        if 0 < inner.left {
            break;
        }
        inner = Cursor {
            at: c.at,
            level,
            left: stack[level * LEVEL_WORDS],
            parent: stack[level * LEVEL_WORDS + 1],
        };
    }
    inner
}

// Goes on after the entry at `c`, which has row `row`, and whose list has `count` entries and starts at `next`.
#[tactic(auto, using(crate::proofs::StackLaws::moved_out))]
pub fn after_entry(
    stack: &mut [u32; STACK_WORDS],
    c: Cursor,
    row: u32,
    count: u32,
    next: usize,
) -> Cursor
    requires { Before stack.old c }
    ensures { Moved stack.old c row count next stack.new result }
{
    let left = c.left - 1;
    if count == 0 {
        return unwound(
            stack,
            Cursor {
                at: next,
                left,
                ..c
            },
        );
    }
    stack[c.level * LEVEL_WORDS] = left;
    stack[c.level * LEVEL_WORDS + 1] = c.parent;
    Cursor {
        at: next,
        level: c.level + 1,
        left: count,
        parent: row,
    }
}
