// What a code table that a caller lends ties an id to: the rows of a scope, and the row of an id.
#![tactic(auto)]

ghost use Rattle.std.specs.Prelude.{◌≡◌, ◌+◌, ◌*◌, ◌<◌, ◌^◌, length, IfSome};
ghost use Rattle.rules.specs.Lists.{find};
ghost use Rattle.rules.specs.CodeTable as t;
ghost use Rattle.coderows.specs.Look.{Listed, Seeks, SeeksListed, Wanted, Finds, Sorted, no_rows, as_row};

use codetable::{
    CODE_AT, CODE_SIZE, CODES, HEADER_AT, HEADER_COUNT_AT, MOST_SCOPES, ROW_COUNT_AT, ROW_SIZE,
    SCOPE_COUNT_AT, SCOPE_SIZE, read_row,
};
use numbers::{byte_number, u16_number};

// The words that a list of scopes has for each, and for all that a table may have.
pub const LISTED_WORDS: usize = 3;

pub const SCOPE_LIST_WORDS: usize = LISTED_WORDS * MOST_SCOPES;

// After the word of a scope's kind and code stands where its rows start, and then how many they are.
const LISTED_START_AT: usize = 1;

const LISTED_COUNT_AT: usize = 2;

// Where the rows of a scope are, and how many. A scope that is missing has none.
#[derive(Clone, Copy)]
pub struct Body {
    pub start: u32,
    pub count: u32,
}

// A scope's rows, and the scope at which to look first for them the next time.
#[derive(Clone, Copy)]
pub struct Scope {
    pub body: Body,
    pub near: usize,
}

// What a row ties its id to: the target, and the kind of the value.
#[derive(Clone, Copy)]
pub struct Tie {
    pub target: u16,
    pub kind: u8,
}

// What rows say of an id, and the row at which to look first for it the next time.
#[derive(Clone, Copy)]
pub struct Sought {
    pub row: Option<Tie>,
    pub near: usize,
}

// Which of n scopes has the wanted kind and code, by halves, where these ascend.
fn seek_scope(table: &[u8], contents: usize, n: usize, wanted: usize) -> Option<usize>
    requires { contents + 5 * n < 2 ^ 32 }
    ensures { Seeks table.now contents n wanted result }
{
    // Kept: binary_search takes a slice of what is looked through; these keys stand in bytes, perhaps past the table's end.
    let mut first = 0;
    let mut scopes = n;
    while 0 < scopes {
        let half = scopes / 2;
        let mid = first + half;
        let at = contents + SCOPE_SIZE * mid;
        let key = byte_number(table, at) * CODES + u16_number(table, at + CODE_AT);
        if key == wanted {
            return Some(mid);
        }
        if key < wanted {
            first = mid + 1;
            scopes = scopes - half - 1;
        } else {
            scopes = half;
        }
    }
    None
}

// Writes what the contents say of each scope, 64 at most, in three words: its kind and code as one number, where its rows start, and how many they are.
pub fn list_scopes(table: &[u8], scopes: &mut [u32])
    requires { length scopes.old ≡ 192 }
    ensures { Listed table.now scopes.new }
{
    let listed = u16_number(table, SCOPE_COUNT_AT);
    let contents = HEADER_AT + CODE_SIZE * byte_number(table, HEADER_COUNT_AT);
    let mut body = contents + SCOPE_SIZE * listed;
    for i in 0..listed.min(MOST_SCOPES) {
        let at = contents + SCOPE_SIZE * i;
        let key = byte_number(table, at) * CODES + u16_number(table, at + CODE_AT);
        let count = u16_number(table, at + ROW_COUNT_AT);
        let k = LISTED_WORDS * i;
        scopes[k] = key as u32;
        scopes[k + LISTED_START_AT] = body as u32;
        scopes[k + LISTED_COUNT_AT] = count as u32;
        body += ROW_SIZE * count;
    }
}

// Which of n listed scopes has the wanted kind and code: one is looked at first.
fn find_index(
    table: &[u8],
    scopes: &[u32; SCOPE_LIST_WORDS],
    n: usize,
    wanted: usize,
    near: usize,
) -> Option<usize>
    requires { Wanted n wanted }
    ensures { SeeksListed table.now scopes.now n wanted result }
{
    if near < n && scopes[LISTED_WORDS * near] == wanted as u32 {
        return Some(near);
    }
    seek_scope(
        table,
        HEADER_AT + CODE_SIZE * byte_number(table, HEADER_COUNT_AT),
        n,
        wanted,
    )
}

fn missing(near: usize) -> Scope
    ensures { result.body ≡ no_rows }
{
    Scope {
        body: Body { start: 0, count: 0 },
        near,
    }
}

// Where the rows of a scope are, in a well-formed table with these scopes. Any scope may be told as near: it is looked at first.
pub fn scope_near(
    table: &[u8],
    scopes: &[u32; SCOPE_LIST_WORDS],
    scope_kind: u8,
    code: u16,
    near: usize,
) -> Scope
    ensures { Listed table.now scopes.now → Finds table.now scope_kind code result.body }
{
    let listed = u16_number(table, SCOPE_COUNT_AT);
    if MOST_SCOPES < listed {
        return missing(near);
    }
    let wanted = scope_kind as usize * CODES + code as usize;
    let Some(index) = find_index(table, scopes, listed, wanted, near) else {
        return missing(near);
    };
    let k = LISTED_WORDS * index;
    Scope {
        body: Body {
            start: scopes[k + LISTED_START_AT],
            count: scopes[k + LISTED_COUNT_AT],
        },
        near: index,
    }
}

// What n rows say of an id, where the ids ascend: by halves.
pub fn seek_row(table: &[u8], start: usize, n: usize, wanted: usize) -> Sought
    requires { start + 4 * n < 2 ^ 60 }
    ensures { Sorted (t.ties_at table.now start n) → result.row ≡ as_row (find (t.is_tied wanted) (t.ties_at table.now start n)) }
{
    // Kept: binary_search takes a slice of what is looked through; these ids stand in bytes, perhaps past the table's end.
    let mut at = start;
    let mut rows = n;
    while 0 < rows {
        let half = rows / 2;
        let mid = at + ROW_SIZE * half;
        let row = read_row(table, mid);
        let id = row.id;
        if id == wanted {
            return Sought {
                row: Some(Tie {
                    target: row.target as u16,
                    kind: row.kind as u8,
                }),
                near: (mid - start) / ROW_SIZE,
            };
        }
        if id < wanted {
            at = mid + ROW_SIZE;
            rows = rows - half - 1;
        } else {
            rows = half;
        }
    }
    Sought {
        row: None,
        near: (at - start) / ROW_SIZE,
    }
}

// What the row `near` of n rows tells of an id, if it does: it ties it, or it is above and the one before it below.
// None says that it tells nothing, Some(None) that no row ties the id.
pub fn row_near(
    table: &[u8],
    start: usize,
    n: usize,
    wanted: usize,
    near: usize,
) -> Option<Option<Tie>>
    requires { start + 4 * n < 2 ^ 60 }
    ensures { IfSome result (λ row. Sorted (t.ties_at table.now start n) → row ≡ as_row (find (t.is_tied wanted) (t.ties_at table.now start n))) }
{
    if n <= near {
        return None;
    }
    let mid = start + ROW_SIZE * near;
    let row = read_row(table, mid);
    if row.id == wanted {
        return Some(Some(Tie {
            target: row.target as u16,
            kind: row.kind as u8,
        }));
    }
    if row.id < wanted {
        return None;
    }
    if near == 0 {
        return Some(None);
    }
    if byte_number(table, mid - ROW_SIZE) < wanted {
        return Some(None);
    }
    None
}
