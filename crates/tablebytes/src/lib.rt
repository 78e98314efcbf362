// The bytes of a code table: a row as it is read, a row and a scope's place in the contents as they are written into a lent buffer.
#![tactic(auto)]

ghost use Rattle.std.specs.Prelude.{◌≡◌, ◌∷◌, ◌++◌, ◌+◌, ◌<◌, ◌^◌};
ghost use Rattle.rules.specs.CodeTable.{tie_at};
ghost use Rattle.rules.specs.Bytes.{two_bytes_lem};
ghost use Rattle.rules.specs.Join.{tie_bytes};
ghost use Rattle.text.specs.Writer.{Wrote};
ghost use Rattle.tablebytes.specs.Rows.{tie_of};

use codetable::read_row;
use text::put_byte;

#[derive(Clone, Copy)]
pub struct Row {
    pub id: u8,
    pub target: u16,
    pub kind: u8,
}

pub fn row_at(table: &[u8], at: usize) -> Row
    requires { at + 3 < 2 ^ 60 }
    ensures { tie_of result ≡ tie_at table.now at }
{
    let row = read_row(table, at);
    Row {
        id: row.id as u8,
        target: row.target as u16,
        kind: row.kind as u8,
    }
}

// Two bytes, the low byte first.
pub fn put_two(out: &mut [u8], at: usize, n: u16) -> usize
    ensures { Wrote out.old at (two_bytes_lem n) out.new result }
{
    let [low, high] = n.to_le_bytes();
    let p = put_byte(out, at, low);
    put_byte(out, p, high)
}

pub fn put_row(out: &mut [u8], at: usize, id: u8, target: u16, kind: u8) -> usize
    ensures { Wrote out.old at (tie_bytes (record { id = id; target = target; kind = kind })) out.new result }
{
    let p = put_byte(out, at, id);
    let p = put_two(out, p, target);
    put_byte(out, p, kind)
}

pub fn put_scope(out: &mut [u8], at: usize, kind: u8, code: u16, rows: u16) -> usize
    ensures { Wrote out.old at (kind ∷ two_bytes_lem code ++ two_bytes_lem rows) out.new result }
{
    let p = put_byte(out, at, kind);
    let p = put_two(out, p, code);
    put_two(out, p, rows)
}
