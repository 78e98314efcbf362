// The comma-separated text of a Blob by its rows: the header, the object's records, then each control's in turn.
#![tactic(auto)]

ghost use Rattle.text.specs.Writer.{Wrote};
ghost use Rattle.rules.specs.Rows.{property_width, row_at};
ghost use Rattle.rows.specs.Get.{PropertyOf};
ghost use Rattle.csvrows.specs.Rows.{tails_text, rows_text, controls_text, slices_text, RowsReady, OwnedReady, ControlsReady};

use csvrecord::{Owner, put_header, put_owner, put_record};
use names::HINTS;
use rows::{PROPERTY_WIDTH, get_control, get_property};
use rules::{Property, Value};

// So many property rows, from one on.
#[derive(Clone, Copy)]
pub struct Run {
    pub first: u32,
    pub count: u32,
}

// No owner's fields are longer: a number of ten digits, a type code of four, two commas.
const OWNER_MOST: usize = 16;

// Property row `i`, whose words are most often there.
fn row_of(rows: &[u32], i: u32) -> Property
    ensures { PropertyOf (row_at property_width i rows.now) result }
{
    let at = (i as usize) * PROPERTY_WIDTH;
    if at + 5 < rows.len() {
        return Property {
            id: rows[at],
            value: Value {
                mark: rows[at + 1],
                low: rows[at + 2],
                high: rows[at + 3],
            },
            start: rows[at + 4],
            size: rows[at + 5],
        };
    }
    get_property(rows, i)
}

// The records of property rows of one owner, each with the owner's fields before it.
fn put_rows(
    out: &mut [u8],
    at: usize,
    index: &[u32],
    letters: &[u8],
    hints: &mut [u8; HINTS],
    stream: &[u8],
    owner: &[u8],
    rows: &[u32],
    run: Run,
) -> usize
    requires { RowsReady index.now letters.now run.first run.count }
    ensures { Wrote out.old at (tails_text stream.now owner.now rows.now run.first run.count) out.new result }
{
    let mut p = at;
    let end = run.first + run.count;
    for i in run.first..end {
        let shown = row_of(rows, i);
        p = put_record(out, p, index, letters, hints, stream, owner, shown);
    }
    p
}

// The records of property rows of one owner. The owner's fields are written once, and then copied.
fn put_owned(
    out: &mut [u8],
    at: usize,
    index: &[u32],
    letters: &[u8],
    hints: &mut [u8; HINTS],
    stream: &[u8],
    owner: Owner,
    rows: &[u32],
    run: Run,
) -> usize
    requires { OwnedReady index.now letters.now owner run }
    ensures { Wrote out.old at (rows_text stream.now owner rows.now run.first run.count) out.new result }
{
    let mut fields = [0; OWNER_MOST];
    let size = put_owner(&mut fields, 0, owner);
    put_rows(
        out,
        at,
        index,
        letters,
        hints,
        stream,
        &fields[..size],
        rows,
        run,
    )
}

// The records of `count` controls, whose property rows begin at row `first`.
fn put_controls(
    out: &mut [u8],
    at: usize,
    index: &[u32],
    letters: &[u8],
    stream: &[u8],
    controls: &[u32],
    count: u32,
    rows: &[u32],
    first: u32,
) -> usize
    requires { ControlsReady index.now letters.now controls.now count first }
    ensures { Wrote out.old at (controls_text stream.now controls.now rows.now 0 count first) out.new result }
{
    let mut p = at;
    let mut next = first;
    let mut hints = [0; HINTS];
    for n in 0..count {
        let control = get_control(controls, n);
        let owner = Owner::Control {
            number: n,
            type_code: control.type_code,
        };
        let run = Run {
            first: next,
            count: control.count,
        };
        p = put_owned(out, p, index, letters, &mut hints, stream, owner, rows, run);
        next += control.count;
    }
    p
}

// The whole text, from the start of `out` on: `count` controls, and `own` rows of the object.
pub fn put_sheet(
    out: &mut [u8],
    index: &[u32],
    letters: &[u8],
    stream: &[u8],
    controls: &[u32],
    count: u32,
    rows: &[u32],
    own: u32,
) -> usize
    requires { ControlsReady index.now letters.now controls.now count own }
    ensures { Wrote out.old 0 (slices_text stream.now controls.now count rows.now own) out.new result }
{
    let mut hints = [0; HINTS];
    let run = Run {
        first: 0,
        count: own,
    };
    let p = put_header(out, 0);
    let p = put_owned(
        out,
        p,
        index,
        letters,
        &mut hints,
        stream,
        Owner::Object,
        rows,
        run,
    );
    put_controls(out, p, index, letters, stream, controls, count, rows, own)
}
