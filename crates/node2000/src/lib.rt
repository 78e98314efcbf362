// Writes an entry of an Access 2000 stream without its list: its control row, and its property rows.
#![tactic(auto)]

ghost use Rattle.std.specs.Prelude.{◌≡◌, cond};
ghost use Rattle.rules.specs.CodeTable.{header};
ghost use Rattle.rules.specs.Read2000.{is_report, type_code, name_id};
ghost use Rattle.node2000.specs.Nodes as nodes;

use codehints::{HINTS, find_scope};
use coderows::SCOPE_LIST_WORDS;
use codetable::is_header;
use numbers::{byte_at, u16_at};
use rows::{Nesting, Next, control_row, is_section, put_control};
use rules::SCOPE_ENTRY;
use run2000::{bit_or, properties};

// The id under which the name of a section stands, and of any other control.
const SECTION_NAME_ID: u8 = 0xDF;

const CONTROL_NAME_ID: u8 = 0xDC;

// Which byte tells a report, and by which value.
const OBJECT_BYTE: usize = 8;

const REPORT: u8 = 0x97;

// Joined by OR to a header code, of a form and of a report.
pub const FORM_HEADER: u32 = 0x1800;

pub const REPORT_HEADER: u32 = 0x1900;

fn name_id(entry_type: u16) -> u8
    ensures { result ≡ name_id entry_type }
{
    if is_section(entry_type as usize) {
        SECTION_NAME_ID
    } else {
        CONTROL_NAME_ID
    }
}

#[tactic(auto, unfolding(rules::specs::Read2000::is_report))]
pub fn is_report(s: &[u8]) -> bool
    ensures { result ≡ is_report s.now }
{
    byte_at(s, OBJECT_BYTE) == REPORT
}

fn header_mark(report: bool) -> u32
    ensures { result ≡ cond report 0x1900 0x1800 }
{
    if report { REPORT_HEADER } else { FORM_HEADER }
}

// Kept: `report` is a Bool in type_code of rules.
#[tactic(auto, unfolding(rules::specs::Read2000::type_code))]
pub fn type_code(table: &[u8], report: bool, entry_type: u16) -> u32
    ensures { result ≡ type_code (header table.now) report entry_type }
{
    if is_header(table, entry_type) {
        return bit_or(header_mark(report), entry_type as u32);
    }
    entry_type as u32
}

// Writes the entry at a cursor without its list: its property rows, and its control row.
pub fn put_node(
    table: &[u8],
    hints: &mut [u8; HINTS],
    scopes: &[u32; SCOPE_LIST_WORDS],
    s: &[u8],
    controls: &mut [u32],
    rows: &mut [u32],
    from: Next,
    nesting: Nesting,
) -> Next
    requires { nodes.NodeReady table.now scopes.now s.now controls.old rows.old from nesting }
    ensures { nodes.NodeDone table.now s.now controls.old rows.old from nesting controls.new rows.new result }
{
    let entry_type = u16_at(s, from.at);
    let body = find_scope(table, hints, scopes, SCOPE_ENTRY, entry_type);
    let own = properties(
        table,
        hints,
        body,
        s,
        from.at + 2,
        rows,
        from.property,
        name_id(entry_type),
    );
    let row = control_row(
        type_code(table, is_report(s), entry_type),
        own.name,
        from.control as u32,
        from.property as u32,
        (own.row - from.property) as u32,
        nesting,
    );
    put_control(controls, from.control, row);
    Next {
        at: own.at,
        control: from.control + 1,
        property: own.row,
    }
}
