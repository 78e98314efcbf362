// The later layout's reader: a stream counted, then written as rows.
#![tactic(auto)]

ghost use Rattle.std.specs.Prelude.{◌≡◌, ◌-◌, ◌≤◌, length};
ghost use Rattle.std.proofs.Math.Option.{some};
ghost use Rattle.rules.specs.Answer.{longest};
ghost use Rattle.rules.specs.Tree.{levels};
ghost use Rattle.rules.specs.Later.{property_at, nodes_at};
ghost use Rattle.rules.specs.ReadLater.{property_of, text_name_lem, name_by_lem, read_later_lem};
ghost use Rattle.rows.specs.Get.{properties_from};
ghost use Rattle.rows.specs.Writing.{state};
ghost use Rattle.rows.specs.Acts.{top_nodes};
ghost use Rattle.rows.specs.Judge.{Written, Exits};
ghost use Rattle.countlater.specs.Count.{whole_tree};
ghost use Rattle.later.specs.Write.{name_among, next_of, PropertyInside, GroupReady, GroupDone, NodesReady, NodesDone, ScanReady, ScanDone, BlobReady};

use countlater::{GROUP_AT, Group, OBJECT_AT, VALUE_AT, count, ends_group, parse_entry};
use cursor::{STACK_WORDS, top};
use cursorlater::{past, reported};
use matchlater::{MATCH_SIZE, find_match};
use numbers::{u16_at, u32_at};
use propvalue::entry_value;
use rows::{
    NO_PARENT, Nesting, Next, control_row, counted, get_id, get_property, judge, put_control,
    put_property,
};
use rules::{Answer, MARK_LOOSE, MARK_TEXT, Name, Property, READ};

// Where a property's type stands, from its start on.
const TYPE_AT: usize = 2;

// The id of a control's name.
const NAME_ID: u32 = 0x14;

// A property of a group, and the group as far as it.
#[derive(Clone, Copy)]
pub struct NextProperty {
    pub property: Property,
    pub group: Group,
}

// The property after those of `group`, which reaches to `limit` at most; none where a trailer ended the group, or the property isn't inside.
// Inlined, as `parse_entry` is: a call hands what it found on through memory, and small properties take up to twice as long.
#[inline(always)]
pub fn next_property(s: &[u8], limit: usize, group: Group) -> Option<NextProperty>
    requires inside { limit ≤ length s.now }
    requires small { length s.now ≤ longest }
    requires few { group.count ≤ group.stop }
    ensures { result ≡ next_of s.now limit group.count group.stop group.trailer }
{
    if group.trailer.is_some() {
        return None;
    }
    let entry = parse_entry(s, limit, group.stop)?;
    let trailer = if ends_group(entry.trailer) {
        Some(entry.trailer)
    } else {
        None
    };
    Some(NextProperty {
        property: property_at(s, group.stop, entry.size),
        group: Group {
            count: group.count + 1,
            stop: entry.next,
            trailer,
        },
    })
}

// The property at `at`, whose value has `size` bytes.
pub fn property_at(s: &[u8], at: usize, size: usize) -> Property
    requires { PropertyInside s.now at size }
    ensures { result ≡ property_of s.now (property_at s.now at) }
{
    let start = at + VALUE_AT;
    let end = start + size;
    let value = entry_value(u32_at(s, at + TYPE_AT), &s[start..end]);
    Property {
        id: u16_at(s, at) as u32,
        value,
        start: start as u32,
        size: size as u32,
    }
}

// The name that a Text property gives.
fn text_name(q: Property) -> Name
    ensures { result ≡ text_name_lem q }
{
    let v = q.value;
    if v.mark == MARK_TEXT {
        return Name::Text {
            start: q.start,
            size: q.size,
        };
    }
    Name::Loose {
        start: q.start,
        size: q.size,
    }
}

// The name that the first property 0x0014 of a node gives.
fn name_by(q: Property) -> Name
    ensures { result ≡ name_by_lem q }
{
    let v = q.value;
    if v.mark == MARK_TEXT || v.mark == MARK_LOOSE {
        return text_name(q);
    }
    Name::Numbered
}

// The name of a node whose property rows are those from `first` to `end`.
fn node_name(rows: &[u32], first: usize, end: usize) -> Name
    requires { end ≤ longest }
    ensures { result ≡ name_among (properties_from rows.now first (end - first)) }
{
    for i in first..end {
        if get_id(rows, i as u32) == NAME_ID {
            return name_by(get_property(rows, i as u32));
        }
    }
    Name::Numbered
}

// Writes a row for each property of the group at `at`, from row `first` on.
fn write_group(s: &[u8], limit: usize, at: usize, rows: &mut [u32], first: usize) -> Group
    requires { GroupReady s.now limit at (length rows.old) first }
    ensures { GroupDone s.now limit at rows.old first rows.new result }
{
    let mut group = Group {
        count: 0,
        stop: at,
        trailer: None,
    };
    while let Some(next) = next_property(s, limit, group) {
        put_property(rows, first + group.count, next.property);
        group = next.group;
    }
    group
}

// Writes the reported of the `n` top nodes from `at` on, with all below them.
fn write_sections(
    s: &[u8],
    n: u32,
    at: usize,
    controls: &mut [u32],
    properties: &mut [u32],
    property: usize,
) -> Next
    requires { NodesReady s.now (top_nodes (nodes_at levels s.now n at)) (state controls.old 0 properties.old property) }
    ensures { NodesDone s.now (top_nodes (nodes_at levels s.now n at)) (state controls.old 0 properties.old property) controls.new properties.new result }
{
    let mut stack = [0; STACK_WORDS];
    let mut c = reported(s, top(at, n));
    let mut i: usize = 0;
    let mut j = property;
    while 0 < c.left {
        let w = write_group(s, s.len(), c.at + GROUP_AT, properties, j);
        let end = j + w.count;
        let row = control_row(
            u16_at(s, c.at) as u32,
            node_name(properties, j, end),
            i as u32,
            j as u32,
            w.count as u32,
            Nesting {
                level: c.level as u32,
                parent: c.parent,
            },
        );
        put_control(controls, i, row);
        c = reported(s, past(s, &mut stack, c, i as u32, w));
        i += 1;
        j = end;
    }
    Next {
        at: c.at,
        control: i,
        property: j,
    }
}

// Writes what the scan from `from` on finds: a group's first property is its control's name.
fn write_scanned(
    s: &[u8],
    from: usize,
    controls: &mut [u32],
    properties: &mut [u32],
    property: usize,
) -> Next
    requires { ScanReady s.now from (state controls.old 0 properties.old property) }
    ensures { ScanDone s.now from (state controls.old 0 properties.old property) controls.new properties.new result }
{
    let mut a = find_match(s, from);
    let mut i: usize = 0;
    let mut j = property;
    while a < s.len() {
        let limit = find_match(s, a + MATCH_SIZE);
        let w = write_group(s, limit, a, properties, j);
        if 0 < w.count {
            let row = control_row(
                0,
                text_name(get_property(properties, j as u32)),
                i as u32,
                j as u32,
                w.count as u32,
                Nesting {
                    level: 0,
                    parent: NO_PARENT,
                },
            );
            put_control(controls, i, row);
            i += 1;
            j += w.count;
        }
        a = limit;
    }
    Next {
        at: a,
        control: i,
        property: j,
    }
}

// Writes the tree after the object's group.
fn write_tree(
    s: &[u8],
    own: Group,
    controls: &mut [u32],
    properties: &mut [u32],
    property: usize,
) -> Next
    requires { NodesReady s.now (top_nodes (whole_tree s.now own)) (state controls.old 0 properties.old property) }
    ensures { NodesDone s.now (top_nodes (whole_tree s.now own)) (state controls.old 0 properties.old property) controls.new properties.new result }
{
    match own.children(s) {
        Some(top) => write_sections(
            s,
            top.count as u32,
            top.next,
            controls,
            properties,
            property,
        ),
        None => Next {
            at: own.stop,
            control: 0,
            property,
        },
    }
}

// Writes a stream of 14 bytes or more: the object's properties, then its controls.
// Kept: `tree` is what count found; two functions would be chosen by the same test.
fn write_blob(s: &[u8], tree: bool, controls: &mut [u32], properties: &mut [u32])
    requires { BlobReady s.now tree controls.old properties.old }
    ensures { Written (read_later_lem s.now) controls.old properties.old controls.new properties.new }
{
    let w = write_group(s, s.len(), OBJECT_AT, properties, 0);
    if tree {
        write_tree(s, w, controls, properties, w.count);
    } else {
        write_scanned(s, w.stop, controls, properties, w.count);
    }
}

// Counts a stream, then writes its rows if there is room for them.
pub fn read(stream: &[u8], controls: &mut [u32], properties: &mut [u32]) -> Answer
    requires { length stream.now ≤ longest }
    ensures { Exits (some (read_later_lem stream.now)) controls.old properties.old result controls.new properties.new }
{
    if stream.len() < OBJECT_AT {
        return counted(READ, 0, 0, 0);
    }
    let n = count(stream);
    let a = judge(
        n.controls,
        n.own + n.props,
        n.own,
        controls.len(),
        properties.len(),
    );
    if a.number != READ {
        return a;
    }
    write_blob(stream, n.tree, controls, properties);
    a
}
