// Counts what a stream of the later layout has: groups, nodes and the scan.
#![tactic(auto)]

ghost use Rattle.std.specs.Prelude.{◌≡◌, ◌+◌, ◌≤◌, length};
ghost use Rattle.rules.specs.Later.{ends_group, group_at, children_at, nodes_at};
ghost use Rattle.rows.specs.Counting.{tally1, tally, tally_top};
ghost use Rattle.countlater.specs.Count.{extent, group, children, behind, head, one_node, top_node, whole_tree, ScanCounted, CountedBy, Counted};

use matchlater::{MATCH_SIZE, find_match};
use numbers::{u16_at, u32_at};
use rows::{Tally, is_section};

// A property's parts, from its start on: id, type, 4 bytes, length, value, trailer. Where its length and its value stand, and the bytes that it has beside its value.
const LENGTH_AT: usize = 10;

pub const VALUE_AT: usize = 14;

const TRAILER_SIZE: usize = 4;

const PROPERTY_LEAST: usize = 18;

// The trailers that end a group: no children, one child, a count that follows.
const NO_CHILD: u32 = 253;

const ONE_CHILD: u32 = 254;

const MANY_CHILDREN: u32 = 255;

// Where the object's group starts, and where a node's does, from the node on.
pub const OBJECT_AT: usize = 14;

pub const GROUP_AT: usize = 6;

// How many levels there may be below a top node.
const BELOW_TOP: usize = 255;

// ---- properties and groups
// A property inside its group: its value's size, where the next one starts, and its trailer.
#[derive(Clone, Copy)]
pub struct Extent {
    pub size: usize,
    pub next: usize,
    pub trailer: u32,
}

// How many properties a group has, where they stop, and the trailer that ended it, if one did.
#[derive(Clone, Copy)]
pub struct Group {
    pub count: usize,
    pub stop: usize,
    pub trailer: Option<u32>,
}

// How many nodes follow a group, and where they start.
#[derive(Clone, Copy)]
pub struct Children {
    pub count: usize,
    pub next: usize,
}

// A node's head: how many properties it has, how many children, and where they start.
#[derive(Clone, Copy)]
pub struct Head {
    pub count: usize,
    pub below: usize,
    pub next: usize,
}

#[derive(Clone, Copy)]
pub struct Scanned {
    pub controls: usize,
    pub props: usize,
}

#[derive(Clone, Copy)]
pub struct Counts {
    // Kept: both ways of reading have these counts; an enum would be matched once, where the bool is tested.
    pub tree: bool,
    pub own: usize,
    pub controls: usize,
    pub props: usize,
}

// The property at `at`. What is compared is what is left, since a stored length can be near 2^32.
#[inline(always)]
#[tactic(auto, using(crate::proofs::PassedLaws::extent_out, crate::proofs::PassedLaws::extent_in))]
pub fn parse_entry(s: &[u8], limit: usize, at: usize) -> Option<Extent>
    ensures { result ≡ extent s.now limit at }
{
    if limit < at {
        return None;
    }
    if limit - at < PROPERTY_LEAST {
        return None;
    }
    let size = u32_at(s, at + LENGTH_AT) as usize;
    if limit - at - PROPERTY_LEAST < size {
        return None;
    }
    let trailer = u32_at(s, at + VALUE_AT + size);
    Some(Extent {
        size,
        next: at + VALUE_AT + size + TRAILER_SIZE,
        trailer,
    })
}

pub fn ends_group(trailer: u32) -> bool
    ensures { result ≡ ends_group trailer }
{
    NO_CHILD <= trailer && trailer <= MANY_CHILDREN
}

// Counts the properties of the group at `at`, which reaches to `limit` at most.
#[tactic(auto, using(crate::proofs::PassedLaws::passed_start))]
fn parse_group(s: &[u8], limit: usize, at: usize) -> Group
    requires { limit ≤ length s.now }
    ensures { result ≡ group (group_at s.now limit at) }
{
    let mut p = at;
    let mut count: usize = 0;
    while let Some(property) = parse_entry(s, limit, p) {
        count += 1;
        p = property.next;
        if ends_group(property.trailer) {
            return Group {
                count,
                stop: p,
                trailer: Some(property.trailer),
            };
        }
    }
    Group {
        count,
        stop: p,
        trailer: None,
    }
}

// How many nodes follow a group that ended by `trailer`, and where they start.
#[tactic(auto, unfolding(rules::specs::Later::children_at))]
pub fn children_at(s: &[u8], trailer: u32, at: usize) -> Option<Children>
    ensures { result ≡ children (children_at s.now trailer at) }
{
    if trailer == NO_CHILD {
        return Some(Children { count: 0, next: at });
    }
    if trailer == ONE_CHILD {
        return Some(Children { count: 1, next: at });
    }
    if s.len() < at {
        return None;
    }
    if s.len() - at < 2 {
        return None;
    }
    Some(Children {
        count: u16_at(s, at) as usize,
        next: at + 2,
    })
}

impl Group {
    // How many nodes follow the group, and where they start, if a trailer ended it.
    pub fn children(self, s: &[u8]) -> Option<Children>
        ensures { result ≡ children (behind s.now self) }
    {
        let trailer = self.trailer?;
        children_at(s, trailer, self.stop)
    }
}

// ---- the tree
// The head of the node at `at`: its group, and its children's count.
fn head_at(s: &[u8], at: usize) -> Option<Head>
    ensures { result ≡ head s.now at }
{
    if s.len() < at {
        return None;
    }
    let group = parse_group(s, s.len(), at + GROUP_AT);
    let below = group.children(s)?;
    Some(Head {
        count: group.count,
        below: below.count,
        next: below.next,
    })
}

// Counts the node at `at` and all below it, where `left` levels are left below it.
#[cycle(parse_node_parse_nodes)]
fn parse_node(s: &[u8], at: usize, left: usize) -> Option<Tally>
    ensures { result ≡ tally1 (one_node left s.now at) }
{
    let head = head_at(s, at)?;
    let below = parse_nodes(s, head.below, head.next, left)?;
    Some(Tally {
        controls: 1 + below.controls,
        props: head.count + below.props,
        next: below.next,
    })
}

// Counts `n` nodes from `at` on, with `left` levels left.
#[cycle(parse_node_parse_nodes)]
fn parse_nodes(s: &[u8], n: usize, at: usize, left: usize) -> Option<Tally>
    ensures { result ≡ tally (nodes_at left s.now n at) }
{
    let mut all = Tally {
        controls: 0,
        props: 0,
        next: at,
    };
    for _ in 0..n {
        if left == 0 {
            return None;
        }
        let node = parse_node(s, all.next, left - 1)?;
        all.controls += node.controls;
        all.props += node.props;
        all.next = node.next;
    }
    Some(all)
}

// Where the next one starts, if the top node at `at` is left out: it has no child, and its type is not a topNode's.
pub fn top_node_at(s: &[u8], at: usize) -> Option<usize>
    ensures { result ≡ top_node (one_node 255 s.now at) }
{
    if is_section(u16_at(s, at) as usize) {
        return None;
    }
    let head = head_at(s, at)?;
    if head.below == 0 {
        Some(head.next)
    } else {
        None
    }
}

// Counts the reported of the `n` top nodes from `at` on, with all below them.
fn top_nodes(s: &[u8], n: usize, at: usize) -> Option<Tally>
    ensures { result ≡ tally_top (nodes_at 256 s.now n at) }
{
    let mut all = Tally {
        controls: 0,
        props: 0,
        next: at,
    };
    for _ in 0..n {
        if let Some(next) = top_node_at(s, all.next) {
            all.next = next;
        } else {
            let node = parse_node(s, all.next, BELOW_TOP)?;
            all.controls += node.controls;
            all.props += node.props;
            all.next = node.next;
        }
    }
    Some(all)
}

// Counts the tree after the object's group. It must use up the stream.
fn controls_of_tree(s: &[u8], own: Group) -> Option<Tally>
    ensures { result ≡ tally_top (whole_tree s.now own) }
{
    let top = own.children(s)?;
    let all = top_nodes(s, top.count, top.next)?;
    if all.next == s.len() { Some(all) } else { None }
}

// ---- the scan
// Counts what the scan from `from` on finds.
fn scan_control_sections(s: &[u8], from: usize) -> Scanned
    requires { from ≤ length s.now }
    ensures { ScanCounted s.now from result }
{
    let mut a = find_match(s, from);
    let mut all: usize = 0;
    let mut theirs: usize = 0;
    while a < s.len() {
        let b = find_match(s, a + MATCH_SIZE);
        let n = parse_group(s, b, a).count;
        if 0 < n {
            all += 1;
            theirs += n;
        }
        a = b;
    }
    Scanned {
        controls: all,
        props: theirs,
    }
}

// ---- the whole stream
// The counts of a stream whose object's group, of `own` properties, stops at `stop`, and that has no tree.
fn count_scanned(s: &[u8], own: usize, stop: usize) -> Counts
    requires { stop ≤ length s.now }
    ensures { CountedBy s.now own stop result }
{
    let found = scan_control_sections(s, stop);
    Counts {
        tree: false,
        own,
        controls: found.controls,
        props: found.props,
    }
}

// Counts a stream of 14 bytes or more: by its tree where it has one, and by the scan otherwise.
pub fn count(s: &[u8]) -> Counts
    requires { 14 ≤ length s.now }
    ensures { Counted s.now result }
{
    let own = parse_group(s, s.len(), OBJECT_AT);
    match controls_of_tree(s, own) {
        Some(all) => Counts {
            tree: true,
            own: own.count,
            controls: all.controls,
            props: all.props,
        },
        None => count_scanned(s, own.count, own.stop),
    }
}
