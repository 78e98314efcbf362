// Finds where the scan's six bytes stand in a stream of the later layout.
#![tactic(auto)]

ghost use Rattle.std.specs.Prelude.{◌≡◌, ◌+◌, ◌≤◌, length};
ghost use Rattle.rules.specs.Later.{match_at};
ghost use Rattle.matchlater.specs.Match.{ruled_out, none_of_lem, Stretch, Leapt, MatchBefore, NextMatch};

use numbers::{u16_at, u32_at};

// A match: the id and the type of a Text name, six bytes.
const NAME_ID: u16 = 0x14;

const TEXT_TYPE: u32 = 0x0A;

pub const MATCH_SIZE: usize = 6;

// Its first and its third byte, the low ones of id and type.
const FIRST: u8 = 0x14;

const THIRD: u8 = 0x0A;

// How many places are tried at once, and how many bytes are read for them: the last place's third is two further on.
const BLOCK: usize = 32;

const BLOCK_BYTES: usize = 34;

// The six bytes 14 00 0A 00 00 00 stand at `at`.
#[tactic(auto, using(crate::proofs::MatchLaws::match_past), unfolding(rules::specs::Later::match_at))]
fn match_at(s: &[u8], at: usize) -> bool
    ensures { result ≡ match_at s.now at }
{
    if s.len() < at {
        return false;
    }
    if s.len() - at < MATCH_SIZE {
        return false;
    }
    u16_at(s, at) == NAME_ID && u32_at(s, at + 2) == TEXT_TYPE
}

// The first and the third byte from a place on are not both a match's.
fn rules_out(first: u8, third: u8) -> bool
    ensures { result ≡ ruled_out first third }
{
    if first == FIRST { third != THIRD } else { true }
}

// A match is ruled out at each place of the block from `at` on. No branch and no early end, so that many places are tried at once.
#[tactic(auto, using(crate::proofs::MatchLaws::none_first, crate::proofs::MatchLaws::none_more))]
fn none_in_block(s: &[u8], at: usize) -> bool
    requires { at + 34 ≤ length s.now }
    ensures { result ≡ none_of_lem 32 s.now at }
{
    let mut none = true;
    for i in 0..BLOCK {
        none = none & rules_out(s[at + i], s[at + i + 2]);
    }
    none
}

// Skips the places from `from` on, a block at a time, as long as a match is ruled out at each.
#[tactic(auto, using(crate::proofs::MatchLaws::leap))]
fn past_blocks(s: &[u8], from: usize) -> usize
    requires { from ≤ length s.now }
    ensures { Leapt s.now from (length s.now) result }
{
    let mut p = from;
    // Kept: a block overlaps the next by two bytes; of `windows(..).step_by(..)` the place would be counted beside it.
    while BLOCK_BYTES <= s.len() - p {
        if none_in_block(s, p) {
            p = p + BLOCK;
        } else {
            return p;
        }
    }
    p
}

// The first match from `from` on before `stop`, or `stop`.
#[tactic(auto, using(crate::proofs::MatchLaws::match_skipped, crate::proofs::MatchLaws::leap_one))]
fn match_before(s: &[u8], from: usize, stop: usize) -> usize
    requires { Stretch s.now from stop }
    ensures { MatchBefore s.now from stop result }
{
    for p in from..stop {
        if !rules_out(s[p], s[p + 2]) && match_at(s, p) {
            return p;
        }
    }
    stop
}

// The first match from `from` on, or the end. A block where a match isn't ruled out is gone through place by place, and so are the last places.
// Kept: the end stands for no match; the group before it reaches there.
#[tactic(auto, using(crate::proofs::MatchLaws::match_none))]
pub fn find_match(s: &[u8], from: usize) -> usize
    requires { from ≤ length s.now }
    ensures { NextMatch s.now from result }
{
    let mut p = past_blocks(s, from);
    while BLOCK_BYTES <= s.len() - p {
        let q = match_before(s, p, p + BLOCK);
        if q < p + BLOCK {
            return q;
        }
        p = past_blocks(s, q);
    }
    if s.len() - p < MATCH_SIZE {
        return s.len();
    }
    let q = match_before(s, p, s.len() - 5);
    if q < s.len() - 5 {
        return q;
    }
    s.len()
}
