// The words for a text that makes no table: the line, what is wrong there and what to write. `tablelines::Fault` has the numbers.
// Beside them the line that stands before the bytes of a table that was made.
#![tactic(auto)]

ghost use Rattle.std.specs.Prelude.{◌≤◌};
ghost use Rattle.text.specs.Writer.{Wrote};
ghost use Rattle.tablewhy.specs.Why as w;

use tablelines::faults::Fault;
use text::{put_byte, put_decimal, put_text};

// Kept: `why_line` takes any number, 0 and those of no fault too, so its words go by the numbers of the faults.
const NO_LAYOUT: u32 = Fault::NoLayout as u32;

const LAYOUT_FIRST: u32 = Fault::LayoutFirst as u32;

const LAYOUT_TWICE: u32 = Fault::LayoutTwice as u32;

const UNKNOWN_WORD: u32 = Fault::UnknownWord as u32;

const TWO_DIGITS: u32 = Fault::TwoDigits as u32;

const FOUR_DIGITS: u32 = Fault::FourDigits as u32;

const MANY_WORDS: u32 = Fault::ManyWords as u32;

const HEADER_ORDER: u32 = Fault::HeaderOrder as u32;

const MANY_HEADERS: u32 = Fault::ManyHeaders as u32;

const SCOPE_ORDER: u32 = Fault::ScopeOrder as u32;

const MANY_SCOPES: u32 = Fault::ManyScopes as u32;

const ROW_EARLY: u32 = Fault::RowEarly as u32;

const ID_ORDER: u32 = Fault::IdOrder as u32;

const ID_HIGH: u32 = Fault::IdHigh as u32;

const TARGET_HIGH: u32 = Fault::TargetHigh as u32;

const UNKNOWN_KIND: u32 = Fault::UnknownKind as u32;

const LONG_TEXT: u32 = Fault::LongText as u32;

// From this number on an error is told in the words of `put_rules_why`.
const FIRST_RULE: u32 = HEADER_ORDER;

#[tactic(auto, using(text::proofs::Chain::nothing), unfolding(crate::specs::Why::line_place))]
fn put_line(out: &mut [u8], at: usize, line: u32) -> usize
    ensures { Wrote out.old at (w.line_place line) out.new result }
{
    if line == 0 {
        return at;
    }
    let p = put_text(out, at, b"line ");
    let p = put_decimal(out, p, line);
    put_text(out, p, b": ")
}

// Of the lines together and of their words, up to FIRST_RULE.
#[tactic(auto, unfolding(crate::specs::Why::words_why))]
fn put_words_why(out: &mut [u8], at: usize, error: u32) -> usize
    ensures { Wrote out.old at (w.words_why error) out.new result }
{
    match error {
        0 => put_text(out, at, b"nothing is wrong"),
        NO_LAYOUT => put_text(out, at, b"no layout is named; write one, such as layout 13"),
        LAYOUT_FIRST => put_text(out, at, b"a layout must come first, such as layout 13"),
        LAYOUT_TWICE => put_text(out, at, b"the layout is named a second time; keep one"),
        UNKNOWN_WORD => put_text(
            out,
            at,
            b"begin with layout, header, form, report, entry or a row's id",
        ),
        TWO_DIGITS => put_text(out, at, b"two hex digits must follow, such as layout 13"),
        FOUR_DIGITS => put_text(out, at, b"the second word must be four hex digits, as 0064"),
        MANY_WORDS => put_text(out, at, b"there are too many words; remarks stand after #"),
        _ => put_text(out, at, b"header lines stand before the first scope"),
    }
}

// Of a table's rules, of the word for a kind, and of the text as a whole.
#[tactic(auto, unfolding(crate::specs::Why::rules_why))]
fn put_rules_why(out: &mut [u8], at: usize, error: u32) -> usize
    requires { 9 ≤ error }
    ensures { Wrote out.old at (w.rules_why error) out.new result }
{
    match error {
        HEADER_ORDER => put_text(out, at, b"header codes must ascend; this one doesn't"),
        MANY_HEADERS => put_text(out, at, b"a table has at most 4 header codes"),
        SCOPE_ORDER => put_text(out, at, b"form, report, entries by code must ascend"),
        MANY_SCOPES => put_text(out, at, b"a table has at most 64 scopes"),
        ROW_EARLY => put_text(out, at, b"a row stands below a form, a report or an entry"),
        ID_ORDER => put_text(out, at, b"ids must ascend; this one doesn't"),
        ID_HIGH => put_text(out, at, b"an id is at most FC"),
        TARGET_HIGH => put_text(out, at, b"a target is at most 7FFF"),
        UNKNOWN_KIND => put_text(
            out,
            at,
            b"the third word must be number, text, guid, double or bytes",
        ),
        LONG_TEXT => put_text(out, at, b"the text is longer than 2097152 bytes"),
        _ => put_text(out, at, b"there is no room for its table"),
    }
}

#[tactic(auto, unfolding(crate::specs::Why::why))]
fn put_why(out: &mut [u8], at: usize, error: u32) -> usize
    ensures { Wrote out.old at (w.why error) out.new result }
{
    if error < FIRST_RULE {
        put_words_why(out, at, error)
    } else {
        put_rules_why(out, at, error)
    }
}

// The line of a refusal, from the buffer's start on.
pub fn why_line(error: u32, line: u32, out: &mut [u8]) -> usize
    ensures { Wrote out.old 0 (w.why_text error line) out.new result }
{
    let p = put_line(out, 0, line);
    let p = put_why(out, p, error);
    put_byte(out, p, b'\n')
}

// The line before a table.
pub fn size_line(size: u32, out: &mut [u8]) -> usize
    ensures { Wrote out.old 0 (w.size_text size) out.new result }
{
    let p = put_text(out, 0, b"table ");
    let p = put_decimal(out, p, size);
    put_byte(out, p, b'\n')
}
