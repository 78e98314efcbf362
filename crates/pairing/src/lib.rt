// Controls paired with TypeInfo by their names: all rows counted are judged first, then each control's type is set.
#![tactic(auto)]

ghost use Rattle.std.specs.Prelude.{◌≡◌, true, ◌+◌, ◌≤◌, ◌<◌, leb, length};
ghost use Rattle.std.proofs.Math.Option.{some};
ghost use Rattle.rules.specs.Lists.{all, find};
ghost use Rattle.rules.specs.Bytes.{part};
ghost use Rattle.rules.specs.Rows.{control_width, type_info_width, row_at};
ghost use Rattle.rules.specs.Texts.{label};
ghost use Rattle.rules.specs.Pairing.{controls_in, infos_in, folded, names_match, has_name, type_by, paired_type, types_set, is_named, control_ok, may_pair, pair_exit};
ghost use Rattle.rows.specs.Put.{control_words, info_words};
ghost use Rattle.pairing.specs.Wanted.{as_byte_lem, same_letter, unit_at, name_of, Inside, Ends};

use rows::{CONTROL_WIDTH, ControlRow, INFO_WIDTH, InfoRow, get_control, get_info};
use rules::{Answer, BAD_ROWS, NAME_LOOSE, NAME_NUMBERED};
use text::{label_text, refused, wrote};

// What stands for all letters that have no byte.
// Kept: 255 is no ASCII letter, so no test for a missing one is needed.
const NO_LETTER: u8 = 255;

// "Control_" and the ten digits of the greatest number.
const LABEL_SIZE: usize = 18;

// Where a name's bytes stand, how many letters it has, and whether two bytes make a letter.
#[derive(Clone, Copy)]
pub struct Wanted {
    pub start: usize,
    pub letters: usize,
    // Kept: it tells how wide a letter is; nothing is missing where it is false.
    pub wide: bool,
}

// A name that is looked for, in its stream.
#[derive(Clone, Copy)]
struct Sought<'a> {
    stream: &'a [u8],
    name: Wanted,
    ghost inside: { Inside stream.now name },
}

// TypeInfo rows with their stream, which has the bytes that each of them names.
#[derive(Clone, Copy)]
struct Infos<'a> {
    stream: &'a [u8],
    rows: &'a [u32],
    count: u32,
    ghost named: { all (is_named stream.now) (infos_in count rows.now) ≡ true },
}

// ---- names
fn same_letter(a: u8, b: u8) -> bool
    ensures { result ≡ same_letter a b }
{
    a.is_ascii() && a.eq_ignore_ascii_case(&b)
}

impl<'a> Sought<'a> {
    fn letter(self, i: usize) -> u8
        requires { i < self.name.letters }
        ensures { result ≡ as_byte_lem (unit_at self.entry.stream.now self.entry.name i) }
    {
        let s = self.stream;
        let start = self.name.start;
        if self.name.wide {
            let at = start + 2 * i;
            if s[at + 1] != 0 {
                return NO_LETTER;
            }
            return s[at];
        }
        s[start + i]
    }

    // The name is that of as many bytes of `t` from `at` on.
    fn is_at(self, t: &[u8], at: usize) -> bool
        requires { at + self.name.letters ≤ length t.now }
        ensures { result ≡ names_match (name_of self.entry.stream.now self.entry.name) (part t.now at self.entry.name.letters) }
    {
        for i in 0..self.name.letters {
            if !same_letter(self.letter(i), t[at + i]) {
                return false;
            }
        }
        true
    }

    // Whether the last letters match. Names of a form often differ in their last letters alone, so this is asked first.
    fn ends_at(self, t: &[u8], at: usize) -> bool
        requires { at + self.name.letters ≤ length t.now }
        ensures { Ends self.entry.stream.now self.entry.name t.now at result }
    {
        if self.name.letters == 0 {
            return true;
        }
        let last = self.name.letters - 1;
        same_letter(self.letter(last), t[at + last])
    }

    // The lengths are compared first, then the last letters, then all from the first on.
    fn is_named_by(self, t: &[u8], info: InfoRow) -> bool
        requires { is_named t.now (info_words info) ≡ true }
        ensures { result ≡ has_name t.now (some (name_of self.entry.stream.now self.entry.name)) (info_words info) }
    {
        if info.cut != 0 {
            return false;
        }
        if info.size as usize != self.name.letters {
            return false;
        }
        let at = info.start as usize;
        self.ends_at(t, at) && self.is_at(t, at)
    }
}

// ---- types
impl<'a> Infos<'a> {
    // The type of the first row with this name, or `own`.
    fn type_of_name(self, name: Sought, own: u32) -> u32
        ensures { result ≡ type_by own (find (has_name self.entry.stream.now (some (name_of name.entry.stream.now name.entry.name))) (infos_in self.entry.count self.entry.rows.now)) }
    {
        for j in 0..self.count {
            let info = get_info(self.rows, j);
            if name.is_named_by(self.stream, info) {
                return info.type_code;
            }
        }
        own
    }

    // The same by the label of a numbered control.
    fn type_of_label(self, number: u32, own: u32) -> u32
        ensures { result ≡ type_by own (find (has_name self.entry.stream.now (some (label number))) (infos_in self.entry.count self.entry.rows.now)) }
    {
        let mut out = [0; LABEL_SIZE];
        let written = label_text(number, &mut out);
        let name = Wanted {
            start: 0,
            letters: written.first as usize,
            wide: false,
        };
        self.type_of_name(Sought { stream: &out, name }, own)
    }
}

// The type that a control gets.
pub fn paired_type(s: &[u8], row: ControlRow, t: &[u8], infos: &[u32], info_count: u32) -> u32
    requires row_value { control_ok s.now (control_words row) ≡ true }
    requires infos_value { all (is_named t.now) (infos_in info_count infos.now) ≡ true }
    ensures { result ≡ paired_type s.now t.now (infos_in info_count infos.now) (control_words row) }
{
    let infos = Infos {
        stream: t,
        rows: infos,
        count: info_count,
    };
    let own = row.type_code;
    let start = row.start as usize;
    let size = row.size as usize;
    if row.mark == NAME_NUMBERED {
        return infos.type_of_label(row.start, own);
    }
    if row.mark == NAME_LOOSE {
        let name = Wanted {
            start,
            letters: size,
            wide: false,
        };
        return infos.type_of_name(Sought { stream: s, name }, own);
    }
    if size % 2 == 1 {
        return own;
    }
    let name = Wanted {
        start,
        letters: size / 2,
        wide: true,
    };
    infos.type_of_name(Sought { stream: s, name }, own)
}

fn set_types(
    s: &[u8],
    controls: &mut [u32],
    control_count: u32,
    t: &[u8],
    infos: &[u32],
    info_count: u32,
)
    requires { may_pair s.now controls.old control_count t.now infos.now info_count ≡ true }
    ensures { controls.new ≡ types_set s.now t.now (infos_in info_count infos.now) control_count controls.old }
{
    for k in 0..control_count {
        let row = get_control(controls, k);
        let type_code = paired_type(s, row, t, infos, info_count);
        controls[(k as usize) * CONTROL_WIDTH] = type_code;
    }
}

// ---- what is judged
fn is_named(length: usize, start: u32, size: u32) -> bool
    ensures { result ≡ leb (start + size) length }
{
    (start as usize) + (size as usize) <= length
}

fn control_ok(s: &[u8], controls: &[u32], k: u32) -> bool
    ensures { result ≡ control_ok s.now (row_at control_width k controls.now) }
{
    let row = get_control(controls, k);
    if NAME_LOOSE < row.mark {
        return false;
    }
    if row.mark == NAME_NUMBERED {
        return true;
    }
    is_named(s.len(), row.start, row.size)
}

fn controls_ok(s: &[u8], controls: &[u32], control_count: u32) -> bool
    ensures { result ≡ all (control_ok s.now) (controls_in control_count controls.now) }
{
    (0..control_count).all(|k| control_ok(s, controls, k))
}

fn info_ok(t: &[u8], infos: &[u32], j: u32) -> bool
    ensures { result ≡ is_named t.now (row_at type_info_width j infos.now) }
{
    let info = get_info(infos, j);
    is_named(t.len(), info.start, info.size)
}

fn infos_ok(t: &[u8], infos: &[u32], info_count: u32) -> bool
    ensures { result ≡ all (is_named t.now) (infos_in info_count infos.now) }
{
    (0..info_count).all(|j| info_ok(t, infos, j))
}

fn may_pair(
    s: &[u8],
    controls: &[u32],
    control_count: u32,
    t: &[u8],
    infos: &[u32],
    info_count: u32,
) -> bool
    ensures { result ≡ may_pair s.now controls.now control_count t.now infos.now info_count }
{
    if controls.len() / CONTROL_WIDTH < control_count as usize {
        return false;
    }
    if infos.len() / INFO_WIDTH < info_count as usize {
        return false;
    }
    if !controls_ok(s, controls, control_count) {
        return false;
    }
    infos_ok(t, infos, info_count)
}

// Sets the type of each control row counted to that of the first TypeInfo row with its name.
// Kept: C lends rows and their count apart.
pub fn pair(
    stream: &[u8],
    controls: &mut [u32],
    control_count: u32,
    info_stream: &[u8],
    infos: &[u32],
    info_count: u32,
) -> Answer
    ensures value { result ≡ (pair_exit stream.now controls.old control_count info_stream.now infos.now info_count).answer }
    ensures controls_after { controls.new ≡ (pair_exit stream.now controls.old control_count info_stream.now infos.now info_count).controls }
{
    if !may_pair(
        stream,
        controls,
        control_count,
        info_stream,
        infos,
        info_count,
    ) {
        return refused(BAD_ROWS);
    }
    set_types(
        stream,
        controls,
        control_count,
        info_stream,
        infos,
        info_count,
    );
    wrote(0)
}
