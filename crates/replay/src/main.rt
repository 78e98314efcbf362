// Replays a batch file of cases from standard input and prints what each gives; compare/README.md has both formats.
#![tactic(auto)]

mod lines; // lines.rt: the lines that are printed

use bloblines::LONGEST_LISTING;
use lines::{Rows, behind, front, print_answer, print_bytes, print_kept, print_rows};
use numbers::u32_at;
use rows::{CONTROL_WIDTH, INFO_WIDTH, PROPERTY_WIDTH};
use rules::Answer;

// What rows hold before a case, so that a word which wasn't written shows.
const UNWRITTEN: u32 = 0xDEAD_BEEF;

// The same of the bytes of a joined table.
const UNTOUCHED: u8 = 0xA5;

// No first byte is this layout byte.
// Kept: read_later takes any number, as C does.
const NO_LAYOUT: u32 = 256;

// Which reader a Blob is given to: the one that chooses, or that of one layout.
#[derive(Clone, Copy)]
enum Reader {
    Either,
    Of2000,
    OfLater,
}

// What a frame holds.
#[derive(Clone, Copy)]
enum Kind {
    Codes,
    Blob(Reader),
    TypeInfo,
    Listing,
    Guid,
    Label,
    Names,
    NamePart,
    Join,
    Pair,
    Unknown,
}

// Kept: a frame of an unknown kind is read and passed over, so From and no TryFrom.
impl From<u32> for Kind {
    fn from(number: u32) -> Self {
        match number {
            0 => Kind::Codes,
            1 => Kind::Blob(Reader::Either),
            2 => Kind::TypeInfo,
            3 => Kind::Listing,
            4 => Kind::Guid,
            5 => Kind::Label,
            6 => Kind::Names,
            7 => Kind::NamePart,
            8 => Kind::Join,
            9 => Kind::Blob(Reader::Of2000),
            10 => Kind::Blob(Reader::OfLater),
            11 => Kind::Pair,
            _ => Kind::Unknown,
        }
    }
}

// What stands in front of a frame's bytes.
#[derive(Clone, Copy)]
struct Head {
    kind: Kind,
    first: u32,
    second: u32,
    size: usize,
}

// ---- frames
fn read_head(rt: &HostRuntime) -> Option<Head> {
    let mut head = [0u8; 16];
    if streams::read_full(rt, &mut head) < head.len() {
        return None;
    }
    Some(Head {
        kind: Kind::from(u32_at(&head, 0)),
        first: u32_at(&head, 4),
        second: u32_at(&head, 8),
        size: u32_at(&head, 12) as usize,
    })
}

// `size` bytes read to the start of `space`.
fn read_bytes<'a>(rt: &HostRuntime, space: &'a mut [u8], size: usize) -> Option<&'a [u8]> {
    let part = front_mut(space, size);
    if streams::read_full(rt, part) < size {
        return None;
    }
    Some(part)
}

fn front_mut<T>(s: &mut [T], size: usize) -> &mut [T] {
    let n = size.min(s.len());
    &mut s[..n]
}

// ---- the kinds of case
// For the later layout its layout byte stands before the stream.
fn read_by(
    reader: Reader,
    codes: &[u8],
    bytes: &[u8],
    controls: &mut [u32],
    properties: &mut [u32],
) -> Answer {
    match reader {
        Reader::Either => blob::read_blob(codes, bytes, controls, properties),
        Reader::Of2000 => blob::read_2000(codes, bytes, controls, properties),
        Reader::OfLater => {
            blob::read_later(u32_at(bytes, 0), behind(bytes, 4), controls, properties)
        }
    }
}

fn replay_blob(
    rt: &HostRuntime,
    reader: Reader,
    codes: &[u8],
    bytes: &[u8],
    lent: u32,
    more: u32,
    out: &mut [u8],
) {
    let mut space = [UNWRITTEN; 256 * CONTROL_WIDTH];
    let mut room = [UNWRITTEN; 1024 * PROPERTY_WIDTH];
    let controls = front_mut(&mut space, lent as usize);
    let properties = front_mut(&mut room, more as usize);
    let answer = read_by(reader, codes, bytes, controls, properties);
    print_answer(rt, answer, out);
    if answer.number == 0 {
        print_rows(rt, Rows::Controls, controls, answer.first, out);
        print_rows(rt, Rows::Properties, properties, answer.second, out);
    }
}

fn replay_type_info(rt: &HostRuntime, stream: &[u8], lent: u32, out: &mut [u8]) {
    let mut space = [UNWRITTEN; 256 * INFO_WIDTH];
    let rows = front_mut(&mut space, lent as usize);
    let answer = typeinfo::read_type_info(stream, rows);
    print_answer(rt, answer, out);
    if answer.number == 0 {
        print_rows(rt, Rows::Infos, rows, answer.first, out);
    }
}

// What `write` puts into so much room, which is at most 64 bytes.
fn replay_text<F: FnOnce(&mut [u8]) -> Answer>(
    rt: &HostRuntime,
    lent: u32,
    out: &mut [u8],
    write: F,
)
    requires { F.IsAlwaysCallable write }
{
    let mut space = [0u8; 64];
    let room = front_mut(&mut space, lent as usize);
    let answer = write(room);
    print_answer(rt, answer, out);
    print_bytes(rt, front(room, answer.first as usize), out);
}

// The bytes are the start and the length of the part, the label and the stream.
fn replay_name_part(rt: &HostRuntime, bytes: &[u8], mark: u32, size: u32, out: &mut [u8]) {
    let start = u32_at(bytes, 0);
    let length = u32_at(bytes, 4);
    let rest = behind(bytes, 8);
    let label = front(rest, size as usize);
    let stream = behind(rest, size as usize);
    print_bytes(
        rt,
        blob::control_name(stream, label, mark, start, length),
        out,
    );
}

// The bytes are the first table and the other.
fn replay_join(rt: &HostRuntime, bytes: &[u8], lent: u32, size: u32, out: &mut [u8]) {
    let mut space = [UNTOUCHED; 32768];
    let room = front_mut(&mut space, lent as usize);
    let one = front(bytes, size as usize);
    let other = behind(bytes, size as usize);
    let answer = join::join(one, other, room);
    print_answer(rt, answer, out);
    print_bytes(rt, front(room, answer.first as usize), out);
    print_kept(rt, behind(room, answer.first as usize), UNTOUCHED, out);
}

// The bytes are TypeInfo, of `size` bytes, and a Blob, which is read as a later one. A reading that is refused is all that is printed.
fn replay_pair(rt: &HostRuntime, bytes: &[u8], size: u32, out: &mut [u8]) {
    let mut infos = [UNWRITTEN; 256 * INFO_WIDTH];
    let mut controls = [UNWRITTEN; 256 * CONTROL_WIDTH];
    let mut properties = [UNWRITTEN; 1024 * PROPERTY_WIDTH];
    let info_stream = front(bytes, size as usize);
    let stream = behind(bytes, size as usize);
    let info = typeinfo::read_type_info(info_stream, &mut infos);
    if info.number != 0 {
        return print_answer(rt, info, out);
    }
    let read = blob::read_later(NO_LAYOUT, stream, &mut controls, &mut properties);
    if read.number != 0 {
        return print_answer(rt, read, out);
    }
    let answer = pairing::pair(
        stream,
        &mut controls,
        read.first,
        info_stream,
        &infos,
        info.first,
    );
    print_answer(rt, answer, out);
    print_rows(rt, Rows::Controls, &controls, read.first, out);
}

fn print_name<F: FnOnce(u16, &mut [u8]) -> Answer>(
    rt: &HostRuntime,
    id: u16,
    out: &mut [u8],
    name: F,
)
    requires { F.IsAlwaysCallable name }
{
    let mut room = [0u8; 256];
    let answer = name(id, &mut room);
    print_bytes(rt, front(&room, answer.first as usize), out);
}

// No table has an id of more than 16 bits.
fn replay_names(rt: &HostRuntime, id: u32, out: &mut [u8]) {
    let Ok(id) = u16::try_from(id) else {
        return;
    };
    print_name(rt, id, out, |id, room| names::text_name(id, room));
    print_name(rt, id, out, |id, room| names::number_name(id, room));
    print_name(rt, id, out, |id, room| names::bytes_name(id, room));
    print_name(rt, id, out, |id, room| names::control_type_name(id, room));
}

fn replay_listing(rt: &HostRuntime, input: &[u8], out: &mut [u8]) {
    let index = nametables::index();
    let letters = nametables::letters();
    let end = bloblines::write_form_listing(input, false, &index, &letters, out);
    streams::write_all(rt, front(out, end));
}

// Prints what a case gives.
fn replay_case(rt: &HostRuntime, head: Head, codes: &[u8], bytes: &[u8], out: &mut [u8]) {
    let (first, second) = (head.first, head.second);
    match head.kind {
        Kind::Blob(reader) => replay_blob(rt, reader, codes, bytes, first, second, out),
        Kind::TypeInfo => replay_type_info(rt, bytes, first, out),
        Kind::Listing => replay_listing(rt, bytes, out),
        Kind::Guid => replay_text(rt, first, out, |room| text::guid_text(bytes, room)),
        Kind::Label => replay_text(rt, first, out, |room| text::label_text(second, room)),
        Kind::Names => replay_names(rt, first, out),
        Kind::NamePart => replay_name_part(rt, bytes, first, second, out),
        Kind::Join => replay_join(rt, bytes, first, second, out),
        Kind::Pair => replay_pair(rt, bytes, first, out),
        Kind::Codes | Kind::Unknown => {}
    }
}

// Replays frame after frame, as far as whole frames that fit go. A code table stays for the Blobs after it.
fn replay(rt: &HostRuntime, codes: &mut [u8], input: &mut [u8], out: &mut [u8]) {
    let mut codes_size = 0;
    for _ in 0..u64::MAX {
        let Some(head) = read_head(rt) else {
            return;
        };
        if let Kind::Codes = head.kind {
            if read_bytes(rt, codes, head.size).is_none() {
                return;
            }
            codes_size = head.size;
        } else {
            let Some(bytes) = read_bytes(rt, input, head.size) else {
                return;
            };
            replay_case(rt, head, front(codes, codes_size), bytes, out);
        }
    }
}

fn main(rt: HostRuntime) {
    let mut codes = [0u8; 32768];
    let mut input = [0u8; 32768];
    let mut out = [0u8; LONGEST_LISTING];
    replay(&rt, &mut codes, &mut input, &mut out);
}
