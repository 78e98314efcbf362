// Lists the TypeInfo stream that standard input holds.
#![tactic(auto)]

ghost use Rattle.std.specs.Prelude.{◌≡◌, List, ℕ, ◌≤◌, length};
ghost use Rattle.inputs.specs.Begun.{Begun};
ghost use Rattle.infolines.specs.Infos.{longest_info, info_listing};
ghost use Rattle.infolist.specs.Space.{Roomy};

use inputs::{by_length, filled};
use rows::INFO_WIDTH;
use rules::TOO_LONG;

// The longest stream, and room for its rows and for its lines.
const LONGEST: usize = 4194304;

const ROWS: usize = 524284 * INFO_WIDTH;

const LINES: usize = 33554483;

// A shorter stream than this is read into little room.
const SHORT: usize = 65536;

const SMALL_ROWS: usize = 8188 * INFO_WIDTH;

const SMALL_LINES: usize = 524339;

// Prints the listing of standard input, of which `input` was read and `more` tells whether bytes came after it.
fn print(rt: &HostRuntime, input: &[u8], more: bool, listed: &[u8])
    requires { (whole : List ℕ) → Begun input.now more whole → listed.now ≡ info_listing whole }
{
    streams::write_all(rt, listed);
}

fn refuse(rt: &HostRuntime, input: &[u8])
    requires { longest_info ≤ length input.now }
{
    let mut out = [0; 64];
    let end = listing::refusal_line(&mut out, TOO_LONG);
    print(rt, input, true, &out[..end]);
}

fn list(rt: &HostRuntime, input: &[u8], rows: &mut [u32], out: &mut [u8])
    requires { Roomy input.now rows.old out.old }
{
    let index = nametables::index();
    let letters = nametables::letters();
    let end = infolines::write_infos(input, rows, &index, &letters, out);
    print(rt, input, false, &out[..end]);
}

fn list_small(rt: &HostRuntime, input: &[u8])
    requires { length input.now ≤ 65536 }
{
    let mut rows = filled::<u32, SMALL_ROWS>(0);
    let mut out = filled::<u8, SMALL_LINES>(0);
    list(rt, input, &mut rows, &mut out);
}

// A longer stream than is read is refused.
fn list_large(rt: &HostRuntime, input: &[u8], room: usize)
    requires fits { length input.now ≤ room }
    requires most { room ≡ longest_info }
{
    if inputs::has_more(rt, input.len(), room) {
        return refuse(rt, input);
    }
    let mut rows = filled::<u32, ROWS>(0);
    let mut out = filled::<u8, LINES>(0);
    list(rt, input, &mut rows, &mut out);
}

fn main(rt: HostRuntime) {
    by_length::<SHORT, LONGEST, _, _>(
        &rt,
        |input| list_small(&rt, input),
        |input, room| list_large(&rt, input, room),
    );
}
