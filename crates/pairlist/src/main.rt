// Lists the controls of a later Blob, paired with TypeInfo: standard input holds the layout byte and the length of TypeInfo, four bytes each, then both
// streams.
#![tactic(auto)]

ghost use Rattle.std.specs.Prelude.{◌≡◌, List, ℕ, ◌≤◌, ◌<◌, length};
ghost use Rattle.inputs.specs.Begun.{Begun};
ghost use Rattle.pairlines.specs.Pairs.{longest_input, pair_listing};
ghost use Rattle.pairlines.specs.Told.{Listed};
ghost use Rattle.pairlist.specs.Space.{Roomy};

use inputs::{by_length, filled};
use rows::{CONTROL_WIDTH, INFO_WIDTH, PROPERTY_WIDTH};
use rules::TOO_LONG;

// The longest input, and room for its rows and for its lines.
const LONGEST: usize = 8388616;

const INFOS: usize = 524284 * INFO_WIDTH;

const CONTROLS: usize = 16384 * CONTROL_WIDTH;

const PROPERTIES: usize = 262144 * PROPERTY_WIDTH;

const LINES: usize = 26787962;

// A shorter input than this is read into little room.
const SHORT: usize = 16384;

const SMALL_INFOS: usize = 2048 * INFO_WIDTH;

const SMALL_CONTROLS: usize = 910 * CONTROL_WIDTH;

const SMALL_PROPERTIES: usize = 910 * PROPERTY_WIDTH;

const SMALL_LINES: usize = 1487972;

// Prints the listing of standard input, of which `input` was read and `more` tells whether bytes came after it.
fn print(rt: &HostRuntime, input: &[u8], more: bool, listed: &[u8])
    requires { (whole : List ℕ) → Begun input.now more whole → listed.now ≡ pair_listing whole }
{
    streams::write_all(rt, listed);
}

fn refuse(rt: &HostRuntime, input: &[u8])
    requires { longest_input ≤ length input.now }
{
    let mut out = [0; 64];
    let end = listing::refusal_line(&mut out, TOO_LONG);
    print(rt, input, true, &out[..end]);
}

// Writes the listing with the names of the directory.
fn write(
    input: &[u8],
    infos: &mut [u32],
    controls: &mut [u32],
    properties: &mut [u32],
    out: &mut [u8],
) -> usize
    ensures { Listed input.now infos.old controls.old properties.old out.old out.new result }
{
    let index = nametables::index();
    let letters = nametables::letters();
    pairlines::write_pairs(input, infos, controls, properties, &index, &letters, out)
}

fn list(
    rt: &HostRuntime,
    input: &[u8],
    infos: &mut [u32],
    controls: &mut [u32],
    properties: &mut [u32],
    out: &mut [u8],
)
    requires { Roomy input.now infos.old controls.old properties.old out.old }
{
    let end = write(input, infos, controls, properties, out);
    print(rt, input, false, &out[..end]);
}

// So short an input has no streams with more rows than there is room for.
fn list_small(rt: &HostRuntime, input: &[u8])
    requires { length input.now < 16384 }
{
    let mut infos = filled::<u32, SMALL_INFOS>(0);
    let mut controls = filled::<u32, SMALL_CONTROLS>(0);
    let mut properties = filled::<u32, SMALL_PROPERTIES>(0);
    let mut out = filled::<u8, SMALL_LINES>(0);
    list(
        rt,
        input,
        &mut infos,
        &mut controls,
        &mut properties,
        &mut out,
    );
}

// A longer input than is read is refused.
fn list_large(rt: &HostRuntime, input: &[u8], room: usize)
    requires fits { length input.now ≤ room }
    requires most { room ≡ longest_input }
{
    if inputs::has_more(rt, input.len(), room) {
        return refuse(rt, input);
    }
    let mut infos = filled::<u32, INFOS>(0);
    let mut controls = filled::<u32, CONTROLS>(0);
    let mut properties = filled::<u32, PROPERTIES>(0);
    let mut out = filled::<u8, LINES>(0);
    list(
        rt,
        input,
        &mut infos,
        &mut controls,
        &mut properties,
        &mut out,
    );
}

fn main(rt: HostRuntime) {
    by_length::<SHORT, LONGEST, _, _>(
        &rt,
        |input| list_small(&rt, input),
        |input, room| list_large(&rt, input, room),
    );
}
