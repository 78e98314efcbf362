// Lists the Blob that standard input holds after its code table, as `formlist` does, for larger Blobs.
#![tactic(auto)]

ghost use Rattle.std.specs.Prelude.{◌≡◌, List, ℕ, ◌≤◌, ◌<◌, length};
ghost use Rattle.listing.specs.Written.{Written};
ghost use Rattle.inputs.specs.Begun.{Begun};
ghost use Rattle.bloblines.specs.Blobs.{longest_input, blob_listing, listed_in_lem, most_in};
ghost use Rattle.bloblist.specs.Space.{Roomy};

use inputs::{by_length, filled};
use rows::{CONTROL_WIDTH, PROPERTY_WIDTH};
use rules::TOO_LONG;

// The longest input, and room for its rows and for its lines.
const LONGEST: usize = 4259844;

const CONTROLS: usize = 16384 * CONTROL_WIDTH;

const PROPERTIES: usize = 262144 * PROPERTY_WIDTH;

const LINES: usize = 26394675;

// A shorter input than this is read into little room.
const SHORT: usize = 16384;

const SMALL_CONTROLS: usize = 5461 * CONTROL_WIDTH;

const SMALL_PROPERTIES: usize = 16384 * PROPERTY_WIDTH;

const SMALL_LINES: usize = 2053482;

// Prints the listing of standard input, of which `input` was read and `more` tells whether bytes came after it.
fn print(rt: &HostRuntime, input: &[u8], more: bool, listed: &[u8])
    requires { (whole : List ℕ) → Begun input.now more whole → listed.now ≡ blob_listing whole }
{
    streams::write_all(rt, listed);
}

fn refuse(rt: &HostRuntime, input: &[u8])
    requires { longest_input ≤ length input.now }
{
    let mut out = [0; 64];
    let end = listing::refusal_line(&mut out, TOO_LONG);
    print(rt, input, true, &out[..end]);
}

// Writes the listing with the names of the directory.
fn write(input: &[u8], controls: &mut [u32], properties: &mut [u32], out: &mut [u8]) -> usize
    ensures { Written out.old (listed_in_lem input.now controls.old properties.old) (most_in controls.old properties.old) out.new result }
{
    let index = nametables::index();
    let letters = nametables::letters();
    bloblines::write_listing(input, controls, properties, &index, &letters, out)
}

fn list(
    rt: &HostRuntime,
    input: &[u8],
    controls: &mut [u32],
    properties: &mut [u32],
    out: &mut [u8],
)
    requires { Roomy input.now controls.old properties.old out.old }
{
    let end = write(input, controls, properties, out);
    print(rt, input, false, &out[..end]);
}

// So short an input has no Blob with more controls and properties than there is room for.
fn list_small(rt: &HostRuntime, input: &[u8])
    requires { length input.now < 16384 }
{
    let mut controls = filled::<u32, SMALL_CONTROLS>(0);
    let mut properties = filled::<u32, SMALL_PROPERTIES>(0);
    let mut out = filled::<u8, SMALL_LINES>(0);
    list(rt, input, &mut controls, &mut properties, &mut out);
}

// A longer input than is read is refused.
fn list_large(rt: &HostRuntime, input: &[u8], room: usize)
    requires fits { length input.now ≤ room }
    requires most { room ≡ longest_input }
{
    if inputs::has_more(rt, input.len(), room) {
        return refuse(rt, input);
    }
    let mut controls = filled::<u32, CONTROLS>(0);
    let mut properties = filled::<u32, PROPERTIES>(0);
    let mut out = filled::<u8, LINES>(0);
    list(rt, input, &mut controls, &mut properties, &mut out);
}

fn main(rt: HostRuntime) {
    by_length::<SHORT, LONGEST, _, _>(
        &rt,
        |input| list_small(&rt, input),
        |input, room| list_large(&rt, input, room),
    );
}
