// Lists the Blob that standard input holds after its code table, as document 01's program `formlist` does.
#![tactic(auto)]

ghost use Rattle.std.specs.Prelude.{◌≡◌, List, ℕ};
ghost use Rattle.rules.specs.Listing.{listing};
ghost use Rattle.names.specs.Lookup.{Lent};
ghost use Rattle.inputs.specs.Begun.{Begun};
ghost use Rattle.formlist.specs.Space.{Roomy};

use bloblines::LONGEST_LISTING;

// Prints the listing of standard input, of which `input` was read and `more` tells whether bytes came after it.
fn print(rt: &HostRuntime, input: &[u8], more: bool, listed: &[u8])
    requires { (whole : List ℕ) → Begun input.now more whole → listed.now ≡ listing whole }
{
    streams::write_all(rt, listed);
}

// Fills `space` from standard input and prints the listing of all that standard input has.
fn list(rt: &HostRuntime, index: &[u32], letters: &[u8], space: &mut [u8], out: &mut [u8])
    requires lent { Lent index.now letters.now }
    requires roomy { Roomy space.old out.old }
{
    let size = streams::read_full(rt, space);
    let more = inputs::has_more(rt, size, space.len());
    let input = &space[..size];
    let end = bloblines::write_form_listing(input, more, index, letters, out);
    print(rt, input, more, &out[..end]);
}

fn main(rt: HostRuntime) {
    let index = nametables::index();
    let letters = nametables::letters();
    let mut space = [0; 32768];
    let mut out = [0; LONGEST_LISTING];
    list(&rt, &index, &letters, &mut space, &mut out);
}
