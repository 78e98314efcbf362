// Rewrites the Access 2000 stream that standard input holds; specs/Respelled.antt says what is printed.
#![tactic(auto)]

ghost use Rattle.std.specs.Prelude.{◌≡◌, List, ◌++◌, ℕ, ◌≤◌, ◌<◌, length};
ghost use Rattle.rules.specs.Answer.{longest};
ghost use Rattle.inputs.specs.Begun.{Begun};
ghost use Rattle.respell.specs.Respelled.{respelled};

use rules::{LONGEST, TOO_LONG};

// A shorter stream than this is read into little room.
const SHORT: usize = 65536;

// Room for the line of an answer, which has at most 51 bytes.
const LINE: usize = 64;

// Prints what is said of standard input, of which `input` was read and `more` tells whether bytes came after it: a line, and the bytes after it.
fn print(rt: &HostRuntime, input: &[u8], more: bool, line: &[u8], bytes: &[u8])
    requires { (whole : List ℕ) → Begun input.now more whole → line.now ++ bytes.now ≡ respelled whole }
{
    streams::write_all(rt, line);
    streams::write_all(rt, bytes);
}

fn refuse(rt: &HostRuntime, input: &[u8])
    requires { longest ≤ length input.now }
{
    let mut line = [0; LINE];
    let end = listing::refusal_line(&mut line, TOO_LONG);
    print(rt, input, true, &line[..end], &input[..0]);
}

fn respell(rt: &HostRuntime, input: &[u8], out: &mut [u8])
    requires { length input.now ≤ length out.old }
{
    let a = rewrite::rewrite(input, out);
    let mut line = [0; LINE];
    let end = listing::answer_line(&mut line, 0, a);
    let size = a.first as usize;
    print(rt, input, false, &line[..end], &out[..size]);
}

fn respell_small(rt: &HostRuntime, input: &[u8])
    requires { length input.now < 65536 }
{
    let mut out = [0; SHORT];
    respell(rt, input, &mut out);
}

// A longer stream than is read is refused.
fn respell_large(rt: &HostRuntime, input: &[u8], room: usize)
    requires fits { length input.now ≤ room }
    requires most { room ≡ longest }
{
    if inputs::has_more(rt, input.len(), room) {
        return refuse(rt, input);
    }
    let mut out = inputs::filled::<u8, LONGEST>(0);
    respell(rt, input, &mut out);
}

fn main(rt: HostRuntime) {
    inputs::by_length::<SHORT, LONGEST, _, _>(
        &rt,
        |input| respell_small(&rt, input),
        |input, room| respell_large(&rt, input, room),
    );
}
