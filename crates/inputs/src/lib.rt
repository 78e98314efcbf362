// Standard input in a lent buffer, for programs that read a short input into little room and a long one into more.
#![tactic(auto)]

ghost use Rattle.std.specs.Prelude.{◌≡◌, true, ◌≤◌, ◌<◌, ◌^◌, length};
ghost use Rattle.inputs.specs.Filled.{Filled};
ghost use Rattle.inputs.specs.Lent.{all_of};

// Whether standard input has more than `room` bytes, of which `size` were read.
pub fn has_more(rt: &HostRuntime, size: usize, room: usize) -> bool
    ensures { result ≡ true → room ≤ size }
{
    if size < room {
        return false;
    }
    let mut one = [0u8; 1];
    streams::read_full(rt, &mut one) == 1
}

// Fills `space` with the bytes that were read and with those that standard input has yet, and returns how many these are together.
pub fn fill(rt: &HostRuntime, space: &mut [u8], read: &[u8]) -> usize
    ensures { Filled read.now space.old space.new result }
{
    let at = text::put_text(space, 0, read);
    at + streams::read_full(rt, &mut space[at..])
}

// Room to lend. Its contents have a name of their own, since a proof that computed a large array's elements would not end.
#[tactic(auto, unfolding(crate::specs::Lent::all_of))]
pub fn filled<T: Copy, const N: usize>(v: T) -> [T; N]
    ensures value { all_of N v ≡ result }
    ensures size { N ≡ length result }
{
    [v; N]
}

// Hands standard input on: to `short` where it has fewer than `SHORT` bytes, and otherwise, as far as `LONG` bytes go, to `long`, which is told this room.
pub fn by_length<const SHORT: usize, const LONG: usize, S: FnOnce(&[u8]), L: FnOnce(&[u8], usize)>(
    rt: &HostRuntime,
    short: S,
    long: L,
)
    requires order { SHORT ≤ LONG }
    requires in_memory { LONG < 2 ^ 63 }
    requires short { (input : _) → length input.now < SHORT → S.pre short input }
    requires long { (input : _) → SHORT ≤ length input.now → length input.now ≤ LONG → L.pre long input LONG }
{
    let mut head = [0; SHORT];
    let size = streams::read_full(rt, &mut head);
    if size < SHORT {
        short(&head[..size]);
    } else {
        with_rest::<LONG, L>(rt, &head, long);
    }
}

// Hands on the bytes that were read with those that standard input has yet, as far as `N` go, and tells this room.
// It is compiled apart from its caller, so that no shorter input needs the stack of `hand_on`.
#[inline(never)]
fn with_rest<const N: usize, F: FnOnce(&[u8], usize)>(rt: &HostRuntime, read: &[u8], hand_on: F)
    requires fits { length read.now ≤ N }
    requires in_memory { N < 2 ^ 63 }
    requires callable { (input : _) → length read.now ≤ length input.now → length input.now ≤ N → F.pre hand_on input N }
{
    let mut space = [0; N];
    let size = fill(rt, &mut space, read);
    hand_on(&space[..size], N);
}
