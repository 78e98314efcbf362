// Standard input read into a lent buffer, and a lent buffer written to standard output.
#![tactic(auto)]

ghost use Rattle.streams.specs.Counts.{IsPrefixLen};

use std::io::{Read, Write};

// Reads until `buf` is full, standard input ends or a read fails, and returns how many bytes it put at the start of `buf`.
// On an empty buffer it makes no call.
pub fn read_full(rt: &HostRuntime, buf: &mut [u8]) -> usize
    ensures { IsPrefixLen result buf.new }
{
    let mut input = rt.stdin();
    let mut done = 0;
    while done < buf.len() {
        match input.read(&mut buf[done..]) {
            Ok(n) if 0 < n => done += n,
            _ => return done,
        }
    }
    done
}

// Writes all of `buf` to standard output and returns true, or stops at the first write that takes nothing or fails and returns
// false, when some of `buf` may have been written.
// Kept: a caller could tell no kinds of this failure apart.
pub fn write_all(rt: &HostRuntime, buf: &[u8]) -> bool {
    let mut output = rt.stdout();
    output.write_all(buf).is_ok()
}
