// The file program: a file on standard input, its listing on standard output (docs/SCOPE.md 11).
#![tactic(auto)]

ghost use Rattle.std.specs.Prelude.{◌≡◌, ◌≤◌, length};

use listing::LISTING;
use pmf::FILE_ROOM;
use std::io::{Read, Write};

// One byte more than the longest file has tells a longer one, whose listing asks for no other byte (`cut_listed`, pmf/proofs/Long.antt).
fn file_room() -> [u8; FILE_ROOM] {
    [0; FILE_ROOM]
}

// Reads until buf is full or the input ends, and says how many bytes it put at the start of buf. A read that fails counts as the end.
// It counts bytes, of which a read gives as many as it likes; `read_exact` tells of no count.
fn read_full(input: &mut impl Read, buf: &mut [u8]) -> usize
    ensures { result ≤ length buf.new }
{
    let mut done = 0;
    while done < buf.len() {
        match input.read(&mut buf[done..]) {
            Ok(0) | Err(_) => break,
            Ok(n) => done += n,
        }
    }
    done
}

// 65,536 zeros, for a loop that reads much.
fn large_buffer() -> [u8; 65536]
    ensures { 65536 ≡ length result }
{
    [0; 65536]
}

// Reads the input to its end, in a loop with a bound, since every function returns.
fn read_on(input: &mut impl Read) {
    let mut rest = large_buffer();
    for _ in 0..u64::MAX {
        if read_full(input, &mut rest) < rest.len() {
            return;
        }
    }
}

fn main(rt: HostRuntime) {
    let mut input = rt.stdin();
    let mut file = file_room();
    let mut text = [0; LISTING];
    let n = read_full(&mut input, &mut file);
    if n == FILE_ROOM {
        read_on(&mut input);
    }
    let k = pmf::list(&file[..n], &mut text);
    // A listing is whole where its last line is: where a write fails, it isn't.
    let _ = rt.stdout().write_all(&text[..k]);
}
