// The check program: reads the two files that its arguments name, and prints the line of the answer. All that matters is below it.
#![tactic(auto)]

use std::env::FillError;
use std::fs::File;
use std::io;
use std::io::{Read, Write};
use std::rt::Env;

// Reads the whole of a file to the start of buf, and answers how many bytes it has: none where a read fails, or buf has no room for them.
// A full buf is followed by one read more: only that tells the end of the file from a byte too many, or from a fault. No `io::copy`:
// it reads by way of a buffer of its own, and takes 8,192 bytes of a pipe where one tells that there are too many.
fn read_whole(file: &mut File, buf: &mut [u8]) -> Option<usize> {
    let mut at: usize = 0;
    // No `for`: each read tells where the next one goes on.
    while at < buf.len() {
        let n = file.read(&mut buf[at..]).ok()?;
        if n == 0 {
            return Some(at);
        }
        at += n;
    }
    let more = file.read(&mut [0u8; 1]).ok()?;
    (more == 0).then_some(at)
}

// The bytes of the file that argument i names, read to the start of buf: none where it cannot be read, or has more than buf has room for.
fn load<'a>(rt: &HostRuntime, i: usize, buf: &'a mut [u8]) -> Option<&'a [u8]> {
    let mut path = [0u8; 4096];
    let n = rt.arg(i, &mut path).ok()?;
    let name = str::from_utf8(&path[..n]).ok()?;
    let mut file = File::open(rt, name).ok()?;
    let size = read_whole(&mut file, buf)?;
    buf.get(..size)
}

// Whether argument i is there, whatever its length.
fn is_there(rt: &HostRuntime, i: usize) -> bool {
    !matches!(rt.arg(i, &mut [0u8; 1]), Err(FillError::NotPresent))
}

fn main(rt: HostRuntime) -> io::Result<()> {
    if !is_there(&rt, 2) || is_there(&rt, 3) {
        return rt.println("unread");
    }
    let mut formula = [0u8; 65536];
    let mut proof = [0u8; 65536];
    match (load(&rt, 1, &mut formula), load(&rt, 2, &mut proof)) {
        (Some(f), Some(p)) => {
            let line = cli::answer(f, p);
            rt.stdout().write_all(&line.bytes[..line.size])
        }
        _ => rt.println("unread"),
    }
}
