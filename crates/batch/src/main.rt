// Answers a pack of cases, a line for each. A pack is cases to the end of standard input, each of them four numbers of four bytes, high
// byte first: words lent, bytes lent, length of the formula, length of the proof; then the formula, then the proof.
#![tactic(auto)]

ghost use Rattle.std.specs.Prelude.{◌+◌, ◌<◌, ◌≤◌, ◌^◌, length, IfOk};

use paper::{Reason, Verdict};
use std::io;
use std::io::{Read, Write};

// What the work memory holds before each call.
const WORD: u32 = 0xA5A5A5A5;

const BYTE: u8 = 0xA5;

// What a pack's cases are read into, and the work memory that they are lent.
#[derive(Drop)]
struct Room {
    formula: [u8; 1048577],
    proof: [u8; 1048577],
    words: [u32; 32768],
    bytes: [u8; 16384],
}

// The number of four bytes at a place of the head.
fn number(head: &[u8; 16], at: usize) -> usize
    requires { at + 3 < 16 }
    ensures { result < 2 ^ 32 }
{
    u32::from_be_bytes([head[at], head[at + 1], head[at + 2], head[at + 3]]) as usize
}

// Whether the first places hold zero, as many as are asked for, and the rest what they were filled with.
fn zeroed<T: PartialEq + Drop>(memory: &[T], zeros: usize, zero: T, filled: T) -> bool {
    memory.iter().take(zeros).all(|x| *x == zero) && memory.iter().skip(zeros).all(|x| *x == filled)
}

// Whether the work memory is left as the paper says.
fn memory_right(v: Verdict, words: &[u32], bytes: &[u8]) -> bool {
    let (w, b) = match v {
        Verdict::Refused(refusal) if refusal.reason == Reason::WorkShort => (0, 0),
        _ => (16384, 8192),
    };
    zeroed(words, w, 0, WORD) && zeroed(bytes, b, 0, BYTE)
}

// Prints the line of a verdict, with a word more where the work memory is not left as the paper says.
fn tell(rt: &HostRuntime, v: Verdict, right: bool) -> io::Result<()> {
    let line = line::line_of(v);
    let text = &line.bytes[..line.size];
    if right {
        return rt.stdout().write_all(text);
    }
    rt.stdout().write_all(text.trim_ascii_end())?;
    rt.stdout().write_all(b" memory\n")
}

// Answers a case, with the work memory that it lends full of rubbish.
fn judge<'a>(
    rt: &HostRuntime,
    formula: &'a [u8],
    proof: &'a [u8],
    words: &mut [u32],
    bytes: &mut [u8],
) -> io::Result<()> {
    words.fill(WORD);
    bytes.fill(BYTE);
    let v = checker::check(formula, proof, words, bytes);
    tell(rt, v, memory_right(v, words, bytes))
}

// Reads until buf is full or the input ends, and answers how many bytes it put at the start of buf. No `io::copy`: it reads by way of a
// buffer of its own, of 8,192 bytes, which costs more, and loses the rest of a longer message where the input keeps messages apart.
fn read_full(rt: &HostRuntime, buf: &mut [u8]) -> io::Result<usize>
    ensures { IfOk result (λ n. n ≤ length buf.new) }
{
    let mut done: usize = 0;
    // No `for`: each read tells where the next one goes on.
    while done < buf.len() {
        let n = rt.stdin().read(&mut buf[done..])?;
        if n == 0 {
            break;
        }
        done += n;
    }
    Ok(done)
}

// Fills a buffer, and answers whether the input had the bytes.
fn load(rt: &HostRuntime, buf: &mut [u8]) -> io::Result<bool> {
    let size = buf.len();
    Ok(read_full(rt, buf)? == size)
}

// Reads n bytes and forgets them.
fn skip(rt: &HostRuntime, buf: &mut [u8], n: usize) -> io::Result<()> {
    let mut left = n;
    // No `for`: as many turns as the reads need.
    while 0 < left {
        let size = left.min(buf.len());
        let got = read_full(rt, &mut buf[..size])?;
        if got == 0 {
            break;
        }
        left -= got;
    }
    Ok(())
}

// A case for which there is no room, with n bytes of files.
fn unfit(rt: &HostRuntime, buf: &mut [u8], n: usize) -> io::Result<bool> {
    println!(rt; "unfit")?;
    skip(rt, buf, n)?;
    Ok(true)
}

fn cut_short(rt: &HostRuntime) -> io::Result<bool> {
    println!(rt; "cut short")?;
    Ok(false)
}

// Answers a case of which the head is read, and says whether the input had its files.
fn answer(rt: &HostRuntime, head: &[u8; 16], room: &mut Room) -> io::Result<bool> {
    let n = number(head, 8);
    let k = number(head, 12);
    let (Some(formula), Some(proof), Some(words), Some(bytes)) = (
        room.formula.get_mut(..n),
        room.proof.get_mut(..k),
        room.words.get_mut(..number(head, 0)),
        room.bytes.get_mut(..number(head, 4)),
    ) else {
        return unfit(rt, &mut room.formula, n + k);
    };
    if !load(rt, formula)? || !load(rt, proof)? {
        return cut_short(rt);
    }
    judge(rt, formula, proof, words, bytes)?;
    Ok(true)
}

// Answers one case of the input, and says whether there was one.
fn turn(rt: &HostRuntime, room: &mut Room) -> io::Result<bool> {
    let mut head = [0u8; 16];
    match read_full(rt, &mut head)? {
        0 => Ok(false),
        16 => answer(rt, &head, room),
        _ => cut_short(rt),
    }
}

fn main(rt: HostRuntime) -> io::Result<()> {
    let mut room = Room {
        formula: [0; 1048577],
        proof: [0; 1048577],
        words: [0; 32768],
        bytes: [0; 16384],
    };
    for _ in 0..u64::MAX {
        if !turn(&rt, &mut room)? {
            break;
        }
    }
    Ok(())
}
