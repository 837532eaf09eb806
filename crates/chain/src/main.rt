#![tactic(auto)]
// Reads one sheet from standard input and writes the chain of its edge, or the number of a refusal.
ghost use Rattle.std.specs.Prelude.{◌≤◌, length};

use std::io::{Read, Stdin};

// Reads until the buffer is full, the input ends or a read fails; answers how many bytes it put at the buffer's start.
// Stays: `read_exact` would not say how many, and `io::copy` goes through a buffer of its own.
fn read_full(mut from: Stdin, text: &mut [u8]) -> usize
    ensures { result ≤ length text.new }
{
    let mut done = 0usize;
    while done < text.len() {
        let n = from.read(&mut text[done..]).unwrap_or(0);
        if n == 0 {
            break;
        }
        done += n;
    }
    done
}

// Reads what an input that is too long has left, so that whoever writes it can end. Stays: `io::copy` into a sink reads an eighth as much at a
// time, into a buffer that it clears each time. The loop counts its turns, up to a number that no run reaches, since nothing says that an
// input ends.
fn drain(mut from: Stdin) {
    let mut chunk = [0u8; 65536];
    for _ in 0..u64::MAX {
        if from.read(&mut chunk).unwrap_or(0) == 0 {
            break;
        }
    }
}

// Writes the bytes. That they could not be written, as to a full disk, it says on standard error.
fn write(rt: &(impl Print + Eprint), bytes: &[u8]) {
    if rt.write_all(bytes).is_err() {
        let _ = rt.eprint("chain: the answer could not be written\n");
    }
}

fn main(rt: HostRuntime) {
    let mut text = [0u8; chain_answer::READ];
    let mut out = [0u8; chain_answer::BYTES];
    let n = read_full(rt.stdin(), &mut text);
    let written = chain_answer::print(&text, n, &mut out);
    write(&rt, &out[..written]);
    // After the answer, since an input may have no end.
    if n == chain_answer::READ {
        drain(rt.stdin());
    }
}
