#![tactic(auto)]
// Text for a program to write, which waits in a buffer until that is full. And the parts of a program's input. Stays: both buffer in
// fixed memory, since the library's `BufWriter` and `BufReader` allocate.
ghost use Rattle.std.specs.Prelude.{◌≡◌, List, ℕ, [], ◌∷◌, ◌++◌, ◌≤◌, length};
ghost use Rattle.std.specs.Float.{binary64};
ghost use Rattle.std.specs.Float.Ieee.{to_bits};
ghost use Rattle.text_format.specs.Format.{decimal, hex16};
ghost use Rattle.replay_text.specs.Own.Waiting.{put_one, puts, line_from, PutsEach};

use std::io::{Print, Read, Stdin, Stdout};
use std::marker::Model;
use std::num::f64_to_bits_with_nan;
use text_digits::DECIMAL;

// How many bytes can wait.
const ROOM: usize = 4096;

// How many bytes of the input are read at a time.
const CHUNK: usize = 65536;

// The bytes that wait to be written: the first `len` of the buffer.
#[derive(Drop)]
pub struct Waiting {
    to: Stdout,
    bytes: [u8; ROOM],
    len: usize,
}

impl Model for Waiting {
    ghost use Rattle.std.specs.Prelude.{◌≤◌, ℕ, List, take};
    ghost use Rattle.replay_text.specs.declared.TheConstants.{ROOM};

    ghost Value = { List ℕ };

    ghost view = { λ w. take w.len w.bytes };

    ghost invariant = { λ w. w.len ≤ ROOM };
}

impl Waiting {
    // Before the first byte.
    pub fn new(to: Stdout) -> Waiting
        ensures { result ≡ [] }
    {
        Waiting {
            to,
            bytes: [0; ROOM],
            len: 0,
        }
    }

    // Writes the bytes that wait: none do afterwards.
    pub fn flush(&mut self)
        ensures { self.new ≡ [] }
    {
        let _ = self.to.write_all(&self.bytes[..self.len]);
        self.len = 0;
    }

    // One byte.
    pub fn put_byte(&mut self, b: u8)
        ensures { self.new ≡ put_one b self.old }
    {
        if self.len == ROOM {
            self.flush();
        }
        self.bytes[self.len] = b;
        self.len += 1;
    }

    // The bytes of a text.
    #[tactic(auto, using(crate::proofs::Puts::puts_next), unfolding(crate::specs::Own::Waiting::puts))]
    pub fn put_word(&mut self, text: &[u8])
        ensures { self.new ≡ puts text.now self.old }
    {
        if text.len() <= ROOM - self.len {
            self.bytes[self.len..self.len + text.len()].copy_from_slice(text);
            self.len += text.len();
        } else {
            for b in text {
                self.put_byte(*b);
            }
        }
    }

    // Sixteen hex digits, then the byte `end`.
    pub fn put_hex(&mut self, v: u64, end: u8)
        ensures { self.new ≡ puts (hex16.write v ++ end ∷ []) self.old }
    {
        self.put_word(&text_digits::hex(v, end));
    }

    // The bits of x, then the byte `end`.
    pub fn put_float(&mut self, x: f64, end: u8)
        ensures { self.new ≡ puts (hex16.write (to_bits binary64 x) ++ end ∷ []) self.old }
    {
        self.put_hex(f64_to_bits_with_nan(x), end);
    }

    // A plain decimal, then the byte `end`.
    pub fn put_decimal(&mut self, v: u64, end: u8)
        ensures { self.new ≡ puts (decimal v ++ end ∷ []) self.old }
    {
        self.put_word(text_digits::decimal(v, end, &mut [0; DECIMAL]));
    }

    // A line of what is in a list, each put with its index and the byte behind it: a space, or a newline behind the last.
    pub fn put_line<T, F: Fn(usize, &T, u8, &mut Waiting)>(&mut self, list: &[T], put: F)
        requires { F.IsAlwaysCallable put }
        ensures { (text : ℕ → T → ℕ → List ℕ) → PutsEach F.post put text → self.new ≡ puts (line_from text 0 list.now) self.old }
    {
        for (i, x) in list.iter().enumerate() {
            put(i, x, text_format::end_of(list, i), self);
        }
    }
}

// The parts of the input. A part ends behind four equals signs and a newline, or where the input does.
#[derive(Drop)]
pub struct Parts<const SIZE: usize> {
    from: Stdin,
    exact: bool,
    chunk: [u8; CHUNK],
    read: usize,
    taken: usize,
    text: [u8; SIZE],
    len: usize,
}

impl<const SIZE: usize> Model for Parts<SIZE> {
    ghost use Rattle.std.specs.Prelude.{◌≤◌, ℕ, List, take};
    ghost use Rattle.replay_text.specs.declared.TheConstants.{CHUNK};

    ghost Value = { List ℕ };

    ghost view = { λ p. take p.len p.text };

    ghost invariant = { λ p. (p.taken ≤ p.read) × (p.read ≤ CHUNK) × (p.len ≤ SIZE) };
}

impl<const SIZE: usize> Parts<SIZE> {
    // Before the first part. Where `exact` is false a newline ends a part behind more than four equals signs too.
    pub fn new(from: Stdin, exact: bool) -> Parts<SIZE>
        ensures { result ≡ [] }
    {
        Parts {
            from,
            exact,
            chunk: [0; CHUNK],
            read: 0,
            taken: 0,
            text: [0; SIZE],
            len: 0,
        }
    }

    // The bytes of the part that was read last.
    pub fn text(&self) -> &[u8]
        ensures { result.now ≡ self.now }
    {
        &self.text[..self.len]
    }

    // The next byte of the input. A chunk without bytes is its end.
    fn next_byte(&mut self) -> Option<u8>
        ensures { self.new ≡ self.old }
    {
        if self.taken == self.read {
            self.read = self.from.read(&mut self.chunk).unwrap_or(0);
            self.taken = 0;
        }
        if self.taken == self.read {
            return None;
        }
        let b = self.chunk[self.taken];
        self.taken += 1;
        Some(b)
    }

    // One byte more of the part. What has no room is left out.
    fn keep(&mut self, b: u8)
        ensures { length self.new ≤ SIZE }
    {
        if self.len < SIZE {
            self.text[self.len] = b;
            self.len += 1;
        }
    }

    // Reads the next part; answers whether a separator ended it. The loop counts its turns, up to a number that no run reaches,
    // since nothing says that an input ends.
    pub fn read_part(&mut self) -> bool
        ensures { length self.new ≤ SIZE }
    {
        self.len = 0;
        let mut equals = 0u32;
        for _ in 0..u64::MAX {
            let Some(b) = self.next_byte() else {
                return false;
            };
            if b == b'\n' && (equals == 4 || equals > 4 && !self.exact) {
                // The four equals signs are the last that were kept, also of a part that is too long.
                self.len = self.len.saturating_sub(4);
                return true;
            }
            self.keep(b);
            equals = if b == b'=' { (equals + 1).min(5) } else { 0 };
        }
        false
    }
}
