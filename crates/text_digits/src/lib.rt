#![tactic(auto)]
// Numbers as text: sixteen hex digits, or a plain decimal, and the byte behind them. Stays: not by the library's `Display`, since what writes
// one may answer an error, and these cannot fail.
ghost use Rattle.std.specs.Prelude.{◌≡◌, [], ◌∷◌, ◌++◌, ◌^◌, ◌<◌, ◌≤◌, length};
ghost use Rattle.text_format.specs.Format.{digits, decimal, hex16};

// Sixteen hex digits and the byte behind them.
pub const HEX: usize = 17;

// The most digits of a plain decimal and the byte behind them.
pub const DECIMAL: usize = 21;

// The digits of v, one in each place. Stays: by index, since `iter_mut().rev()` was tried, and under it the loop's invariant has no name for what
// was written.
fn put_digits<const BASE: u64>(v: u64, out: &mut [u8])
    requires base { (1 < BASE) × (BASE ≤ 16) }
    requires few { v < BASE ^ length out.old }
    ensures { out.new ≡ digits BASE (length out.old) v }
{
    let mut rest = v;
    for i in (0..out.len()).rev() {
        out[i] = text_format::char_of((rest % BASE) as u8);
        rest /= BASE;
    }
}

// Sixteen hex digits, then the byte `end`.
pub fn hex(v: u64, end: u8) -> [u8; HEX]
    ensures { result ≡ hex16.write v ++ end ∷ [] }
{
    let mut text = [end; HEX];
    put_digits::<16>(v, &mut text[..HEX - 1]);
    text
}

// A plain decimal, in which no zero leads but that of 0 itself, then the byte `end`.
pub fn decimal(v: u64, end: u8, text: &mut [u8; DECIMAL]) -> &[u8]
    ensures { result.now ≡ decimal v ++ end ∷ [] }
{
    let n = v.checked_ilog10().unwrap_or(0) as usize + 1;
    put_digits::<10>(v, &mut text[..n]);
    text[n] = end;
    &text[..n + 1]
}
