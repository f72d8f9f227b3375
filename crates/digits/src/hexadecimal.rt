// Hexadecimal in lowercase digits: numbers written and read, in so many digits.

ghost use Rattle.std.specs.Prelude.{◌≡◌, ◌+◌, ◌≤◌, ◌<◌, length};
ghost use Rattle.std.proofs.Math.Seq.{slice};
ghost use Rattle.digits.specs.hexadecimal.Hex.{MOST, Written, all_digits, glyph, hex, is_digit, is_letter, is_numeral, number, value};

// Writes the last so many digits of x, the last one first.
#[tactic(auto, using(crate::proofs::hexadecimal::SearchPut::wanted), unfolding(crate::specs::hexadecimal::Hex::hex))]
pub fn put(out: &mut [u8], at: usize, digits: usize, x: u64)
    requires { at + digits ≤ length out.old }
    ensures { Written out.old at (hex digits x) out.new }
{
    let mut left = digits;
    let mut rest = x;
    while 0 < left {
        left -= 1;
        out[at + left] = glyph(rest % 16);
        rest = rest / 16;
    }
}

// Whether all bytes are digits. Nothing stops at one that is none, so that many bytes are looked at together.
pub fn all_digits(s: &[u8]) -> bool
    ensures { result ≡ all_digits s.now }
{
    let mut all = true;
    for i in 0..s.len() {
        all = all & is_digit(s[i]);
    }
    all
}

// The number that the digits from one place up to another write.
pub fn number(s: &[u8], from: usize, to: usize) -> u64
    requires from_le_to { (from ≤ to) × (to ≤ length s.now) }
    requires to_bound { to ≤ from + MOST }
    ensures { result ≡ number (slice from to s.now) }
{
    let mut n = 0;
    for i in from..to {
        n = 16 * n + value(s[i]);
    }
    n
}

// The code of the digit for a number below 16.
pub fn glyph(d: u64) -> u8
    requires { d < 16 }
    ensures { result ≡ glyph d }
{
    (ahead(d) + d) as u8
}

// How far the code of a digit stands after its number: picked by itself and added in full, it takes fewer steps than the code picked of two sums.
fn ahead(d: u64) -> u64
    ensures { (result + d ≡ glyph d) × (result ≤ 87) }
{
    if d < 10 {
        return 48;
    }
    87
}

fn is_digit(b: u8) -> bool
    ensures { result ≡ is_digit b }
{
    is_numeral(b) | is_letter(b)
}

fn is_numeral(b: u8) -> bool
    ensures { result ≡ is_numeral b }
{
    (48 <= b) & (b <= 57)
}

fn is_letter(b: u8) -> bool
    ensures { result ≡ is_letter b }
{
    (97 <= b) & (b <= 102)
}

// What a digit stands for; 0 for a byte that is none.
fn value(b: u8) -> u64
    ensures { (result ≡ value b) × (result < 16) }
{
    if is_numeral(b) {
        return b as u64 - 48;
    }
    if is_letter(b) {
        return b as u64 - 87;
    }
    0
}
