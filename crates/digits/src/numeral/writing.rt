// Numbers written in decimal and in hexadecimal, in just as many digits as they have.
ghost use Rattle.std.specs.Prelude.{◌≡◌, ◌+◌, ◌≤◌, length};
ghost use Rattle.digits.specs.hexadecimal.Hex.{Written};
ghost use Rattle.digits.specs.numeral.Digits.{digits_in};

// Writes the digits of x in a base from a place on, and says where they end: those of the rest first, then the last one.
pub fn put_digits(out: &mut [u8], at: usize, base: u64, x: u64) -> usize
    requires le_base { (2 ≤ base) × (base ≤ 16) }
    requires x_in_bounds { at + length (digits_in base x) ≤ length out.old }
    ensures { Written out.old at (digits_in base x) out.new × (result ≡ at + length (digits_in base x)) }
{
    if x < base {
        out[at] = crate::hexadecimal::glyph(x);
        return at + 1;
    }
    let end = put_digits(out, at, base, x / base);
    out[end] = crate::hexadecimal::glyph(x % base);
    end + 1
}
