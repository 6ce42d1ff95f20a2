#![tactic(auto)]
// Temperatures (P1 to P3, request b): two's complement bytes, signed eighths of a degree, and their comparisons.
ghost use Rattle.std.specs.Prelude.{◌≡◌, [], ◌∷◌};
ghost use Rattle.temperature.specs.Temperature.{degrees_of, eighths_of, held_of, held_sum_of, open_reading, above_of, below_of, cleared_of};
ghost use Rattle.temperature.specs.Temperature.{word_of, high_byte_of, low_byte_of};

// The ends of the scale, in eighths.
pub const LOWEST: i16 = -1024;

pub const HIGHEST: i16 = 1023;

// 127 degrees.
const OPEN_EIGHTHS: i16 = 1016;

// P1: a byte as whole degrees.
pub fn degrees(b: u8) -> i16
    ensures { result ≡ degrees_of b }
{
    i16::from(b.cast_signed())
}

// P1: a high byte and the top three bits of a low byte as eighths. Kept: from_be_bytes and a shift say the sentence of P1 no plainer.
pub fn eighths(high: u8, low: u8) -> i16
    ensures { result ≡ eighths_of high low }
{
    degrees(high) * 8 + (low / 32) as i16
}

// A remote reading, and whether its sum was held at an end of the scale. Kept: no Option or Result, since there is a reading either way.
#[derive(Clone, Copy)]
pub struct Reading {
    pub eighths: i16,
    pub held: bool,
}

fn hold(sum: i16) -> Reading
    ensures { result ≡ held_of sum }
{
    let eighths = sum.clamp(LOWEST, HIGHEST);
    Reading {
        eighths,
        held: eighths != sum,
    }
}

// P2, request b: a sample plus an offset, whose low byte is `part`, held to the scale, and whether it was.
pub fn held_sum(high: u8, low: u8, offset: u8, part: u8) -> Reading
    ensures { result ≡ held_sum_of high low offset part }
{
    hold(eighths(high, low) + eighths(offset, part))
}

// P2: an open diode gives 127 degrees with no offset; request b: it is never held.
pub fn open_reading() -> Reading
    ensures { result ≡ open_reading }
{
    Reading {
        eighths: OPEN_EIGHTHS,
        held: false,
    }
}

// P3: strictly above a limit. Kept beside `<`, as `below` is: the edits above_or_equal and below_or_equal are of these two.
pub fn above(t: i16, limit: i16) -> bool
    ensures { result ≡ above_of t limit }
{
    limit < t
}

// P3: strictly below a limit.
pub fn below(t: i16, limit: i16) -> bool
    ensures { result ≡ below_of t limit }
{
    t < limit
}

// P8: strictly below a T_CRIT byte less a hysteresis byte.
pub fn cleared(t: i16, crit: u8, hysteresis: u8) -> bool
    ensures { result ≡ cleared_of t crit hysteresis }
{
    t < eighths(crit, 0) - (hysteresis as i16) * 8
}

// The sixteen bits of a number, two's complement.
pub fn word(t: i16) -> u16
    ensures { result ≡ word_of t }
{
    t.cast_unsigned()
}

// P1 the other way: a reading as its two bytes, its eighths at the top of the second.
fn two_bytes(t: i16) -> [u8; 2]
    ensures { result ≡ high_byte_of t ∷ low_byte_of t ∷ [] }
{
    (word(t) << 5).to_be_bytes()
}

// P1 the other way: the high byte of a reading.
pub fn high_byte(t: i16) -> u8
    ensures { result ≡ high_byte_of t }
{
    two_bytes(t)[0]
}

// P1 the other way: the low byte of a reading.
pub fn low_byte(t: i16) -> u8
    ensures { result ≡ low_byte_of t }
{
    two_bytes(t)[1]
}
