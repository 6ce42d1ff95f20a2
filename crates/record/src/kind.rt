// The kinds of records, by number.
ghost use Rattle.std.specs.Prelude.{◌≡◌};
ghost use Rattle.record.specs.Kinds.{kind_of};

use super::Refusal;

// Address, register and value are written, a register is read, sent, or received from; a conversion, one with an open diode, and power-on. The last two
// are conversions of a bus's second device.
#[derive(Clone, Copy, Debug, PartialEq, Eq)]
pub enum Kind {
    Write = 1,
    Read = 2,
    Send = 3,
    Receive = 4,
    Convert = 5,
    Open = 6,
    PowerOn = 7,
    ConvertSecond = 8,
    OpenSecond = 9,
}

impl TryFrom<u8> for Kind {
    type Error = Refusal;

    ghost try_from_gives = { λ number kind. kind ≡ kind_of number };

    fn try_from(number: u8) -> Result<Self, Refusal> {
        match number {
            1 => Ok(Kind::Write),
            2 => Ok(Kind::Read),
            3 => Ok(Kind::Send),
            4 => Ok(Kind::Receive),
            5 => Ok(Kind::Convert),
            6 => Ok(Kind::Open),
            7 => Ok(Kind::PowerOn),
            8 => Ok(Kind::ConvertSecond),
            9 => Ok(Kind::OpenSecond),
            _ => Err(Refusal::Kind),
        }
    }
}
