// Why the reader refuses, with the codes.
ghost use Rattle.std.specs.Prelude.{◌≡◌};
ghost use Rattle.capture.specs.Refusal.{refusal_code_of, of_record};

// Each with its code. A reader holds those that refuse a byte; the others, a capture that is cut short, no room for a record's answers and a
// reader out of its ranges, it tells alone.
#[derive(Clone, Copy, Debug, PartialEq, Eq)]
pub enum Refusal {
    DeviceCount = 1,
    Variant = 2,
    Kind = 3,
    Operand = 4,
    PastEnd = 5,
    CutShort = 6,
    Room = 7,
    Range = 8,
    OneAddress = 9,
}

impl From<Refusal> for u8 {
    ghost from_gives = { λ why code. code ≡ refusal_code_of why };

    fn from(why: Refusal) -> u8 {
        why as u8
    }
}

// A record is refused for its kind or for an operand.
impl From<record::Refusal> for Refusal {
    ghost from_gives = { λ why refusal. refusal ≡ of_record why };

    fn from(why: record::Refusal) -> Refusal {
        match why {
            record::Refusal::Kind => Refusal::Kind,
            record::Refusal::Operand => Refusal::Operand,
        }
    }
}
