// Why a record is refused, and why nothing is written, with the codes of both.
ghost use Rattle.std.specs.Prelude.{◌≡◌, Err};
ghost use Rattle.record.specs.Record.{code_of};
ghost use Rattle.record.specs.Stopped.{stopped_of};
ghost use Rattle.record.specs.Writer.{of_record, write_code_of};

use device::Event;

// Why a record is refused.
#[derive(Clone, Copy, Debug, PartialEq, Eq)]
pub enum Refusal {
    Kind,
    Operand,
}

impl From<Refusal> for u8 {
    ghost from_gives = { λ why code. code ≡ code_of (Err why) };

    fn from(why: Refusal) -> u8 {
        match why {
            Refusal::Kind => 3,
            Refusal::Operand => 4,
        }
    }
}

// The code of a record: 0 for an event.
#[tactic(auto, unfolding(crate::specs::Record::code_of))]
pub fn code(decoded: Result<Event, Refusal>) -> u8
    ensures { result ≡ code_of decoded }
{
    match decoded {
        Ok(_) => 0,
        Err(why) => u8::from(why),
    }
}

// Bytes that are no event's are not stepped.
impl From<Refusal> for device::Refusal {
    ghost from_gives = { λ why refusal. refusal ≡ stopped_of why };

    fn from(why: Refusal) -> device::Refusal {
        match why {
            Refusal::Kind => device::Refusal::Kind,
            Refusal::Operand => device::Refusal::Operand,
        }
    }
}

// Why nothing is written: a variant, a kind or an operand that is not in its table, no room, or two devices at one address.
#[derive(Clone, Copy, Debug, PartialEq, Eq)]
pub enum WriteRefusal {
    Variant,
    Kind,
    Operand,
    Room,
    OneAddress,
}

impl From<WriteRefusal> for u8 {
    ghost from_gives = { λ why code. code ≡ write_code_of (Err why) };

    fn from(why: WriteRefusal) -> u8 {
        match why {
            WriteRefusal::Variant => 2,
            WriteRefusal::Kind => 3,
            WriteRefusal::Operand => 4,
            WriteRefusal::Room => 7,
            WriteRefusal::OneAddress => 9,
        }
    }
}

// Bytes that are no event's are not written.
impl From<Refusal> for WriteRefusal {
    ghost from_gives = { λ why refusal. refusal ≡ of_record why };

    fn from(why: Refusal) -> WriteRefusal {
        match why {
            Refusal::Kind => WriteRefusal::Kind,
            Refusal::Operand => WriteRefusal::Operand,
        }
    }
}

// The code of a writer's result: 0 where it wrote.
pub fn write_code(written: Result<(), WriteRefusal>) -> u8
    ensures { result ≡ write_code_of written }
{
    match written {
        Ok(()) => 0,
        Err(why) => u8::from(why),
    }
}
