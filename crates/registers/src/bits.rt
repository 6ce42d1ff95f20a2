// The bits of status, configuration and register BF, and the bits that registers keep.
ghost use Rattle.std.specs.Prelude.{◌≡◌};
ghost use Rattle.registers.specs.Bits.{has};

// Whether a bit of the mask is set in the byte.
pub fn has(byte: u8, mask: u8) -> bool
    ensures { result ≡ has byte mask }
{
    byte & mask != 0
}

// Status.
pub const LHIGH: u8 = 0x40;

pub const LLOW: u8 = 0x20;

pub const RHIGH: u8 = 0x10;

pub const RLOW: u8 = 0x08;

pub const OPEN: u8 = 0x04;

pub const RCRIT: u8 = 0x02;

pub const LCRIT: u8 = 0x01;

// P6, P7: every status bit but Busy and OPEN.
pub const ALERTING: u8 = 0x7B;

// Busy, which no status and no live byte has.
pub const BUSY: u8 = 0x80;

// Configuration.
pub const ALERT_MASK: u8 = 0x80;

pub const STANDBY: u8 = 0x40;

pub const REMOTE_MASK: u8 = 0x10;

pub const LOCAL_MASK: u8 = 0x04;

pub const FAULT_QUEUE: u8 = 0x01;

// BF: ALERT is a comparator.
pub const COMPARATOR: u8 = 0x01;

// The bits that a write keeps, D7 to D0. Of 03.
pub const CONFIGURATION_KEPT: u8 = 0b1101_0101;

// Of 12, 13 and 14: halves, quarters and eighths of a degree.
pub const FRACTION_KEPT: u8 = 0b1110_0000;

// Of 21.
pub const HYSTERESIS_KEPT: u8 = 0b0001_1111;

// Of BF.
pub const FILTER_ALERT_KEPT: u8 = 0b0000_0111;

// Of all others.
pub const ALL_KEPT: u8 = 0b1111_1111;
