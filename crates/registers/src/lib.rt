#![tactic(auto)]

// The registers: which are readable and writable, the fourteen settable bytes, kept bits and power-on bytes. What a number is asked
// for stands in the rows of `page`.
ghost use Rattle.std.specs.Prelude.{◌≡◌};
ghost use Rattle.registers.specs.Rows.{allowed_of, position_of};
ghost use Rattle.registers.specs.Page.{known_of, kept_of, power_on_of, read_only_of, address_of};

use page::Access;

pub mod bits;
mod page;

// Which way a byte goes.
#[derive(Clone, Copy, PartialEq, Eq)]
pub enum Way {
    Read,
    Write,
}

pub const CONFIGURATION: usize = 0;

pub const LOCAL_HIGH: usize = 2;

pub const LOCAL_LOW: usize = 3;

pub const REMOTE_HIGH: usize = 4;

pub const REMOTE_LOW: usize = 5;

pub const OFFSET: usize = 6;

pub const OFFSET_PART: usize = 7;

pub const REMOTE_HIGH_PART: usize = 8;

pub const REMOTE_LOW_PART: usize = 9;

pub const REMOTE_CRIT: usize = 10;

pub const LOCAL_CRIT: usize = 11;

pub const HYSTERESIS: usize = 12;

pub const FILTER_ALERT: usize = 13;

// Numbers of registers that are no settings: the readings, status, the one-shot, manufacturer and die revision.
pub const LOCAL: u8 = 0x00;

pub const REMOTE: u8 = 0x01;

pub const STATUS: u8 = 0x02;

pub const ONE_SHOT: u8 = 0x0F;

pub const REMOTE_PART: u8 = 0x10;

pub const MANUFACTURER: u8 = 0xFE;

pub const DIE_REVISION: u8 = 0xFF;

// Whether a register is read, or written, at this number: in R, or in W.
pub fn allowed(way: Way, reg: u8) -> bool
    ensures { result ≡ allowed_of way reg }
{
    page::row_of(reg).access.allows(way, reg)
}

// In R or W.
pub fn known(reg: u8) -> bool
    ensures { result ≡ known_of reg }
{
    page::row_of(reg).access != Access::Neither
}

// Where the byte of the register that is read, or written, at this number stands among the fourteen.
pub fn position(way: Way, reg: u8) -> Option<u8>
    ensures { result ≡ position_of way reg }
{
    let row = page::row_of(reg);
    if row.access.allows(way, reg) {
        row.place
    } else {
        None
    }
}

// The bits that a register keeps, by either of its numbers.
pub fn kept(reg: u8) -> u8
    ensures { result ≡ kept_of reg }
{
    page::row_of(reg).kept
}

// The fourteen bytes at power-on; none but variants 1 to 3 has a table. Kept: a variant is a number, since C's struct lm89_device has any byte there.
pub fn power_on(variant: u8) -> [u8; 14]
    ensures { result ≡ power_on_of variant }
{
    match variant {
        1 => [0, 8, 70, 0, 70, 0, 0, 0, 0, 0, 110, 85, 10, 0],
        2 => [0, 8, 70, 0, 70, 0, 0, 0, 0, 0, 110, 85, 10, 0],
        3 => [0, 8, 70, 0, 70, 0, 0, 0, 0, 0, 110, 105, 10, 0],
        _ => [0; 14],
    }
}

// A read-only register at power-on, and manufacturer and die revision for ever.
pub fn read_only(variant: u8, reg: u8) -> u8
    ensures { result ≡ read_only_of variant reg }
{
    match reg {
        MANUFACTURER => match variant {
            1..=3 => 0x01,
            _ => 0,
        },
        DIE_REVISION => match variant {
            1 => 0x31,
            2 => 0x34,
            3 => 0x35,
            _ => 0,
        },
        _ => 0,
    }
}

pub fn address(variant: u8) -> u8
    ensures { result ≡ address_of variant }
{
    if variant == 1 { 0x4C } else { 0x4D }
}
