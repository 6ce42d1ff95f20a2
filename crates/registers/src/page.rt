// Source document 004's register table (9.6.1), in the order of the page: what is read, what is written, where it stands and what is kept of it.
ghost use Rattle.std.specs.Prelude.{◌≡◌};
ghost use Rattle.registers.specs.Rows.{by_page, by_row, sorts_of, allows_of, row_at};

use super::{Way, bits};

// The four sorts of access of 004 (9.3.8), and none of them. A bit is for reading, one for writing, one for either by the address (`sorts`).
#[derive(Clone, Copy, PartialEq, Eq)]
pub(crate) enum Access {
    Neither = 0b000,
    ReadOnly = 0b001,
    WriteOnly = 0b010,
    SameAddress = 0b011,
    TwoAddresses = 0b100,
}

// What a line says of its register.
#[derive(Clone, Copy)]
pub(crate) struct Row {
    pub(crate) access: Access,
    // Among the fourteen bytes that hold what was written.
    pub(crate) place: Option<u8>,
    // The bits that a write keeps.
    pub(crate) kept: u8,
}

// Rows of registers without one of the fourteen bytes: no write stores anything there, so that the last column is not asked for.
const READ_ONLY: Row = Row {
    access: Access::ReadOnly,
    place: None,
    kept: bits::ALL_KEPT,
};

const WRITE_ONLY: Row = Row {
    access: Access::WriteOnly,
    place: None,
    kept: bits::ALL_KEPT,
};

const NO_ACCESS: Row = Row {
    access: Access::Neither,
    place: None,
    kept: bits::ALL_KEPT,
};

// A row of a register with one of the fourteen bytes.
fn settable(access: Access, place: u8, kept: u8) -> Row
    ensures { result ≡ row_at access place kept }
{
    Row {
        access,
        place: Some(place),
        kept,
    }
}

// The row with this address, a line for each printed row. `a | b =>` is for either address, `a..=b =>` for all from a to b, `_ =>` for any other.
// The page's second part begins at 21h; the `if` divides one row later, which is faster and changes no answer.
pub(crate) fn row_of(reg: u8) -> Row
    ensures { by_row reg result ≡ by_page reg }
{
    if reg <= 0x21 {
        match reg {
            0x00 => READ_ONLY, // LT: Local Temperature
            0x01 => READ_ONLY, // RTHB: Remote Temperature High Byte
            0x02 => READ_ONLY, // SR: Status Register
            0x03 | 0x09 => settable(Access::TwoAddresses, 0, bits::CONFIGURATION_KEPT), // C: Configuration
            0x04 | 0x0A => settable(Access::TwoAddresses, 1, bits::ALL_KEPT), // CR: Conversion Rate
            0x05 | 0x0B => settable(Access::TwoAddresses, 2, bits::ALL_KEPT), // LHS: Local HIGH Setpoint
            0x06 | 0x0C => settable(Access::TwoAddresses, 3, bits::ALL_KEPT), // LLS: Local LOW Setpoint
            0x07 | 0x0D => settable(Access::TwoAddresses, 4, bits::ALL_KEPT), // RHSHB: Remote HIGH Setpoint High Byte
            0x08 | 0x0E => settable(Access::TwoAddresses, 5, bits::ALL_KEPT), // RLSHB: Remote LOW Setpoint High Byte
            0x0F => WRITE_ONLY, // One Shot: Writing to this register will initiate a one shot conversion
            0x10 => READ_ONLY, // RTLB: Remote Temperature Low Byte
            0x11 => settable(Access::SameAddress, 6, bits::ALL_KEPT), // RTOHB: Remote Temperature Offset High Byte
            0x12 => settable(Access::SameAddress, 7, bits::FRACTION_KEPT), // RTOLB: Remote Temperature Offset Low Byte
            0x13 => settable(Access::SameAddress, 8, bits::FRACTION_KEPT), // RHSLB: Remote HIGH Setpoint Low Byte
            0x14 => settable(Access::SameAddress, 9, bits::FRACTION_KEPT), // RLSLB: Remote LOW Setpoint Low Byte
            0x19 => settable(Access::SameAddress, 10, bits::ALL_KEPT), // RCS: Remote T_CRIT Setpoint
            0x20 => settable(Access::SameAddress, 11, bits::ALL_KEPT), // LCS: Local T_CRIT Setpoint
            0x21 => settable(Access::SameAddress, 12, bits::HYSTERESIS_KEPT), // TH: T_CRIT Hysteresis
            _ => NO_ACCESS, // not on the page
        }
    } else {
        match reg {
            0xB0..=0xBE => NO_ACCESS, // Manufacturers Test Registers: neither read nor written, by document 01
            0xBF => settable(Access::SameAddress, 13, bits::FILTER_ALERT_KEPT), // RDTF: Remote Diode Temperature Filter; in 9.6.11 Filter and Alert
            0xFE => READ_ONLY, // RMID: Read Manufacturer's ID
            0xFF => READ_ONLY, // RDR: Read Stepping or Die Revision Code
            _ => NO_ACCESS, // not on the page
        }
    }
}

// The lowest write address of the page. The six registers with two addresses are read below it, at 03h to 08h, and written from it on, at 09h to 0Eh.
const LOWEST_WRITE_ADDRESS: u8 = 0x09;

// The bits of the sorts of access that are read, or written, at this address.
fn sorts(way: Way, reg: u8) -> u8
    ensures { result ≡ sorts_of way reg }
{
    let lower = reg < LOWEST_WRITE_ADDRESS;
    match way {
        Way::Read => if lower { 0b101 } else { 0b001 },
        Way::Write => if lower { 0b010 } else { 0b110 },
    }
}

impl Access {
    // Whether a register of this sort is read, or written, at this address of it. Kept as bits: a match is compiled to a jump at each read.
    pub(crate) fn allows(self, way: Way, reg: u8) -> bool
        ensures { result ≡ allows_of self way reg }
    {
        bits::has(self as u8, sorts(way, reg))
    }
}
