// The table: eight pairs of a temperature and a PWM value, by value as one piece, and the step after a reading.
ghost use Rattle.std.specs.Prelude.{ℕ, suc, ◌≡◌, ◌<◌, IfNone, IfSome, true, false};
ghost use Rattle.fan.specs.Table.{table_of, falls_of, out_of, stands_of, entry_stands, step_of, value_of};

pub const ENTRIES: usize = 8;

const TEMPERATURE_MOST: u8 = 127;

pub const VALUE_MOST: u8 = 63;

// Where an entry has its two numbers: a temperature in whole degrees, and the PWM value from there on.
const TEMPERATURE: usize = 0;

const VALUE: usize = 1;

// From the bytes in the order of registers 50 to 5F: temperature and PWM value of entry 1, then of entry 2, and so on.
// Kept as pairs: the form of the fan table that docs/STATEMENTS.md names, eight two-element arrays.
pub fn of(bytes: [u8; 16]) -> [[u8; 2]; 8]
    ensures { result ≡ table_of bytes }
{
    let (pairs, _) = bytes.as_chunks::<2>();
    let mut table = [[0; 2]; 8];
    table.copy_from_slice(pairs);
    table
}

// Some temperature is below the one before it. Every entry is looked at, here and below: of std's `is_sorted_by` and `any` the compiler makes a jump at each.
pub fn falls(table: [[u8; 2]; 8]) -> bool
    ensures { result ≡ falls_of table }
{
    let mut found = false;
    let mut before = table[0][TEMPERATURE];
    for entry in &table[1..] {
        found |= entry[TEMPERATURE] < before;
        before = entry[TEMPERATURE];
    }
    found
}

// Some temperature or PWM value is out of its range.
pub fn out_of_range(table: [[u8; 2]; 8]) -> bool
    ensures { result ≡ out_of table }
{
    let mut found = false;
    for entry in &table {
        found |= (TEMPERATURE_MOST < entry[TEMPERATURE]) | (VALUE_MOST < entry[VALUE]);
    }
    found
}

// An entry's temperature is reached, or, for an entry up to the earlier step, its temperature less hysteresis; that goes down to -255 with no wrap.
fn stands(temperature: u8, hysteresis: u8, up_to: bool, reading: i8) -> bool
    ensures { result ≡ stands_of temperature hysteresis up_to reading }
{
    let temperature = i16::from(temperature);
    let reading = i16::from(reading);
    (temperature <= reading) | (up_to & (temperature - i16::from(hysteresis) <= reading))
}

// The place of the highest entry that stands, from 0.
fn highest(table: [[u8; 2]; 8], hysteresis: u8, earlier: u8, reading: i8) -> Option<usize>
    ensures none { IfNone result ((i : ℕ) → i < 8 → entry_stands table hysteresis earlier reading (suc i) ≡ false) }
    ensures here { IfSome result (λ last. (last < 8) × (entry_stands table hysteresis earlier reading (suc last) ≡ true)) }
    ensures above { IfSome result (λ last. (i : ℕ) → last < i → i < 8 → entry_stands table hysteresis earlier reading (suc i) ≡ false) }
{
    table
        .iter()
        .enumerate()
        .rev()
        .find(|(i, entry)| stands(
            entry[TEMPERATURE],
            hysteresis,
            *i < usize::from(earlier),
            reading,
        ))
        .map(|(i, _)| i)
}

// The highest entry that stands, 0 for none.
pub fn step(table: [[u8; 2]; 8], hysteresis: u8, earlier: u8, reading: i8) -> u8
    ensures { result ≡ step_of table hysteresis earlier reading }
{
    highest(table, hysteresis, earlier, reading).map_or(0, |i| i as u8 + 1)
}

// The PWM value of a step; of no entry 0.
pub(crate) fn value(table: [[u8; 2]; 8], step: u8) -> u8
    ensures { result ≡ value_of table step }
{
    step.checked_sub(1)
        .and_then(|i| table.get(usize::from(i)))
        .map_or(0, |entry| entry[VALUE])
}
