#![tactic(auto)]

// The fan side of the LM63 (request g): a table of eight steps, the duty of a PWM value and the preset of about 75 percent. It stands beside the sensor.
ghost use Rattle.std.specs.Prelude.{◌≡◌, ◌≤◌, ◌<◌, MatchResult};
ghost use Rattle.fan.specs.Fan.{duty_answer_of, preset_answer_of};
ghost use Rattle.fan.specs.Answers.{told_of, from_told};

pub mod drive;
pub mod table;

const HYSTERESIS_MOST: u8 = 31;

const FREQUENCY_MOST: u8 = 31;

// The table's sixteen bytes: eight times a temperature and its PWM value.
// Kept as bytes: the theorems on `step_answer_of`, as `zero_step`, name them.
#[repr(C)]
#[derive(Drop)]
pub struct Fan {
    pub table: [u8; 16],
    pub hysteresis: u8,
    pub frequency: u8,
}

// The entry that is in force, 0 for none, its PWM value and the duty in hundredths of a percent.
// Kept as numbers: step 0 for none is the page's and C's (lm89_driven).
#[derive(Debug, Clone, Copy, PartialEq, Eq)]
pub struct Step {
    pub number: u8,
    pub value: u8,
    pub duty: u16,
}

// Temperatures that fall along the table, or a number out of its range, each with its code.
#[derive(Debug, Clone, Copy, PartialEq, Eq)]
pub enum Refusal {
    Operand = 4,
    Falling = 11,
}

// A code, and the step, its PWM value and the duty in hundredths of a percent.
// Kept: the C interface (struct lm89_driven) has a code beside the numbers.
#[repr(C)]
#[derive(Drop)]
pub struct Driven {
    pub code: u8,
    pub step: u8,
    pub value: u8,
    pub duty: u16,
}

// A code and a number.
// Kept: the C interface (struct lm89_number) has a code beside the number.
#[repr(C)]
#[derive(Drop)]
pub struct Number {
    pub code: u8,
    pub value: u16,
}

impl From<Refusal> for u8 {
    ghost use Rattle.fan.specs.Answers.{refusal_code};

    ghost from_gives = { λ refusal code. code ≡ refusal_code refusal };

    fn from(refusal: Refusal) -> u8 {
        refusal as u8
    }
}

impl From<Result<Step, Refusal>> for Driven {
    ghost use Rattle.fan.specs.Answers.{driven_of};

    ghost from_gives = { λ answer driven. driven ≡ driven_of answer };

    fn from(answer: Result<Step, Refusal>) -> Driven {
        match answer {
            Ok(step) => Driven {
                code: 0,
                step: step.number,
                value: step.value,
                duty: step.duty,
            },
            Err(refusal) => Driven {
                code: refusal.into(),
                step: 0,
                value: 0,
                duty: 0,
            },
        }
    }
}

impl From<Result<u16, Refusal>> for Number {
    ghost use Rattle.fan.specs.Answers.{told_of};

    ghost from_gives = { λ answer number. number ≡ told_of answer };

    fn from(answer: Result<u16, Refusal>) -> Number {
        match answer {
            Ok(value) => Number { code: 0, value },
            Err(refusal) => Number {
                code: refusal.into(),
                value: 0,
            },
        }
    }
}

impl Fan {
    ghost use Rattle.fan.specs.Fan.{code_of, step_answer_of};
    ghost use Rattle.fan.specs.Answers.{code_told, driven_of, from_driven};

    // Falling, then Operand, else nothing.
    fn check(&self, table: [[u8; 2]; 8], earlier: u8) -> Result<(), Refusal>
        ensures { code_told result ≡ code_of table self.now.hysteresis self.now.frequency earlier }
    {
        if table::falls(table) {
            return Err(Refusal::Falling);
        }
        if table::out_of_range(table)
            | (HYSTERESIS_MOST < self.hysteresis)
            | (FREQUENCY_MOST < self.frequency)
            | (table::ENTRIES < usize::from(earlier))
        {
            return Err(Refusal::Operand);
        }
        Ok(())
    }

    // The step after a reading, with its PWM value and its duty.
    pub fn step(&self, earlier: u8, reading: i8) -> Result<Step, Refusal>
        ensures told { driven_of result ≡ step_answer_of self.now earlier reading }
        ensures same { result ≡ from_driven (step_answer_of self.now earlier reading) }
    {
        let table = table::of(self.table);
        self.check(table, earlier)?;
        let number = table::step(table, self.hysteresis, earlier, reading);
        let value = table::value(table, number);
        Ok(Step {
            number,
            value,
            duty: drive::duty(self.frequency, value),
        })
    }
}

// A number is at most the greatest of its range.
fn within(number: u8, most: u8) -> Result<(), Refusal>
    ensures { MatchResult result (λ _. number ≤ most) (λ refusal. (refusal ≡ Refusal.Operand) × (most < number)) }
{
    if most < number {
        return Err(Refusal::Operand);
    }
    Ok(())
}

// The duty of a PWM value, in hundredths of a percent.
pub fn duty(frequency: u8, value: u8) -> Result<u16, Refusal>
    ensures told { told_of result ≡ duty_answer_of frequency value }
    ensures same { result ≡ from_told (duty_answer_of frequency value) }
{
    within(frequency, FREQUENCY_MOST)?;
    within(value, table::VALUE_MOST)?;
    Ok(drive::duty(frequency, value))
}

// The PWM value for about 75 percent.
pub fn preset(frequency: u8) -> Result<u16, Refusal>
    ensures told { told_of result ≡ preset_answer_of frequency }
    ensures same { result ≡ from_told (preset_answer_of frequency) }
{
    within(frequency, FREQUENCY_MOST)?;
    Ok(drive::preset(frequency))
}
