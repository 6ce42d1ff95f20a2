#![tactic(auto)]
// The fan side of the LM63, for C.
ghost use Rattle.std.specs.Prelude.{◌≡◌};
ghost use Rattle.fan.specs.Fan.{step_answer_of, duty_answer_of, preset_answer_of};

use fan::{Driven, Fan, Number};

// The step after a reading, with its PWM value and its duty.
#[unsafe(no_mangle)]
pub extern "C" fn lm89_fan_step(fan: Fan, earlier: u8, reading: i8) -> Driven
    ensures { result ≡ step_answer_of fan earlier reading }
{
    fan.step(earlier, reading).into()
}

// The duty of a PWM value, in hundredths of a percent.
#[unsafe(no_mangle)]
pub extern "C" fn lm89_fan_duty(frequency: u8, value: u8) -> Number
    ensures { result ≡ duty_answer_of frequency value }
{
    fan::duty(frequency, value).into()
}

// The PWM value for about 75 percent.
#[unsafe(no_mangle)]
pub extern "C" fn lm89_fan_preset(frequency: u8) -> Number
    ensures { result ≡ preset_answer_of frequency }
{
    fan::preset(frequency).into()
}
