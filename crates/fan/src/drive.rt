// What a PWM value drives: its duty at a frequency, and the preset of about 75 percent.
ghost use Rattle.std.specs.Prelude.{◌≡◌};
ghost use Rattle.fan.specs.Drive.{Duty, preset_of};

// All of it, in hundredths of a percent.
const ALL: u16 = 10000;

// In hundredths of a percent: the value over twice the frequency, to the nearest, ties upward; all of it from twice the frequency on. Frequency 0 counts as 1.
pub fn duty(frequency: u8, value: u8) -> u16
    ensures { Duty frequency value result }
{
    let n = u32::from(frequency.max(1));
    let v = u32::from(value);
    if 2 * n <= v {
        return ALL;
    }
    ((u32::from(ALL) * v + n) / (2 * n)) as u16
}

// One and a half times the frequency, a half going up, but 1 at 1; frequency 0 counts as 1.
pub fn preset(frequency: u8) -> u16
    ensures { result ≡ preset_of frequency }
{
    let n = u16::from(frequency.max(1));
    if n == 1 {
        return 1;
    }
    (3 * n).div_ceil(2)
}
