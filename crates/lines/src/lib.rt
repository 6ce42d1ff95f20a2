#![tactic(auto)]
// The listing's lines, as bytes in a lent buffer.
ghost use Rattle.std.specs.Prelude.{◌≡◌, ◌<◌, ◌↔◌, ◌++◌, length, unwrap_or, IsNone, decimal};
ghost use Rattle.lines.specs.Lines.{hex_of, line_of, end_line_of, Lined, LinesLaid};

use itoa::Buffer;

// Kept as a table: std's `{:X}` makes a line three times slower, and the kit's writers of hex give lower case or take heap memory.
const HEX: [u8; 16] = *b"0123456789ABCDEF";

// The last hex digit of a number.
fn hex(n: u8) -> u8
    ensures { result ≡ hex_of n }
{
    HEX[usize::from(n % 16)]
}

// A word, a number and a tail to the front of the room, if they fit; how many bytes.
fn put(word: &[u8], n: u32, tail: &[u8], room: &mut [u8]) -> Option<usize>
    ensures laid { Lined (word.now ++ (decimal n ++ tail.now)) (unwrap_or result 0) room.old room.new }
    ensures full { IsNone result ↔ (length room.old < length (word.now ++ (decimal n ++ tail.now))) }
{
    let mut buffer = Buffer::new();
    let digits = buffer.format(n).as_bytes();
    let (front, rest) = room.split_at_mut_checked(word.len())?;
    let (middle, rest) = rest.split_at_mut_checked(digits.len())?;
    let (back, _) = rest.split_at_mut_checked(tail.len())?;
    front.copy_from_slice(word);
    middle.copy_from_slice(digits);
    back.copy_from_slice(tail);
    Some(word.len() + digits.len() + tail.len())
}

// A record's line, its number and its two answer bytes, to the front of the room: how many bytes, or None where there is no room for it.
#[tactic(auto, using(crate::proofs::Decimals::decimal_same))]
pub fn record_line(n: u32, first: u8, second: u8, room: &mut [u8]) -> Option<usize>
    ensures laid { Lined (line_of n first second) (unwrap_or result 0) room.old room.new }
    ensures full { IsNone result ↔ (length room.old < length (line_of n first second)) }
{
    let tail = [
        b' ',
        hex(first / 16),
        hex(first),
        b' ',
        hex(second / 16),
        hex(second),
        b'\n',
    ];
    put(&[], n, &tail, room)
}

// The lines of a call's answers, numbered from `first` on: as many whole lines as there is room for; how many bytes.
pub fn record_lines(answers: &[u8], first: u32, room: &mut [u8]) -> usize
    ensures { LinesLaid first answers.now result room.old room.new }
{
    let mut size = 0;
    let mut n = first;
    let (pairs, _) = answers.as_chunks::<2>();
    for &[a, b] in pairs {
        let Some(line) = record_line(n, a, b, &mut room[size..]) else {
            break;
        };
        size += line;
        n = n.wrapping_add(1);
    }
    size
}

// The end line, records done and finishing code, to the front of the room: how many bytes, or None where there is no room for it.
#[tactic(auto, using(crate::proofs::Decimals::decimal_same), unfolding(crate::specs::Lines::digit_of))]
pub fn end_line(done: u32, code: u8, room: &mut [u8]) -> Option<usize>
    ensures laid { Lined (end_line_of done code) (unwrap_or result 0) room.old room.new }
    ensures full { IsNone result ↔ (length room.old < length (end_line_of done code)) }
{
    let tail = [b' ', b'0' + code % 10, b'\n'];
    put(b"end ", done, &tail, room)
}
