// The ranges of the reader's state.
ghost use Rattle.std.specs.Prelude.{◌≡◌, ◌-◌};
ghost use Rattle.capture.specs.Reader.{limit_of, place_of, ranges_of};

use super::{Reader, header};

// 256 to the power of the count bytes taken: the header's bytes less those before the count.
fn limit(head: u16, before: u16) -> u64
    ensures { result ≡ limit_of (head - before) }
{
    256u64.pow(u32::from(head.saturating_sub(before).min(4)))
}

fn place(s: Reader) -> bool
    ensures { result ≡ place_of s }
{
    let complete = header::complete(s);
    device::ranges::all(&[
        header::within(s),
        s.carried <= 3,
        (s.carried == 0) | (complete & (s.done < s.count)),
        (0 < s.carried) | (s.bytes[0] == 0),
        (1 < s.carried) | (s.bytes[1] == 0),
        (2 < s.carried) | (s.bytes[2] == 0),
        u64::from(s.count) < limit(header::taken(s), header::count_place(s.bus)),
        s.done <= s.count,
        complete | (s.done == 0),
    ])
}

// Every range of the state; nothing else is tested.
pub fn in_range(s: Reader) -> bool
    ensures { result ≡ ranges_of s }
{
    device::ranges::all(&[
        place(s),
        (s.held <= 5) | (s.held == 9),
        pair::ranges::ranges(s.head, s.bus),
    ])
}
