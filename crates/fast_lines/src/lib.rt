#![tactic(auto)]

ghost use Rattle.std.specs.Prelude.{◌≡◌, ◌<◌, ◌≤◌};
ghost use Rattle.fields.specs.Fields.{fields_of};
ghost use Rattle.fast_fields.specs.Take.{ShortRanges, line_taken};
ghost use Rattle.fast_lines.specs.Take.{room_for, entry_taken};

use fast_fields::DIGITS_TAKEN;
use fields::Range;
use line_kinds::{COST, DECAY, Entry, JOB_TIME, Kind, POWER};
use text::{LINE_END, TAB};

// What a number needs that is taken: its digits, and the byte behind them.
const NUMBER_ROOM: usize = DIGITS_TAKEN + 1;

// Takes a line of a letter and N numbers, each of them in its range: the numbers, and how many bytes the line has, with its byte 10.
fn take_numbers<const N: usize>(
    t: &[u8],
    letter: u8,
    ranges: [Range; N],
) -> Option<([u32; N], usize)>
    requires { (65 ≤ letter) × (0 < N) × (N ≤ 3) × ShortRanges ranges }
    ensures { result ≡ line_taken (room_for N) (fields_of letter ranges.entry) t.now }
{
    if !fast_fields::starts_with(t, letter, 2 + N * NUMBER_ROOM) {
        return None;
    }
    let mut values = [0; N];
    let mut at = 2; // a sum of what was taken, by which no list can be gone over, and needed behind the loop
    for (j, range) in ranges.iter().enumerate() {
        let stop = if j + 1 < N { TAB } else { LINE_END };
        let (value, digits) = fast_fields::take_number(&t[at..], stop, *range)?;
        values[j] = value;
        at += digits + 1;
    }
    Some((values, at))
}

// Takes line j, from 0, of the lines of a kind: what it says, and how many bytes it has, with its byte 10. A twin of `read_line` of
// `line_kinds`: the kinds have 1, 2 and 3 numbers, so that one function over both readers would need a trait with a generic method, and
// its contracts, for three arms.
pub fn take_line(t: &[u8], kind: Kind, j: usize) -> Option<(Entry, usize)>
    ensures { result ≡ entry_taken kind j t.now }
{
    match kind {
        Kind::Level(resistance) => {
            let ([power], n) = take_numbers(t, b'L', [POWER])?;
            let entry = line_kinds::level_entry(power, resistance).ok()?;
            Some((entry, n))
        }
        Kind::Change(p) => {
            let range = line_kinds::cost_range(p, j);
            let (numbers, n) = take_numbers(t, b'S', [range, range])?;
            Some((line_kinds::change_entry(numbers), n))
        }
        Kind::Work => {
            let (numbers, n) = take_numbers(t, b'B', [JOB_TIME, COST, DECAY])?;
            Some((line_kinds::work_entry(numbers), n))
        }
    }
}
