#![tactic(auto)]

ghost use Rattle.std.specs.Prelude.{◌≡◌};
ghost use Rattle.refusal.specs.Code.{refusal_of, number_of, line_of, field_of};

use fields::Fault;
use reading::LineFault;

// Why a sheet, a list of levels or a reading is refused, with line and field where there are any (document 01, 'What is refused';
// document 02, W1).
#[derive(Clone, Copy)]
pub enum Refusal {
    TooLong, // 1, "sheet over 20,480 bytes"
    Line(usize), // 2, "line missing (no byte 10 ahead), wrong letter, wrong field count"
    Form(usize, usize), // 3, "field, or job name, not of the written form"
    Range(usize, usize), // 4, "field out of its range"
    Hot, // 5, "start temperature in range, above ceiling"
    Trailing(usize), // 6, "bytes after the last line"
    TableTooLarge, // 7, "need above 4,194,304 words"
    TableShort, // 8, "table shorter than the need"
    PartShort, // 9, "part under m bytes (text: under 4,096)"
    NoPlan, // 10, "no plan"
    ListLength, // 11, "list length is not m"
    LevelTooHigh(usize), // 12, "a level is l or more", and "the first such place, from 0"
    AllDone, // 13, "jobs done is m or more"
    ReadingRange, // 14, "the level is l or more, time or energy is above 2,000,000,000, or temperature is above 20,000"
    ReadingHot, // 5, "A reading above the ceiling"
}

impl Refusal {
    // The number that document 01 gives it.
    pub fn number(self) -> u32
        ensures { result ≡ number_of self }
    {
        match self {
            Refusal::TooLong => 1,
            Refusal::Line(_) => 2,
            Refusal::Form(_, _) => 3,
            Refusal::Range(_, _) => 4,
            Refusal::Hot => 5,
            Refusal::Trailing(_) => 6,
            Refusal::TableTooLarge => 7,
            Refusal::TableShort => 8,
            Refusal::PartShort => 9,
            Refusal::NoPlan => 10,
            Refusal::ListLength => 11,
            Refusal::LevelTooHigh(_) => 12,
            Refusal::AllDone => 13,
            Refusal::ReadingRange => 14,
            Refusal::ReadingHot => 5,
        }
    }

    // The line that is returned with it: a number, and 0 where there is none, as every reply has it ("0, 0").
    pub fn line(self) -> usize
        ensures { result ≡ line_of self }
    {
        match self {
            Refusal::Line(line) => line,
            Refusal::Form(line, _) => line,
            Refusal::Range(line, _) => line,
            Refusal::Hot => 2,
            Refusal::Trailing(line) => line,
            _ => 0,
        }
    }

    // The field that is returned with it, likewise.
    pub fn field(self) -> usize
        ensures { result ≡ field_of self }
    {
        match self {
            Refusal::Form(_, field) => field,
            Refusal::Range(_, field) => field,
            Refusal::Hot => 8,
            Refusal::LevelTooHigh(place) => place,
            _ => 0,
        }
    }
}

impl From<LineFault> for Refusal {
    ghost from_gives = { λ f refusal. refusal ≡ refusal_of f };

    fn from(f: LineFault) -> Refusal {
        match f.fault {
            Fault::Shape => Refusal::Line(f.line),
            Fault::Form(field) => Refusal::Form(f.line, field),
            Fault::Range(field) => Refusal::Range(f.line, field),
        }
    }
}
