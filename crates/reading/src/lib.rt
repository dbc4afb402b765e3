#![tactic(auto)]

// Where a text is read on, line by line, and what stops the reading.
ghost use Rattle.std.specs.Prelude.{◌≡◌, ◌+◌, ◌<◌, ◌≤◌, length, drop};
ghost use Rattle.reading.specs.Rest.{whole, rest_of, ReadBy};

mod place;

use fields::Fault;
pub use place::Place;
use text::Line;

// What is wrong with a line, and its number.
#[derive(Clone, Copy)]
pub struct LineFault {
    pub line: usize,
    pub fault: Fault,
}

impl<'a> Place<'a> {
    // The start of a text.
    pub fn start(t: &'a [u8]) -> Place<'a>
        ensures { rest_of result ≡ whole t.now }
    {
        Place { line: 1, rest: t }
    }

    // The place behind the next line, which has n bytes with its byte 10.
    pub fn behind(self, n: usize) -> Place<'a>
        requires { (0 < n) × (n ≤ length self.rest.now) }
        ensures { rest_of result ≡ record { line = self.entry.line + 1; text = drop n self.entry.rest.now } }
    {
        Place {
            line: self.line + 1,
            rest: &self.rest[n..],
        }
    }

    // What the next line says by what reads a line, and the place behind it.
    pub fn read<T, F: FnOnce(Line<'a>) -> Result<T, Fault>>(
        self,
        f: F,
    ) -> Result<(T, Place<'a>), LineFault>
        requires { F.IsAlwaysCallable f }
        ensures { ReadBy (F.post f) self.entry result }
    {
        let at = self.line;
        let fault_here = |fault| LineFault { line: at, fault };
        let line = text::next_line(self.rest).ok_or(fault_here(Fault::Shape))?;
        let said = f(line).map_err(fault_here)?;
        Ok((said, self.behind(line.bytes.len() + 1)))
    }
}
