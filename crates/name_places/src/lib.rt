#![tactic(auto)]

// Where a job's name is on a sheet: how far its J line is, and the part of the text that the name is.
ghost use Rattle.std.specs.Prelude.{◌≡◌};
ghost use Rattle.name_places.specs.Place.{skip, next_name};

use text::{LINE_END, TAB};

// What comes after the next n lines of a text; nothing where it has fewer, and no Option, as `name_on` finds an empty part
// there. Not copied into each caller: the archive's code has a bound.
#[inline(never)]
pub fn skip_lines(t: &[u8], n: usize) -> &[u8]
    ensures { result.now ≡ skip n t.now }
{
    let mut rest = t;
    for _ in 0..n {
        rest = text::behind(rest, text::find(rest, LINE_END));
    }
    rest
}

// The name on the J line that a text starts with, as a part of the text; nothing where the line has no second field, as document 01
// wants "an empty part" and no Option.
pub fn name_on(t: &[u8]) -> &[u8]
    ensures { result.now ≡ next_name t.now }
{
    let line = &t[..text::find(t, LINE_END)];
    text::behind(line, text::find(line, TAB))
}
