#![tactic(auto)]

ghost use Rattle.std.specs.Prelude.{◌≡◌, ◌+◌, ◌==◌, length, drop, position};
ghost use Rattle.std.specs.Option.{option_map};
ghost use Rattle.text.specs.Text.{before, until, count, next_line};

// Document 01: "Lines end with byte 10; fields are parted by one byte 9."
pub const LINE_END: u8 = b'\n';

pub const TAB: u8 = b'\t';

// How many bytes are looked at without a test of the text's end.
const STRIDE: usize = 8;

// A line without its byte 10, and how many bytes 9 it has.
#[derive(Clone, Copy)]
pub struct Line<'a> {
    pub bytes: &'a [u8],
    pub tabs: usize,
    pub ghost counted: { tabs ≡ count 9 bytes.now },
}

// The place of the first byte b.
fn first_place(t: &[u8], b: u8) -> Option<usize>
    ensures { result ≡ position (λ c. c == b) t.now }
{
    t.iter().position(|c| *c == b)
}

// How many bytes stand before the first byte b; all of them where there is none. A count and no Option, since every caller cuts the
// text off there or goes on behind it.
pub fn find(t: &[u8], b: u8) -> usize
    ensures { result ≡ before b t.now }
{
    let mut rest = t;
    // Eight bytes at a time, for speed: one `position` over the whole text tests for its end at each byte, and takes 1.7 times the
    // instructions (4,096 bytes, for x86-64).
    while let Some((eight, more)) = rest.split_first_chunk::<STRIDE>() {
        if let Some(k) = first_place(eight, b) {
            return t.len() - rest.len() + k;
        }
        rest = more;
    }
    t.len() - rest.len() + first_place(rest, b).unwrap_or(rest.len())
}

// What comes after place i of a text; nothing where it ends there, and no Option, as the reading goes on with it.
pub fn behind(t: &[u8], i: usize) -> &[u8]
    ensures { result.now ≡ drop (i + 1) t.now }
{
    t.get(i.saturating_add(1)..).unwrap_or(&[])
}

// The line that a text starts with, up to its first byte 10, or to its end where it has none.
pub fn scan_line(t: &[u8]) -> Line<'_>
    ensures { result.bytes.now ≡ until 10 t.now }
{
    let mut end = 0; // no `enumerate`: the count is needed behind the loop, where its place is gone
    let mut tabs = 0;
    for &b in t {
        if b == LINE_END {
            break;
        }
        if b == TAB {
            tabs += 1;
        }
        end += 1;
    }
    Line {
        bytes: &t[..end],
        tabs,
    }
}

// The next line of a text; none where it has no byte 10, so that the line scanned is the whole text.
pub fn next_line(t: &[u8]) -> Option<Line<'_>>
    ensures { option_map (λ l. l.bytes.now) result ≡ next_line t.now }
{
    let line = scan_line(t);
    (line.bytes.len() < t.len()).then_some(line)
}
