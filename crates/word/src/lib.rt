#![tactic(auto)]

ghost use Rattle.std.specs.Prelude.{◌≡◌, ◌≤◌, min};
ghost use Rattle.word.specs.Word.{sum_max, near, settled};

// Stands for "no way" while the words of a job are worked on: a number, and no `Option`, as the table's words are 32 bits each.
pub const FAR: u32 = 2_000_000_000;

// "4,294,967,295 where no way exists": the table's words hold this number as they hold times, so it is no `Option`.
pub const NO_WAY: u32 = 4_294_967_295;

// A word of the next job, at most `far`.
pub fn cap(w: u32) -> u32
    ensures { result ≡ near w }
{
    w.min(FAR)
}

// The lesser of two numbers, as signed ones, since both are below 2 ^ 31: every x86-64 processor compares four of these at a time,
// where the unsigned `min` takes a fifth to a third more instructions for a span. With it 256 × 256 cells would take some 1.2 times
// the time of the hoisted C: docs/PERFORMANCE.md aims at 1.00, which they meet.
pub fn lesser(a: u32, b: u32) -> u32
    requires { (a ≤ sum_max) × (b ≤ sum_max) }
    ensures { result ≡ min a b }
{
    (a as i32).min(b as i32) as u32
}

// A word once its job is done. The unsigned test takes 7 to 20 % more instructions for a span than this one of signed numbers: with
// it 256 × 256 cells would miss the same bar, at some 1.06.
pub fn seal(w: u32) -> u32
    requires { w ≤ sum_max }
    ensures { result ≡ settled w }
{
    if (w as i32) < (FAR as i32) { w } else { NO_WAY }
}
