#![tactic(auto)]

ghost use Rattle.std.specs.Prelude.{◌≡◌, ℕ, ◌+◌, ◌≤◌, length, get_or};
ghost use Rattle.spans.specs.Spans.{Spans};

// Sets n words to w. A function of its own so that it is proved once, for callers to cite, that all other words stay.
pub fn set(words: &mut [u32], at: usize, n: usize, w: u32)
    requires { at + n ≤ length words.old }
    ensures { Spans words.old words.new at n (λ (k : ℕ). w) }
{
    words[at..at + n].fill(w);
}

// Copies words into a table, from place `at` on: a function of its own as `set` is.
pub fn copy(table: &mut [u32], at: usize, words: &[u32])
    requires { at + length words.now ≤ length table.old }
    ensures { Spans table.old table.new at (length words.now) (λ (k : ℕ). get_or words.now k 0) }
{
    table[at..at + words.len()].copy_from_slice(words);
}
