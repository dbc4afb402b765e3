#![tactic(auto)]

// The table that a sheet needs: its axes, and how many words it has.
ghost use Rattle.std.specs.Prelude.{◌≡◌, ◌<◌, ◌^◌, IfOk};
ghost use Rattle.frame.specs.Table.{need};
ghost use Rattle.table.specs.Table.{head_axes};
ghost use Rattle.need.specs.Axes.{Lawful, bare, axes_of};
ghost use Rattle.need.specs.Need.{words_of};

use refusal::Refusal;
use store::{Head, Store};
use table::Frame;

// The head, and the cells of the table's two axes.
pub fn frame_of(head: Head) -> Frame
    requires { Lawful head }
    ensures { head_axes result ≡ axes_of head }
{
    let energy_cells = head.energy_budget.div_ceil(head.energy_step) as usize + 1;
    let temperature_cells = head.temperature_limit.div_ceil(head.temperature_step) as usize + 1;
    Frame {
        head,
        energy_cells,
        temperature_cells,
    }
}

// "The need is m × l × A × B words."
pub fn need_of(f: Frame) -> usize
    ensures { result ≡ need (bare f.head) }
{
    f.head.jobs as usize * f.head.levels as usize * f.energy_cells * f.temperature_cells
}

// The words that a sheet needs, whatever is lent, or its refusal of 1 to 6.
pub fn count_words(s: &[u8]) -> Result<usize, Refusal>
    ensures value { result ≡ words_of s.now }
    ensures words_bound { IfOk result (λ n. n < 2 ^ 63) }
{
    let mut store = Store::clear();
    let head = sheet::read(s, &mut store)?;
    Ok(need_of(frame_of(head)))
}
