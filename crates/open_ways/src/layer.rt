ghost use Rattle.std.specs.Prelude.{◌+◌, ◌*◌, ◌≤◌, ◌<◌};
ghost use Rattle.word.specs.Word.{words_max};
ghost use Rattle.open_ways.specs.Moves.{Moving};

use crate::Move;
use one_way::Way;
use store::LEVELS_MAX;

// The words of one job: `cells` words for each of `levels` levels before, from place `at` on, and the job's moves, by level left and then
// level entered. The table is no part of it: it is written while its layers are read.
#[derive(Clone, Copy)]
pub struct Layer<'a> {
    pub at: usize,
    pub levels: usize,
    pub cells: usize,
    pub moves: &'a [[Move; LEVELS_MAX]; LEVELS_MAX],
    pub ghost moving: { Moving levels cells moves.now },
    pub ghost small: { at + levels * cells ≤ words_max },
}

// The ways that are open to a span of words, and where it ends.
#[derive(Drop)]
pub struct Span<'w> {
    pub ways: &'w [Way],
    pub to: usize,
}

impl Layer<'_> {
    ghost use Rattle.open_ways.specs.Layer.{Open};

    // Finds the ways that are open to the words from word y on, for the level p before, and puts them into `ways`. The span ends where the
    // first of them does, so that each is open to all of it.
    pub fn find_ways<'w>(
        &self,
        p: usize,
        y: usize,
        end: usize,
        ways: &'w mut [Way; LEVELS_MAX],
    ) -> Span<'w>
        requires { record {
          level : p < self.now.levels;
          some : y < end;
          within : end ≤ self.now.cells;
        } }
        ensures { Open self.now p self.now.levels y end result.to result.ways.now }
    {
        // Counts the open ways alone, which may be fewer than the levels that the loop goes through.
        let mut count = 0;
        let mut to = end;
        for (j, m) in self.moves[p][..self.levels].iter().enumerate() {
            let reach = m.reach as usize;
            if y < reach {
                let from = self.at + j * self.cells + (y + m.shift as usize);
                let time = m.time;
                ways[count] = Way { from, time };
                count += 1;
                to = to.min(reach);
            }
        }
        let ways = &ways[..count];
        Span { ways, to }
    }
}
