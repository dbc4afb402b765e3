ghost use Rattle.store.specs.Figures.{sheet_of};
ghost use Rattle.table.specs.Table.{Framed};

use crate::Frame;
use step::Figures;

// A sheet to plan, with all that planning takes of it: the axes of its table, and its figures. The table is not in it: of a struct that held
// it by `&mut` each contract would have to say besides that it still holds the same one.
#[derive(Clone, Copy)]
pub struct Problem<'a> {
    pub frame: Frame,
    pub figures: Figures<'a>,
    pub ghost framed: { Framed (sheet_of frame.head figures.store.now) frame figures.store.now figures.steady },
}
