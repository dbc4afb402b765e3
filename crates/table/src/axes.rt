ghost use Rattle.std.specs.Prelude.{◌≡◌, ◌+◌, ◌≤◌};
ghost use Rattle.thermal.specs.Rounding.{ceil_div};
ghost use Rattle.table.specs.Bounds.{Bounded};

use store::Head;

// A sheet's V and H lines, and the cells of the table's two axes: "A = W/g rounded up, plus 1", "B = C/h rounded up, plus 1".
#[derive(Clone, Copy)]
pub struct Frame {
    pub head: Head,
    pub energy_cells: usize,
    pub temperature_cells: usize,
    pub ghost bounded: { Bounded head },
    pub ghost rows: { energy_cells ≡ ceil_div head.energy_budget head.energy_step + 1 },
    pub ghost columns: { temperature_cells ≡ ceil_div head.temperature_limit head.temperature_step + 1 },
}

// A head, and a number of cells for each axis, whatever they are: a look-up serves a frame's and any others.
#[derive(Clone, Copy)]
pub struct HeadAxes {
    pub head: Head,
    pub energy_cells: usize,
    pub temperature_cells: usize,
}

impl HeadAxes {
    // The energy cell to which an energy is raised.
    pub fn energy_cell(self, energy: u32) -> u32
        requires { 1 ≤ self.head.energy_step }
        ensures { result ≡ ceil_div energy self.head.energy_step }
    {
        energy.div_ceil(self.head.energy_step)
    }

    // The temperature cell to which a temperature is raised.
    pub fn temperature_cell(self, temperature: u32) -> u32
        requires { 1 ≤ self.head.temperature_step }
        ensures { result ≡ ceil_div temperature self.head.temperature_step }
    {
        temperature.div_ceil(self.head.temperature_step)
    }
}

impl Frame {
    ghost use Rattle.table.specs.Table.{head_axes};

    // The frame's head and axes alone.
    pub fn axes(self) -> HeadAxes
        ensures { result ≡ head_axes self }
    {
        HeadAxes {
            head: self.head,
            energy_cells: self.energy_cells,
            temperature_cells: self.temperature_cells,
        }
    }

    // The energy cell to which an energy is raised: a frame's step is at least 1.
    pub fn energy_cell(self, energy: u32) -> u32
        ensures { result ≡ ceil_div energy self.head.energy_step }
    {
        self.axes().energy_cell(energy)
    }

    // The temperature cell to which a temperature is raised, likewise.
    pub fn temperature_cell(self, temperature: u32) -> u32
        ensures { result ≡ ceil_div temperature self.head.temperature_step }
    {
        self.axes().temperature_cell(temperature)
    }
}
