// Gauge readings, and the plain rows that they lie as in memory.
ghost use Rattle.std.specs.Prelude.{◌≡◌, true};
ghost use Rattle.cells.specs.Levels.{in_range};

// How far a level can be trusted.
#[derive(Clone, Copy, PartialEq, Eq, Debug)]
pub enum Quality {
    Good = 0,
    Doubtful = 1,
    Estimated = 2,
    Missing = 3,
}

// A level in millimetres at a second. None exists whose level is out of the gauge's range.
#[derive(Clone, Copy, PartialEq, Eq, Debug)]
pub struct Reading {
    pub level: i32,
    pub second: u32,
    pub quality: Quality,
    ghost ranged: { in_range level ≡ true },
}

// A reading as it lies in memory: any three numbers, so that its quality is a number and no `Quality`. Where they
// make no reading, the row stands for the one whose numbers are all 0.
#[derive(Clone, Copy, PartialEq, Eq, Debug, Default)]
pub struct ReadingRow {
    pub level: i32,
    pub second: u32,
    pub quality: u8,
}
