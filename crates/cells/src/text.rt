// Cells as text.
ghost use Rattle.std.specs.Prelude.{◌≡◌, ℕ, List, Some, refl};
ghost use Rattle.cells.specs.Raws.{raw_bytes};
ghost use Rattle.cells.specs.Readings.{reading_bytes};
ghost use Rattle.cells.specs.Texts.{raw_text, reading_text};

use crate::cell::CellRow;
use crate::raw::RawBlock;
use crate::reading::ReadingRow;
use std::fmt;

// A kind whose cells can be told in words: a row is printed as the text of the cell that it stands for.
pub trait CellText: CellRow + fmt::Display {
    // The text of the cell that has these bytes.
    ghost text: { List ℕ → List ℕ };

    // What is printed of a row.
    ghost told: { (r : Self) → Self.Display.output r ≡ Some (text (Self.CellRow.bytes r)) };
}

impl fmt::Display for RawBlock {
    ghost output = { λ r. Some (raw_text (raw_bytes r)) };

    fn fmt<W: fmt::Write>(&self, f: &mut fmt::Formatter<W>) -> fmt::Result {
        let RawBlock { high, low } = *self;
        write!(f, "{high},{low}")
    }
}

impl CellText for RawBlock {
    ghost text = { raw_text };

    ghost told = { λ r. refl };
}

impl fmt::Display for ReadingRow {
    ghost output = { λ r. Some (reading_text (reading_bytes r)) };

    fn fmt<W: fmt::Write>(&self, f: &mut fmt::Formatter<W>) -> fmt::Result {
        let ReadingRow {
            level,
            second,
            quality,
        } = ReadingRow::from(self.reading());
        write!(f, "{level},{second},{quality}")
    }
}

impl CellText for ReadingRow {
    ghost text = { reading_text };

    ghost told = { λ r. refl };
}
