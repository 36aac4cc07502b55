// Frames as text.
ghost use Rattle.std.specs.Prelude.{◌≡◌, ℕ, ◌*◌, List, ◌++◌, Some, codes, decimal};
ghost use Rattle.frames.specs.Frames.{meaning, of_entries};
ghost use Rattle.frames.specs.Texts.{frame_text, head_text, held_text};

use crate::frame::{Entries, Frame, Held, Marker, Whole};
use cells::text::CellText;
use std::fmt;

impl fmt::Display for Marker {
    ghost output = { λ m. Some (head_text (codes "marker ") m.cycle m.count) };

    fn fmt<W: fmt::Write>(&self, f: &mut fmt::Formatter<W>) -> fmt::Result {
        write!(f, "marker {} {}", self.cycle, self.count)
    }
}

impl fmt::Display for Whole {
    ghost output = { λ w. Some (codes "whole " ++ decimal w.cycle) };

    fn fmt<W: fmt::Write>(&self, f: &mut fmt::Formatter<W>) -> fmt::Result {
        write!(f, "whole {}", self.cycle)
    }
}

impl fmt::Display for Held {
    ghost output = { λ h. Some (head_text (codes "held ") h.page.cycle h.page.number ++ held_text 8 (8 * h.page.number) h.page.map) };

    fn fmt<W: fmt::Write>(&self, f: &mut fmt::Formatter<W>) -> fmt::Result {
        write!(f, "held {} {}", self.page.cycle, self.page.number)?;
        for address in self.page.addresses() {
            write!(f, " {address}")?;
        }
        Ok(())
    }
}

impl<R: CellText> fmt::Display for Entries<R> {
    ghost output = { λ e. Some (frame_text R.CellText.text (of_entries R.CellRow.bytes e)) };

    fn fmt<W: fmt::Write>(&self, f: &mut fmt::Formatter<W>) -> fmt::Result {
        write!(f, "entries {} {}", self.page.cycle, self.page.number)?;
        for address in self.page.addresses() {
            write!(f, " {address}={}", self.cells[address % 8])?;
        }
        Ok(())
    }
}

impl<R: CellText> fmt::Display for Frame<R> {
    ghost output = { λ f. Some (frame_text R.CellText.text (meaning R.CellRow.bytes f)) };

    fn fmt<W: fmt::Write>(&self, f: &mut fmt::Formatter<W>) -> fmt::Result {
        match self {
            Frame::Entries(entries) => entries.fmt(f),
            Frame::Marker(marker) => marker.fmt(f),
            Frame::Held(held) => held.fmt(f),
            Frame::Whole(whole) => whole.fmt(f),
        }
    }
}
