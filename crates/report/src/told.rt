// Datagrams and lines of a capture as text.
ghost use Rattle.std.specs.Prelude.{◌≡◌, string_bytes};
ghost use Rattle.capture.specs.Steps.{ended, line_of};
ghost use Rattle.frames.specs.Format.{decoded};
ghost use Rattle.frames.specs.Frames.{meaning};
ghost use Rattle.report.specs.Reports.{Told, answer_outcome, answer_text, frame_outcome, heard, line_outcome, line_text};

use crate::tally::Outcome;
use capture::line::HexLine;
use cells::cell::CellRow;
use cells::text::CellText;
use frames::frame::Frame;
use frames::reader::read;
use std::alloc::AllocError;

// What a frame counts as.
impl<'f, R: CellRow> From<&'f Frame<R>> for Outcome {
    ghost from_gives = { λ frame outcome. outcome ≡ frame_outcome (meaning R.CellRow.bytes frame.now) };

    fn from(frame: &'f Frame<R>) -> Outcome {
        match frame {
            Frame::Entries(_) => Outcome::Entries,
            Frame::Marker(_) => Outcome::Marker,
            Frame::Held(_) => Outcome::Held,
            Frame::Whole(_) => Outcome::Whole,
        }
    }
}

// A datagram as text: the frame that it is, or the number it is refused with.
pub fn push_datagram<R: CellText>(bytes: &[u8], line: &mut String) -> Result<Outcome, AllocError>
    ensures { Told result (answer_outcome (decoded R.CellRow.width R.CellRow.reads bytes.now)) (string_bytes line.old) (answer_text R.CellText.text (decoded R.CellRow.width R.CellRow.reads bytes.now)) (string_bytes line.new) }
{
    match read::<R>(bytes) {
        Ok(frame) => {
            write!(line, "{frame}")?;
            Ok(Outcome::from(&frame))
        }
        Err(fault) => {
            write!(line, "refused {}", fault.refusal)?;
            Ok(Outcome::Refused)
        }
    }
}

// A line of a capture as text: its datagram, or `?` where it has none.
pub fn push_line<R: CellText>(line: &HexLine, text: &mut String) -> Result<Outcome, AllocError>
    ensures { Told result (line_outcome (heard R.CellRow.width R.CellRow.reads (ended (line_of line.now)))) (string_bytes text.old) (line_text R.CellText.text (heard R.CellRow.width R.CellRow.reads (ended (line_of line.now)))) (string_bytes text.new) }
{
    match line.datagram() {
        Some(bytes) => push_datagram::<R>(bytes, text),
        None => {
            write!(text, "?")?;
            Ok(Outcome::Unreadable)
        }
    }
}
