// Kinds of frame, by their first byte.
ghost use Rattle.std.specs.Prelude.{◌≡◌, ℕ};
ghost use Rattle.frames.specs.Kinds.{kind_byte, kind_of};

use crate::make::not_a_frame;
use cells::fault::Fault;

// A frame's first byte has a bit for each field behind it: cycle (bit 0), page (bit 1), cell map with its
// cells (bit 2), count (bit 3), held map (bit 4).
#[derive(Clone, Copy, PartialEq, Eq, Debug)]
pub(crate) enum Kind {
    Whole = 0x01,
    Entries = 0x07,
    Marker = 0x09,
    Held = 0x13,
}

impl TryFrom<u8> for Kind {
    type Error = Fault;

    ghost try_from_gives = { λ byte kind. kind ≡ kind_of byte };

    fn try_from(byte: u8) -> Result<Kind, Fault> {
        match byte {
            0x01 => Ok(Kind::Whole),
            0x07 => Ok(Kind::Entries),
            0x09 => Ok(Kind::Marker),
            0x13 => Ok(Kind::Held),
            _ => Err(not_a_frame()),
        }
    }
}

impl From<Kind> for u8 {
    ghost from_gives = { λ kind byte. byte ≡ kind_byte kind };

    fn from(kind: Kind) -> u8 {
        kind as u8
    }
}
