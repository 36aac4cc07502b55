// Lines of hexadecimal pairs, read in memory of a fixed size however long they are.
ghost use Rattle.std.specs.Prelude.{◌≡◌, ℕ};
ghost use Rattle.std.specs.Option.{option_map};
ghost use Rattle.capture.specs.Hex.{digit_of};
ghost use Rattle.capture.specs.Steps.{EveryLineIsRead, blank, closed, ended, joined, line_of, opened, pushed, value_of};

use crate::line::{HexLine, Nibble, Stage};
use arrayvec::ArrayVec;

// The value of a hexadecimal digit in either case. The characters of a capture are its format's own, so they are
// matched here and not left to `to_digit`.
fn digit(c: u8) -> Option<Nibble>
    ensures { option_map value_of result ≡ digit_of c }
{
    match c as char {
        '0'..='9' => Some(Nibble { value: c - b'0' }),
        'A'..='F' => Some(Nibble {
            value: c - b'A' + 10,
        }),
        'a'..='f' => Some(Nibble {
            value: c - b'a' + 10,
        }),
        _ => None,
    }
}

// By hand, since a line begins at a gap, and a stage has no default of its own.
impl Default for HexLine {
    ghost is_default = { λ l. line_of l ≡ blank };

    fn default() -> HexLine {
        HexLine::new()
    }
}

impl HexLine {
    // A line of which nothing has been read. Pushed a character after the other, every line gives its
    // datagram, or none where it has none.
    pub fn new() -> HexLine
        ensures begun { line_of result ≡ blank }
        ensures every { EveryLineIsRead }
    {
        HexLine {
            bytes: ArrayVec::new(),
            stage: Stage::Gap,
        }
    }

    // One character of the line.
    pub fn push(&mut self, c: u8)
        ensures { line_of self.new ≡ pushed (line_of self.old) c }
    {
        match self.stage {
            Stage::Joint if c == b' ' => self.stage = Stage::Gap,
            Stage::Gap | Stage::Joint => self.open(c),
            Stage::Half(high) => self.close(high, c),
            Stage::Broken => {}
        }
    }

    // A pair's first digit.
    fn open(&mut self, c: u8)
        ensures { line_of self.new ≡ opened (line_of self.old).bytes (digit_of c) }
    {
        self.stage = digit(c).map_or(Stage::Broken, Stage::Half);
    }

    // A pair's second digit.
    fn close(&mut self, high: Nibble, c: u8)
        ensures { line_of self.new ≡ closed high.value (line_of self.old).bytes (digit_of c) }
    {
        match digit(c) {
            Some(low) => self.byte(16 * high.value + low.value),
            None => self.stage = Stage::Broken,
        }
    }

    // A whole pair, if there is room for its byte.
    fn byte(&mut self, b: u8)
        ensures { line_of self.new ≡ joined (line_of self.old).bytes b }
    {
        self.stage = match self.bytes.try_push(b) {
            Ok(()) => Stage::Joint,
            Err(_) => Stage::Broken,
        };
    }

    // The datagram, if the line ends here.
    pub fn datagram(&self) -> Option<&[u8]>
        ensures { option_map (λ x. x.now) result ≡ ended (line_of self.now) }
    {
        match self.stage {
            Stage::Joint => Some(self.bytes.as_slice()),
            _ => None,
        }
    }
}
