// A line of a capture, as far as it has been read.
ghost use Rattle.std.specs.Prelude.{◌<◌, ◌≤◌, length};

use arrayvec::ArrayVec;

// The value of a hexadecimal digit.
#[derive(Clone, Copy, PartialEq, Eq, Debug)]
pub struct Nibble {
    pub value: u8,
    ghost small: { value < 16 },
}

// Where in a line the last character was.
#[derive(Clone, Copy, PartialEq, Eq, Debug)]
pub enum Stage {
    // At the start or after a space: a pair has to follow.
    Gap,
    // After the first digit of a pair.
    Half(Nibble),
    // After a pair: a space, a pair or the end of the line may follow.
    Joint,
    // After something that no line of pairs has.
    Broken,
}

// The bytes of a line's pairs, at most as many as a datagram has. Callers know that by the ghost field: of the vector
// they see what is in it, and not its capacity.
#[derive(Drop)]
pub struct HexLine {
    pub(crate) bytes: ArrayVec<u8, 136>,
    pub(crate) stage: Stage,
    ghost within: { length bytes.items ≤ 136 },
}
