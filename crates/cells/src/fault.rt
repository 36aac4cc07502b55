// Faults: why a call was refused, and where.
ghost use Rattle.std.specs.Prelude.{◌≡◌, ℕ, Some, decimal};
ghost use Rattle.cells.specs.Faults.{fault, fault_in, not_a_cell, placed, placed_in, refusal_number};

use std::fmt;

// Every refusal of the mirroring. Operators know it by its number, as which it is printed.
#[derive(Clone, Copy, PartialEq, Eq, Debug)]
pub enum Refusal {
    // A volume, a block, a page or an address that the group does not have.
    NoSuchPlace = 1,
    // A group's volumes or blocks are out of range, or differ from the pair's.
    WrongShape = 2,
    // Lent memory is too short.
    ShortMemory = 3,
    // A cycle number or a budget is out of range.
    NumberOutOfRange = 4,
    // The two groups do not hold the same cells.
    GroupsDiffer = 5,
    // The volume did not take the write, and is now read-only.
    ReadOnly = 6,
    // The primary end is idle: it has no set to send.
    NotSending = 7,
    // The primary end is still sending a set.
    StillSending = 8,
    // The standby has taken over.
    TakenOver = 9,
    // The standby still follows.
    StillFollowing = 10,
    // The standby waits for a resumed set, and its cells are no boundary.
    Torn = 11,
    // Bytes that are no frame, or no datagram by their length.
    NotAFrame = 12,
    // Bytes or numbers that make no cell of the kind.
    NotACell = 13,
    // A frame that travels the other way.
    WrongDirection = 14,
    // A frame of a cycle that is not open yet.
    CycleAhead = 15,
    // A frame that does not fit the set: an address not in it, or another count.
    SetMismatch = 16,
}

// The layer in which a refusal arose.
#[derive(Clone, Copy, PartialEq, Eq, Debug)]
pub enum Layer {
    Cell,
    Frame,
    Group,
    Link,
    End,
    Pair,
}

// The two cabinets of a pair.
#[derive(Clone, Copy, PartialEq, Eq, Debug)]
pub enum Side {
    Primary,
    Standby,
}

// A refusal with its place: the side that it arose on, or none, with that side's cycle, or 0,
// and the volume where a group refused. Side and cycle are two fields, as whoever makes a fault may give either alone.
#[derive(Clone, Copy, PartialEq, Eq, Debug)]
pub struct Fault {
    pub refusal: Refusal,
    pub layer: Layer,
    pub side: Option<Side>,
    pub cycle: u32,
    pub volume: Option<usize>,
}

impl From<Refusal> for u8 {
    ghost from_gives = { λ r n. n ≡ refusal_number r };

    fn from(refusal: Refusal) -> u8 {
        refusal as u8
    }
}

impl fmt::Display for Refusal {
    ghost output = { λ r. Some (decimal (refusal_number r)) };

    fn fmt<W: fmt::Write>(&self, f: &mut fmt::Formatter<W>) -> fmt::Result {
        write!(f, "{}", u8::from(*self))
    }
}

impl Fault {
    // A refusal of a layer, on neither side yet.
    pub fn new(refusal: Refusal, layer: Layer) -> Fault
        ensures { result ≡ fault refusal layer }
    {
        Fault {
            refusal,
            layer,
            side: None,
            cycle: 0,
            volume: None,
        }
    }

    // A group's refusal, with the volume that it is about.
    pub fn in_volume(refusal: Refusal, volume: usize) -> Fault
        ensures { result ≡ fault_in refusal volume }
    {
        Fault {
            volume: Some(volume),
            ..Fault::new(refusal, Layer::Group)
        }
    }

    // The same fault, on the side and in the cycle of the end that passes it up.
    pub fn at(self, side: Side, cycle: u32) -> Fault
        ensures { result ≡ placed side cycle self }
    {
        Fault {
            side: Some(side),
            cycle,
            ..self
        }
    }
}

// Bytes or numbers that make no cell of the kind.
pub(crate) fn not_a_cell() -> Fault
    ensures { result ≡ not_a_cell }
{
    Fault::new(Refusal::NotACell, Layer::Cell)
}

// What an end does to a result from below before it passes it up by `?`.
pub trait Place<T> {
    ghost use Rattle.std.specs.Prelude.{Result};
    ghost use Rattle.cells.specs.declared.fault.Fault.{Fault};

    // The result from below.
    ghost below: { Self → Result T Fault };

    fn at(self, side: Side, cycle: u32) -> Result<T, Fault>
        ensures { result ≡ placed_in side cycle (below self) };
}

impl<T> Place<T> for Result<T, Fault> {
    ghost below = { λ r. r };

    fn at(self, side: Side, cycle: u32) -> Result<T, Fault> {
        self.map_err(|fault| fault.at(side, cycle))
    }
}
