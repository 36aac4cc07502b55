// The shape of a group: how many volumes it has, and of how many blocks.
ghost use Rattle.std.specs.Prelude.{◌≡◌, ◌*◌, ◌<◌, ◌≤◌, OnOk};
ghost use Rattle.groups.specs.Meaning.{Dimensions, Shaped};

use cells::fault::{Fault, Layer, Refusal};
use std::marker::Model;

// 1 to 8 volumes of 1 to 512 blocks.
#[derive(Clone, Copy, PartialEq, Eq)]
pub struct Shape {
    pub volumes: usize,
    pub blocks: usize,
}

impl Model for Shape {
    ghost Value = { Dimensions };

    ghost view = { λ s. record { volumes = s.volumes; blocks = s.blocks } };

    ghost inverse = { λ s. record { volumes = s.volumes; blocks = s.blocks } };

    ghost invariant = { λ s. Shaped s.volumes s.blocks };
}

impl Shape {
    ghost use Rattle.groups.specs.Shapes.{index_answer, place_answer, room_answer, shape_answer};

    pub(crate) fn new(volumes: usize, blocks: usize) -> Result<Shape, Fault>
        ensures { result ≡ shape_answer volumes blocks }
    {
        if !(1..=8).contains(&volumes) || !(1..=512).contains(&blocks) {
            return Err(Fault::new(Refusal::WrongShape, Layer::Pair));
        }
        Ok(Shape { volumes, blocks })
    }

    // How many cells a group of the shape has.
    pub(crate) fn cells(self) -> usize
        ensures { result ≡ self.volumes * self.blocks }
    {
        self.volumes * self.blocks
    }

    // Tests that memory of `lent` has room for the cells of a group of the shape, and `more` besides.
    pub(crate) fn test(self, more: usize, lent: usize) -> Result<(), Fault>
        requires { more ≤ 1 }
        ensures { result ≡ room_answer more self lent }
    {
        if lent < self.cells() + more {
            return Err(Fault::new(Refusal::ShortMemory, Layer::Pair));
        }
        Ok(())
    }

    // The index of a volume's record.
    pub(crate) fn index(self, v: usize) -> Result<usize, Fault>
        ensures answer { result ≡ index_answer self v }
        ensures within { OnOk result (v < 8) }
    {
        if v >= self.volumes {
            return Err(Fault::in_volume(Refusal::NoSuchPlace, v));
        }
        Ok(v)
    }

    // The address of a place.
    pub(crate) fn address(self, v: usize, b: usize) -> Result<usize, Fault>
        ensures answer { result ≡ place_answer self v b }
        ensures within { OnOk result (v < 8) }
    {
        let v = self.index(v)?;
        if b >= self.blocks {
            return Err(Fault::in_volume(Refusal::NoSuchPlace, v));
        }
        Ok(v * self.blocks + b)
    }
}
