// The addresses of a page, one after the other.
ghost use Rattle.std.specs.Prelude.{◌≡◌, ℕ, ◌*◌};
ghost use Rattle.std.specs.Iterator.{YieldsFirst, item_count};
ghost use Rattle.frames.specs.Addressed.{addresses, addresses_left};

use crate::frame::Page;

// The addresses of a page that are still to come, the lowest first: 8 × number + i for each bit i of the map.
#[derive(Drop)]
pub struct Addresses {
    number: u16,
    map: u8,
}

impl Page {
    // Its addresses, the lowest first.
    pub fn addresses(&self) -> Addresses
        ensures { addresses_left result ≡ addresses 8 (8 * self.now.number) self.now.map }
    {
        Addresses {
            number: self.number,
            map: self.map,
        }
    }
}

impl Iterator for Addresses {
    type Item = usize;

    ghost next_gives = { YieldsFirst addresses_left };

    ghost remaining = { item_count addresses_left };

    fn next(&mut self) -> Option<usize> {
        if self.map == 0 {
            return None;
        }
        let place = self.map.trailing_zeros();
        self.map -= 1 << place;
        Some(8 * usize::from(self.number) + place as usize)
    }
}
