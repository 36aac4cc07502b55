// A latch: the last datagram that was sent, handed out at every take.
ghost use Rattle.std.specs.Prelude.{◌≡◌, None};
ghost use Rattle.links.specs.LatchLaws.{latch_laws};
ghost use Rattle.links.specs.Latched.{latch_of, latched};

use crate::datagram::Datagram;
use crate::link::{Link, hand_out};
use crate::place::Place;
use cells::fault::Fault;

// A link that keeps the last datagram sent, if there was one.
#[derive(Default, Drop)]
pub struct Latch {
    kept: Option<Place>,
}

impl Latch {
    // A latch to which nothing was sent yet.
    pub fn new() -> Latch
        ensures { latch_of result ≡ latched None }
    {
        Latch::default()
    }
}

impl Link for Latch {
    ghost meaning = { latch_of };

    ghost lawful = { latch_laws };

    fn send(&mut self, datagram: &[u8]) -> Result<(), Fault> {
        let datagram = Datagram::try_from(datagram)?;
        self.kept = Some(Place::from(datagram));
        Ok(())
    }

    fn take(&mut self, buffer: &mut [u8]) -> Result<Option<usize>, Fault> {
        hand_out(self.kept, buffer)
    }
}
