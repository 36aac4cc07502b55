// A queue of datagrams in lent memory, with a fate for each send.
ghost use Rattle.std.specs.Prelude.{◌≡◌, [], length};
ghost use Rattle.links.specs.QueueLaws.{queue_laws};
ghost use Rattle.links.specs.Queued.{empty_queue, queue_of, queue_with};

use crate::datagram::Datagram;
use crate::fate::next_fate;
use crate::link::{Link, hand_out};
use crate::place::Place;
use crate::waiting::Waiting;
use cells::fault::Fault;
use std::slice;

// A link that keeps the order, but for the fates: a letter for each send, as `Fate` reads it. With none left,
// a send is delivered. What does not fit is lost.
#[derive(Drop)]
pub struct Queue<'a, 'f> {
    waiting: Waiting<'a>,
    // The letters of the sends to come.
    fates: slice::Iter<'f, u8>,
}

impl<'a, 'f> Queue<'a, 'f> {
    // A queue in which nothing waits, whatever the lent places hold.
    pub fn over(places: &'a mut [Place], fates: &'f [u8]) -> Queue<'a, 'f>
        ensures empty { queue_of result ≡ empty_queue (length places.old) fates.now }
        ensures lent { result.waiting.places.ghost_name ≡ places.entry.ghost_name }
    {
        Queue {
            waiting: Waiting::over(places),
            fates: fates.iter(),
        }
    }

    // Gives the sends to come other fates. What waits stays as it is.
    pub fn set_fates(&mut self, fates: &'f [u8])
        ensures { queue_of self.new ≡ queue_with self.old.waiting fates.now }
    {
        self.fates = fates.iter();
    }

    // How many datagrams wait.
    pub fn waiting(&self) -> usize
        ensures { result ≡ length ((queue_of self.now).waiting []) }
    {
        self.waiting.len()
    }
}

impl Link for Queue<'_, '_> {
    ghost meaning = { queue_of };

    ghost lawful = { queue_laws };

    fn send(&mut self, datagram: &[u8]) -> Result<(), Fault> {
        let datagram = Datagram::try_from(datagram)?;
        let fate = next_fate(&mut self.fates);
        self.waiting.arrive(fate, datagram);
        Ok(())
    }

    fn take(&mut self, buffer: &mut [u8]) -> Result<Option<usize>, Fault> {
        let taken = hand_out(self.waiting.first(), buffer)?;
        self.waiting.remove_first();
        Ok(taken)
    }
}
