// The datagrams that wait in a queue.
ghost use Rattle.std.specs.Prelude.{◌≡◌, ◌≤◌, length};

use crate::datagram::Datagram;
use crate::fate::Fate;
use crate::place::Place;

// Datagrams in the first `used` places, the first one in front. The caller lends the places, since a link allocates
// nothing. Each call says that there is as much room as before: a slice in a field might be another one after a call.
#[derive(Drop)]
pub(crate) struct Waiting<'a> {
    places: &'a mut [Place],
    used: usize,
    ghost within: { used ≤ length places.now },
}

impl<'a> Waiting<'a> {
    ghost use Rattle.std.specs.Prelude.{[]};
    ghost use Rattle.links.specs.Placed.{kept_in};
    ghost use Rattle.links.specs.Queued.{appended, arrived, first, hurried, rest, room, waits};

    // Nothing waits, whatever the places hold.
    pub(crate) fn over(places: &'a mut [Place]) -> Waiting<'a>
        ensures waits { waits result ≡ [] }
        ensures room { room result ≡ length places.old }
        ensures lent { result.places.ghost_name ≡ places.entry.ghost_name }
    {
        Waiting { places, used: 0 }
    }

    // How many wait.
    pub(crate) fn len(&self) -> usize
        ensures { result ≡ length (waits self.now) }
    {
        self.used
    }

    // Puts a datagram behind all others, if a place is free.
    fn append(&mut self, datagram: Datagram)
        ensures waits { waits self.new ≡ appended (room self.old) datagram.entry.bytes.now (waits self.old) }
        ensures room { room self.new ≡ room self.old }
    {
        if self.used < self.places.len() {
            self.places[self.used] = Place::from(datagram);
            self.used += 1;
        }
    }

    // Puts a datagram ahead of the last one that waits, if a place is free.
    #[tactic(auto, using(crate::proofs::Places::hurried_free))]
    fn hurry(&mut self, datagram: Datagram)
        ensures waits { waits self.new ≡ hurried (room self.old) datagram.entry.bytes.now (waits self.old) }
        ensures room { room self.new ≡ room self.old }
    {
        if self.used > 0 && self.used < self.places.len() {
            self.places[self.used] = self.places[self.used - 1];
            self.places[self.used - 1] = Place::from(datagram);
            self.used += 1;
        } else {
            self.append(datagram);
        }
    }

    // Puts a datagram where its fate says.
    pub(crate) fn arrive(&mut self, fate: Fate, datagram: Datagram)
        ensures waits { waits self.new ≡ arrived (room self.old) fate datagram.entry.bytes.now (waits self.old) }
        ensures room { room self.new ≡ room self.old }
    {
        match fate {
            Fate::Delivered => self.append(datagram),
            Fate::Lost => {}
            Fate::Twice => {
                self.append(datagram);
                self.append(datagram);
            }
            Fate::Hurried => self.hurry(datagram),
        }
    }

    // The first one that waits.
    pub(crate) fn first(&self) -> Option<Place>
        ensures { kept_in result ≡ first (waits self.now) }
    {
        self.places[..self.used].first().copied()
    }

    // Takes out the first one that waits, and moves the others up.
    pub(crate) fn remove_first(&mut self)
        ensures waits { waits self.new ≡ rest (waits self.old) }
        ensures room { room self.new ≡ room self.old }
    {
        if self.used > 0 {
            self.places[..self.used].rotate_left(1);
            self.used -= 1;
        }
    }
}
