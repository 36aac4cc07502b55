// The link trait: what sends and takes datagrams.
ghost use Rattle.std.specs.Prelude.{◌≡◌, ℕ, []};
ghost use Rattle.links.specs.Calls.{send_answer, send_meaning, take_answer, take_buffer, take_meaning};
ghost use Rattle.links.specs.Meaning.{LinkLaws, LinkMeaning};
ghost use Rattle.links.specs.Placed.{kept_in};

use crate::place::Place;
use cells::fault::{Fault, Layer, Refusal};

// Copies the datagram of a place, if there is one, to the buffer's front, and answers its length.
// It refuses only a buffer of less than 136 bytes.
pub(crate) fn hand_out(place: Option<Place>, buffer: &mut [u8]) -> Result<Option<usize>, Fault>
    ensures answer { result ≡ take_answer buffer.old (kept_in place) }
    ensures buffer { buffer.new ≡ take_buffer buffer.old (kept_in place) }
{
    let front = buffer
        .first_chunk_mut()
        .ok_or(Fault::new(Refusal::ShortMemory, Layer::Link))?;
    // No `map`: tried, and with the copy in its closure what the buffer holds after it was not proved.
    match place {
        Some(place) => Ok(Some(place.copy_to(front))),
        None => Ok(None),
    }
}

// What carries datagrams of 1 to 136 bytes, and may lose, repeat or reorder them. It foretells what
// waits in it and what it answers, now and after any further calls.
pub trait Link {
    // What waits and what is answered, now and after any further calls.
    ghost meaning: { Self → LinkMeaning };

    // What holds of every link: nothing waits or is taken but what was sent. It stands above the calls, where it is
    // data whose type is the statement: a law, below them, cannot be cited of a `dyn Link`, nor in a clause.
    ghost lawful: { (l : Self) → LinkLaws (meaning l) };

    // Hands a datagram to the link. It refuses only a length of 0 or above 136.
    fn send(&mut self, datagram: &[u8]) -> Result<(), Fault>
        ensures answer { result ≡ send_answer datagram.now }
        ensures after { meaning self.new ≡ send_meaning datagram.now (meaning self.old) };

    // Copies the next datagram, if any, to the buffer's front, and answers its length. It refuses only
    // a buffer of less than 136 bytes.
    fn take(&mut self, buffer: &mut [u8]) -> Result<Option<usize>, Fault>
        ensures answer { result ≡ take_answer buffer.old ((meaning self.old).answer []) }
        ensures buffer { buffer.new ≡ take_buffer buffer.old ((meaning self.old).answer []) }
        ensures after { meaning self.new ≡ take_meaning buffer.old (meaning self.old) };
}
