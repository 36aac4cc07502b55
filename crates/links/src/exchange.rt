// An exchange over any link: a send, and then a take.
ghost use Rattle.std.specs.Prelude.{◌≡◌};
ghost use Rattle.links.specs.Exchanged.{Ever, Own, exchange_answer, exchange_buffer, exchange_meaning};

use crate::link::Link;
use cells::fault::Fault;

// Sends a datagram, and takes what comes.
pub fn exchange<L: Link>(
    link: &mut L,
    datagram: &[u8],
    buffer: &mut [u8],
) -> Result<Option<usize>, Fault>
    ensures answer { result ≡ exchange_answer datagram.now buffer.old (L.Link.meaning link.old) }
    ensures buffer { buffer.new ≡ exchange_buffer datagram.now buffer.old (L.Link.meaning link.old) }
    ensures after { L.Link.meaning link.new ≡ exchange_meaning datagram.now buffer.old (L.Link.meaning link.old) }
    ensures own { Own datagram.now buffer.old (L.Link.meaning link.old) buffer.new result }
    ensures ever { Ever datagram.now (L.Link.meaning link.old) (L.Link.meaning link.new) }
{
    link.send(datagram)?;
    link.take(buffer)
}
