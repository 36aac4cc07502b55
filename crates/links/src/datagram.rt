// What a link carries.
ghost use Rattle.std.specs.Prelude.{◌≡◌};
ghost use Rattle.cells.specs.Faults.{answered};
ghost use Rattle.links.specs.Calls.{datagram_answer};
ghost use Rattle.links.specs.Meaning.{Sized};

use cells::fault::{Fault, Layer, Refusal};

// The bytes of a datagram, of which there are 1 to 136.
#[derive(Clone, Copy)]
pub(crate) struct Datagram<'a> {
    bytes: &'a [u8],
    ghost sized: { Sized bytes.now },
}

impl<'a> Datagram<'a> {
    pub(crate) fn as_bytes(self) -> &'a [u8]
        ensures { result.now ≡ self.entry.bytes.now }
    {
        self.bytes
    }
}

impl<'a> TryFrom<&'a [u8]> for Datagram<'a> {
    type Error = Fault;

    ghost try_from_gives = { λ bytes result. answered (λ d. d.bytes.now) result ≡ datagram_answer bytes.now };

    fn try_from(bytes: &'a [u8]) -> Result<Datagram<'a>, Fault> {
        if bytes.is_empty() || bytes.len() > 136 {
            return Err(Fault::new(Refusal::NotAFrame, Layer::Frame));
        }
        Ok(Datagram { bytes })
    }
}
