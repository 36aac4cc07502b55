// The fate of a send.
ghost use Rattle.std.specs.Prelude.{◌≡◌};
ghost use Rattle.std.specs.Slice.Iter.{iter_rest};
ghost use Rattle.links.specs.Fates.{fate_of, later_fates, next_fate};

use std::slice;

// What becomes of a datagram that is sent to a queue.
#[derive(Clone, Copy, PartialEq, Eq, Debug)]
pub enum Fate {
    Delivered,
    Lost,
    Twice,
    // Put ahead of the last one waiting.
    Hurried,
}

// A fate is told by a letter: d delivered, l lost, t twice, h hurried. Any other letter means d.
impl From<u8> for Fate {
    ghost from_gives = { λ letter fate. fate ≡ fate_of letter };

    fn from(letter: u8) -> Fate {
        match letter as char {
            'l' => Fate::Lost,
            't' => Fate::Twice,
            'h' => Fate::Hurried,
            _ => Fate::Delivered,
        }
    }
}

// The fate of the next send, by the letters that are left: delivered, where none is.
pub(crate) fn next_fate(letters: &mut slice::Iter<u8>) -> Fate
    ensures fate { result ≡ next_fate (iter_rest letters.old) }
    ensures left { iter_rest letters.new ≡ later_fates (iter_rest letters.old) }
{
    letters
        .next()
        .map_or(Fate::Delivered, |letter| Fate::from(*letter))
}
