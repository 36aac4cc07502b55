// How datagrams were told, and how often.
ghost use Rattle.std.specs.Prelude.{◌≡◌, ℕ, Some};
ghost use Rattle.report.specs.Tallies.{counted, more, none, tally_text};

use std::fmt;

// What a line of a capture was.
#[derive(Clone, Copy, PartialEq, Eq, Debug)]
pub enum Outcome {
    Entries,
    Marker,
    Held,
    Whole,
    // No frame, or a frame with bytes that make no cell.
    Refused,
    // No datagram at all.
    Unreadable,
}

// How many lines there were, and how many of each outcome.
#[derive(Clone, Copy, PartialEq, Eq, Debug, Default)]
pub struct Tally {
    pub datagrams: u64,
    pub entries: u64,
    pub markers: u64,
    pub held: u64,
    pub whole: u64,
    pub refused: u64,
    pub unreadable: u64,
}

fn count_one(n: &mut u64)
    ensures { n.new ≡ more n.old }
{
    *n = n.saturating_add(1);
}

impl Tally {
    pub fn new() -> Tally
        ensures { result ≡ none }
    {
        Tally::default()
    }

    // One more line, of this outcome.
    pub fn count(&mut self, outcome: Outcome)
        ensures { self.new ≡ counted outcome self.old }
    {
        count_one(&mut self.datagrams);
        match outcome {
            Outcome::Entries => count_one(&mut self.entries),
            Outcome::Marker => count_one(&mut self.markers),
            Outcome::Held => count_one(&mut self.held),
            Outcome::Whole => count_one(&mut self.whole),
            Outcome::Refused => count_one(&mut self.refused),
            Outcome::Unreadable => count_one(&mut self.unreadable),
        }
    }
}

// The summary of a capture.
impl fmt::Display for Tally {
    ghost output = { λ t. Some (tally_text t) };

    fn fmt<W: fmt::Write>(&self, f: &mut fmt::Formatter<W>) -> fmt::Result {
        let Tally {
            datagrams,
            entries,
            markers,
            held,
            whole,
            refused,
            unreadable,
        } = *self;
        write!(
            f,
            "{datagrams} datagrams: {entries} entries, {markers} markers, {held} held, "
        )?;
        write!(
            f,
            "{whole} whole, {refused} refused, {unreadable} unreadable"
        )
    }
}
