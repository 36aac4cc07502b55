// A day of readings at a weir: two gauges, a reading each quarter of an hour.
ghost use Rattle.std.specs.Prelude.{◌≡◌, ◌+◌, ◌-◌, ◌^◌, ◌&&◌, is_ok, min};
ghost use Rattle.cells.specs.Readings.{reading_bytes};
ghost use Rattle.groups.specs.Flats.{flat_of};
ghost use Rattle.groups.specs.Meaning.{after_write, write_answer};
ghost use Rattle.groups.specs.Sparses.{sparse_of};

use crate::carry::{send_cell, take_all};
use cells::fault::Fault;
use cells::reading::{Quality, ReadingRow};
use groups::compare::equal;
use groups::flat::Flat;
use groups::group::Group;
use groups::records::Record;
use groups::sparse::Sparse;
use links::place::Place;
use links::queue::Queue;
use std::fmt;

// The fates of an hour's sends: the third is lost, the fifth doubled, the sixth overtakes.
const FATES: &[u8] = b"ddldthdd";

// The gauges of a weir. Each has a volume, with a block for each quarter of an hour.
#[derive(Clone, Copy, PartialEq, Eq, Debug)]
enum Gauge {
    Headwater = 0,
    Tailwater = 1,
}

// How many volumes the groups have, one for each gauge, and how many blocks, one for each quarter of an hour of a day.
const VOLUMES: usize = 2;

const QUARTERS: u16 = 96;

// What became of a day's readings.
#[derive(Clone, Copy, Default)]
pub struct Tally {
    pub written: u32,
    pub refused: u32,
    pub sent: u32,
    pub lost: u32,
    pub taken: u32,
    // Whether the flat and the sparse group end equal, and the flat and the carried one.
    pub equal: bool,
    pub carried: bool,
}

// Counts one more, and stops at the highest count.
fn count(n: &mut u32)
    ensures { n.new ≡ min (n.old + 1) (2 ^ 32 - 1) }
{
    *n = n.saturating_add(1);
}

fn yes_or_no(answer: bool) -> &'static str {
    if answer { "yes" } else { "no" }
}

impl fmt::Display for Tally {
    fn fmt<W: fmt::Write>(&self, f: &mut fmt::Formatter<W>) -> fmt::Result {
        writeln!(f, "written {}", self.written)?;
        writeln!(f, "refused {}", self.refused)?;
        writeln!(f, "sent {}", self.sent)?;
        writeln!(f, "lost {}", self.lost)?;
        writeln!(f, "taken {}", self.taken)?;
        let equal = yes_or_no(self.equal);
        writeln!(f, "flat and sparse group equal: {equal}")?;
        let carried = yes_or_no(self.carried);
        writeln!(f, "flat and carried group equal: {carried}")
    }
}

// The groups that are written alike, the one that takes what is carried, the queue that carries it, and the count.
#[derive(Drop)]
struct Day<'a> {
    flat: Flat<'a, ReadingRow>,
    sparse: Sparse<'a, ReadingRow>,
    carried: Sparse<'a, ReadingRow>,
    queue: Queue<'a, 'static>,
    tally: Tally,
}

impl Gauge {
    const ALL: [Gauge; 2] = [Gauge::Headwater, Gauge::Tailwater];

    // The gauge's reading at a quarter of an hour, rising through each half of the day.
    fn reading(self, quarter: u16) -> ReadingRow {
        let foot = match self {
            Gauge::Headwater => 4_000,
            Gauge::Tailwater => 1_200,
        };
        ReadingRow {
            level: foot + i32::from(quarter % 48) * 5,
            second: u32::from(quarter) * 900,
            quality: u8::from(Quality::Good),
        }
    }
}

impl<'a> Day<'a> {
    // Writes a reading to both groups. Answers whether both took it.
    fn write(&mut self, v: usize, b: usize, row: ReadingRow) -> bool
        ensures answer { result ≡ is_ok (write_answer (sparse_of reading_bytes self.old.sparse) v b) && is_ok (write_answer (flat_of reading_bytes self.old.flat) v b) }
        ensures flat { flat_of reading_bytes self.new.flat ≡ after_write (flat_of reading_bytes self.old.flat) v b (reading_bytes row) }
        ensures sparse { sparse_of reading_bytes self.new.sparse ≡ after_write (sparse_of reading_bytes self.old.sparse) v b (reading_bytes row) }
        ensures carried { self.new.carried ≡ self.old.carried }
        ensures queue { self.new.queue ≡ self.old.queue }
        ensures tally { self.new.tally ≡ self.old.tally }
    {
        let taken = self.flat.write(v, b, row).is_ok();
        self.sparse.write(v, b, row).is_ok() && taken
    }

    // Protects the second gauge's volume at 10 o'clock, and remounts it at 12.
    fn guard(&mut self, quarter: u16) -> Result<(), Fault>
        ensures carried { self.new.carried ≡ self.old.carried }
        ensures queue { self.new.queue ≡ self.old.queue }
        ensures tally { self.new.tally ≡ self.old.tally }
    {
        let volume = Gauge::Tailwater as usize;
        match quarter {
            40 => {
                self.flat.protect(volume)?;
                self.sparse.protect(volume)
            }
            48 => {
                self.flat.remount(volume)?;
                self.sparse.remount(volume)
            }
            _ => Ok(()),
        }
    }

    // Sends a reading, and counts it as lost where no more datagrams wait than before.
    fn carry(&mut self, address: u16, row: ReadingRow) -> Result<(), Fault>
        ensures flat { self.new.flat ≡ self.old.flat }
        ensures sparse { self.new.sparse ≡ self.old.sparse }
        ensures carried { self.new.carried ≡ self.old.carried }
    {
        let before = self.queue.waiting();
        send_cell(&mut self.queue, address, row)?;
        count(&mut self.tally.sent);
        if self.queue.waiting() == before {
            count(&mut self.tally.lost);
        }
        Ok(())
    }

    // The readings of a quarter of an hour, written to both groups and carried where they were taken.
    fn write_quarter(&mut self, quarter: u16) -> Result<(), Fault>
        ensures carried { self.new.carried ≡ self.old.carried }
    {
        for gauge in Gauge::ALL {
            let row = gauge.reading(quarter);
            let volume = gauge as u16;
            if self.write(usize::from(volume), usize::from(quarter), row) {
                count(&mut self.tally.written);
                // The remainder bounds the address, whatever quarter is given.
                self.carry(volume * QUARTERS + quarter % QUARTERS, row)?;
            } else {
                count(&mut self.tally.refused);
            }
        }
        Ok(())
    }

    // A quarter of an hour: what is written, sent and taken.
    fn pass(&mut self, quarter: u16) -> Result<(), Fault> {
        if quarter % 4 == 0 {
            self.queue.set_fates(FATES);
        }
        self.guard(quarter)?;
        self.write_quarter(quarter)?;
        let taken = take_all(&mut self.queue, &mut self.carried)?;
        self.tally.taken = self.tally.taken.saturating_add(taken);
        Ok(())
    }
}

// The day, over lent memory.
pub(crate) fn run(
    rows: &mut [ReadingRow],
    records: &mut [Record<ReadingRow>],
    far: &mut [Record<ReadingRow>],
    places: &mut [Place],
) -> Result<Tally, Fault> {
    let blocks = usize::from(QUARTERS);
    let mut day = Day {
        flat: Flat::new(rows, VOLUMES, blocks)?,
        sparse: Sparse::new(records, VOLUMES, blocks)?,
        carried: Sparse::new(far, VOLUMES, blocks)?,
        queue: Queue::over(places, FATES),
        tally: Tally::default(),
    };
    for quarter in 0..QUARTERS {
        day.pass(quarter)?;
    }
    day.tally.equal = equal(&day.flat, &day.sparse);
    day.tally.carried = equal(&day.flat, &day.carried);
    Ok(day.tally)
}
