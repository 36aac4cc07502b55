// Making frames of numbers: only such as can be read again.
ghost use Rattle.std.specs.Prelude.{◌≡◌, ℕ};
ghost use Rattle.cells.specs.Faults.{answered, not_a_frame};
ghost use Rattle.frames.specs.Format.{entries_of, held_of, marker_of, numbered, page_of, whole_of};
ghost use Rattle.frames.specs.Frames.{of_entries, of_held, of_marker, of_page, of_whole, places};

use crate::frame::{Entries, Held, Marker, Page, Whole};
use cells::cell::CellRow;
use cells::fault::{Fault, Layer, Refusal};

// One above the highest cycle number of a frame.
const NO_CYCLE: u32 = 4_294_967_295;

// The highest page, and the most entries of a delta set.
const LAST_PAGE: u16 = 511;

const MOST_ENTRIES: u16 = 4_096;

pub(crate) fn not_a_frame() -> Fault
    ensures { result ≡ not_a_frame }
{
    Fault::new(Refusal::NotAFrame, Layer::Frame)
}

// Whether a cycle of that number has a delta set.
fn is_numbered(cycle: u32) -> bool
    ensures { result ≡ numbered cycle }
{
    (1..NO_CYCLE).contains(&cycle)
}

impl Page {
    pub fn new(cycle: u32, number: u16, map: u8) -> Result<Page, Fault>
        ensures { answered of_page result ≡ page_of cycle number map }
    {
        if !is_numbered(cycle) || number > LAST_PAGE || map == 0 {
            return Err(not_a_frame());
        }
        Ok(Page { cycle, number, map })
    }
}

impl Marker {
    pub fn new(cycle: u32, count: u16) -> Result<Marker, Fault>
        ensures { answered of_marker result ≡ marker_of cycle count }
    {
        if !is_numbered(cycle) || count > MOST_ENTRIES {
            return Err(not_a_frame());
        }
        Ok(Marker { cycle, count })
    }
}

// Held addresses and entries are made of the numbers of a page, as they come, and refuse them as a page does.
impl Held {
    pub fn new(cycle: u32, page: u16, map: u8) -> Result<Held, Fault>
        ensures { answered of_held result ≡ held_of cycle page map }
    {
        Ok(Held {
            page: Page::new(cycle, page, map)?,
        })
    }
}

impl Whole {
    pub fn new(cycle: u32) -> Result<Whole, Fault>
        ensures { answered of_whole result ≡ whole_of cycle }
    {
        if cycle == NO_CYCLE {
            return Err(not_a_frame());
        }
        Ok(Whole { cycle })
    }
}

impl<R: CellRow> Entries<R> {
    pub fn new(cycle: u32, page: u16, map: u8, cells: [R; 8]) -> Result<Entries<R>, Fault>
        ensures { answered (of_entries R.CellRow.bytes) result ≡ entries_of cycle page map (places R.CellRow.bytes map cells) }
    {
        let page = Page::new(cycle, page, map)?;
        Ok(Entries { page, cells })
    }
}
