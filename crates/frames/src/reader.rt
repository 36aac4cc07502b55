// Reading bytes as a frame.
ghost use Rattle.std.specs.Prelude.{◌≡◌, ℕ, ◌+◌, ◌*◌, ◌≤◌, length, take, drop, count_ones};
ghost use Rattle.cells.specs.Cells.{cell_of};
ghost use Rattle.cells.specs.Faults.{answered};
ghost use Rattle.frames.specs.Format.{Exact, decoded, parted};
ghost use Rattle.frames.specs.Kinds.{entries_behind, fields_as, held_behind, marker_behind, whole_behind};
ghost use Rattle.frames.specs.Frames.{CellsOf, Written, meaning, of_entries, of_held, of_marker, of_whole};

use crate::frame::{Entries, Frame, Held, Marker, Page, Whole};
use crate::kind::Kind;
use crate::make::not_a_frame;
use cells::cell::{CellRow, read_cell};
use cells::fault::Fault;

// How many bytes the cells of a map have.
fn cells_len<R: CellRow>(map: u8) -> usize
    ensures { result ≡ count_ones map * R.CellRow.width }
{
    map.count_ones() as usize * R::width()
}

// The cells of a page, the lowest address's first.
fn read_cells<R: CellRow>(page: Page, bytes: &[u8]) -> Result<[R; 8], Fault>
    requires { length bytes.now ≡ count_ones page.map * R.CellRow.width }
    ensures { CellsOf R.CellRow.bytes R.CellRow.reads page.map (parted R.CellRow.width 8 page.map bytes.now) result }
{
    let mut cells = [R::zero(); 8];
    for (address, cell) in page.addresses().zip(bytes.chunks_exact(R::width())) {
        cells[address % 8] = read_cell(cell)?;
    }
    Ok(cells)
}

fn read_entries<R: CellRow>(cycle: u32, fields: &[u8]) -> Result<Entries<R>, Fault>
    ensures { answered (of_entries R.CellRow.bytes) result ≡ entries_behind R.CellRow.width R.CellRow.reads cycle fields.now }
{
    let [a, b, map, bytes @ ..] = fields else {
        return Err(not_a_frame());
    };
    let page = Page::new(cycle, u16::from_be_bytes([*a, *b]), *map)?;
    if bytes.len() != cells_len::<R>(page.map) {
        return Err(not_a_frame());
    }
    let cells = read_cells(page, bytes)?;
    Ok(Entries { page, cells })
}

fn read_marker(cycle: u32, fields: &[u8]) -> Result<Marker, Fault>
    ensures { answered of_marker result ≡ marker_behind cycle fields.now }
{
    let [a, b] = fields else {
        return Err(not_a_frame());
    };
    let count = u16::from_be_bytes([*a, *b]);
    Marker::new(cycle, count)
}

fn read_held(cycle: u32, fields: &[u8]) -> Result<Held, Fault>
    ensures { answered of_held result ≡ held_behind cycle fields.now }
{
    let [a, b, map] = fields else {
        return Err(not_a_frame());
    };
    Held::new(cycle, u16::from_be_bytes([*a, *b]), *map)
}

fn read_whole(cycle: u32, fields: &[u8]) -> Result<Whole, Fault>
    ensures { answered of_whole result ≡ whole_behind cycle fields.now }
{
    if !fields.is_empty() {
        return Err(not_a_frame());
    }
    Whole::new(cycle)
}

// The fields behind a frame's kind and cycle.
fn read_fields<R: CellRow>(kind: Kind, cycle: u32, fields: &[u8]) -> Result<Frame<R>, Fault>
    ensures { answered (meaning R.CellRow.bytes) result ≡ fields_as R.CellRow.width R.CellRow.reads kind cycle fields.now }
{
    match kind {
        Kind::Entries => Ok(Frame::Entries(read_entries(cycle, fields)?)),
        Kind::Marker => Ok(Frame::Marker(read_marker(cycle, fields)?)),
        Kind::Held => Ok(Frame::Held(read_held(cycle, fields)?)),
        Kind::Whole => Ok(Frame::Whole(read_whole(cycle, fields)?)),
    }
}

fn parse<R: CellRow>(bytes: &[u8]) -> Result<Frame<R>, Fault>
    ensures { answered (meaning R.CellRow.bytes) result ≡ decoded R.CellRow.width R.CellRow.reads bytes.now }
{
    let [first, a, b, c, d, fields @ ..] = bytes else {
        return Err(not_a_frame());
    };
    let kind = Kind::try_from(*first)?;
    let cycle = u32::from_be_bytes([*a, *b, *c, *d]);
    read_fields(kind, cycle, fields)
}

// Reads a datagram as a frame of a kind of cells, or refuses it: with 12 where no frame is written so,
// else with 13 where the kind refuses a cell. What is read is what was written, and the reverse.
pub fn read<R: CellRow>(bytes: &[u8]) -> Result<Frame<R>, Fault>
    ensures answer { answered (meaning R.CellRow.bytes) result ≡ decoded R.CellRow.width R.CellRow.reads bytes.now }
    ensures exact { Exact R.CellRow.width R.CellRow.reads bytes.now (answered (meaning R.CellRow.bytes) result) }
    ensures written { Written R.CellRow.bytes bytes.now result }
{
    parse(bytes)
}
