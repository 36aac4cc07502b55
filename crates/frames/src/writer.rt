// Writing a frame as bytes.
ghost use Rattle.std.specs.Prelude.{◌≡◌, ℕ, ◌+◌, ◌≤◌, List, [], ◌∷◌, ◌++◌, length, take, drop, Ok};
ghost use Rattle.cells.specs.Numbers.{be};
ghost use Rattle.frames.specs.Format.{decoded};
ghost use Rattle.frames.specs.Frames.{meaning, of_entries, of_held, of_marker, of_whole, places};
ghost use Rattle.frames.specs.Kinds.{kind_byte};
ghost use Rattle.frames.specs.Meaning.{bodies, encoded};

use crate::frame::{Entries, Frame, Held, Marker, Page, Whole};
use crate::kind::Kind;
use cells::cell::{CellRow, write_cell};

// The bytes that the frames of a page begin with.
#[tactic(auto, using(cells::specs::BigEndian::be_two, cells::specs::BigEndian::be_four))]
fn page_head(kind: Kind, page: Page) -> [u8; 8]
    ensures { result ≡ kind_byte kind ∷ (be 4 page.cycle ++ (be 2 page.number ++ (page.map ∷ []))) }
{
    let [a, b, c, d] = page.cycle.to_be_bytes();
    let [e, f] = page.number.to_be_bytes();
    [u8::from(kind), a, b, c, d, e, f, page.map]
}

// A cell's bytes, at a place.
fn put_at<R: CellRow>(cell: R, out: &mut [u8], at: usize)
    requires { at + R.CellRow.width ≤ length out.old }
    ensures { out.new ≡ take at out.old ++ (R.CellRow.bytes cell ++ drop (at + R.CellRow.width) out.old) }
{
    let width = R::width();
    let mut bytes = [0; 16];
    write_cell(cell, &mut bytes);
    out[at..at + width].copy_from_slice(&bytes[0..width]);
}

// The cells of a page, the lowest address's first.
fn write_cells<R: CellRow>(entries: &Entries<R>, out: &mut [u8]) -> usize
    requires { 128 ≤ length out.old }
    ensures size { result ≡ length (bodies (places R.CellRow.bytes entries.now.page.map entries.now.cells)) }
    ensures laid { out.new ≡ bodies (places R.CellRow.bytes entries.now.page.map entries.now.cells) ++ drop result out.old }
    ensures most { result ≤ 128 }
{
    let width = R::width();
    // The place in the buffer is counted here: once a loan by `chunks_exact_mut` ends, a proof knows the
    // buffer's length and none of what was written through the loan.
    let mut at = 0;
    for address in entries.page.addresses() {
        put_at(entries.cells[address % 8], out, at);
        at += width;
    }
    at
}

// Each frame's head is laid in one piece with what is behind it, by one copy: a shared head of kind and cycle would make two.
#[tactic(auto, using(cells::specs::BigEndian::be_two, cells::specs::BigEndian::be_four))]
fn write_marker(marker: &Marker, out: &mut [u8; 136]) -> usize
    ensures size { result ≡ length (encoded (of_marker marker.now)) }
    ensures laid { out.new ≡ encoded (of_marker marker.now) ++ drop result out.old }
{
    let [a, b, c, d] = marker.cycle.to_be_bytes();
    let [e, f] = marker.count.to_be_bytes();
    out[0..7].copy_from_slice(&[u8::from(Kind::Marker), a, b, c, d, e, f]);
    7
}

fn write_held(held: &Held, out: &mut [u8; 136]) -> usize
    ensures size { result ≡ length (encoded (of_held held.now)) }
    ensures laid { out.new ≡ encoded (of_held held.now) ++ drop result out.old }
{
    out[0..8].copy_from_slice(&page_head(Kind::Held, held.page));
    8
}

#[tactic(auto, using(cells::specs::BigEndian::be_two, cells::specs::BigEndian::be_four))]
fn write_whole(whole: &Whole, out: &mut [u8; 136]) -> usize
    ensures size { result ≡ length (encoded (of_whole whole.now)) }
    ensures laid { out.new ≡ encoded (of_whole whole.now) ++ drop result out.old }
{
    let [a, b, c, d] = whole.cycle.to_be_bytes();
    out[0..5].copy_from_slice(&[u8::from(Kind::Whole), a, b, c, d]);
    5
}

fn write_entries<R: CellRow>(entries: &Entries<R>, out: &mut [u8; 136]) -> usize
    ensures size { result ≡ length (encoded (of_entries R.CellRow.bytes entries.now)) }
    ensures laid { out.new ≡ encoded (of_entries R.CellRow.bytes entries.now) ++ drop result out.old }
{
    out[0..8].copy_from_slice(&page_head(Kind::Entries, entries.page));
    8 + write_cells(entries, &mut out[8..136])
}

fn lay<R: CellRow>(frame: &Frame<R>, out: &mut [u8; 136]) -> usize
    ensures size { result ≡ length (encoded (meaning R.CellRow.bytes frame.now)) }
    ensures laid { out.new ≡ encoded (meaning R.CellRow.bytes frame.now) ++ drop result out.old }
{
    match frame {
        Frame::Entries(entries) => write_entries(entries, out),
        Frame::Marker(marker) => write_marker(marker, out),
        Frame::Held(held) => write_held(held, out),
        Frame::Whole(whole) => write_whole(whole, out),
    }
}

// Writes a frame at the front of the buffer, leaves the rest of it alone and answers the frame's length.
// The bytes written are read as the same frame.
pub fn write<R: CellRow>(frame: &Frame<R>, out: &mut [u8; 136]) -> usize
    ensures size { result ≡ length (encoded (meaning R.CellRow.bytes frame.now)) }
    ensures bounds { (5 ≤ result) × (result ≤ 136) }
    ensures laid { out.new ≡ encoded (meaning R.CellRow.bytes frame.now) ++ drop result out.old }
    ensures back { decoded R.CellRow.width R.CellRow.reads (take result out.new) ≡ Ok (meaning R.CellRow.bytes frame.now) }
{
    lay(frame, out)
}
