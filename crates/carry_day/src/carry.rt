// Carrying cells as frames.
ghost use Rattle.std.specs.Prelude.{◌≡◌};
ghost use Rattle.carry_day.specs.Carried.{frame_of, sent_answer, sent_meaning};
ghost use Rattle.links.specs.Queued.{queue_of};

use cells::fault::Fault;
use cells::reading::ReadingRow;
use frames::frame::{Entries, Frame};
use frames::reader::read;
use frames::writer::write;
use groups::group::Group;
use groups::sparse::Sparse;
use links::link::Link;
use links::queue::Queue;

// Sends a cell as an entries frame of its page.
pub(crate) fn send_cell(queue: &mut Queue, address: u16, cell: ReadingRow) -> Result<(), Fault>
    ensures answer { result ≡ sent_answer (frame_of address cell) }
    ensures after { queue_of queue.new ≡ sent_meaning (frame_of address cell) (queue_of queue.old) }
{
    let entries = Entries::new(1, address / 8, 1 << (address % 8), [cell; 8])?;
    let mut bytes = [0; 136];
    let n = write(&Frame::Entries(entries), &mut bytes);
    queue.send(&bytes[0..n])
}

// Lays the cells of an entries frame into a group.
fn lay(entries: &Entries<ReadingRow>, group: &mut Sparse<ReadingRow>) -> Result<(), Fault> {
    let blocks = (*group).blocks();
    for address in entries.page.addresses() {
        let cell = entries.cells[address % 8];
        (*group).write(address / blocks, address % blocks, cell)?;
    }
    Ok(())
}

// Takes the next datagram, if one waits, and lays its cells into a group. Answers whether there was one.
fn take_one(queue: &mut Queue, group: &mut Sparse<ReadingRow>) -> Result<bool, Fault> {
    let mut buffer = [0; 136];
    let Some(n) = queue.take(&mut buffer)? else {
        return Ok(false);
    };
    if let Frame::Entries(entries) = read::<ReadingRow>(&buffer[0..n])? {
        lay(&entries, group)?;
    }
    Ok(true)
}

// Takes what waits, and answers how many datagrams that were.
pub(crate) fn take_all(queue: &mut Queue, group: &mut Sparse<ReadingRow>) -> Result<u32, Fault> {
    let mut taken: u32 = 0;
    for _ in 0..queue.waiting() {
        if take_one(queue, group)? {
            taken = taken.saturating_add(1);
        }
    }
    Ok(taken)
}
