// A group: volumes of blocks, each with a cell, behind a trait whose meaning is all that other layers know of it.
ghost use Rattle.std.specs.Prelude.{◌≡◌, ℕ};
ghost use Rattle.cells.specs.Faults.{answered};
ghost use Rattle.groups.specs.Meaning.{Celled, GroupLaws, GroupMeaning, after_remount, after_write, read_answer, remount_answer, write_answer};

use cells::cell::CellRow;
use cells::fault::Fault;

// A group of cells of one kind. A place is told by its two numbers, as in the protocol: nothing keeps a place, so a
// struct of them would only be made at each call and taken apart in it.
pub trait Group<R: CellRow> {
    // Volumes, blocks, cells, marks, and what is foretold of further writes.
    ghost meaning: { Self → GroupMeaning };

    // What holds of every group. It stands above the calls, where it is data whose type is the statement: a law, below
    // them, cannot be cited in a clause.
    ghost lawful: { (s : Self) → GroupLaws (meaning s) };

    fn volumes(&self) -> usize
        ensures { result ≡ (meaning self.now).volumes };

    fn blocks(&self) -> usize
        ensures { result ≡ (meaning self.now).blocks };

    // The cell of block `b` of volume `v`.
    fn read(&self, v: usize, b: usize) -> Result<R, Fault>
        ensures { answered R.CellRow.bytes result ≡ read_answer (meaning self.now) v b };

    // Replaces the cell of block `b` of volume `v`, or is refused and leaves the volume read-only.
    fn write(&mut self, v: usize, b: usize, cell: R) -> Result<(), Fault>
        ensures answer { result ≡ write_answer (meaning self.old) v b }
        ensures after { meaning self.new ≡ after_write (meaning self.old) v b (R.CellRow.bytes cell) };

    // Takes down a volume's read-only mark.
    fn remount(&mut self, v: usize) -> Result<(), Fault>
        ensures answer { result ≡ remount_answer (meaning self.old) v }
        ensures after { meaning self.new ≡ after_remount (meaning self.old) v };

    // Whatever a group holds is a cell of the kind.
    ghost celled: { (s : Self) → Celled R.CellRow.reads (meaning s) };
}
