// A cell kind: how a cell lies in memory as a plain row of numbers, and on the wire as bytes.
ghost use Rattle.std.specs.Prelude.{◌≡◌, ℕ, ◌≤◌, Bool, true, List, ◌++◌, length, take, drop, Ok, Decides};
ghost use denote.Memory.{lone};
ghost use prog.Memory.{align, size};
ghost use Rattle.cells.specs.Cells.{CellWritten, cell_of};
ghost use Rattle.cells.specs.Faults.{answered};
ghost use Rattle.cells.specs.Numbers.{Bytes};

use crate::fault::Fault;

// A plain row of a kind's numbers. Every row stands for one cell of the kind, and a cell is known by
// its bytes: two rows stand for the same cell exactly where their bytes are the same.
pub trait CellRow: Copy {
    // How many bytes a cell has.
    ghost width: { ℕ };

    // The bytes of the cell that a row stands for.
    ghost bytes: { Self → List ℕ };

    // Whether bytes are those of a cell.
    ghost reads: { List ℕ → Bool };

    // The bytes of the cell whose numbers are all 0.
    ghost nought: { List ℕ };

    fn width() -> usize
        ensures { result ≡ width };

    // A row of the cell whose numbers are all 0. A bound of `Default` would not do: it says nothing of which row that is.
    fn zero() -> Self
        ensures { bytes result ≡ nought };

    // Writes the cell's bytes at the front of the buffer, and leaves the rest of it alone. This and `get` are no `From`
    // and `TryFrom`: the array would need the kind's width as a const argument, and such arguments are not computed.
    fn put(self, out: &mut [u8; 16])
        ensures { out.new ≡ bytes self ++ drop width out.old };

    // A row of the cell that has just these bytes.
    fn get(from: &[u8]) -> Result<Self, Fault>
        ensures { answered bytes result ≡ cell_of reads from.now };

    // Whether two rows stand for the same cell. It is no `==`: rows of other numbers may stand for the same cell.
    fn same(self, other: Self) -> bool
        ensures { Decides result (bytes self ≡ bytes other) };

    ghost least: { 1 ≤ width };

    ghost most: { width ≤ 16 };

    // A row takes little memory, so that code over any kind can hold a page of rows.
    ghost compact: { size (lone Self.row.mir) ≤ 64 };

    ghost aligned: { align (lone Self.row.mir) ≤ 16 };

    ghost wide: { (r : Self) → length (bytes r) ≡ width };

    ghost small: { (r : Self) → Bytes (bytes r) };

    // What is written is read.
    ghost read: { (r : Self) → reads (bytes r) ≡ true };

    // What is read has a cell's length,
    ghost sized: { (bs : List ℕ) → reads bs ≡ true → length bs ≡ width };

    // and is what some row's cell is written as.
    ghost written: { (bs : List ℕ) → Bytes bs → reads bs ≡ true → (r : Self) × (bytes r ≡ bs) };
}

// Writes a cell of any kind. The bytes written are read as the same cell.
pub fn write_cell<R: CellRow>(cell: R, out: &mut [u8; 16])
    ensures laid { out.new ≡ R.CellRow.bytes cell ++ drop R.CellRow.width out.old }
    ensures back { cell_of R.CellRow.reads (take R.CellRow.width out.new) ≡ Ok (R.CellRow.bytes cell) }
{
    cell.put(out);
}

// Reads a cell of any kind. Bytes are read exactly if some cell is written so.
pub fn read_cell<R: CellRow>(from: &[u8]) -> Result<R, Fault>
    ensures answer { answered R.CellRow.bytes result ≡ cell_of R.CellRow.reads from.now }
    ensures written { CellWritten R.CellRow.bytes from.now result }
{
    R::get(from)
}
