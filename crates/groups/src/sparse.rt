// A sparse group: a record for each address written so far, in lent memory, in the order of first writes.
ghost use Rattle.std.specs.Prelude.{◌≡◌, ◌*◌, ◌<◌, length, position, IfOk, Ok, Some};
ghost use Rattle.groups.specs.Records.{Single};
ghost use Rattle.groups.specs.Tables.{Ready};

use crate::group::Group;
use crate::records::Record;
use crate::shape::Shape;
use crate::volumes::VolumeTable;
use cells::cell::CellRow;
use cells::fault::Fault;

// The first record has the cell of every address that has no record. Those in use follow it; any further ones are
// not touched until an address is written first, and those beyond the last address never.
#[derive(Drop)]
pub struct Sparse<'a, R> {
    pub(crate) records: &'a mut [Record<R>],
    // How many are in use: the memory is lent and fixed, so it has a count beside it.
    pub(crate) used: usize,
    pub(crate) table: VolumeTable,
    // What the table is ready for, as a flat group has it.
    ghost ready: { Ready table },
    ghost fits: { table.shape.volumes * table.shape.blocks < length records.now },
    ghost single: { Single table records.now used },
}

impl<'a, R: CellRow> Sparse<'a, R> {
    ghost use Rattle.cells.specs.Faults.{answered};
    ghost use Rattle.groups.specs.Meaning.{remount_answer};
    ghost use Rattle.groups.specs.Records.{in_use, is_of, place_in, row_in};
    ghost use Rattle.groups.specs.Shapes.{test_answer};
    ghost use Rattle.groups.specs.Sparses.{sparse_of};
    ghost use Rattle.groups.specs.Tables.{after_alter, fresh_table, kept, record_of, up, volume_answer};

    // Whether the shape is in range and the memory has a record for each address and one before them.
    pub fn test(records: &[Record<R>], volumes: usize, blocks: usize) -> Result<(), Fault>
        ensures { result ≡ test_answer 1 volumes blocks (length records.now) }
    {
        Shape::new(volumes, blocks)?.test(1, records.len())
    }

    // A group with the first record's cell at every address, and with every mark down, if the memory has room for the
    // shape. That a refusal leaves the memory alone is no clause, as for a flat group.
    pub fn new(
        records: &'a mut [Record<R>],
        volumes: usize,
        blocks: usize,
    ) -> Result<Sparse<'a, R>, Fault>
        ensures answer { answered (λ _. tt) result ≡ test_answer 1 volumes blocks (length records.old) }
        ensures records { IfOk result (λ s. s.records.now ≡ records.old) }
        ensures used { IfOk result (λ s. s.used ≡ 0) }
        ensures table { IfOk result (λ s. s.table ≡ fresh_table volumes blocks) }
        ensures lender { IfOk result (λ s. s.records.ghost_name ≡ records.entry.ghost_name) }
    {
        Sparse::test(records, volumes, blocks)?;
        Ok(Sparse::over(records, volumes, blocks))
    }

    // A group with the first record's cell at every address, and with every mark down.
    pub fn over(records: &'a mut [Record<R>], volumes: usize, blocks: usize) -> Sparse<'a, R>
        requires { test_answer 1 volumes blocks (length records.old) ≡ Ok tt }
        ensures records { result.records.now ≡ records.old }
        ensures used { result.used ≡ 0 }
        ensures table { result.table ≡ fresh_table volumes blocks }
        ensures lender { result.records.ghost_name ≡ records.entry.ghost_name }
    {
        Sparse {
            records,
            used: 0,
            table: VolumeTable::new(Shape { volumes, blocks }),
        }
    }

    // Puts up a volume's read-only mark.
    pub fn protect(&mut self, v: usize) -> Result<(), Fault>
        ensures answer { result ≡ remount_answer (sparse_of R.CellRow.bytes self.old) v }
        ensures after { sparse_of R.CellRow.bytes self.new ≡ kept (after_alter up self.old.table v) (sparse_of R.CellRow.bytes self.old).cells }
        ensures records { self.new.records.now ≡ self.old.records.now }
        ensures used { self.new.used ≡ self.old.used }
        ensures table { self.new.table ≡ after_alter up self.old.table v }
        ensures lender { self.new.records.ghost_name ≡ self.old.records.ghost_name }
    {
        self.table.protect(v)
    }

    // How many writes a volume has taken.
    pub fn taken(&self, v: usize) -> Result<u32, Fault>
        ensures { result ≡ volume_answer self.now.table v (record_of self.now.table v).taken }
    {
        self.table.taken(v)
    }

    // The records that are in use.
    fn in_use(&self) -> &[Record<R>]
        ensures { result.now ≡ in_use self.now.records.now self.now.used }
    {
        &self.records[1..][..self.used]
    }

    // Which of the records in use is that of an address.
    fn find(&self, address: usize) -> Option<usize>
        ensures { result ≡ position (is_of address) (in_use self.now.records.now self.now.used) }
    {
        self.in_use()
            .iter()
            .position(|record| usize::from(record.address) == address)
    }

    // The place of an address's record, or of the first record that is not in use.
    fn place(&self, address: usize) -> usize
        ensures { result ≡ place_in self.now.records.now self.now.used address }
    {
        1 + self.find(address).unwrap_or(self.used)
    }

    // The row of an address: that of its record, or of the first record.
    fn row(&self, address: usize) -> R
        ensures { row_in self.now.records.now self.now.used address ≡ Some result }
    {
        match self.find(address) {
            Some(i) => self.in_use()[i].cell,
            None => self.records[0].cell,
        }
    }
}

impl<'a, R: CellRow> Group<R> for Sparse<'a, R> {
    ghost use Rattle.groups.specs.Meaning.{after_remount, after_write, read_answer, remount_answer, write_answer};
    ghost use Rattle.groups.specs.Records.{records_written, used_after};
    ghost use Rattle.groups.specs.Sparses.{sparse_celled, sparse_lawful, sparse_of};
    ghost use Rattle.groups.specs.Tables.{after_admit, after_alter, down};

    ghost meaning = { sparse_of R.CellRow.bytes };

    ghost lawful = { sparse_lawful R.CellRow.bytes };

    fn volumes(&self) -> usize {
        self.table.shape.volumes
    }

    fn blocks(&self) -> usize {
        self.table.shape.blocks
    }

    fn read(&self, v: usize, b: usize) -> Result<R, Fault> {
        let a = self.table.shape.address(v, b)?;
        Ok(self.row(a))
    }

    // The record of the place's address is replaced, or follows those in use.
    fn write(&mut self, v: usize, b: usize, cell: R) -> Result<(), Fault>
        ensures answer { result ≡ write_answer (sparse_of R.CellRow.bytes self.old) v b }
        ensures after { sparse_of R.CellRow.bytes self.new ≡ after_write (sparse_of R.CellRow.bytes self.old) v b (R.CellRow.bytes cell) }
        ensures records { self.new.records.now ≡ records_written self.old.table self.old.records.now self.old.used v b cell }
        ensures used { self.new.used ≡ used_after self.old.table self.old.records.now self.old.used v b }
        ensures table { self.new.table ≡ after_admit self.old.table v b }
        ensures lender { self.new.records.ghost_name ≡ self.old.records.ghost_name }
    {
        let a = self.table.admit(v, b)?;
        let i = self.place(a);
        // An address is below 4096. A `try_from` would want a refusal here that is never given.
        self.records[i] = Record {
            address: a as u16,
            cell,
        };
        self.used = self.used.max(i);
        Ok(())
    }

    fn remount(&mut self, v: usize) -> Result<(), Fault>
        ensures answer { result ≡ remount_answer (sparse_of R.CellRow.bytes self.old) v }
        ensures after { sparse_of R.CellRow.bytes self.new ≡ after_remount (sparse_of R.CellRow.bytes self.old) v }
        ensures records { self.new.records.now ≡ self.old.records.now }
        ensures used { self.new.used ≡ self.old.used }
        ensures table { self.new.table ≡ after_alter down self.old.table v }
        ensures lender { self.new.records.ghost_name ≡ self.old.records.ghost_name }
    {
        self.table.remount(v)
    }

    ghost celled = { sparse_celled R.CellRow.bytes R.CellRow.reads R.CellRow.read R.CellRow.small };
}
