// A flat group: a cell for each address, in lent memory.
ghost use Rattle.std.specs.Prelude.{◌≡◌, ◌*◌, ◌≤◌, length, IfOk, Ok};
ghost use Rattle.groups.specs.Tables.{Ready};

use crate::group::Group;
use crate::shape::Shape;
use crate::volumes::VolumeTable;
use cells::cell::CellRow;
use cells::fault::Fault;

// Rows beyond those of the addresses are never touched.
#[derive(Drop)]
pub struct Flat<'a, R> {
    pub(crate) rows: &'a mut [R],
    pub(crate) table: VolumeTable,
    // What the table is ready for, which the laws of any flat group need. It is no ghost field of the table: the checker
    // covers no `Result` of a struct with lent memory that holds a struct with a ghost field.
    ghost ready: { Ready table },
    ghost fits: { table.shape.volumes * table.shape.blocks ≤ length rows.now },
}

impl<'a, R: CellRow> Flat<'a, R> {
    ghost use Rattle.cells.specs.Faults.{answered};
    ghost use Rattle.groups.specs.Flats.{flat_of};
    ghost use Rattle.groups.specs.Meaning.{remount_answer};
    ghost use Rattle.groups.specs.Shapes.{test_answer};
    ghost use Rattle.groups.specs.Tables.{after_alter, fresh_table, kept, record_of, up, volume_answer};

    // Whether the shape is in range and the memory has a row for each address. A shape is given as its two numbers, of
    // any size, and refused here: a caller has no `Shape` to give.
    pub fn test(rows: &[R], volumes: usize, blocks: usize) -> Result<(), Fault>
        ensures { result ≡ test_answer 0 volumes blocks (length rows.now) }
    {
        Shape::new(volumes, blocks)?.test(0, rows.len())
    }

    // A group that holds what the rows stand for, with every mark down, if the memory has room for the shape. That a
    // refusal leaves the memory alone is no clause: the checker proves none on a loan that is handed on in an `Ok` alone.
    pub fn new(rows: &'a mut [R], volumes: usize, blocks: usize) -> Result<Flat<'a, R>, Fault>
        ensures answer { answered (λ _. tt) result ≡ test_answer 0 volumes blocks (length rows.old) }
        ensures rows { IfOk result (λ f. f.rows.now ≡ rows.old) }
        ensures table { IfOk result (λ f. f.table ≡ fresh_table volumes blocks) }
        ensures lender { IfOk result (λ f. f.rows.ghost_name ≡ rows.entry.ghost_name) }
    {
        Flat::test(rows, volumes, blocks)?;
        Ok(Flat::over(rows, volumes, blocks))
    }

    // A group that holds what the rows stand for, with every mark down.
    pub fn over(rows: &'a mut [R], volumes: usize, blocks: usize) -> Flat<'a, R>
        requires { test_answer 0 volumes blocks (length rows.old) ≡ Ok tt }
        ensures rows { result.rows.now ≡ rows.old }
        ensures table { result.table ≡ fresh_table volumes blocks }
        ensures lender { result.rows.ghost_name ≡ rows.entry.ghost_name }
    {
        Flat {
            rows,
            table: VolumeTable::new(Shape { volumes, blocks }),
        }
    }

    // Puts up a volume's read-only mark. This and the other calls on the table alone have bodies of a line, here and of a
    // sparse group, and clauses on memory of their own: a trait of what keeps a table would be longer than they are. Each
    // call says of the lender that it stays, since a slice in a field might be another one after a call.
    pub fn protect(&mut self, v: usize) -> Result<(), Fault>
        ensures answer { result ≡ remount_answer (flat_of R.CellRow.bytes self.old) v }
        ensures after { flat_of R.CellRow.bytes self.new ≡ kept (after_alter up self.old.table v) (flat_of R.CellRow.bytes self.old).cells }
        ensures rows { self.new.rows.now ≡ self.old.rows.now }
        ensures table { self.new.table ≡ after_alter up self.old.table v }
        ensures lender { self.new.rows.ghost_name ≡ self.old.rows.ghost_name }
    {
        self.table.protect(v)
    }

    // How many writes a volume has taken.
    pub fn taken(&self, v: usize) -> Result<u32, Fault>
        ensures { result ≡ volume_answer self.now.table v (record_of self.now.table v).taken }
    {
        self.table.taken(v)
    }
}

impl<'a, R: CellRow> Group<R> for Flat<'a, R> {
    ghost use Rattle.groups.specs.Flats.{flat_celled, flat_lawful, flat_of};
    ghost use Rattle.groups.specs.Meaning.{after_remount, after_write, read_answer, remount_answer, write_answer};
    ghost use Rattle.groups.specs.Rows.{rows_written};
    ghost use Rattle.groups.specs.Tables.{after_admit, after_alter, down};

    ghost meaning = { flat_of R.CellRow.bytes };

    ghost lawful = { flat_lawful R.CellRow.bytes };

    fn volumes(&self) -> usize {
        self.table.shape.volumes
    }

    fn blocks(&self) -> usize {
        self.table.shape.blocks
    }

    fn read(&self, v: usize, b: usize) -> Result<R, Fault> {
        let a = self.table.shape.address(v, b)?;
        Ok(self.rows[a])
    }

    fn write(&mut self, v: usize, b: usize, cell: R) -> Result<(), Fault>
        ensures answer { result ≡ write_answer (flat_of R.CellRow.bytes self.old) v b }
        ensures after { flat_of R.CellRow.bytes self.new ≡ after_write (flat_of R.CellRow.bytes self.old) v b (R.CellRow.bytes cell) }
        ensures rows { self.new.rows.now ≡ rows_written self.old.table self.old.rows.now v b cell }
        ensures table { self.new.table ≡ after_admit self.old.table v b }
        ensures lender { self.new.rows.ghost_name ≡ self.old.rows.ghost_name }
    {
        let a = self.table.admit(v, b)?;
        self.rows[a] = cell;
        Ok(())
    }

    fn remount(&mut self, v: usize) -> Result<(), Fault>
        ensures answer { result ≡ remount_answer (flat_of R.CellRow.bytes self.old) v }
        ensures after { flat_of R.CellRow.bytes self.new ≡ after_remount (flat_of R.CellRow.bytes self.old) v }
        ensures rows { self.new.rows.now ≡ self.old.rows.now }
        ensures table { self.new.table ≡ after_alter down self.old.table v }
        ensures lender { self.new.rows.ghost_name ≡ self.old.rows.ghost_name }
    {
        self.table.remount(v)
    }

    ghost celled = { flat_celled R.CellRow.bytes R.CellRow.reads R.CellRow.read R.CellRow.small };
}
