// The table of a group's volumes: its shape, and for each volume a mark and a count.
ghost use Rattle.std.specs.Prelude.{◌≡◌};

use crate::shape::Shape;
use cells::fault::{Fault, Refusal};

// A volume's record: whether it is read-only, and how many writes it has taken.
#[derive(Clone, Copy, PartialEq, Eq, Debug, Default)]
pub struct VolumeRecord {
    pub read_only: bool,
    pub taken: u32,
}

// The shape of a group, and a record for each of the eight volumes that it may have.
#[derive(Clone, Copy)]
pub struct VolumeTable {
    pub shape: Shape,
    pub records: [VolumeRecord; 8],
}

impl VolumeRecord {
    ghost use Rattle.groups.specs.Tables.{counted, marked_as};

    // Puts the mark up, or down.
    fn mark(&mut self, read_only: bool)
        ensures { self.new ≡ marked_as read_only self.old }
    {
        self.read_only = read_only;
    }

    // Counts one write more, and stops at the highest count.
    fn count(&mut self)
        ensures { self.new ≡ counted self.old }
    {
        self.taken = self.taken.saturating_add(1);
    }
}

impl VolumeTable {
    ghost use Rattle.groups.specs.Tables.{admit_answer, after_admit, after_alter, down, fresh_table, marked_as, record_of, up, volume_answer};

    pub(crate) fn new(shape: Shape) -> VolumeTable
        ensures { result ≡ fresh_table shape.volumes shape.blocks }
    {
        VolumeTable {
            shape,
            records: [VolumeRecord::default(); 8],
        }
    }

    // Lets a write through and counts it, and answers the address, unless the volume is read-only.
    pub(crate) fn admit(&mut self, v: usize, b: usize) -> Result<usize, Fault>
        ensures answer { result ≡ admit_answer self.old v b }
        ensures after { self.new ≡ after_admit self.old v b }
    {
        let a = self.shape.address(v, b)?;
        if self.records[v].read_only {
            return Err(Fault::in_volume(Refusal::ReadOnly, v));
        }
        self.records[v].count();
        Ok(a)
    }

    // Puts a volume's mark up, or down.
    fn mark(&mut self, v: usize, read_only: bool) -> Result<(), Fault>
        ensures answer { result ≡ volume_answer self.old v tt }
        ensures after { self.new ≡ after_alter (marked_as read_only) self.old v }
    {
        let v = self.shape.index(v)?;
        self.records[v].mark(read_only);
        Ok(())
    }

    pub(crate) fn protect(&mut self, v: usize) -> Result<(), Fault>
        ensures answer { result ≡ volume_answer self.old v tt }
        ensures after { self.new ≡ after_alter up self.old v }
    {
        self.mark(v, true)
    }

    pub(crate) fn remount(&mut self, v: usize) -> Result<(), Fault>
        ensures answer { result ≡ volume_answer self.old v tt }
        ensures after { self.new ≡ after_alter down self.old v }
    {
        self.mark(v, false)
    }

    // How many writes a volume has taken.
    pub(crate) fn taken(&self, v: usize) -> Result<u32, Fault>
        ensures { result ≡ volume_answer self.now v (record_of self.now v).taken }
    {
        let v = self.shape.index(v)?;
        Ok(self.records[v].taken)
    }
}
