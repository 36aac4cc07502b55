// A group that is borrowed is a group, so that groups can be stacked on one another.
ghost use Rattle.std.specs.Prelude.{◌≡◌};

use crate::group::Group;
use cells::cell::CellRow;
use cells::fault::Fault;

impl<'b, R: CellRow, G: Group<R>> Group<R> for &'b mut G {
    ghost meaning = { λ s. G.Group.meaning s.now };

    ghost lawful = { λ s. G.Group.lawful s.now };

    fn volumes(&self) -> usize {
        (**self).volumes()
    }

    fn blocks(&self) -> usize {
        (**self).blocks()
    }

    fn read(&self, v: usize, b: usize) -> Result<R, Fault> {
        (**self).read(v, b)
    }

    fn write(&mut self, v: usize, b: usize, cell: R) -> Result<(), Fault> {
        (**self).write(v, b, cell)
    }

    fn remount(&mut self, v: usize) -> Result<(), Fault> {
        (**self).remount(v)
    }

    ghost celled = { λ s. G.Group.celled s.now };
}
