// What holds of any group, by its meaning alone: what is written is read, and two groups can be told equal.
ghost use Rattle.std.specs.Prelude.{◌≡◌, Decides};
ghost use Rattle.cells.specs.Faults.{answered};
ghost use Rattle.groups.specs.Compared.{SameAnswers, SameCells, SameShape, read_back};
ghost use Rattle.groups.specs.Meaning.{after_write, dimensions, read_answer};

use crate::group::Group;
use crate::shape::Shape;
use cells::cell::CellRow;
use cells::fault::Fault;

// Writes a cell and reads it back: it is the cell written, if the write was taken.
pub fn write_then_read<R: CellRow, G: Group<R>>(
    group: &mut G,
    v: usize,
    b: usize,
    cell: R,
) -> Result<R, Fault>
    ensures answer { answered R.CellRow.bytes result ≡ read_back (G.Group.meaning group.old) v b (R.CellRow.bytes cell) }
    ensures after { G.Group.meaning group.new ≡ after_write (G.Group.meaning group.old) v b (R.CellRow.bytes cell) }
{
    (*group).write(v, b, cell)?;
    (*group).read(v, b)
}

// Whether two groups have the same cell at a place.
fn same_at<R: CellRow, G: Group<R>, H: Group<R>>(one: &G, other: &H, v: usize, b: usize) -> bool
    ensures { Decides result (SameAnswers (read_answer (G.Group.meaning one.now) v b) (read_answer (H.Group.meaning other.now) v b)) }
{
    match (one.read(v, b), other.read(v, b)) {
        (Ok(cell), Ok(same)) => cell.same(same),
        _ => false,
    }
}

// Whether the blocks of two groups of one shape have the same cells, one by one.
fn same_cells<R: CellRow, G: Group<R>, H: Group<R>>(one: &G, other: &H, shape: Shape) -> bool
    requires { SameShape (G.Group.meaning one.now) (H.Group.meaning other.now) shape }
    ensures { Decides result ((G.Group.meaning one.now).cells ≡ (H.Group.meaning other.now).cells) }
{
    let blocks = shape.blocks;
    (0..shape.cells()).all(|a| same_at(one, other, a / blocks, a % blocks))
}

// The shape of a group.
fn shape_of<R: CellRow, G: Group<R>>(group: &G) -> Shape
    ensures { result ≡ dimensions (G.Group.meaning group.now) }
{
    Shape {
        volumes: group.volumes(),
        blocks: group.blocks(),
    }
}

// Whether two groups, of whatever types, have one shape and are equal cell by cell.
pub fn equal<R: CellRow, G: Group<R>, H: Group<R>>(one: &G, other: &H) -> bool
    ensures { Decides result (SameCells (G.Group.meaning one.now) (H.Group.meaning other.now)) }
{
    let shape = shape_of(one);
    shape == shape_of(other) && same_cells(one, other, shape)
}
