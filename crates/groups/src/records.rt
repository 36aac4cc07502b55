// Records of a sparse group.

// An address and the row of its cell.
#[derive(Clone, Copy)]
pub struct Record<R> {
    pub address: u16,
    pub cell: R,
}
