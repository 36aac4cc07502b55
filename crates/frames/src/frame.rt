// Frames, one to a datagram. None can be made that reading would refuse.
ghost use Rattle.std.specs.Prelude.{◌≡◌, ℕ, ◌<◌, ◌≤◌, length};

// One page of a cycle's delta set, with one or more of its addresses: bit i of the map says whether the address
// 8 × number + i is among them.
#[derive(Clone, Copy, PartialEq, Eq, Debug)]
pub struct Page {
    pub cycle: u32,
    pub number: u16,
    pub map: u8,
    ghost numbered: { (1 ≤ cycle) × (cycle < 4294967295) },
    ghost paged: { number ≤ 511 },
    ghost some: { (1 ≤ map) × (map < 256) },
}

// Entries of the addresses of a page: `cells[i]` for bit i. There are eight rows whatever the map says, in memory of a fixed
// size. Those whose bit is down mean nothing, so entries have no `==`, which would compare those too.
#[derive(Debug, Drop)]
pub struct Entries<R> {
    pub page: Page,
    pub cells: [R; 8],
    ghost eight: { length cells ≡ 8 },
}

// The end of a cycle's delta set: how many entries it has.
#[derive(Clone, Copy, PartialEq, Eq, Debug)]
pub struct Marker {
    pub cycle: u32,
    pub count: u16,
    ghost numbered: { (1 ≤ cycle) × (cycle < 4294967295) },
    ghost counted: { count ≤ 4096 },
}

// The addresses of a page that the standby holds.
#[derive(Clone, Copy, PartialEq, Eq, Debug)]
pub struct Held {
    pub page: Page,
}

// The standby holds the cycle's delta set whole. Cycle 0 is that of a standby that has none yet.
#[derive(Clone, Copy, PartialEq, Eq, Debug)]
pub struct Whole {
    pub cycle: u32,
    ghost numbered: { cycle < 4294967295 },
}

#[derive(Debug, Drop)]
pub enum Frame<R> {
    Entries(Entries<R>),
    Marker(Marker),
    Held(Held),
    Whole(Whole),
}
