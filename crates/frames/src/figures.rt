// A worked example, and the figures that go with it.
ghost use Rattle.std.specs.Prelude.{◌≡◌, ℕ};
ghost use Rattle.cells.specs.Readings.{reading_bytes};
ghost use Rattle.frames.specs.Figures.{WorkedFigures, entry_at, low_reading};
ghost use Rattle.frames.specs.Meaning.{encoded};

// The datagram of one entry: the reading −5 mm, second 60, good, at address 2 in cycle 1.
pub fn worked_datagram() -> [u8; 17]
    ensures datagram { result ≡ encoded (entry_at 1 2 (reading_bytes low_reading)) }
    ensures figures { WorkedFigures }
{
    [
        0x07, 0, 0, 0, 1, 0, 0, 0x04, 0xff, 0xff, 0xff, 0xfb, 0, 0, 0, 60, 0,
    ]
}
