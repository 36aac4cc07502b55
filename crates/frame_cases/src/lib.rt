#![tactic(auto)]

// Examples of faults, cells and frames.
#[cfg(test)]
mod tests {
    use cells::cell::{CellRow, read_cell};
    use cells::fault::{Fault, Layer, Place, Refusal, Side};
    use cells::raw::RawBlock;
    use cells::reading::{Quality, Reading, ReadingRow};
    use frames::figures::worked_datagram;
    use frames::frame::{Entries, Frame, Held, Marker, Whole};
    use frames::reader::read;
    use frames::writer::write;
    use std::test::Fail;

    // An end that makes a reading, and passes a refusal up with its own side and cycle.
    fn reading_at(level: i32) -> Result<Reading, Fault> {
        let reading = Reading::new(level, 60, Quality::Good).at(Side::Standby, 7)?;
        Ok(reading)
    }

    #[test]
    fn a_fault_gains_its_side_and_cycle(rt: HostRuntime) -> Result<(), Fail> {
        assert!(rt; reading_at(500_000).is_ok());
        match reading_at(500_001) {
            Ok(_) => Err(Fail::new("made")),
            Err(fault) => {
                assert!(rt; u8::from(fault.refusal) == 13 && fault.layer == Layer::Cell);
                assert!(rt;
                    fault.side == Some(Side::Standby) && fault.cycle == 7 && fault.volume == None
                );
                Ok(())
            }
        }
    }

    #[test]
    fn a_group_fault_names_its_volume(rt: HostRuntime) {
        let fault = Fault::in_volume(Refusal::ReadOnly, 3).at(Side::Primary, 1);
        assert!(rt; u8::from(fault.refusal) == 6 && fault.layer == Layer::Group);
        assert!(rt; fault.volume == Some(3) && fault.side == Some(Side::Primary));
    }

    #[test]
    fn a_row_that_makes_no_reading_stands_for_zeros(rt: HostRuntime) {
        let odd = ReadingRow {
            level: 500_001,
            second: 9,
            quality: 1,
        };
        let zero = ReadingRow {
            level: 0,
            second: 0,
            quality: 0,
        };
        assert!(rt; odd.same(zero));
        assert!(rt;
            !odd.same(ReadingRow {
                level: 0,
                second: 9,
                quality: 1,
            })
        );
    }

    #[test]
    fn the_worked_datagram_is_read(rt: HostRuntime) -> Result<(), Fail> {
        let frame = read::<ReadingRow>(&worked_datagram())?;
        match &frame {
            Frame::Entries(e) => {
                assert!(rt; e.page.cycle == 1 && e.page.number == 0 && e.page.map == 4);
                assert!(rt;
                    e.cells[2].level == -5 && e.cells[2].second == 60 && e.cells[2].quality == 0
                );
                Ok(())
            }
            _ => Err(Fail::new("another frame")),
        }
    }

    #[test]
    fn a_full_page_has_136_bytes(rt: HostRuntime) -> Result<(), Fail> {
        let cells = [RawBlock { high: 1, low: 2 }; 8];
        let entries = Entries::new(1, 511, 0xff, cells)?;
        let mut out = [0xaa; 136];
        let n = write(&Frame::Entries(entries), &mut out);
        assert!(rt; n == 136 && out[8] == 0 && out[15] == 1 && out[135] == 2);
        assert!(rt; read::<RawBlock>(&out).is_ok());
        Ok(())
    }

    #[test]
    fn the_rest_of_the_buffer_is_left_alone(rt: HostRuntime) -> Result<(), Fail> {
        let whole = Whole::new(0)?;
        let mut out = [0xaa; 136];
        let n = write::<RawBlock>(&Frame::Whole(whole), &mut out);
        assert!(rt; n == 5 && out[0] == 1 && out[4] == 0 && out[5] == 0xaa && out[135] == 0xaa);
        Ok(())
    }

    #[test]
    fn a_page_is_told_by_its_addresses(rt: HostRuntime) -> Result<(), Fail> {
        let held = Held::new(7, 511, 0x81)?;
        let mut addresses = held.page.addresses();
        assert!(rt; addresses.next() == Some(4_088) && addresses.next() == Some(4_095));
        assert!(rt; addresses.next() == None);
        let text = held.to_string(rt.alloc())?;
        assert!(rt; text.as_str() == "held 7 511 4088 4095");
        Ok(())
    }

    #[test]
    fn no_frame_is_made_that_reading_would_refuse(rt: HostRuntime) {
        assert!(rt;
            Marker::new(0, 0).is_err()
                && Marker::new(1, 4_097).is_err()
                && Marker::new(1, 4_096).is_ok()
        );
        assert!(rt;
            Held::new(1, 0, 0).is_err()
                && Held::new(1, 512, 1).is_err()
                && Held::new(1, 511, 1).is_ok()
        );
        assert!(rt; Whole::new(4_294_967_295).is_err() && Whole::new(0).is_ok());
        assert!(rt; read_cell::<ReadingRow>(&[0, 0, 0, 0, 0, 0, 0, 0, 4]).is_err());
    }
}
