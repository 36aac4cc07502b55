#![tactic(auto)]

// Examples of links: a queue with each fate, a latch, and an exchange over both.
#[cfg(test)]
mod tests {
    use cells::fault::{Fault, Layer};
    use links::exchange::exchange;
    use links::fate::Fate;
    use links::latch::Latch;
    use links::link::Link;
    use links::place::Place;
    use links::queue::Queue;
    use std::process::Abort;
    use std::test::Fail;

    // A datagram is told by its number: it has so many bytes, and each is that number.
    fn datagram<'a>(rt: &impl Abort, bytes: &'a [u8; 136]) -> &'a [u8] {
        let n = usize::from(bytes[0]);
        assert!(rt; n <= 136);
        &bytes[..n]
    }

    fn send<L: Link>(rt: &impl Abort, link: &mut L, number: u8) -> Result<(), Fail> {
        link.send(datagram(rt, &[number; 136]))?;
        Ok(())
    }

    // A buffer that has the datagram at its front, and is as it was behind it.
    fn shows(rt: &impl Abort, buffer: &[u8], number: u8) {
        for (i, byte) in buffer.iter().enumerate() {
            let wanted = if i < usize::from(number) {
                number
            } else {
                0xaa
            };
            assert_eq!(rt; *byte, wanted, "at {i}");
        }
    }

    // What was answered and laid into the buffer: a datagram, or nothing.
    fn came(rt: &impl Abort, answer: Option<usize>, buffer: &[u8], number: Option<u8>) {
        assert_eq!(rt; answer, number.map(usize::from));
        shows(rt, buffer, number.unwrap_or(0));
    }

    fn takes<L: Link>(rt: &impl Abort, link: &mut L, number: u8) -> Result<(), Fail> {
        let mut buffer = [0xaa; 140];
        let taken = link.take(&mut buffer)?;
        came(rt, taken, &buffer, Some(number));
        Ok(())
    }

    fn takes_nothing<L: Link>(rt: &impl Abort, link: &mut L) -> Result<(), Fail> {
        let mut buffer = [0xaa; 136];
        let taken = link.take(&mut buffer)?;
        came(rt, taken, &buffer, None);
        Ok(())
    }

    // Sends the numbers to a queue of three places, and takes out what then waits.
    fn carries(rt: &impl Abort, fates: &[u8], sent: &[u8], taken: &[u8]) -> Result<(), Fail> {
        let mut places = [Place::EMPTY; 3];
        let mut queue = Queue::over(&mut places, fates);
        for number in sent {
            send(rt, &mut queue, *number)?;
        }
        assert_eq!(rt; queue.waiting(), taken.len());
        for number in taken {
            takes(rt, &mut queue, *number)?;
        }
        takes_nothing(rt, &mut queue)
    }

    // A refusal with its number and layer, on no side, in cycle 0 and of no volume.
    fn is_refused<T: Drop>(
        rt: &impl Abort,
        answer: Result<T, Fault>,
        number: u8,
        layer: Layer,
    ) -> Result<(), Fail> {
        let Err(fault) = answer else {
            return Err(Fail::new("not refused"));
        };
        assert_eq!(rt; u8::from(fault.refusal), number);
        assert_eq!(rt; fault.layer, layer);
        assert!(rt; fault.side == None && fault.cycle == 0 && fault.volume == None);
        Ok(())
    }

    // Sends of 0 and of 137 bytes, and takes into 135.
    fn refuses<L: Link>(rt: &impl Abort, link: &mut L) -> Result<(), Fail> {
        let bytes = [7; 137];
        is_refused(rt, link.send(&bytes[..0]), 12, Layer::Frame)?;
        is_refused(rt, link.send(&bytes), 12, Layer::Frame)?;
        let mut buffer = [0xaa; 135];
        is_refused(rt, link.take(&mut buffer), 3, Layer::Link)?;
        shows(rt, &buffer, 0);
        Ok(())
    }

    #[test]
    fn delivered(rt: HostRuntime) -> Result<(), Fail> {
        carries(&rt, b"d", &[1], &[1])?;
        carries(&rt, b"dd", &[136, 2], &[136, 2])?;
        carries(&rt, b"dddd", &[1, 2, 3, 4], &[1, 2, 3])
    }

    #[test]
    fn lost(rt: HostRuntime) -> Result<(), Fail> {
        carries(&rt, b"l", &[1], &[])?;
        carries(&rt, b"dl", &[1, 2], &[1])?;
        carries(&rt, b"dddl", &[1, 2, 3, 4], &[1, 2, 3])
    }

    #[test]
    fn twice(rt: HostRuntime) -> Result<(), Fail> {
        carries(&rt, b"t", &[1], &[1, 1])?;
        carries(&rt, b"dt", &[1, 2], &[1, 2, 2])?;
        carries(&rt, b"ddt", &[1, 2, 3], &[1, 2, 3])?;
        carries(&rt, b"dddt", &[1, 2, 3, 4], &[1, 2, 3])
    }

    #[test]
    fn ahead_of_the_last_one(rt: HostRuntime) -> Result<(), Fail> {
        carries(&rt, b"h", &[1], &[1])?;
        carries(&rt, b"dh", &[1, 2], &[2, 1])?;
        carries(&rt, b"ddh", &[1, 2, 3], &[1, 3, 2])?;
        carries(&rt, b"dddh", &[1, 2, 3, 4], &[1, 2, 3])
    }

    #[test]
    fn another_letter_delivers(rt: HostRuntime) -> Result<(), Fail> {
        carries(&rt, b"x", &[1], &[1])?;
        carries(&rt, b"xH", &[1, 2], &[1, 2])?;
        carries(&rt, b"xLTx", &[1, 2, 3, 4], &[1, 2, 3])
    }

    #[test]
    fn no_letter_left_delivers(rt: HostRuntime) -> Result<(), Fail> {
        carries(&rt, b"", &[1], &[1])?;
        carries(&rt, b"l", &[1, 2, 3], &[2, 3])?;
        carries(&rt, b"", &[1, 2, 3, 4], &[1, 2, 3])
    }

    #[test]
    fn a_full_queue_uses_its_fates_up(rt: HostRuntime) -> Result<(), Fail> {
        let mut places = [Place::EMPTY; 1];
        let mut queue = Queue::over(&mut places, b"dtl");
        send(&rt, &mut queue, 1)?;
        send(&rt, &mut queue, 2)?;
        takes(&rt, &mut queue, 1)?;
        send(&rt, &mut queue, 3)?;
        assert_eq!(rt; queue.waiting(), 0);
        takes_nothing(&rt, &mut queue)
    }

    #[test]
    fn a_refused_call_alters_nothing(rt: HostRuntime) -> Result<(), Fail> {
        let mut places = [Place::EMPTY; 3];
        let mut queue = Queue::over(&mut places, b"dld");
        refuses(&rt, &mut queue)?;
        send(&rt, &mut queue, 1)?;
        refuses(&rt, &mut queue)?;
        send(&rt, &mut queue, 2)?;
        assert_eq!(rt; queue.waiting(), 1);
        takes(&rt, &mut queue, 1)?;
        takes_nothing(&rt, &mut queue)
    }

    #[test]
    fn fates_are_replaced_on_the_way(rt: HostRuntime) -> Result<(), Fail> {
        let mut places = [Place::EMPTY; 4];
        let mut queue = Queue::over(&mut places, b"dll");
        send(&rt, &mut queue, 1)?;
        queue.set_fates(b"ht");
        assert_eq!(rt; queue.waiting(), 1);
        send(&rt, &mut queue, 2)?;
        send(&rt, &mut queue, 3)?;
        takes(&rt, &mut queue, 2)?;
        takes(&rt, &mut queue, 1)?;
        takes(&rt, &mut queue, 3)?;
        takes(&rt, &mut queue, 3)?;
        takes_nothing(&rt, &mut queue)
    }

    #[test]
    fn a_queue_without_a_place_loses_all(rt: HostRuntime) -> Result<(), Fail> {
        let mut places = [Place::EMPTY; 0];
        let mut queue = Queue::over(&mut places, b"dth");
        send(&rt, &mut queue, 1)?;
        send(&rt, &mut queue, 2)?;
        send(&rt, &mut queue, 3)?;
        takes_nothing(&rt, &mut queue)
    }

    #[test]
    fn a_latch_hands_out_the_last_one_sent(rt: HostRuntime) -> Result<(), Fail> {
        let mut latch = Latch::new();
        takes_nothing(&rt, &mut latch)?;
        refuses(&rt, &mut latch)?;
        send(&rt, &mut latch, 136)?;
        takes(&rt, &mut latch, 136)?;
        takes(&rt, &mut latch, 136)?;
        refuses(&rt, &mut latch)?;
        send(&rt, &mut latch, 2)?;
        takes(&rt, &mut latch, 2)?;
        takes(&rt, &mut latch, 2)
    }

    // An exchange of a datagram, and what came.
    fn exchanges<L: Link>(
        rt: &impl Abort,
        link: &mut L,
        sent: u8,
        taken: Option<u8>,
    ) -> Result<(), Fail> {
        let mut buffer = [0xaa; 136];
        let answer = exchange(link, datagram(rt, &[sent; 136]), &mut buffer)?;
        came(rt, answer, &buffer, taken);
        Ok(())
    }

    #[test]
    fn an_exchange_over_a_queue(rt: HostRuntime) -> Result<(), Fail> {
        let mut places = [Place::EMPTY; 3];
        let mut queue = Queue::over(&mut places, b"dltdh");
        exchanges(&rt, &mut queue, 1, Some(1))?;
        exchanges(&rt, &mut queue, 2, None)?;
        exchanges(&rt, &mut queue, 3, Some(3))?;
        exchanges(&rt, &mut queue, 4, Some(3))?;
        exchanges(&rt, &mut queue, 5, Some(5))?;
        takes(&rt, &mut queue, 4)?;
        takes_nothing(&rt, &mut queue)
    }

    #[test]
    fn an_exchange_over_a_latch(rt: HostRuntime) -> Result<(), Fail> {
        let mut latch = Latch::new();
        exchanges(&rt, &mut latch, 1, Some(1))?;
        exchanges(&rt, &mut latch, 2, Some(2))?;
        takes(&rt, &mut latch, 2)
    }

    #[test]
    fn a_refused_exchange(rt: HostRuntime) -> Result<(), Fail> {
        let mut latch = Latch::default();
        let mut buffer = [0xaa; 136];
        is_refused(
            &rt,
            exchange(&mut latch, &[], &mut buffer),
            12,
            Layer::Frame,
        )?;
        takes_nothing(&rt, &mut latch)?;
        let refused = exchange(&mut latch, &[1], &mut buffer[..135]);
        is_refused(&rt, refused, 3, Layer::Link)?;
        shows(&rt, &buffer, 0);
        takes(&rt, &mut latch, 1)
    }

    #[test]
    fn fates_by_their_letters(rt: HostRuntime) {
        assert_eq!(rt; Fate::from(b'd'), Fate::Delivered);
        assert_eq!(rt; Fate::from(b'l'), Fate::Lost);
        assert_eq!(rt; Fate::from(b't'), Fate::Twice);
        assert_eq!(rt; Fate::from(b'h'), Fate::Hurried);
        assert_eq!(rt; Fate::from(b'H'), Fate::Delivered);
    }
}
