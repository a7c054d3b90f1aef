//! Event lines at their edges: what is read, what is refused and where, and what is written.
#![tactic(auto)]

#[cfg(test)]
mod tests {
    use events::{Event, EventKind, Form, LineFault, Lines, Word, at_line, read, read_input};
    use rules::{Admission, Estimate, Fault, FaultKind, Refusal};
    use std::test::Fail;
    use text::Line;

    /// Malformed lines, each with the kind and the column of its first fault.
    const FAULTS: [(&[u8], FaultKind, usize); 22] = [
        (b"", FaultKind::Letter, 1),
        (b"q 3", FaultKind::Letter, 1),
        (b" Q 3", FaultKind::Letter, 1),
        (b"\xc3\xa9", FaultKind::Letter, 1),
        (b"Q", FaultKind::Space, 2),
        (b"T", FaultKind::Space, 2),
        (b"Q3", FaultKind::Space, 2),
        (b"S 1", FaultKind::Space, 4),
        (b"S 1x2", FaultKind::Space, 4),
        (b"A 1 300 0 0", FaultKind::Space, 12),
        (b"Q ", FaultKind::Number, 3),
        (b"Q  3", FaultKind::Number, 3),
        (b"Q 00", FaultKind::Number, 3),
        (b"Q 03", FaultKind::Number, 3),
        (b"Q 4294967296", FaultKind::Number, 3),
        (b"Q 4294967296x", FaultKind::Number, 3),
        (b"E 1 2 99999999999999999999", FaultKind::Number, 7),
        (b"Q 3 ", FaultKind::Excess, 4),
        (b"Q 0x", FaultKind::Excess, 4),
        (b"Q 1\r", FaultKind::Excess, 4),
        (b"Q 1\0", FaultKind::Excess, 4),
        (b"T 5 6", FaultKind::Excess, 4),
    ];

    #[test]
    fn first_fault_of_each_line(rt: HostRuntime) {
        for (line, kind, column) in FAULTS {
            assert_eq!(rt; read(line), Err(Refusal::Malformed(Fault { kind, column })));
        }
    }

    /// One event of each kind, with its line.
    const EVENTS: [(Event, &[u8]); 9] = [
        (Event::Start { unit: 7, frames: 3 }, b"S 7 3"),
        (
            Event::Admit(Admission {
                client: 1,
                shares: 300,
                class: 0,
                minimum: 0,
                maximum: 3,
            }),
            b"A 1 300 0 0 3",
        ),
        (Event::Ask { client: 2 }, b"Q 2"),
        (Event::HandBack { client: 0 }, b"H 0"),
        (Event::Leave { client: 256 }, b"L 256"),
        (
            Event::Estimate {
                client: 2,
                estimate: Estimate { active: 1, end: 90 },
            },
            b"E 2 1 90",
        ),
        (Event::Clock { tick: u32::MAX }, b"T 4294967295"),
        (Event::Ask { client: 10 }, b"Q 10"),
        (
            Event::Admit(Admission {
                client: u32::MAX,
                shares: u32::MAX,
                class: u32::MAX,
                minimum: u32::MAX,
                maximum: u32::MAX,
            }),
            b"A 4294967295 4294967295 4294967295 4294967295 4294967295",
        ),
    ];

    #[test]
    fn events_there_and_back(rt: HostRuntime) -> Result<(), Fail> {
        for (event, line) in EVENTS {
            assert_eq!(rt; read(line), Ok(event));
            let mut out = [b'#'; 60];
            let n = event.write(&mut out)?;
            assert!(rt; n <= 60);
            assert_eq!(rt; &out[..n], line);
            assert!(rt; out[n..].iter().all(|b| *b == b'#'));
        }
        Ok(())
    }

    #[test]
    fn short_buffer_stays(rt: HostRuntime) {
        let mut out = [b'#'; 4];
        assert_eq!(rt;
            Event::Start { unit: 7, frames: 3 }.write(&mut out),
            Err(Refusal::BufferTooShort)
        );
        assert_eq!(rt; &out[..4], b"####".as_slice());
        assert_eq!(rt; Event::Ask { client: 12 }.write(&mut out), Ok(4));
        assert_eq!(rt; &out[..4], b"Q 12".as_slice());
    }

    #[test]
    fn text_of_a_word_of_ones_own(rt: HostRuntime) {
        // A word that the reader did not make has a text too, even one whose count is not that of its kind.
        let form = Form {
            kind: EventKind::Ask,
            count: 5,
        };
        let letter = Word::Letter {
            text: b"Q",
            column: 1,
            form,
        };
        assert_eq!(rt; letter.text(), b"Q".as_slice());
    }

    #[test]
    fn input_read_whole(rt: HostRuntime) -> Result<(), Fail> {
        let input = read_input(rt.alloc(), b"Q 1\nQ 2".as_slice())?;
        assert_eq!(rt; input.as_slice(), b"Q 1\nQ 2".as_slice());
        Ok(())
    }

    #[test]
    fn lines_of_an_input(rt: HostRuntime) {
        let mut lines = Lines::new(b"Q 1\n\nT 2\r\nL 3");
        assert_eq!(rt; lines.next(), Some(b"Q 1".as_slice()));
        assert_eq!(rt; lines.next(), Some(b"".as_slice()));
        assert_eq!(rt; lines.next(), Some(b"T 2\r".as_slice()));
        assert_eq!(rt; lines.next(), Some(b"L 3".as_slice()));
        assert_eq!(rt; lines.next(), None);
    }

    #[test]
    fn eighty_bytes_of_a_line(rt: HostRuntime) {
        let input = [b'x'; 81];
        let mut whole = Lines::new(&input[..80]);
        assert_eq!(rt; whole.next(), Some(&input[..80]));
        let mut cut = Lines::new(&input[..81]);
        assert_eq!(rt; cut.next(), Some(&input[..80]));
        assert_eq!(rt; cut.next(), None);
    }

    #[test]
    fn refused_line_printed(rt: HostRuntime) -> Result<(), Fail> {
        let mut out = [0; 32];
        assert_eq!(rt;
            at_line(9, read(b"H 3")).ok(),
            Some(Event::HandBack { client: 3 })
        );
        let n = match at_line(10, read(b"H 03")) {
            Ok(_) => 0,
            Err(malformed) => malformed.write(&mut out)?,
        };
        assert!(rt; n <= 32);
        assert_eq!(rt; &out[..n], b"line 10 text 3 at 3".as_slice());
        let outbid = LineFault {
            line: 9,
            refusal: Refusal::Outbid,
        };
        let m = outbid.write(&mut out)?;
        assert!(rt; m <= 32);
        assert_eq!(rt; &out[..m], b"line 9 refused 18".as_slice());
        Ok(())
    }
}
