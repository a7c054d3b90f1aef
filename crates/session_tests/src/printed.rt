//! Printed lines: one of each kind, the longest, and buffers that are too short.
use events::LineFault;
use rules::{Fault, FaultKind, Quote, Refusal};
use session::{Grant, Held, Printed, Reported, Taken};
use std::process::Abort;
use std::test::Fail;
use text::Line;

/// A price of class 0.
const LOW: Quote = Quote {
    class: 0,
    top: 100,
    bottom: 3,
};

/// The largest numbers that a quote can have.
const LARGEST: Quote = Quote {
    class: 255,
    top: u32::MAX,
    bottom: u32::MAX,
};

/// Whether a value is printed as this line, and all behind the line stays as it was.
pub(crate) fn prints<V: Line + Drop>(rt: &impl Abort, value: V, line: &[u8]) -> Result<(), Fail> {
    let mut out = [b'#'; 128];
    let n = value.write(&mut out)?;
    assert!(rt; n <= 128);
    assert_eq!(rt; &out[..n], line);
    assert!(rt; out[n..].iter().all(|b| *b == b'#'));
    Ok(())
}

/// One line of each kind that has no price.
const PLAIN: [(Printed, &[u8]); 8] = [
    (Printed::Pool { unit: 7, frames: 3 }, b"pool 7 frames 3"),
    (Printed::Admit { client: 1 }, b"admit 1"),
    (
        Printed::Back {
            client: 2,
            frame: 4,
        },
        b"back 2 frame 4",
    ),
    (
        Printed::Leave {
            client: 3,
            frames: 1,
        },
        b"leave 3 frames 1",
    ),
    (Printed::Estimate { client: 1 }, b"estimate 1"),
    (Printed::Clock { tick: 10, ended: 1 }, b"clock 10 ended 1"),
    (
        Printed::Refused(LineFault {
            line: 9,
            refusal: Refusal::Outbid,
        }),
        b"line 9 refused 18",
    ),
    (
        Printed::Refused(LineFault {
            line: 10,
            refusal: Refusal::Malformed(Fault {
                kind: FaultKind::Number,
                column: 3,
            }),
        }),
        b"line 10 text 3 at 3",
    ),
];

#[test]
fn lines_without_a_price(rt: HostRuntime) -> Result<(), Fail> {
    for (value, line) in PLAIN {
        prints(&rt, value, line)?;
    }
    Ok(())
}

/// Grants, with and without their second part, and the longest line.
const PRICED: [(Printed, &[u8]); 3] = [
    (
        Printed::Grant(Grant {
            client: 2,
            frame: 1,
            paying: LOW,
            taken: None,
        }),
        b"grant 2 frame 1 from 0 paying 0:100/3",
    ),
    (
        Printed::Grant(Grant {
            client: 1,
            frame: 3,
            paying: Quote {
                class: 0,
                top: 300,
                bottom: 1,
            },
            taken: Some(Taken { from: 2, over: LOW }),
        }),
        b"grant 1 frame 3 from 2 paying 0:300/1 over 0:100/3",
    ),
    (
        Printed::Grant(Grant {
            client: u32::MAX,
            frame: u32::MAX,
            paying: LARGEST,
            taken: Some(Taken {
                from: u32::MAX,
                over: LARGEST,
            }),
        }),
        b"grant 4294967295 frame 4294967295 from 4294967295 paying 255:4294967295/4294967295 over 255:4294967295/4294967295",
    ),
];

/// The lines of the end report: its head, and clients with and without frames.
const REPORTED: [(Reported, &[u8]); 3] = [
    (Reported::Free { frames: 0 }, b"end free 0"),
    (
        Reported::Client {
            client: 1,
            held: Some(Held {
                frames: 3,
                price: LOW,
            }),
        },
        b"client 1 holds 3 price 0:100/3",
    ),
    (
        Reported::Client {
            client: 3,
            held: None,
        },
        b"client 3 holds 0 price -",
    ),
];

#[test]
fn lines_with_a_price(rt: HostRuntime) -> Result<(), Fail> {
    for (value, line) in PRICED {
        prints(&rt, value, line)?;
    }
    Ok(())
}

#[test]
fn lines_of_the_end_report(rt: HostRuntime) -> Result<(), Fail> {
    for (value, line) in REPORTED {
        prints(&rt, value, line)?;
    }
    Ok(())
}

#[test]
fn short_buffer_stays(rt: HostRuntime) {
    let mut out = [b'#'; 10];
    assert_eq!(rt;
        Printed::Estimate { client: 12 }.write(&mut out),
        Err(Refusal::BufferTooShort)
    );
    assert!(rt; out.iter().all(|b| *b == b'#'));
    assert_eq!(rt; Printed::Estimate { client: 1 }.write(&mut out), Ok(10));
}
