//! Runs of whole inputs.
use crate::printed::prints;
use price::{ClassPrice, Price, SharePrice, TaxedPrice};
use session::{Session, print_input, serve_by_class, serve_by_shares};
use std::alloc::Global;
use std::io::BufWriter;
use std::process::Abort;
use std::test::Fail;

/// Whether this is printed of an input under a price.
fn input_prints<P: Price + Drop>(
    rt: &impl Abort,
    alloc: Global,
    price: P,
    input: &[u8],
    lines: &[u8],
) -> Result<(), Fail> {
    let mut out = Vec::new(alloc);
    print_input(price, input, &mut out)?;
    assert_eq!(rt; out.as_slice(), lines);
    Ok(())
}

#[test]
fn empty_input(rt: HostRuntime) -> Result<(), Fail> {
    input_prints(&rt, rt.alloc(), SharePrice, b"", b"end free 0\n")
}

/// An input is read, performed and printed whole, down to the writer below the buffer, under the price of each program.
#[test]
fn inputs_are_served(rt: HostRuntime) -> Result<(), Fail> {
    let input: &[u8] = b"S 7 1\nA 1 300 2 0 1\nQ 1";
    let by_shares: &[u8] = b"pool 7 frames 1\n\
          admit 1\n\
          grant 1 frame 1 from 0 paying 0:300/1\n\
          end free 0\n\
          client 1 holds 1 price 0:300/1\n";
    let by_class: &[u8] = b"pool 7 frames 1\n\
          admit 1\n\
          grant 1 frame 1 from 0 paying 2:7500/25\n\
          end free 0\n\
          client 1 holds 1 price 2:7500/25\n";
    let mut out = BufWriter::new(rt.alloc(), Vec::new(rt.alloc()))?;
    serve_by_shares(rt.alloc(), input, &mut out)?;
    assert_eq!(rt; out.get_ref().as_slice(), by_shares);
    let mut out = BufWriter::new(rt.alloc(), Vec::new(rt.alloc()))?;
    serve_by_class(rt.alloc(), input, &mut out)?;
    assert_eq!(rt; out.get_ref().as_slice(), by_class);
    Ok(())
}

/// A frame is taken from the lowest payer, which is told with its price before the loss; the last ask is outbid.
#[test]
fn frames_taken_under_the_share_price(rt: HostRuntime) -> Result<(), Fail> {
    input_prints(
        &rt,
        rt.alloc(),
        SharePrice,
        b"S 7 2\nA 1 300 0 0 2\nA 2 100 0 1 2\nQ 2\nQ 2\nQ 1\nQ 1\nH 03",
        b"pool 7 frames 2\n\
          admit 1\n\
          admit 2\n\
          grant 2 frame 1 from 0 paying 0:100/1\n\
          grant 2 frame 2 from 0 paying 0:100/2\n\
          grant 1 frame 2 from 2 paying 0:300/1 over 0:100/2\n\
          line 7 refused 18\n\
          line 8 text 3 at 3\n\
          end free 0\n\
          client 1 holds 1 price 0:300/1\n\
          client 2 holds 1 price 0:100/1\n",
    )
}

/// A client below its minimum takes a frame outright, and pays less than the one it takes it from.
#[test]
fn below_its_minimum_nothing_is_compared(rt: HostRuntime) -> Result<(), Fail> {
    input_prints(
        &rt,
        rt.alloc(),
        SharePrice,
        b"S 1 1\nA 256 1000000 0 0 1\nA 1 1 0 1 1\nQ 256\nQ 1\n",
        b"pool 1 frames 1\n\
          admit 256\n\
          admit 1\n\
          grant 256 frame 1 from 0 paying 0:1000000/1\n\
          grant 1 frame 1 from 256 paying 0:1/1 over 0:1000000/1\n\
          end free 0\n\
          client 1 holds 1 price 0:1/1\n\
          client 256 holds 0 price -\n",
    )
}

#[test]
fn estimates_end_under_the_class_price(rt: HostRuntime) -> Result<(), Fail> {
    input_prints(
        &rt,
        rt.alloc(),
        ClassPrice::new(TaxedPrice::new(75)?),
        b"S 12 4\nA 1 100 3 0 4\nE 1 1 10\nQ 1\nQ 1\nT 10\nH 1\nL 1\n\n",
        b"pool 12 frames 4\n\
          admit 1\n\
          estimate 1\n\
          grant 1 frame 1 from 0 paying 3:2500/25\n\
          grant 1 frame 2 from 0 paying 3:2500/125\n\
          clock 10 ended 1\n\
          back 1 frame 2\n\
          leave 1 frames 1\n\
          line 9 text 1 at 1\n\
          end free 4\n",
    )
}

/// A line is told with the number that it is given.
#[test]
fn lines_by_number(rt: HostRuntime) -> Result<(), Fail> {
    let mut session = Session::new(SharePrice);
    prints(
        &rt,
        session.line(u64::MAX, b"Q 300"),
        b"line 18446744073709551615 refused 2",
    )?;
    prints(
        &rt,
        session.line(1, b"T 4294967295"),
        b"clock 4294967295 ended 0",
    )?;
    prints(&rt, session.line(2, b"T 0"), b"line 2 refused 22")
}

/// Where printing fails, the line that was to be printed has been performed, and those behind it have not.
#[test]
fn printing_fails(rt: HostRuntime) -> Result<(), Fail> {
    let mut session = Session::new(SharePrice);
    let mut room = [0u8; 20];
    let mut out = &mut room[..];
    assert!(rt;
        session
            .print_lines(b"S 7 2\nA 1 300 0 0 2\nQ 1\n", &mut out)
            .is_err()
    );
    prints(
        &rt,
        session.line(3, b"Q 1"),
        b"grant 1 frame 1 from 0 paying 0:300/1",
    )
}
