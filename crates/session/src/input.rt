//! A whole input: performed on a new broker, and printed.
ghost use Rattle.rules.specs.Prices.{share, taxed, classed};
ghost use Rattle.session.specs.Input.{PrintedUnder, Served};
ghost use Rattle.std.specs.Prelude.{IfOk, OnOk};

use crate::session::Session;
use events::read_input;
use price::{ClassPrice, Price, SharePrice, TaxedPrice};
use std::alloc::Global;
use std::io;
use std::io::{BufWriter, Read, Write};

/// The tax of `class_broker` on idle frames, in per cent.
const RATE: u32 = 75;

/// Performs an input on a new broker under a price, and prints what comes of each line, and then the end report.
///
/// Returns the session as the input leaves it, or the first error of writing.
pub fn print_input<P: Price + Drop, W: Write>(
    price: P,
    input: &[u8],
    out: &mut W,
) -> io::Result<Session<P>>
    ensures { IfOk result (PrintedUnder price input.now (W.contents out.old) (W.contents out.new)) }
{
    let mut session = Session::new(price);
    session.print_lines(input, out)?;
    session.print_report(out)?;
    Ok(session)
}

/// Reads the first 16,777,216 bytes of an input, performs them on a new broker under a price, and prints what comes of
/// each line, and then the end report, down to the writer below the buffer.
///
/// Returns the first error of reading or writing.
pub fn serve<P: Price + Drop, R: Read + Drop, W: Write + Drop>(
    price: P,
    alloc: Global,
    from: R,
    out: &mut BufWriter<W>,
) -> io::Result<()>
    ensures served { OnOk result (Served (P.Price.meaning price) (R.remaining from) W.contents out.old out.new) }
{
    let input = read_input(alloc, from)?;
    let _session = print_input(price, &input, out)?;
    out.flush()
}

/// The program `share_broker`: `serve` under the share price.
pub fn serve_by_shares<R: Read + Drop, W: Write + Drop>(
    alloc: Global,
    from: R,
    out: &mut BufWriter<W>,
) -> io::Result<()>
    ensures { OnOk result (Served share (R.remaining from) W.contents out.old out.new) }
{
    serve(SharePrice, alloc, from, out)
}

/// The program `class_broker`: `serve` under the class price over the taxed price at 75.
pub fn serve_by_class<R: Read + Drop, W: Write + Drop>(
    alloc: Global,
    from: R,
    out: &mut BufWriter<W>,
) -> io::Result<()>
    ensures { OnOk result (Served (classed (taxed 75)) (R.remaining from) W.contents out.old out.new) }
{
    let taxed = TaxedPrice::new(RATE).unwrap();
    serve(ClassPrice::new(taxed), alloc, from, out)
}
