//! Reading an input into memory.
ghost use Rattle.std.specs.Prelude.{◌≡◌, ◌≤◌, take, length, IfOk, IfSome, vec_len};

use std::alloc::Global;
use std::io;
use std::io::Read;

/// How many bytes of an input are read.
const LIMIT: usize = 16_777_216;

/// The first 16,777,216 bytes of an input, or all of them where it has no more.
///
/// Room for them is made at once, with a place more, which the last read leaves empty. A pipe, which gives less at a
/// time than is asked for, is read on to the limit or to its end.
pub fn read_input<R: Read + Drop>(alloc: Global, from: R) -> io::Result<Vec<u8>>
    ensures length { IfOk result (λ input. vec_len input ≤ 16_777_216) }
    ensures bytes { IfOk result (λ input. IfSome (R.remaining from) (λ bs. input.items ≡ take 16_777_216 bs)) }
{
    let mut input = Vec::with_capacity(alloc, LIMIT + 1)?;
    from.take(LIMIT as u64).read_to_end(&mut input)?;
    // No more came; but std promises so only of a reader whose bytes are known.
    input.truncate(LIMIT);
    Ok(input)
}
