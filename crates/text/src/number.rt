//! Numbers, as texts write them.
ghost use Rattle.text.specs.PlainNumbers.{ReadsPlainly};

/// The number that some bytes write in plain decimal: digits alone, with no zero in front of others, and of at most
/// 32 bits. `plain_number(b"30")` is 30; there is none for `b""`, `b"03"`, `b"+3"` and `b"4294967296"`.
#[tactic(auto, using(crate::proofs::PlainNumbers::plain))]
pub fn plain_number(bytes: &[u8]) -> Option<u32>
    ensures { ReadsPlainly bytes.now result }
{
    if matches!(bytes, [] | [b'0', _, ..]) {
        return None;
    }
    if bytes.len() > 10 {
        return None;
    }
    // A loop: std's `parse` made `check_lines` a quarter slower, and nothing was proved of the `None` of a `try_fold`.
    let mut number: u64 = 0;
    for b in bytes {
        if !b.is_ascii_digit() {
            return None;
        }
        number = number * 10 + (*b - b'0') as u64;
    }
    u32::try_from(number).ok()
}
