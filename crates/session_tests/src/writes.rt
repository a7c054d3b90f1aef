//! How many writes a line takes.
use price::SharePrice;
use session::print_input;
use std::io;
use std::io::Write;
use std::test::Fail;

/// A writer that counts its writes, and those of them that do not end with a newline.
#[derive(Drop)]
struct Writes {
    all: u32,
    within_a_line: u32,
}

impl Write for Writes {
    fn write(&mut self, bytes: &[u8]) -> io::Result<usize> {
        self.all = self.all.saturating_add(1);
        if bytes.last() != Some(&b'\n') {
            self.within_a_line = self.within_a_line.saturating_add(1);
        }
        Ok(bytes.len())
    }

    fn flush(&mut self) -> io::Result<()> {
        Ok(())
    }
}

/// Each line is handed on with its newline, so that a buffer sends none off before its newline.
#[test]
fn each_line_takes_one_write(rt: HostRuntime) -> Result<(), Fail> {
    let mut out = Writes {
        all: 0,
        within_a_line: 0,
    };
    print_input(SharePrice, b"S 7 1\nA 1 300 2 0 1\nQ 1\nQ 01", &mut out)?;
    assert_eq!(rt; out.all, 6);
    assert_eq!(rt; out.within_a_line, 0);
    Ok(())
}
