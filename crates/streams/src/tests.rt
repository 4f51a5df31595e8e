// A read and a write that fail in the midst: no clause says what is answered then.
ghost use Rattle.std.specs.Prelude.{◌≡◌, IfOk};

use super::*;
use std::io::{Error, ErrorKind, Result};
use std::test::Fail;

// Gives or takes one byte a call, and fails once `left` are moved.
#[derive(Drop)]
struct FailsAfter {
    left: u8,
}

impl FailsAfter {
    fn moved(&mut self) -> Result<usize>
        ensures { IfOk result (λ n. n ≡ 1) }
    {
        if self.left == 0 {
            return Err(Error::from(ErrorKind::Other));
        }
        self.left -= 1;
        Ok(1)
    }
}

impl Read for FailsAfter {
    fn read(&mut self, buf: &mut [u8]) -> Result<usize> {
        if buf.is_empty() {
            return Ok(0);
        }
        buf[0] = self.left;
        self.moved()
    }
}

impl Write for FailsAfter {
    fn write(&mut self, buf: &[u8]) -> Result<usize> {
        if buf.is_empty() {
            return Ok(0);
        }
        self.moved()
    }

    fn flush(&mut self) -> Result<()> {
        Ok(())
    }
}

// Takes all that it is given, but at its first call.
#[derive(Drop)]
struct FailsFirst {
    calls: u8,
}

impl Write for FailsFirst {
    fn write(&mut self, buf: &[u8]) -> Result<usize> {
        self.calls = self.calls.saturating_add(1);
        if self.calls == 1 {
            return Err(Error::from(ErrorKind::Other));
        }
        Ok(buf.len())
    }

    fn flush(&mut self) -> Result<()> {
        Ok(())
    }
}

#[test]
fn a_read_that_fails_ends_the_input(rt: HostRuntime) {
    let mut buf = [9u8; 5];
    assert_eq!(rt; read_full(&mut FailsAfter { left: 3 }, &mut buf), 3);
    assert_eq!(rt; buf, [3, 2, 1, 0, 9]);
}

#[test]
fn a_write_that_fails_is_told(rt: HostRuntime) {
    let mut writer = FailsAfter { left: 7 };
    assert!(rt; write_all(&mut writer, b"uxt"));
    assert!(rt; print_decimal(&mut writer, 120));
    assert!(rt; !write_all(&mut writer, b"uxt"));
    assert!(rt; write_all(&mut writer, b""));
}

#[test]
fn a_line_goes_on_behind_a_write_that_fails(rt: HostRuntime) {
    let mut writer = FailsFirst { calls: 0 };
    assert!(rt; !print_number(&mut writer, b"count ", 12));
    assert_eq!(rt; writer.calls, 3);
    assert!(rt; print_number(&mut writer, b"count ", 12));
}

#[test]
fn a_printer_goes_on_behind_a_write_that_fails(rt: HostRuntime) {
    let mut writer = FailsFirst { calls: 0 };
    assert!(rt;
        fmt::Write::write_fmt(&mut Printer(&mut writer), format_args!("count {}\n", 12)).is_ok()
    );
    assert_eq!(rt; writer.calls, 3);
}

#[test]
fn numbers_are_printed(rt: HostRuntime) -> std::result::Result<(), Fail> {
    let mut text = Vec::new(rt.alloc());
    for number in [0, 7, 10, u64::MAX] {
        assert!(rt; print_decimal(&mut text, number));
        assert!(rt; write_all(&mut text, b"/"));
    }
    assert_eq!(rt; text.as_slice(), &b"0/7/10/18446744073709551615/"[..]);
    Ok(())
}
