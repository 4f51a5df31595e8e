// What the programs read and write: an input up to a limit, whole slices, and numbers in decimal.
// A read that fails ends the input, and a write that fails is told by a bool: a program answers, and the command `uxt` sees to the rest
// (docs/DECISIONS.md).
#![tactic(auto)]

ghost use Rattle.std.specs.Prelude.{◌≡◌, ◌++◌, IsOk, take, true, codes, decimal};
ghost use Rattle.std.specs.Io.KnownBytes.{Appends, Consumes};
ghost use Rattle.streams.specs.Filled.{Filled};
ghost use Rattle.streams.specs.Front.{AppendsFront, AppendsFronts};

use itoa::Buffer;
use std::fmt;
use std::io::{Read, Write};

// Reads until the buffer is full, the input ends or a read fails, and returns how many bytes stand at the front of the buffer then. Of
// the input no more is read, and of an empty buffer nothing is asked.
pub fn read_full<R: Read>(reader: &mut R, buf: &mut [u8]) -> usize
    ensures within { Filled result buf.new }
    ensures bytes { Consumes (R.remaining reader.old) (R.remaining reader.new) (take result buf.new) }
{
    let mut done = 0;
    while done < buf.len() {
        match reader.read(&mut buf[done..]) {
            Ok(0) | Err(_) => return done,
            Ok(n) => done += n,
        }
    }
    done
}

// Writes all of the bytes and returns true, or stops at the first write that takes nothing or fails and returns false, when the front of
// them may be written.
pub fn write_all<W: Write>(writer: &mut W, bytes: &[u8]) -> bool
    ensures all { result ≡ true → Appends (W.contents writer.old) (W.contents writer.new) bytes.now }
    ensures front { AppendsFront (W.contents writer.old) (W.contents writer.new) bytes.now }
{
    let mut rest = bytes;
    while !rest.is_empty() {
        match writer.write(rest) {
            Ok(0) | Err(_) => return false,
            Ok(n) => rest = &rest[n..],
        }
    }
    true
}

// Writes a number in decimal, and returns what `write_all` does.
pub fn print_decimal<W: Write>(writer: &mut W, number: u64) -> bool
    ensures all { result ≡ true → Appends (W.contents writer.old) (W.contents writer.new) (decimal number) }
    ensures front { AppendsFront (W.contents writer.old) (W.contents writer.new) (decimal number) }
{
    let mut digits = Buffer::new();
    write_all(writer, digits.format(number).as_bytes())
}

// Writes a word, a number in decimal and the end of the line, each of them also where one before it was not written whole, and returns
// whether all of them were.
pub fn print_number<W: Write>(writer: &mut W, word: &[u8], number: u64) -> bool
    ensures all { result ≡ true → Appends (W.contents writer.old) (W.contents writer.new) (word.now ++ decimal number ++ codes "\n") }
    ensures fronts { AppendsFronts (W.contents writer.old) (W.contents writer.new) word.now (decimal number) (codes "\n") }
{
    write_all(writer, word) & print_decimal(writer, number) & write_all(writer, b"\n")
}

// Takes the pieces of a `write!`, each of them also where one before it was not written whole: that is passed over.
#[derive(Drop)]
pub struct Printer<'a, W>(pub &'a mut W);

impl<W: Write> fmt::Write for Printer<'_, W> {
    ghost write_str_gives = { λ old piece new. (new.0.ghost_name ≡ old.0.ghost_name)
        × AppendsFront (W.contents old.0.now) (W.contents new.0.now) piece };

    fn write_str(&mut self, piece: &str) -> fmt::Result
        ensures front { (self.new.0.ghost_name ≡ self.old.0.ghost_name)
            × AppendsFront (W.contents self.old.0.now) (W.contents self.new.0.now) piece.now }
        ensures ok { IsOk result }
    {
        write_all(self.0, piece.as_bytes());
        Ok(())
    }
}

#[cfg(test)]
mod tests;
