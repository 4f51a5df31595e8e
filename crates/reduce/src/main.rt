// Writes what Reduce leaves of a tree file: one tree file, or nothing; a refusal on standard error.
// Of standard input the first 40,009 bytes are read: one more than the longest file that is taken.
// A write that fails is passed over.
#![tactic(auto)]

use std::fmt::Write;
use streams::Printer;

fn main(rt: HostRuntime) {
    let mut input = [0u8; 40009];
    let n = streams::read_full(&mut rt.stdin(), &mut input);
    let mut left = [0u8; reducer::MOST_OUTPUT];
    match reducer::reduce(&input[..n], &mut left) {
        Ok(Some(length)) => {
            streams::write_all(&mut rt.stdout(), &left[..length]);
        }
        Ok(None) => {}
        Err(refusal) => {
            let _ = writeln!(Printer(&mut rt.stderr()), "{refusal}");
        }
    }
}
