// Says whether Reduce would take a tree file.
// Of standard input the first 40,009 bytes are read: one more than the longest file that is taken.
#![tactic(auto)]

use file::{Accepted, Limits};
use refusal::Refusal;
use std::fmt::Write;
use std::io::Stdout;
use streams::Printer;

fn main(rt: HostRuntime) {
    let mut input = [0u8; 40009];
    let n = streams::read_full(&mut rt.stdin(), &mut input);
    print_answer(&mut rt.stdout(), file::check(&input[..n], Limits::REDUCE));
}

// A write that fails is passed over.
fn print_answer(stdout: &mut Stdout, answer: Result<Accepted, Refusal>) {
    let mut out = Printer(stdout);
    let _ = match answer {
        Ok(Accepted { settings, count }) => {
            writeln!(out, "accepted settings {settings} records {count}")
        }
        Err(refusal) => writeln!(out, "{refusal}"),
    };
}
