// For the tests: checks each tree file of standard input under Reduce's limits and under List effects', a line a file.
// A file stands behind its length in two bytes; one that is cut short is not checked. At most 65,536 files are read.
#![tactic(auto)]

use file::{Accepted, Limits};
use refusal::Refusal;
use std::fmt::Write;
use std::io::{Stdin, Stdout};
use streams::Printer;

// The longest file that two bytes can ask for.
const LONGEST: usize = 65535;

fn main(rt: HostRuntime) {
    let mut stdin = rt.stdin();
    let mut stdout = rt.stdout();
    let mut input = [0u8; LONGEST];
    for _ in 0..65536 {
        let Some(file) = next_file(&mut stdin, &mut input) else {
            return;
        };
        check_file(&mut stdout, file);
    }
}

// The next file, which is read into input; none where the input ends before.
fn next_file<'a>(stdin: &mut Stdin, input: &'a mut [u8; LONGEST]) -> Option<&'a [u8]> {
    let mut length = [0u8; 2];
    if streams::read_full(stdin, &mut length) < 2 {
        return None;
    }
    let file = &mut input[..usize::from(u16::from_le_bytes(length))];
    if streams::read_full(stdin, file) < file.len() {
        return None;
    }
    Some(file)
}

fn check_file(stdout: &mut Stdout, src: &[u8]) {
    print_answer(stdout, file::check(src, Limits::REDUCE));
    streams::write_all(stdout, b" ");
    print_answer(stdout, file::check(src, Limits::LIST_EFFECTS));
    streams::write_all(stdout, b"\n");
}

// A write that fails is passed over.
fn print_answer(stdout: &mut Stdout, answer: Result<Accepted, Refusal>) {
    let mut out = Printer(stdout);
    let _ = match answer {
        Ok(Accepted { settings, count }) => write!(out, "{settings}/{count}"),
        Err(refusal) => write!(out, "{}", refusal.number()),
    };
}
