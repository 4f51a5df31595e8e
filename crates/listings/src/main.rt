// For the tests: lists the effects of each tree file of standard input. A file stands behind its length in two bytes.
// Printed for a file: `count` and how many effects it has, then a line for each, place/kind/coercion;
// or `refused` and the number. A file that is cut short is not listed. Of the input the first 655,360 bytes are read.
// A write that fails is passed over.
#![tactic(auto)]

use cases::Cases;
use std::fmt::Write;
use std::io::Stdout;
use streams::Printer;

// Twice the 3,999 records that a file has at most: enough for any file, so that none is refused with 10.
const ENTRIES: usize = 7998;

// What stands before the file of a case: its length alone.
const HEAD: usize = 2;

fn main(rt: HostRuntime) {
    let mut input = [0u8; 655360];
    let n = streams::read_full(&mut rt.stdin(), &mut input);
    list_files(&mut rt.stdout(), &input[..n]);
}

fn list_files(stdout: &mut Stdout, input: &[u8]) {
    for case in Cases::new(input, HEAD) {
        print_effects(stdout, case.file);
    }
}

fn print_effects(stdout: &mut Stdout, src: &[u8]) {
    let mut entries = [0u64; ENTRIES];
    match effects::list_effects(src, &mut entries) {
        Ok(count) => {
            streams::print_number(stdout, b"count ", count as u64);
            for entry in &entries[..count] {
                print_entry(stdout, *entry);
            }
        }
        Err(refusal) => {
            let _ = writeln!(Printer(stdout), "{refusal}");
        }
    }
}

fn print_entry(stdout: &mut Stdout, entry: u64) {
    let _ = writeln!(
        Printer(stdout),
        "{}/{}/{}",
        entry / 512,
        entry / 2 % 256,
        entry % 2
    );
}
