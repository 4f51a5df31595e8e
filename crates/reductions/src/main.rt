// For the tests: reduces each tree file of standard input, and prints what is left.
// A case is the file's length in two bytes, how many bytes are lent for the answer in two more, the byte that all of these
// hold before, and the file; one that is cut short is not reduced. Printed for a case: `refused` and the number, `removable`,
// or `kept` and the length, then the rewritten file in hexadecimal, a line for its header and a line for each record. Behind
// any of them: `tail`, how many lent bytes stand behind the answer, and how many of these have changed.
// Of the input the first 655,360 bytes are read. A write that fails is passed over.
#![tactic(auto)]

use cases::{Case, Cases};
use std::fmt::Write;
use std::io::Stdout;
use streams::Printer;

// What stands before the file of a case.
const HEAD: usize = 5;

fn main(rt: HostRuntime) {
    let mut input = [0u8; 655360];
    let n = streams::read_full(&mut rt.stdin(), &mut input);
    reduce_files(&mut rt.stdout(), &input[..n]);
}

fn reduce_files(stdout: &mut Stdout, input: &[u8]) {
    for Case { head, file } in Cases::new(input, HEAD) {
        reduce_file(stdout, file, le::get16(head, 2), head[4]);
    }
}

// The array is as long as the most that two bytes can ask for.
fn reduce_file(stdout: &mut Stdout, src: &[u8], lent: u16, fill: u8) {
    let mut space = [fill; 65535];
    print_reduced(stdout, src, &mut space[..usize::from(lent)], fill);
}

fn print_reduced(stdout: &mut Stdout, src: &[u8], out: &mut [u8], fill: u8) {
    match reducer::reduce(src, out) {
        Ok(Some(length)) => {
            streams::print_number(stdout, b"kept ", length as u64);
            let (file, tail) = out.split_at(length);
            print_file(stdout, file);
            print_tail(stdout, tail, fill);
        }
        Ok(None) => {
            streams::write_all(stdout, b"removable\n");
            print_tail(stdout, out, fill);
        }
        Err(refusal) => {
            let _ = writeln!(Printer(stdout), "{refusal}");
            print_tail(stdout, out, fill);
        }
    }
}

#[tactic(auto, using(tree::specs::Room::fields_within))]
fn print_file(stdout: &mut Stdout, file: &[u8]) {
    let Some((header, records)) = file.split_at_checked(fields::HEADER_BYTES) else {
        print_bytes(stdout, file);
        return;
    };
    print_bytes(stdout, header);
    for record in records.chunks(fields::width_of(header)) {
        print_bytes(stdout, record);
    }
}

// A line of two hexadecimal digits a byte.
fn print_bytes(stdout: &mut Stdout, bytes: &[u8]) {
    for byte in bytes {
        print_byte(stdout, *byte);
    }
    streams::write_all(stdout, b"\n");
}

// Both digits in one write.
fn print_byte(stdout: &mut Stdout, byte: u8) {
    let digits = b"0123456789abcdef";
    let text = [
        digits[usize::from(byte / 16)],
        digits[usize::from(byte % 16)],
    ];
    streams::write_all(stdout, &text);
}

// The lent bytes behind the answer, and how many of them are not the byte that all of them held before.
fn print_tail(stdout: &mut Stdout, tail: &[u8], fill: u8) {
    let changed = tail.iter().filter(|byte| **byte != fill).count();
    let _ = writeln!(Printer(stdout), "tail {} {changed}", tail.len());
}
