// For the tests: reduces each tree file of a list of the published Rust's answers, and counts what differs.
// Standard input is differential/fixed/answers.bin: `UXTL` and how many cases there are in four bytes, then for each case the
// file and the answer, either behind its length in four bytes; an answer of no byte stands for removable. Printed: `differs`
// and its number, from 1 on, for each case that is reduced to something else; then `cases` and how many were compared, and
// `different` and how many of them differ; or `no list` where the mark is another. Of the input the first 655,360 bytes are read.
#![tactic(auto)]

ghost use Rattle.std.specs.Prelude.{length};
ghost use Rattle.std.specs.Iterator.{at_most};

use std::io::Stdout;

// What stands before the first case.
const HEAD: usize = 8;

fn main(rt: HostRuntime) {
    let mut input = [0u8; 655360];
    let n = streams::read_full(&mut rt.stdin(), &mut input);
    replay_list(&mut rt.stdout(), &input[..n]);
}

fn replay_list(stdout: &mut Stdout, input: &[u8]) {
    if let Some((head, list)) = input.split_at_checked(HEAD)
        && head.starts_with(b"UXTL")
    {
        replay_cases(stdout, list);
    } else {
        streams::write_all(stdout, b"no list\n");
    }
}

fn replay_cases(stdout: &mut Stdout, list: &[u8]) {
    let mut cases = 0;
    let mut different = 0;
    for (file, answer) in Answered(list) {
        cases += 1;
        if !reduces_to(file, answer) {
            streams::print_number(stdout, b"differs ", cases);
            different += 1;
        }
    }
    streams::print_number(stdout, b"cases ", cases);
    streams::print_number(stdout, b"different ", different);
}

// The cases of a list, each a file and its answer, up to the first that is cut short.
#[derive(Drop)]
struct Answered<'a>(&'a [u8]);

impl<'a> Iterator for Answered<'a> {
    type Item = (&'a [u8], &'a [u8]);

    ghost remaining = { λ list. at_most (length list.0.now) };

    fn next(&mut self) -> Option<(&'a [u8], &'a [u8])> {
        let (file, rest) = cases::next_part(self.0)?;
        let (answer, rest) = cases::next_part(rest)?;
        self.0 = rest;
        Some((file, answer))
    }
}

// The array has room for what any file that is taken is reduced to.
fn reduces_to(src: &[u8], answer: &[u8]) -> bool {
    let mut out = [0u8; reducer::MOST_OUTPUT];
    match reducer::reduce(src, &mut out) {
        Ok(Some(length)) => &out[..length] == answer,
        Ok(None) => answer.is_empty(),
        Err(_) => false,
    }
}
