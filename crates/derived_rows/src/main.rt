// For the tests: answers the Derived question for each case of standard input, a line a case.
// A case is its scopes and then its ancestors, each list a byte for its length and then its bytes. Of the input the first 131,072
// bytes are read.
#![tactic(auto)]

ghost use Rattle.std.specs.Prelude.{◌<◌, length, IfSome};
ghost use Rattle.std.specs.Iterator.{at_most};

use refusal::Refusal;
use std::fmt::Write;
use std::io::Stdout;
use streams::Printer;

fn main(rt: HostRuntime) {
    let mut input = [0u8; 131072];
    let n = streams::read_full(&mut rt.stdin(), &mut input);
    answer_cases(&mut rt.stdout(), &input[..n]);
}

fn answer_cases(stdout: &mut Stdout, input: &[u8]) {
    for (scopes, ancestors) in Cases(input) {
        print_answer(
            stdout,
            derived::derived_constructor_this_scope(scopes, ancestors),
        );
    }
}

// The cases of an input, each its scopes and its ancestors. One that has no ancestors list is cut short, and is left out.
#[derive(Drop)]
struct Cases<'a>(&'a [u8]);

impl<'a> Iterator for Cases<'a> {
    type Item = (&'a [u8], &'a [u8]);

    ghost remaining = { λ cases. at_most (length cases.0.now) };

    fn next(&mut self) -> Option<(&'a [u8], &'a [u8])> {
        let (scopes, rest) = split_list(self.0)?;
        let (ancestors, rest) = split_list(rest)?;
        self.0 = rest;
        Some((scopes, ancestors))
    }
}

// The list that stands first, and what stands behind it: of one that is cut short, what is there.
fn split_list(input: &[u8]) -> Option<(&[u8], &[u8])>
    ensures { IfSome result (λ list. length list.1.now < length input.now) }
{
    let (&count, rest) = input.split_first()?;
    Some(rest.split_at(rest.len().min(usize::from(count))))
}

// A write that fails is passed over. A word and the end of its line are one write.
fn print_answer(stdout: &mut Stdout, answer: Result<bool, Refusal>) {
    let mut out = Printer(stdout);
    let _ = match answer {
        Ok(true) => write!(out, "yes\n"),
        Ok(false) => write!(out, "no\n"),
        Err(refusal) => writeln!(out, "{refusal}"),
    };
}
