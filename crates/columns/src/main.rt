// Prints the effects of a tree file before and after Reduce, in two columns.
// Of standard input the first 32,009 bytes are read: one more than the longest file that is taken, which is one of version 1. two_columns
// has the text.
#![tactic(auto)]

fn main(rt: HostRuntime) {
    let mut input = [0u8; 32009];
    let n = streams::read_full(&mut rt.stdin(), &mut input);
    let mut text = two_columns::Text::new();
    two_columns::write_columns(&input[..n], &mut text);
    streams::write_all(&mut rt.stdout(), text.as_bytes());
}
