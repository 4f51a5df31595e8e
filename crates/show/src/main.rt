// Shows a tree file in words, a line a record.
// docs/SHOW.md has the words. Of a file that List effects would refuse only `refused` and the number are printed.
// Of standard input the first 79,989 bytes are read: one more than the longest file that is taken.
#![tactic(auto)]

mod out;
mod words;

ghost use Rattle.std.specs.Prelude.{◌≤◌, length};
ghost use Rattle.tree.specs.Tree.{All};
ghost use Rattle.tree.specs.Layout.{header_bytes};
ghost use Rattle.readings.specs.View.{left};
ghost use Rattle.show.specs.Shown.{HasKind, Shown};

use fields::{Kind, Record};
use file::{Accepted, Limits};
use out::Out;
use readings::Trees;

fn main(rt: HostRuntime) {
    let mut input = [0u8; 79989];
    let n = streams::read_full(&mut rt.stdin(), &mut input);
    let mut bytes = [0; 65536];
    let mut out = Out::new(&mut bytes, rt.stdout());
    print_file(&input[..n], &mut out);
    out.flush();
}

fn print_file(src: &[u8], out: &mut Out<'_>) {
    match file::check(src, Limits::LIST_EFFECTS) {
        Err(refusal) => {
            out.put_number("refused ", u32::from(refusal.number()));
            out.put("\n");
        }
        Ok(Accepted { settings, count }) => {
            print_header(src, settings, out);
            let root = Trees {
                src,
                at: 0,
                end: count,
            };
            print_trees(root, 0, out);
        }
    }
}

// A version whose records have an end is 2, and any other that is accepted 1.
fn print_header(src: &[u8], settings: u8, out: &mut Out<'_>)
    requires { header_bytes ≤ length src.now }
{
    out.put(if fields::has_ends(src) {
        "uxt 2"
    } else {
        "uxt 1"
    });
    out.put_flags(settings, &words::SETTINGS);
    out.put("\n");
}

// Trees that are so many levels under the root. It calls itself as deep as they are; siblings are walked by the loop.
fn print_trees(trees: Trees<'_>, level: usize, out: &mut Out<'_>)
    requires { All (Shown level) (left trees) }
{
    for node in trees {
        print_record(node.record, level, out);
        print_trees(node.children(), level + 1, out);
    }
}

fn print_record(node: Record<'_>, level: usize, out: &mut Out<'_>)
    requires { HasKind node }
{
    let kind = Kind::try_from(node.kind()).unwrap();
    for _ in 0..level {
        out.put("  ");
    }
    out.put(words::word(kind));
    words::put_sub(kind, node.sub(), out);
    out.put_flags(node.facts(), &words::FACTS);
    out.put_number(" text ", node.text());
    let place = node.place();
    out.put_number(" place ", place.start);
    if fields::has_ends(node.src) {
        out.put_number("..", place.end);
    }
    out.put("\n");
}
