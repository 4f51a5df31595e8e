// Reduce: what is left of a tree file's expression once its value is not used.
#![tactic(auto)]

mod close;
mod expression;
mod header;
mod walk;

ghost use Rattle.std.specs.Prelude.{◌≡◌, ◌≤◌, length};
ghost use Rattle.tree.specs.Layout.{version_in};
ghost use Rattle.reducer.specs.Answer.{least_output, most_output, Answers};
ghost use Rattle.reducer.specs.Run.{GivenFile};

use crate::expression::Reduction;
use fields::Record;
use file::{Accepted, Limits};
use readings::{Node, Settings};
use refusal::Refusal;

// The output that any file's answer fits: a file of 3,999 records of version 2, which 2,000 may become.
pub const MOST_OUTPUT: usize = 79988;

// Reduces the tree file src into out. The value is the length of the rewritten file: the first bytes of the output are it, and no other
// byte has changed. There is none where nothing is left, and no byte has changed then. An error is the first refusal that applies, and
// no byte has changed either.
#[tactic(auto, using(crate::proofs::Early::short_number))]
pub fn reduce(src: &[u8], out: &mut [u8]) -> Result<Option<usize>, Refusal>
    ensures { Answers src.now out.old out.new result }
{
    let header = file::check(src, Limits::REDUCE)?;
    let least = fields::file_length(src, 2 * header.count - 1);
    if out.len() < least {
        return Err(Refusal::Output);
    }
    Ok(reduce_by_size(src, header, least, out))
}

// What is left is worked out in a buffer of its own, since a list may turn out shorter than the records left free for it, and then
// copied. The buffer is the smallest of three that has room: to fill the largest would cost a small tree more than its reduction. Of
// version 1 they have room for 63, 511 and 3,999 records and more, which 32, 256 and 2,000 may become.
fn reduce_by_size(src: &[u8], header: Accepted, least: usize, out: &mut [u8]) -> Option<usize>
    requires { GivenFile src.now header.count header.settings out.old × (least ≡ least_output (version_in src.now) header.count) }
    ensures { Answers src.now out.old out.new (Ok result) }
{
    match least {
        ..=1016 => reduce_within::<1016>(src, header, out),
        ..=8184 => reduce_within::<8184>(src, header, out),
        _ => reduce_within::<MOST_OUTPUT>(src, header, out),
    }
}

// In a buffer of N bytes.
fn reduce_within<const N: usize>(src: &[u8], header: Accepted, out: &mut [u8]) -> Option<usize>
    requires { GivenFile src.now header.count header.settings out.old × (least_output (version_in src.now) header.count ≤ N) × (N ≤ most_output) }
    ensures { Answers src.now out.old out.new (Ok result) }
{
    let mut work = [0u8; N];
    reduce_in(src, header, &mut work, out)
}

fn reduce_in(src: &[u8], header: Accepted, work: &mut [u8], out: &mut [u8]) -> Option<usize>
    requires { GivenFile src.now header.count header.settings out.old × (least_output (version_in src.now) header.count ≤ length work.old) }
    ensures { Answers src.now out.old out.new (Ok result) }
{
    header::copy_header(src, work);
    let record = Record { src, at: 0 };
    let settings = Settings {
        byte: header.settings,
        yes: &[],
    };
    let depth = Limits::REDUCE.depth;
    let mut reduction = Reduction {
        settings,
        out: work,
    };
    let end = reduction.remove_unused_expression(Node { record }, depth, 0);
    if end == 0 {
        return None;
    }
    header::write_count(work, end as u16);
    let length = fields::file_length(src, end);
    output::copy_bytes(work, 0, length, out, 0);
    Some(length)
}
