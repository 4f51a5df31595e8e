// Files that stand one behind the other, each behind its length, as the programs read them from standard input.
#![tactic(auto)]

ghost use Rattle.std.specs.Prelude.{◌≡◌, ◌≤◌, length, option_map};
ghost use Rattle.std.specs.Iterator.{at_most};
ghost use Rattle.cases.specs.Next.{next_case, next_part, NextGives};

// A file, and the bytes before it, of which the first two are its length.
#[derive(Clone, Copy)]
pub struct Case<'a> {
    pub head: &'a [u8],
    pub file: &'a [u8],
}

// The file that an input begins with, behind `head` bytes, and what stands behind it; none where the input ends before.
#[tactic(auto, using(std::proofs::lemmas::Bool::Decides::nat_tests))]
pub fn next_case(input: &[u8], head: usize) -> Option<(Case<'_>, &[u8])>
    requires { 2 ≤ head }
    ensures { option_map (λ next. (next.0.head.now, next.0.file.now, next.1.now)) result ≡ next_case input.now head }
{
    let (head, rest) = input.split_at_checked(head)?;
    let (file, rest) = rest.split_at_checked(usize::from(le::get16(input, 0)))?;
    Some((Case { head, file }, rest))
}

// The file that an input begins with, behind its length in four bytes, and what stands behind it; none where the input ends before.
#[tactic(auto, using(std::proofs::lemmas::Bool::Decides::nat_tests))]
pub fn next_part(input: &[u8]) -> Option<(&[u8], &[u8])>
    ensures { option_map (λ next. (next.0.now, next.1.now)) result ≡ next_part input.now }
{
    let (_, rest) = input.split_at_checked(4)?;
    rest.split_at_checked(le::get32(input, 0) as usize)
}

// The cases of an input, one behind the other, up to the first that is cut short.
#[derive(Drop)]
pub struct Cases<'a> {
    pub rest: &'a [u8],
    pub head: usize,
    ghost wide: { 2 ≤ head },
}

impl<'a> Cases<'a> {
    pub fn new(input: &'a [u8], head: usize) -> Cases<'a>
        requires { 2 ≤ head }
        ensures rest { result.rest.now ≡ input.now }
        ensures head { result.head ≡ head }
    {
        Cases { rest: input, head }
    }
}

impl<'a> Iterator for Cases<'a> {
    type Item = Case<'a>;

    ghost next_gives = { λ before given after. (after.head ≡ before.head)
        × NextGives before.rest.now before.head (option_map (λ case. (case.head.now, case.file.now)) given) after.rest.now };

    ghost remaining = { λ cases. at_most (length cases.rest.now) };

    fn next(&mut self) -> Option<Case<'a>> {
        let (case, rest) = next_case(self.rest, self.head)?;
        self.rest = rest;
        Some(case)
    }
}
