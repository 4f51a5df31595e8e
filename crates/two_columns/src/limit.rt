// "The two-column and batch programs take 1,500 records of version 2 and refuse more as a wrong count".
ghost use Rattle.std.specs.Prelude.{◌≡◌, false, IfErr, OnOk};
ghost use Rattle.refusal.specs.Number.{number_of};
ghost use Rattle.tree.specs.Layout.{version_in};
ghost use Rattle.tree.specs.Refusal.{program_limits, refusal};
ghost use Rattle.two_columns.specs.Limit.{too_many};

use file::Limits;
use refusal::Refusal;

const MOST_RECORDS: usize = 1500;

// Whether src counts more records of version 2.
#[tactic(auto, unfolding(crate::specs::Limit::too_many))]
fn too_many(src: &[u8]) -> bool
    ensures { result ≡ too_many src.now }
{
    fields::HEADER_BYTES <= src.len()
        && fields::has_ends(src)
        && MOST_RECORDS < usize::from(le::get16(src, 6))
}

// Refuses such a file: as a wrong count, unless a test before that of the count fails.
#[tactic(auto, using(crate::specs::Limit::many_number))]
pub fn check_count(src: &[u8]) -> Result<(), Refusal>
    ensures taken { OnOk result (too_many src.now ≡ false) }
    ensures number { IfErr result (λ r. number_of r ≡ refusal (program_limits (version_in src.now)) src.now) }
{
    if too_many(src) {
        file::check(
            src,
            Limits {
                records: MOST_RECORDS,
                ..Limits::REDUCE
            },
        )?;
    }
    Ok(())
}
