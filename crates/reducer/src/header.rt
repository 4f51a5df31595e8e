// The header of a rewritten file. It says how wide the records are, so it comes before them, but for their count.
ghost use Rattle.std.specs.Prelude.{◌≤◌, length};
ghost use Rattle.tree.specs.Layout.{header_bytes};
ghost use Rattle.reducer.specs.Header.{Begun, Counted};

// The header of src, but for its record count.
pub fn copy_header(src: &[u8], out: &mut [u8])
    requires { (header_bytes ≤ length src.now) × (header_bytes ≤ length out.old) }
    ensures { Begun src.now out.new }
{
    output::copy_bytes(src, 0, 6, out, 0);
}

// The record count.
pub fn write_count(out: &mut [u8], n: u16)
    requires { header_bytes ≤ length out.old }
    ensures { Counted out.old out.new n }
{
    le::put16(out, 6, n);
}
