ghost use Rattle.std.specs.Prelude.{◌≡◌, MatchResult, take};

use std::alloc::AllocError;

/// Takes away again, after an error, what was appended behind the first `before` bytes.
pub fn undone(
    out: &mut Vec<u8>,
    before: usize,
    put: Result<(), AllocError>,
) -> Result<(), AllocError>
    ensures same { result ≡ put }
    ensures kept { MatchResult put (λ _. out.new.items ≡ out.old.items)
        (λ _. out.new.items ≡ take before out.old.items) }
{
    if put.is_err() {
        out.truncate(before);
    }
    put
}

/// Runs a call that appends to a `Vec`, and takes away again what it appended if it ends with an error.
#[macro_export]
macro_rules! undone {
    ($out:ident, $append:expr) => {{
        let before = $out.len();
        let put = $append;
        $crate::undone($out, before, put)
    }};
}
