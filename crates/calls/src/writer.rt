// Bytes put first in a lent buffer.
ghost use Rattle.std.specs.Prelude.{◌≡◌};
ghost use Rattle.calls.specs.Writer.{outcome_of, put_of};

// Puts bytes first in a lent buffer, keeps the rest and answers how many they are; too short a buffer is left as it was.
pub(crate) fn put(bytes: &[u8], out: &mut [u8]) -> Option<usize>
    ensures { outcome_of result out.new ≡ put_of bytes.now out.old }
{
    if out.len() < bytes.len() {
        return None;
    }
    out[..bytes.len()].copy_from_slice(bytes);
    Some(bytes.len())
}
