// The bytes of a number, where they lie.
ghost use Rattle.std.specs.Prelude.{◌≡◌, ◌+◌, ◌≤◌, length, take, drop};

// The N bytes at place i.
pub(crate) fn bytes_at<const N: usize>(bytes: &[u8], i: usize) -> [u8; N]
    requires { i + N ≤ length bytes.now }
    ensures { result ≡ take N (drop i bytes.now) }
{
    *bytes[i..].first_chunk().unwrap()
}
