//! Where fillers end.
ghost use Rattle.std.specs.Prelude.{◌≡◌, ◌+◌, ◌*◌, ◌/◌, ◌^◌, ◌<◌, ◌≤◌, min};

/// A filler also ends at each multiple of this number of words, so that its size fits 32 bits.
pub const FILLER_STRIDE: u64 = 2_147_483_648;

/// The greatest end of a filler that begins at `p`, below a dense prefix that ends at `prefix`.
pub fn filler_limit(prefix: u64, p: u64) -> u64
    requires { p < 2 ^ 63 }
    ensures value { result ≡ min prefix ((p / 2147483648 + 1) * 2147483648) }
    ensures above { p < prefix → p < result }
    ensures near { result ≤ p + 2147483648 }
{
    prefix.min((p / FILLER_STRIDE + 1) * FILLER_STRIDE)
}
