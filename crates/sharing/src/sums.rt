ghost use Rattle.std.specs.Prelude.{◌≡◌, ◌≤◌, length, sum};

// The true sum: 256 numbers of 32 bits cannot wrap it.
pub(crate) fn sum_of(values: &[u32]) -> u64
    requires { length values.now ≤ 256 }
    ensures { result ≡ sum values.now }
{
    values.iter().map(|value| u64::from(*value)).sum()
}
