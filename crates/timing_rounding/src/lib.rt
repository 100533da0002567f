// Quotients rounded up, each by one division and without a branch: of times, which fit 32 bits, and of parts of a
// utilisation, which need not.
#![tactic(auto)]

ghost use Rattle.std.specs.Prelude.{◌≡◌, ◌^◌, ◌≤◌, ◌<◌};
ghost use Rattle.timing.specs.Response.{rounded_up};

// The quotient of two times, rounded up: the sum with the divisor less one, divided once. The sum of two numbers of 32
// bits fits 64.
pub fn rounded_up(n: u64, d: u64) -> u64
    requires { (n < 2 ^ 32) × (1 ≤ d) × (d < 2 ^ 32) }
    ensures { result ≡ rounded_up n d }
{
    (n + (d - 1)) / d
}

// The same of any two positive numbers, whose sum need not fit: one is taken off first and added last.
pub fn wide_rounded_up(n: u64, d: u64) -> u64
    requires { (1 ≤ n) × (1 ≤ d) }
    ensures { result ≡ rounded_up n d }
{
    (n - 1) / d + 1
}
