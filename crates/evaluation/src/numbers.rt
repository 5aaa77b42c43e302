// Small numbers out of a model's flat form, and powers of two.
ghost use Rattle.std.specs.Prelude.{◌≡◌, ◌^◌, ◌≤◌};

// An element of an array as a number.
pub fn count(x: u16) -> usize
    ensures { result ≡ x }
{
    x as usize
}

// 2 to the n.
pub fn power(n: usize) -> usize
    requires { n ≤ 12 }
    ensures { result ≡ 2 ^ n }
{
    1 << n
}
