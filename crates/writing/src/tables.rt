// The lent tables.
ghost use Rattle.std.specs.Prelude.{◌≡◌, ◌++◌, ◌≤◌, length, drop, replicate};

// Makes the first n entries 0.
pub fn clear(table: &mut [u16], n: usize)
    requires { n ≤ length table.old }
    ensures { table.new ≡ replicate n 0 ++ drop n table.old }
{
    table[..n].fill(0);
}
