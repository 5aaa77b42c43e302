// Which of the declared names may stand at a place.
ghost use Rattle.std.specs.Prelude.{◌≡◌, cond, ◌+◌, ◌≤◌};

use crate::cursor::Ledger;

// How many names an expression sees, from the first on: shared names, and row names if `rows`.
pub fn visible(rows: bool, l: Ledger) -> usize
    requires { l.shared + l.row ≤ 12 }
    ensures { result ≡ cond rows (l.shared + l.row) l.shared }
{
    if rows { l.shared + l.row } else { l.shared }
}

// The first name that may be assigned to: a row name if `rows`, or else a shared name.
pub fn first_target(rows: bool, l: Ledger) -> usize
    ensures { result ≡ cond rows l.shared 0 }
{
    if rows { l.shared } else { 0 }
}
