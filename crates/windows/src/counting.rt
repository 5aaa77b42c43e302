// One step counted: it enters the window, and another may leave it.
ghost use Rattle.std.specs.Prelude.{◌≡◌, ◌+◌, ◌-◌, ◌<◌, ◌≤◌};
ghost use Rattle.windows.specs.working.Sliding.{fresh, leaving_of, is_one, next_of, slid_of};

use crate::record::{Step, Tally};
use sheets::fields::wide;

// A command and a width, and nothing seen yet.
#[tactic(auto, unfolding(crate::specs::working::Sliding::fresh))]
pub fn fresh_tally(command: usize, width: usize) -> Tally
    ensures { result ≡ fresh command width }
{
    Tally {
        command,
        width,
        seen: 0,
        here: 0,
        most: 0,
        place: 1,
    }
}

// Which step leaves the window as step i enters it; i itself while none has to.
#[tactic(auto, unfolding(crate::specs::working::Sliding::leaving_of))]
pub fn leaving(t: Tally, i: usize) -> usize
    ensures { result ≡ leaving_of t.width i }
{
    let width = t.width;
    if i < width { i } else { i - width }
}

// 1 for the command that is counted, 0 for another.
#[tactic(auto, unfolding(crate::specs::working::Sliding::is_one))]
fn is_one(command: usize, k: usize) -> usize
    ensures { (result ≡ is_one command k) × (result ≤ 1) }
{
    usize::from(k == command)
}

// The tally after one more step.
fn next(t: Tally, here: usize, most: usize, place: usize) -> Tally
    requires { t.seen < 65535 }
    ensures { result ≡ next_of t here most place }
{
    Tally {
        seen: t.seen + 1,
        here,
        most,
        place,
        ..t
    }
}

// A step enters the window. While it is not full it shows all steps from the first on; afterwards a step leaves it.
#[tactic(auto, unfolding(crate::specs::working::Sliding::slid_of))]
pub fn slide(t: Tally, entering: Step, left: Step) -> Tally
    requires { (t.seen < 65535) × (t.here < 65535) }
    ensures { result ≡ slid_of t entering.command left.command }
{
    let seen = t.seen;
    let width = t.width;
    let most = t.most;
    let grown = t.here + is_one(t.command, wide(entering.command));
    if seen < width {
        return next(t, grown, grown, 1);
    }
    let here = grown.saturating_sub(is_one(t.command, wide(left.command)));
    if most < here {
        return next(t, here, here, seen - width + 2);
    }
    next(t, here, most, t.place)
}
