// A search in portions that tells on standard error how far it is, and leaves what a search in one go leaves.
ghost use Rattle.std.specs.Prelude.{◌≤◌};
ghost use Rattle.reporting.specs.working.Reporting.{Searched};
ghost use Rattle.search.specs.Answers.{pause_for};
ghost use Rattle.report.specs.working.Underway.{Underway};

use reporting::{Sheet, Table};
use reserving::reserve;
use search::position::{Position, open};
use std::io::Write;
use streams::told::tell;
use verdicts::finding::Searched;

// A portion has about so many trials: a search of fewer is over before anybody reads a line.
const TRIALS: usize = 262144;

// At least one state is expanded in each, so that these are enough for every search.
const PORTIONS: usize = 4096;

// How many states a portion has, and how many there are.
#[derive(Clone, Copy)]
struct Portions {
    states: usize,
    all: usize,
}

// As many states as have about so many trials at most.
fn portions_of(text: &[u8]) -> Portions {
    let Ok(needs) = reserve(text) else {
        return Portions { states: 1, all: 1 };
    };
    let all = needs.entries.max(1);
    let each = (needs.trials / all).max(1);
    let states = (TRIALS / each).max(1);
    Portions { states, all }
}

// How far the search is, in place of the line before. Where it can't be shown, the search goes on all the same.
fn show(errors: &mut impl Write, expanded: usize, met: usize, all: usize) {
    let _ = write!(
        errors,
        "\rreport: {expanded} of at most {all} states expanded, {met} met"
    );
}

// The next position. No portion is refused that goes on from one of the same search.
fn next_position(
    position: Position,
    states: usize,
    text: &[u8],
    first: &mut Table,
    second: &mut Table,
) -> Position
    requires { Underway text.now (pause_for position) first.old second.old }
    ensures { Underway text.now (pause_for result) first.new second.new }
{
    position.portion(states, text, first, second).unwrap()
}

// Portions up to the end. It is told how far the search is after each that did not come there; the line is taken away at last.
fn search_on(
    errors: &mut impl Write,
    start: Position,
    text: &[u8],
    first: &mut Table,
    second: &mut Table,
) -> Position
    requires { Underway text.now (pause_for start) first.old second.old }
    ensures { Underway text.now (pause_for result) first.new second.new }
{
    let portions = portions_of(text);
    let mut position = start;
    let mut shown = false;
    for _ in 0..PORTIONS {
        position = next_position(position, portions.states, text, first, second);
        if position.broke || position.met <= position.expanded {
            break;
        }
        show(errors, position.expanded, position.met, portions.all);
        shown = true;
    }
    if shown {
        tell(errors, b"\r\x1b[K");
    }
    position
}

// The search of a text, whose answer and sheet make its report.
pub fn search_showing(
    errors: &mut impl Write,
    text: &[u8],
    first: &mut Table,
    second: &mut Table,
    sheet: &mut Sheet,
) -> Searched
    ensures { Searched text.now result sheet.new }
{
    let start = open(text, first, second)?;
    let position = search_on(errors, start, text, first, second);
    position.finish(text, first, second, sheet)
}
