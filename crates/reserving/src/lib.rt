// What a search of a text's model needs: entries of its tables, bytes of its sheet buffer, and how many trials it makes at most. It is told from the text alone.
#![tactic(auto)]

ghost use Rattle.std.specs.Prelude.{◌≡◌, ◌≤◌};
ghost use Rattle.reserving.specs.working.Reserving.{all_words, needs_in, reserve_of};

use acceptance::plans::read_table;
use evaluation::numbers::power;
use evaluation::one_row::OneRow;
use refusals::Refusal;
use sheets::fields::sheet_room;

// The entries of one table, the bytes of the sheet buffer and the most trials.
#[derive(Clone, Copy, Debug, PartialEq, Eq)]
pub struct Reservation {
    pub entries: usize,
    pub bytes: usize,
    pub trials: usize,
}

// How many choice words all commands have.
fn all_words(table: &OneRow) -> usize
    ensures { (result ≡ all_words table.now.plan) × (result ≤ 4096) }
{
    let mut sum: usize = 0;
    'commands: for k in 0..table.plan.commands {
        sum += table.word_count(k);
    }
    sum
}

// What a search over a model's flat form needs.
fn needs_of(table: &OneRow) -> Reservation
    ensures { result ≡ needs_in table.now.plan }
{
    let states = power(table.plan.bits);
    Reservation {
        entries: states,
        bytes: sheet_room(states),
        trials: states * all_words(table),
    }
}

// What a search of the model that a text says needs, or the text's refusal.
pub fn reserve(text: &[u8]) -> Result<Reservation, Refusal>
    ensures { result ≡ reserve_of text.now }
{
    let mut ops = [0u16; 2048];
    let table = read_table(text, &mut ops)?;
    Ok(needs_of(&table))
}
