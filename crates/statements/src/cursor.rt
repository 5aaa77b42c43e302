// Where a reading stands, and how it moves on.
ghost use Rattle.std.specs.Prelude.{◌≡◌, ◌<◌, set, OnErr};
ghost use Rattle.lexer.specs.working.Kinds.{kind_number};
ghost use Rattle.statements.specs.working.Cursors.{passed, reached, Expected, emitted};

use lexer::pieces::{Kind, Piece, piece_at};
use refusals::Refusal;

// Whether row names and stars may stand in an expression.
#[derive(Clone, Copy)]
pub struct Scope {
    pub rows: bool,
    pub stars: bool,
}

// How many names of each kind are declared.
#[derive(Clone, Copy)]
pub struct Ledger {
    pub shared: usize,
    pub row: usize,
    pub commands: usize,
}

// The next piece, how many code words are stored, and the counts.
#[derive(Clone, Copy)]
pub struct Cursor {
    pub next: Piece,
    pub emitted: usize,
    pub items: usize,
    pub nodes: usize,
    pub stars: usize,
}

// Something was read, up to where it leaves the cursor, or the text is refused.
pub type Parsed = Result<(), Refusal>;

impl Cursor {
    // Past the next piece.
    pub fn pass(&mut self, text: &[u8])
        ensures { self.new ≡ passed text.now self.old }
    {
        self.next = piece_at(text, self.next.end);
    }

    // Past a sign that has to stand here.
    #[tactic(auto, unfolding(crate::specs::working::Cursors::Expected))]
    pub fn expect(&mut self, text: &[u8], kind: Kind) -> Parsed
        ensures says { Expected text.now self.old (kind_number kind) (reached result self.new) }
        ensures kept { OnErr result (self.new ≡ self.old) }
    {
        if self.next.kind != kind {
            return Err(self.next.misplaced());
        }
        self.pass(text);
        Ok(())
    }

    // One code word more.
    pub fn emit(&mut self, ops: &mut [u16; 2048], code: u16)
        requires { self.old.emitted < 2048 }
        ensures { (self.new ≡ emitted self.old) × (ops.new ≡ set ops.old self.old.emitted code) }
    {
        ops[self.emitted] = code;
        self.emitted += 1;
    }
}
