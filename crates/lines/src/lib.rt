// Lines of words and numbers, put into a lent buffer one part behind the other.
#![tactic(auto)]

ghost use Rattle.std.specs.Prelude.{◌≡◌, length, [], ◌∷◌};
ghost use Rattle.lines.specs.Lines.{decimal_of, word, line, number_line, refusal_line};
ghost use Rattle.lines.specs.Writers.{HasRoom, Writes};
ghost use Rattle.refusals.specs.Reasons.{number_of};

use refusals::Refusal;

// Bytes at the front of a lent buffer.
#[derive(Drop)]
pub struct Writer<'a> {
    room: &'a mut [u8],
    len: usize,
}

impl<'a> Writer<'a> {
    // No bytes yet.
    pub fn new(room: &'a mut [u8]) -> Writer<'a>
        ensures same { result.room.ghost_name ≡ room.entry.ghost_name }
        ensures room { result.room.now ≡ room.old }
        ensures len { result.len ≡ 0 }
    {
        Writer { room, len: 0 }
    }

    // How many they are.
    pub fn len(&self) -> usize
        ensures { result ≡ self.now.len }
    {
        self.len
    }

    // Puts bytes behind those that are there.
    pub fn put(&mut self, bytes: &[u8])
        requires { HasRoom self.old bytes.now }
        ensures { Writes self.old bytes.now self.new }
    {
        let end = self.len + bytes.len();
        self.room[self.len..end].copy_from_slice(bytes);
        self.len = end;
    }

    // A space and a word.
    pub fn put_word(&mut self, bytes: &[u8])
        requires { HasRoom self.old (word bytes.now) }
        ensures { Writes self.old (word bytes.now) self.new }
    {
        self.put(b" ");
        self.put(bytes);
    }

    // A space and the digits of a number.
    pub fn put_number(&mut self, n: usize)
        requires { HasRoom self.old (word (decimal_of n)) }
        ensures { Writes self.old (word (decimal_of n)) self.new }
    {
        let mut digits = [0u8; 20];
        let k = io::decimal(n as u64, &mut digits);
        self.put_word(&digits[..k]);
    }

    // A line of a word and a number.
    pub fn put_number_line(&mut self, title: &[u8], n: usize)
        requires { HasRoom self.old (number_line title.now n) }
        ensures { Writes self.old (number_line title.now n) self.new }
    {
        self.put(title);
        self.put_number(n);
        self.put(b"\n");
    }

    // A line of a word and two numbers.
    pub fn put_numbers_line(&mut self, title: &[u8], first: usize, second: usize)
        requires { HasRoom self.old (line (title.now ∷ decimal_of first ∷ decimal_of second ∷ [])) }
        ensures { Writes self.old (line (title.now ∷ decimal_of first ∷ decimal_of second ∷ [])) self.new }
    {
        self.put(title);
        self.put_number(first);
        self.put_number(second);
        self.put(b"\n");
    }

    // `refused`, a number and a place.
    #[tactic(auto, unfolding(notation::specs::Bytes::bytes))]
    pub fn put_refusal_line(&mut self, number: usize, place: usize)
        requires { HasRoom self.old (refusal_line number place) }
        ensures { Writes self.old (refusal_line number place) self.new }
    {
        self.put_numbers_line(b"refused", number, place);
    }

    // The line of a refusal, with the number of its reason.
    pub fn put_refusal(&mut self, refusal: Refusal)
        requires { HasRoom self.old (refusal_line (number_of refusal.reason) refusal.place) }
        ensures { Writes self.old (refusal_line (number_of refusal.reason) refusal.place) self.new }
    {
        self.put_refusal_line(usize::from(refusal.reason.number()), refusal.place);
    }
}
