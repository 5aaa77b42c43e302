// Names as they stand in the text.
#![tactic(auto)]

ghost use Rattle.std.specs.Prelude.{◌≡◌};
ghost use Rattle.names.specs.working.Arrays.{name_in, Named};

// Place and length of each name, as the reader gives them.
pub type Names = [u16; 56];

// The bytes of name i.
pub fn name<'a>(text: &'a [u8], names: &Names, i: usize) -> &'a [u8]
    requires { Named text.now names.now i }
    ensures { result.now ≡ name_in text.now names.now i }
{
    let from = usize::from(names[i]);
    let to = from + usize::from(names[28 + i]);
    &text[from..to]
}
