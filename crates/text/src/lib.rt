// Texts put into a lent buffer: bytes, and numbers by their decimal digits, one after the other.
//
// Nothing is stored past the buffer's end; what would stand there is counted all the same, so that the answer says
// how long a text is whatever room it had.
#![tactic(auto)]

ghost use Rattle.std.specs.Prelude.{◌≡◌, [], ◌∷◌, ◌<◌, ◌^◌, length};
ghost use Rattle.std.proofs.lemmas.List.Edits.{sets};
ghost use Rattle.text_rules.specs.Words.{decimal, labelled, line};
ghost use Rattle.text_rules.specs.Put.{Put};

// A text in a lent buffer, and its length, inside the buffer or not.
#[derive(Drop)]
pub struct Text<'a> {
    out: &'a mut [u8],
    len: usize,
    // the buffer's length and the text's are numbers of 64 bits
    ghost named: { (length out.now < 2 ^ 64) × (len < 2 ^ 64) },
}

// Bytes stored from `at` on, as many as have room. Each is asked whether it has, so that no compiler makes a call of the
// loop: the library puts text too, and needs nothing from outside.
fn lay(out: &mut [u8], at: usize, bytes: &[u8])
    ensures { out.new ≡ sets out.old at bytes.now }
{
    let fit = fields_write::room(out.len(), at, bytes.len());
    for (i, &byte) in bytes.iter().enumerate() {
        if i < fit {
            out[at + i] = byte;
        }
    }
}

impl<'a> Text<'a> {
    ghost use Rattle.text.specs.Texts.{At, Puts};

    // A text that goes on from a place in a buffer, inside or not: from 0 it begins.
    pub fn at(out: &'a mut [u8], len: usize) -> Text<'a>
        ensures { At out.entry len result }
    {
        Text { out, len }
    }

    // How long the text is.
    pub fn len(&self) -> usize
        ensures { result ≡ self.now.len }
    {
        self.len
    }

    // Puts bytes.
    pub fn put(&mut self, bytes: &[u8])
        ensures { Puts self.old bytes.now self.new }
    {
        lay(self.out, self.len, bytes);
        self.len = self.len.saturating_add(bytes.len());
    }

    // Puts a number's decimal digits.
    pub fn put_number(&mut self, n: u64)
        ensures { Puts self.old (decimal n) self.new }
    {
        let mut digits = [0u8; 20];
        let k = io::decimal(n, &mut digits);
        self.put(&digits[..k]);
    }

    // Puts a word and a number after it.
    pub fn put_labelled(&mut self, word: &[u8], n: u64)
        ensures { Puts self.old (labelled word.now n) self.new }
    {
        self.put(word);
        self.put_number(n);
    }

    // Puts a word, a number after it and a newline.
    pub fn put_line(&mut self, word: &[u8], n: u64)
        ensures { Puts self.old (line (labelled word.now n ∷ [])) self.new }
    {
        self.put_labelled(word, n);
        self.put(b"\n");
    }
}
