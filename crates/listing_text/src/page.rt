// A text at the start of lent bytes. No type of list_write's: its `push` would be public, which may have no `requires`.
ghost use Rattle.std.specs.Prelude.{◌≡◌, ◌≤◌, length};
ghost use Rattle.listing_text.specs.Text.{room};

use crate::TEXT;

// `len` bytes are written, the others are as they were lent. Some clauses begin at 0, since their text is the first.
#[derive(Clone, Copy)]
pub struct Page {
    pub bytes: [u8; TEXT],
    pub len: usize,
    ghost fits: { (length bytes ≡ room) × (len ≤ room) },
}

impl Page {
    ghost use Rattle.std.specs.Prelude.{◌≡◌, ℕ, ◌+◌, ◌≤◌, length};
    ghost use Rattle.listing_text.specs.ProgramPage.{Adds};
    ghost use Rattle.listing_text.specs.Text.{number_text, room};

    pub(crate) fn push_text(&mut self, text: &[u8])
        requires { self.old.len + length text.now ≤ room }
        ensures { Adds self.old text.now self.new }
    {
        self.len += laws::copy(text, &mut self.bytes[self.len..]);
    }

    // By hand: the clauses of `write!` leave an `Err` open, and what the program writes can't fail.
    pub(crate) fn push_number(&mut self, n: u32)
        requires { self.old.len + length (number_text n) ≤ room }
        ensures { Adds self.old (number_text n) self.new }
    {
        if 10 <= n {
            self.push_number(n / 10);
        }
        self.push_text(&[0x30 + (n % 10) as u8]);
    }
}
