// The text for a refused list.
ghost use Rattle.std.specs.Prelude.{◌≡◌};
ghost use Rattle.listing_text.specs.Text.{refusal_of, Prints};

use crate::page::Page;

impl Page {
    // The line for a refused list.
    pub(crate) fn push_refusal(&mut self, n: u32)
        requires { self.old.len ≡ 0 }
        ensures { Prints self.old.bytes (refusal_of n) self.new.len self.new.bytes }
    {
        self.push_text(b"refused ");
        self.push_number(n);
        self.push_text(b"\n");
    }
}
