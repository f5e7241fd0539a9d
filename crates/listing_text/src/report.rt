// The text for the entries of a search.
ghost use Rattle.std.specs.Prelude.{◌≡◌, ℕ, ◌+◌, ◌≤◌, length};
ghost use Rattle.list_open.specs.Opening.{capacity};
ghost use Rattle.listing_text.specs.ProgramPage.{Adds};
ghost use Rattle.listing_text.specs.Text;
ghost use Rattle.listing_text.specs.Text.{count_text, line, lines, first_line, report_of, room, Prints};

use crate::page::Page;
use search::{EntryRecord, Kind};

fn word(kind: Kind) -> &'static [u8]
    ensures { result.now ≡ Text.word kind }
{
    match kind {
        Kind::One => b"one ",
        Kind::Mute => b"mute ",
        Kind::Many => b"many ",
    }
}

fn digit(d: u8) -> u8
    ensures { result ≡ Text.digit d }
{
    if d == 15 { b'F' } else { 0x30 + d % 10 }
}

impl Page {
    fn push_count(&mut self, kind: Kind, count: u32)
        requires { self.old.len + 11 ≤ room }
        ensures { Adds self.old (count_text kind count) self.new × (self.new.len ≤ self.old.len + 11) }
    {
        match kind {
            Kind::One | Kind::Mute => {}
            Kind::Many => {
                self.push_text(b" ");
                self.push_number(count);
            }
        }
    }

    fn push_line(&mut self, e: EntryRecord)
        requires { self.old.len + 25 ≤ room }
        ensures { Adds self.old (line e) self.new × (self.new.len ≤ self.old.len + 25) }
    {
        self.push_text(word(e.kind));
        self.push_text(&e.digits.map(digit));
        self.push_count(e.kind, e.count);
        self.push_text(b"\n");
    }

    fn push_lines(&mut self, entries: &[EntryRecord])
        requires { (self.old.len ≤ 38) × (length entries.now ≤ capacity) }
        ensures { Adds self.old (lines entries.now) self.new }
    {
        for e in entries {
            self.push_line(*e);
        }
    }

    fn push_first(&mut self, entries: u32, probes: u32)
        requires { self.old.len ≡ 0 }
        ensures { Adds self.old (first_line entries probes) self.new × (self.new.len ≤ 38) }
    {
        self.push_number(entries);
        self.push_text(b" entries, ");
        self.push_number(probes);
        self.push_text(b" probes\n");
    }

    // The report of a search: its entries, and the probes made.
    pub(crate) fn push_report(&mut self, entries: &[EntryRecord], probes: u32)
        requires { (self.old.len ≡ 0) × (length entries.now ≤ capacity) }
        ensures { Prints self.old.bytes (report_of entries.now probes) self.new.len self.new.bytes }
    {
        self.push_first(entries.len() as u32, probes);
        self.push_lines(entries);
    }
}
