// The commands of a script. A command is a byte that names it and its arguments, each number with its highest byte
// first.
ghost use Rattle.std.specs.Prelude.{◌≤◌, length};
ghost use Rattle.std.specs.Iterator.{at_most};

use time_clock::Clock;

pub(crate) enum Command<'a> {
    Open {
        baud: u32,
        practice: bool,
        origin: f64,
        list: &'a [u8],
    },
    Clock(Clock),
    Send(&'a [u8]),
    // how many bytes are lent
    Receive(usize),
    Clear,
    Baud(u32),
    State,
    Short,
    // the allowance, and how many entries are lent
    Search {
        allowance: u32,
        lent: usize,
    },
    // by the number of the list, of which others than 0 to 3 are ignored
    Builtin {
        number: u8,
        baud: u32,
        practice: bool,
        origin: f64,
    },
    // how many bytes are lent
    Export(usize),
}

// What is left of a script. Each step of the reader promises that no more is left after it. Its commands end at its end,
// at a byte that names no command, and at a command that is cut off.
#[derive(Drop)]
pub(crate) struct Script<'a>(pub(crate) &'a [u8]);

impl<'a> Script<'a> {
    fn array<const N: usize>(&mut self) -> Option<[u8; N]>
        ensures { length self.new.0.now ≤ length self.old.0.now }
    {
        let (front, rest) = self.0.split_first_chunk::<N>()?;
        self.0 = rest;
        Some(*front)
    }

    // A number of each width: a trait for the four would be longer.
    fn byte(&mut self) -> Option<u8>
        ensures { length self.new.0.now ≤ length self.old.0.now }
    {
        Some(u8::from_be_bytes(self.array()?))
    }

    fn word(&mut self) -> Option<u16>
        ensures { length self.new.0.now ≤ length self.old.0.now }
    {
        Some(u16::from_be_bytes(self.array()?))
    }

    fn long(&mut self) -> Option<u32>
        ensures { length self.new.0.now ≤ length self.old.0.now }
    {
        Some(u32::from_be_bytes(self.array()?))
    }

    fn float(&mut self) -> Option<f64>
        ensures { length self.new.0.now ≤ length self.old.0.now }
    {
        Some(time_seconds::f64_from_bits(u64::from_be_bytes(self.array()?)))
    }

    fn flag(&mut self) -> Option<bool>
        ensures { length self.new.0.now ≤ length self.old.0.now }
    {
        Some(self.byte()? != 0)
    }

    // Bytes behind their length.
    fn bytes(&mut self) -> Option<&'a [u8]>
        ensures { length self.new.0.now ≤ length self.old.0.now }
    {
        let len = usize::from(self.word()?);
        let (front, rest) = self.0.split_at_checked(len)?;
        self.0 = rest;
        Some(front)
    }

    // Seconds, then year, month, day, hour and minute.
    fn clock(&mut self) -> Option<Clock>
        ensures { length self.new.0.now ≤ length self.old.0.now }
    {
        Some(Clock {
            now: self.float()?,
            year: u32::from(self.word()?),
            month: u32::from(self.word()?),
            day: u32::from(self.word()?),
            hour: u32::from(self.word()?),
            minute: u32::from(self.word()?),
        })
    }

    // The arguments of the command with this name.
    fn command(&mut self, name: u8) -> Option<Command<'a>>
        ensures { length self.new.0.now ≤ length self.old.0.now }
    {
        Some(match name {
            1 => Command::Open {
                baud: self.long()?,
                practice: self.flag()?,
                origin: self.float()?,
                list: self.bytes()?,
            },
            2 => Command::Clock(self.clock()?),
            3 => Command::Send(self.bytes()?),
            4 => Command::Receive(usize::from(self.byte()?)),
            5 => Command::Clear,
            6 => Command::Baud(self.long()?),
            7 => Command::State,
            8 => Command::Short,
            9 => Command::Search {
                allowance: self.long()?,
                lent: usize::from(self.byte()?),
            },
            10 => Command::Builtin {
                number: self.byte()?,
                baud: self.long()?,
                practice: self.flag()?,
                origin: self.float()?,
            },
            11 => Command::Export(usize::from(self.word()?)),
            _ => return None,
        })
    }
}

impl<'a> Iterator for Script<'a> {
    type Item = Command<'a>;

    ghost remaining = { λ s. at_most (length s.0.now) };

    fn next(&mut self) -> Option<Command<'a>> {
        let (name, arguments) = self.0.split_first()?;
        self.0 = arguments;
        self.command(*name)
    }
}
