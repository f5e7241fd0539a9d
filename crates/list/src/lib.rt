// The meter list: its byte layout, and a reader over its bytes.
#![tactic(auto)]

pub mod layout; // layout.rt: the bytes of a record and of the whole list

ghost use Rattle.std.specs.Prelude.{◌≡◌, drop};
ghost use Rattle.list.specs.ProgramReading.{Reads};

use layout::split_record;

// A record of the list: its numbers, and its texts.
#[derive(Clone, Copy)]
pub struct Listed<'a> {
    pub primary: u8,
    pub version: u8,
    pub baud: u32,
    pub id: &'a [u8],
    pub manufacturer: &'a [u8],
    pub medium: &'a [u8],
    pub fault: &'a [u8],
}

// Why bytes are no list: under 3 bytes, or byte 0 is not 1; or a length does not fit.
#[derive(Clone, Copy, PartialEq, Eq, Debug)]
pub enum LayoutError {
    Unversioned,
    Unfit,
}

// A reader over the bytes of the records that are left.
#[derive(Clone, Copy)]
pub struct Reader<'a> {
    pub rest: &'a [u8],
}

impl<'a> Reader<'a> {
    // A reader over a list: its records begin at byte 3.
    pub fn new(list: &'a [u8]) -> Self
        ensures { result.rest.now ≡ drop 3 list.now }
    {
        match list {
            [_, _, _, rest @ ..] => Reader { rest },
            _ => Reader { rest: &[] },
        }
    }

    // The next meter of the list. At bytes that are no record the reader stays where it is. So it is no `Iterator`,
    // which would have to end there.
    pub fn next(&mut self) -> Result<Option<Listed<'a>>, LayoutError>
        ensures { Reads self.old.rest.now result self.new.rest.now }
    {
        if self.rest.is_empty() {
            return Ok(None);
        }
        let (record, rest) = split_record(self.rest).ok_or(LayoutError::Unfit)?;
        self.rest = rest;
        Ok(Some(record))
    }
}
