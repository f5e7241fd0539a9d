// M-Bus link layer (EN 13757-2): telegrams, and how they are read from bytes.
#![tactic(auto)]

ghost use Rattle.std.specs.Prelude.{◌≡◌, ◌+◌, ◌-◌, ◌≤◌, length, take, drop};
ghost use Rattle.laws.specs.Words.{at};
ghost use Rattle.frame.specs.Frame.{data_of, long, sum, parse_short_value, parse_long_value};
ghost use Rattle.frame.specs.View.{telegram_of, parsed_of};

// The bytes of the protocol. They are those of specs/Protocol.antt, and no enums: any byte may stand in a telegram, and what
// it means depends on others.

// The one byte of an ACK.
pub const ACK: u8 = 0xE5;

// The first byte of a short telegram; the first and the fourth of a long one; the last of both.
pub const START_SHORT: u8 = 0x10;

pub const START_LONG: u8 = 0x68;

pub const STOP: u8 = 0x16;

// The control fields of the telegrams that a master sends, and of a meter's answer; the alternation bit.
pub const C_SND_NKE: u8 = 0x40;

pub const C_SND_UD: u8 = 0x53;

pub const C_REQ_UD2: u8 = 0x5B;

pub const C_RSP_UD: u8 = 0x08;

pub const FCB: u8 = 0x20;

// All bits of a control field but 20 and 10; SND_UD and REQ_UD2 with these bits alone. RSP_UD stays 08.
pub const C_MASK: u8 = 0xCF;

pub const C_SND_UD_MASKED: u8 = 0x43;

pub const C_REQ_UD2_MASKED: u8 = 0x4B;

// The selected meters; all, which reply; all, which do not reply.
pub const ADDR_SELECTED: u8 = 0xFD;

pub const ADDR_BROADCAST_REPLY: u8 = 0xFE;

pub const ADDR_BROADCAST: u8 = 0xFF;

// The CI to a meter: reset, data to be set, select; the first and the last of its eight rates.
pub const CI_APP_RESET: u8 = 0x50;

pub const CI_DATA_SEND: u8 = 0x51;

pub const CI_SELECT: u8 = 0x52;

pub const CI_FIRST_BAUD: u8 = 0xB8;

pub const CI_LAST_BAUD: u8 = 0xBF;

// The CI from a meter: an error, variable and fixed data.
pub const CI_ERROR: u8 = 0x70;

pub const CI_VARIABLE: u8 = 0x72;

pub const CI_FIXED: u8 = 0x73;

// A telegram. The data of a long one are a part of the bytes that it was read from, or that it is to be written from.
#[derive(Clone, Copy, PartialEq, Eq, Debug)]
pub enum Frame<'a> {
    Ack,
    Short {
        control: u8,
        address: u8,
    },
    Long {
        control: u8,
        address: u8,
        ci: u8,
        data: &'a [u8],
    },
}

impl<'a> Frame<'a> {
    // Its data: an ACK and a short telegram have none.
    pub fn user_data(self) -> &'a [u8]
        ensures { result.now ≡ data_of (telegram_of self.entry) }
    {
        match self {
            Frame::Ack => &[],
            Frame::Short { .. } => &[],
            Frame::Long { data, .. } => data,
        }
    }
}

// Why bytes are no telegram.
#[derive(Clone, Copy, PartialEq, Eq, Debug)]
pub enum Why {
    Checksum,
    Stop,
    Header,
    Length,
    Start,
}

// What parsing finds: a telegram and the number of bytes used; more bytes are needed, and how many at least; or the
// bytes are no telegram. It is no `Result`: that more bytes are needed is no error, and the requirements speak of three
// kinds.
#[derive(Clone, Copy, PartialEq, Eq, Debug)]
pub enum ParseOutcome<'a> {
    Complete { frame: Frame<'a>, used: usize },
    Incomplete { due: u16 },
    Invalid(Why),
}

// The sum modulo 256.
pub fn checksum(bytes: &[u8]) -> u8
    ensures { result ≡ sum bytes.now }
{
    let mut total: u8 = 0;
    for byte in bytes {
        total = total.wrapping_add(*byte);
    }
    total
}

// Bytes that begin with 10.
#[tactic(auto, using(crate::proofs::Cases::sum_two), unfolding(crate::specs::Frame::parse_short_value))]
fn parse_short(s: &[u8]) -> ParseOutcome<'_>
    ensures { parsed_of result ≡ parse_short_value s.now }
{
    let &[_, control, address, total, stop, ..] = s else {
        return ParseOutcome::Incomplete {
            due: (5 - s.len()) as u16,
        };
    };
    if total != control.wrapping_add(address) {
        ParseOutcome::Invalid(Why::Checksum)
    } else if stop != STOP {
        ParseOutcome::Invalid(Why::Stop)
    } else {
        ParseOutcome::Complete {
            frame: Frame::Short { control, address },
            used: 5,
        }
    }
}

// A long telegram that counts l bytes, all of which are there.
fn long_frame(s: &[u8], l: usize) -> Frame<'_>
    requires { (3 ≤ l) × (l + 6 ≤ length s.now) }
    ensures { telegram_of result ≡ long (at s.now 4) (at s.now 5) (at s.now 6) (take (l - 3) (drop 7 s.now)) }
{
    Frame::Long {
        control: s[4],
        address: s[5],
        ci: s[6],
        data: &s[7..4 + l],
    }
}

// Bytes that begin with 68.
fn parse_long(s: &[u8]) -> ParseOutcome<'_>
    ensures { parsed_of result ≡ parse_long_value s.now }
{
    let &[_, length, again, start, ..] = s else {
        return ParseOutcome::Incomplete {
            due: (4 - s.len()) as u16,
        };
    };
    let l = usize::from(length);
    let all = l + 6;
    if again != length || start != START_LONG {
        ParseOutcome::Invalid(Why::Header)
    } else if l < 3 {
        ParseOutcome::Invalid(Why::Length)
    } else if s.len() < all {
        ParseOutcome::Incomplete {
            due: (all - s.len()) as u16,
        }
    } else if s[4 + l] != checksum(&s[4..4 + l]) {
        ParseOutcome::Invalid(Why::Checksum)
    } else if s[5 + l] != STOP {
        ParseOutcome::Invalid(Why::Stop)
    } else {
        ParseOutcome::Complete {
            frame: long_frame(s, l),
            used: all,
        }
    }
}

// The telegram in front of some bytes.
pub fn parse(s: &[u8]) -> ParseOutcome<'_>
    ensures { parsed_of result ≡ Rattle.frame.specs.Frame.parse s.now }
{
    let &[first, ..] = s else {
        return ParseOutcome::Incomplete { due: 1 };
    };
    match first {
        ACK => ParseOutcome::Complete {
            frame: Frame::Ack,
            used: 1,
        },
        START_SHORT => parse_short(s),
        START_LONG => parse_long(s),
        _ => ParseOutcome::Invalid(Why::Start),
    }
}
