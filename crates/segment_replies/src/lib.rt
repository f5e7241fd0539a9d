// Replies to one telegram, joined one after the other.
#![tactic(auto)]

ghost use Rattle.std.specs.Prelude.{◌≡◌, ◌≤◌, true, length, take, replicate};
ghost use Rattle.segment_replies.specs.Replies.{is_e5};
ghost use Rattle.segment_replies.specs.ProgramJoining.{JoinsAck, JoinsReply, Overlays, reply_most};

use meter_reply::Reply;

// The places of the array that a reply stands in.
pub const REPLY: usize = 96;

// The replies so far, in fixed memory as a reply: their bytewise AND, filled with FF, how many there are, whether all
// are E5, and how long the longest is.
#[derive(Clone, Copy)]
pub struct Joining {
    pub bytes: [u8; REPLY],
    pub count: usize,
    pub acks: bool,
    pub len: usize,
}

fn is_ack(reply: Reply) -> bool
    ensures { result ≡ is_e5 (take reply.len reply.bytes) }
{
    reply.len == 1 && reply.bytes[0] == frame::ACK
}

// The AND with a reply, byte by byte. By index: after `joined.iter_mut().zip(..)` a proof knows the length, and not the
// bytes.
fn overlay(joined: &mut [u8; REPLY], reply: Reply, len: usize)
    requires { len ≤ reply_most }
    ensures { length joined.old ≡ reply_most → Overlays joined.old reply.bytes len joined.new }
{
    for i in 0..len {
        joined[i] &= reply.bytes[i];
    }
}

impl Joining {
    // No reply yet.
    pub fn new() -> Joining
        ensures { result ≡ record { bytes = replicate reply_most 0xFF; count = 0; acks = true; len = 0 } }
    {
        Joining {
            bytes: [0xFF; REPLY],
            count: 0,
            acks: true,
            len: 0,
        }
    }

    // One E5 joins the replies before it.
    pub fn join_ack(&mut self)
        ensures { JoinsAck self.old self.new }
    {
        self.bytes[0] &= frame::ACK;
        self.count = self.count.wrapping_add(1);
        self.len = self.len.max(1);
    }

    // A readout joins the replies before it.
    pub fn join(&mut self, reply: Reply)
        ensures { JoinsReply self.old reply self.new }
    {
        let len = reply.len.min(REPLY);
        overlay(&mut self.bytes, reply, len);
        self.count = self.count.wrapping_add(1);
        self.acks &= is_ack(reply);
        self.len = self.len.max(len);
    }
}
