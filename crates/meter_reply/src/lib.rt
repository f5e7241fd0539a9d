// The bytes that a meter replies to a REQ_UD2, and what its fault makes of them.
#![tactic(auto)]

ghost use Rattle.std.specs.Prelude.{◌≡◌, ◌≤◌, ◌<◌, length, MatchOption};
ghost use Rattle.frame.specs.Protocol.{c_rsp_ud};
ghost use Rattle.frame.specs.Frame.{encode, long};
ghost use Rattle.meter_reply.specs.ProgramReply.{SaidLen};
ghost use Rattle.meter_reply.specs.Response.{address, error, user_data_value, response, damaged, readout};
ghost use Rattle.meter.specs.View.{plain_meter};
ghost use Rattle.meter_reply.specs.View.{said};
ghost use Rattle.meter_data.specs.View.{held};

use frame::{C_RSP_UD, CI_ERROR, CI_FIXED, CI_VARIABLE, Frame};
use meter::{Fault, Meter, Model};
use meter_data::Data;
use time_clock::Clock;

// A reply: the first `len` bytes. The longest one has 84. The array is fixed memory, as that of `meter_data::Data`;
// `frame_write` writes into it as lent bytes. It has no invariant, since `Joining::join` takes every reply.
#[derive(Clone, Copy, PartialEq, Eq, Debug)]
pub struct Reply {
    pub bytes: [u8; 96],
    pub len: usize,
}

// How many bytes the reply has.
fn said_len(r: Reply) -> usize
    ensures { SaidLen r result }
{
    r.len.min(96)
}

// RSP_UD with these data. They always fit, so no refusal occurs.
fn telegram(address: u8, ci: u8, d: Data) -> Reply
    ensures { said result ≡ encode (long c_rsp_ud address ci (held d)) }
{
    let f = Frame::Long {
        control: C_RSP_UD,
        address,
        ci,
        data: d.as_slice(),
    };
    let mut bytes = [0; 96];
    let len = frame_write::encode(f, &mut bytes).unwrap_or(0);
    Reply { bytes, len }
}

// The address that the reply bears.
fn address_of(f: Fault, primary: u8) -> u8
    ensures { result ≡ address f primary }
{
    if f == Fault::WrongAddress {
        primary.wrapping_add(1)
    } else {
        primary
    }
}

// What is read, when and under which clock stay three parameters, as 01 has them: a struct of the three would be built
// for one call and taken apart in the next.
#[tactic(auto, unfolding(crate::specs::Response::user_data_value))]
fn user_data(m: Meter, elapsed: f64, clock: Clock) -> Reply
    ensures { said result ≡ encode (user_data_value m.built.model elapsed clock (plain_meter m)) }
{
    let tick = time_seconds::whole_u32(elapsed);
    let a = address_of(m.built.fault, m.state.primary);
    match m.built.model {
        Model::Heat => telegram(a, CI_VARIABLE, meter_data::heat_data(m, clock, tick)),
        Model::Electricity => telegram(a, CI_VARIABLE, meter_data::electricity_data(m, tick)),
        Model::Water => telegram(a, CI_VARIABLE, meter_data::water_data(m, clock, tick)),
        Model::Fixed => telegram(
            m.state.primary,
            CI_FIXED,
            meter_data::fixed_data(m, elapsed),
        ),
    }
}

// The error that a meter reports instead of its data, if there is one.
fn error_code(f: Fault, readouts: u8) -> Option<u8>
    ensures { MatchOption result (error f readouts ≡ 0) (λ code. (error f readouts ≡ code) × (0 < code)) }
{
    match f {
        Fault::Busy => Some(0x08),
        Fault::TooMany if readouts > 2 => Some(0x09),
        _ => None,
    }
}

// The whole telegram of a meter that was asked.
#[tactic(auto, unfolding(crate::specs::Response::response))]
fn response(m: Meter, elapsed: f64, clock: Clock) -> Reply
    ensures { said result ≡ encode (response elapsed clock (plain_meter m)) }
{
    match error_code(m.built.fault, m.state.readouts) {
        None => user_data(m, elapsed, clock),
        Some(code) => telegram(m.state.primary, CI_ERROR, meter_data::error_data(code)),
    }
}

// The sum, the last byte but one, flipped.
fn flipped(mut r: Reply) -> Reply
    requires { 2 ≤ length (said r) }
    ensures { said result ≡ damaged Fault.Checksum (said r) }
{
    let n = said_len(r);
    r.bytes[n - 2] ^= 0x5A;
    r
}

// The first half, rounded down.
fn halved(mut r: Reply) -> Reply
    ensures { said result ≡ damaged Fault.Truncated (said r) }
{
    r.len = said_len(r) / 2;
    r
}

#[tactic(auto, unfolding(crate::specs::Response::damaged))]
fn damage(f: Fault, r: Reply) -> Reply
    requires { 2 ≤ length (said r) }
    ensures { said result ≡ damaged f (said r) }
{
    match f {
        Fault::Checksum => flipped(r),
        Fault::Truncated => halved(r),
        _ => r,
    }
}

// The bytes that a meter, asked already, sends.
pub fn readout(m: Meter, elapsed: f64, clock: Clock) -> Reply
    ensures { said result ≡ readout elapsed clock (plain_meter m) }
{
    damage(m.built.fault, response(m, elapsed, clock))
}
