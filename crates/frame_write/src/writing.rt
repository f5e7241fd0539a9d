// Each kind of telegram written into lent bytes.
ghost use Rattle.std.specs.Prelude.{◌≡◌, ◌+◌, ◌≤◌, [], ◌∷◌, ◌++◌, length, take, drop};
ghost use Rattle.frame.specs.Protocol.{start_long, stop_byte};
ghost use Rattle.frame.specs.Frame.{Telegram, ack, short, long, sum, encode, data_of};
ghost use Rattle.frame_write.specs.Writer.{write};
ghost use Rattle.frame_write.specs.View.{written_of};

use crate::WriteError;
use frame::{ACK, START_LONG, START_SHORT, STOP, checksum};

// Some bytes from a place on, for which there is room. It is private because here all fits, where `laws::copy` cuts what does
// not fit.
fn put(bytes: &[u8], lent: &mut [u8], from: usize)
    requires { from + length bytes.now ≤ length lent.old }
    ensures { lent.new ≡ take from lent.old ++ bytes.now ++ drop (from + length bytes.now) lent.old }
{
    lent[from..from + bytes.len()].copy_from_slice(bytes);
}

// The sum of a long telegram, over C, A, CI and the data.
fn long_sum(control: u8, address: u8, ci: u8, data: &[u8]) -> u8
    ensures { result ≡ sum (control ∷ address ∷ ci ∷ «data».now) }
{
    control
        .wrapping_add(address)
        .wrapping_add(ci)
        .wrapping_add(checksum(data))
}

fn put_long(control: u8, address: u8, ci: u8, data: &[u8], lent: &mut [u8])
    requires { (length «data».now ≤ 252) × (length «data».now + 9 ≤ length lent.old) }
    ensures { lent.new ≡ encode (long control address ci «data».now) ++ drop (length «data».now + 9) lent.old }
{
    let n = data.len();
    let l = (n + 3) as u8;
    put(
        &[START_LONG, l, l, START_LONG, control, address, ci],
        lent,
        0,
    );
    put(data, lent, 7);
    put(&[long_sum(control, address, ci, data), STOP], lent, n + 7);
}

// A telegram of N bytes in front of the lent ones, if there is room.
fn write_front<const N: usize>(bytes: [u8; N], lent: &mut [u8]) -> Result<usize, WriteError>
    ensures { (t : Telegram) → encode t ≡ bytes.entry → length (data_of t) ≤ 252 → written_of result lent.new ≡ write t lent.old }
{
    if lent.len() < N {
        return Err(WriteError::NoRoom);
    }
    put(&bytes, lent, 0);
    Ok(N)
}

pub(crate) fn encode_ack(lent: &mut [u8]) -> Result<usize, WriteError>
    ensures { written_of result lent.new ≡ write ack lent.old }
{
    write_front([ACK], lent)
}

pub(crate) fn encode_short(control: u8, address: u8, lent: &mut [u8]) -> Result<usize, WriteError>
    ensures { written_of result lent.new ≡ write (short control address) lent.old }
{
    let sum = control.wrapping_add(address);
    write_front([START_SHORT, control, address, sum, STOP], lent)
}

pub(crate) fn encode_long(
    control: u8,
    address: u8,
    ci: u8,
    data: &[u8],
    lent: &mut [u8],
) -> Result<usize, WriteError>
    ensures { written_of result lent.new ≡ write (long control address ci «data».now) lent.old }
{
    let n = data.len();
    if 252 < n {
        return Err(WriteError::DataTooLong);
    }
    if lent.len() < n + 9 {
        return Err(WriteError::NoRoom);
    }
    put_long(control, address, ci, data, lent);
    Ok(n + 9)
}
