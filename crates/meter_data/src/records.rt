// Bytes and data records put behind data in the making.
ghost use Rattle.std.specs.Prelude.{◌≡◌, ◌∷◌, ◌+◌, ◌≤◌};
ghost use Rattle.meter_data.specs.ProgramData.{Puts};
ghost use Rattle.meter_data.specs.View.{held};

use super::Data;

pub(super) fn put<const N: usize>(d: &mut Data, bytes: [u8; N])
    requires { d.old.len + N ≤ 87 }
    ensures bytes { Puts (held d.old) bytes.entry (held d.new) }
    ensures len { d.new.len ≡ d.old.len + N }
{
    let end = d.len + N;
    d.bytes[d.len..end].copy_from_slice(&bytes);
    d.len = end;
}

// A record: DIF and VIF, and a value.
pub(super) fn put_record<const N: usize>(d: &mut Data, dif: u8, vif: u8, value: [u8; N])
    requires { d.old.len + N + 2 ≤ 87 }
    ensures bytes { Puts (held d.old) (dif ∷ vif ∷ value.entry) (held d.new) }
    ensures len { d.new.len ≡ d.old.len + N + 2 }
{
    put(d, [dif, vif]);
    put(d, value);
}
