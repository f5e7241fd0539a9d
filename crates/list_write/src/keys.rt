// The keys of media and faults.
ghost use Rattle.std.specs.Prelude.{◌≡◌, [], option_map, unwrap_or};
ghost use Rattle.std.specs.List.{find};
ghost use Rattle.list_check.specs.Tables.{media};
ghost use Rattle.list_write.specs.Record.{medium_text, fault_text};

use list_check::tables::{FAULTS, Keyed, MEDIA, Medium};
use meter::Fault;

// The key of the first row with this value; an empty text where there is none.
fn key_of<T: PartialEq>(rows: &'static [Keyed<T>], value: &T) -> &'static [u8]
    ensures { result.now ≡ unwrap_or (option_map (λ row. row.key.now) (find (λ row. T.eq row.value value.now) rows.now)) [] }
{
    match rows.iter().find(|row| row.value == *value) {
        Some(row) => row.key,
        None => &[],
    }
}

// The key of a record's medium.
#[tactic(auto, unfolding(list_check::specs::Tables::media), using(crate::proofs::KeyLaws::found_key))]
pub(crate) fn medium_key(medium: Medium) -> &'static [u8]
    ensures { result.now ≡ medium_text media medium.code medium.model }
{
    key_of(&MEDIA, &medium)
}

// The key of a record's fault.
pub(crate) fn fault_key(fault: Fault) -> &'static [u8]
    ensures { result.now ≡ fault_text fault }
{
    key_of(&FAULTS, &fault)
}
