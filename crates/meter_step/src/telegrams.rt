// Which telegram it is, and whether it is for a meter: a function for each test of the requirements.
ghost use Rattle.std.specs.Prelude.{◌≡◌, ◌-◌, ◌||◌, eqb, true, SomeIff, get_or};
ghost use Rattle.laws.specs.Words.{at};
ghost use Rattle.meter.specs.Meter.{rates};
ghost use Rattle.frame.specs.Protocol.{ci_first_baud, addr_selected, addr_broadcast_reply, addr_broadcast};
ghost use Rattle.meter_step.specs.Hear.{is_nke_value, is_req_ud2_value, fcb_of_value, is_snd_ud_value, is_select_value, sets_primary_value, sets_baud_value, reaches, target};
ghost use Rattle.meter.specs.View.{plain_meter};

use meter::Meter;

pub(crate) fn is_nke(control: u8) -> bool
    ensures { result ≡ is_nke_value control }
{
    control == frame::C_SND_NKE
}

pub(crate) fn is_req_ud2(control: u8) -> bool
    ensures { result ≡ is_req_ud2_value control }
{
    control & frame::C_MASK == frame::C_REQ_UD2_MASKED
}

pub(crate) fn fcb_of(control: u8) -> bool
    ensures { result ≡ fcb_of_value control }
{
    control & frame::FCB != 0
}

pub(crate) fn is_snd_ud(control: u8) -> bool
    ensures { result ≡ is_snd_ud_value control }
{
    control & frame::C_MASK == frame::C_SND_UD_MASKED
}

pub(crate) fn is_select(ci: u8, address: u8) -> bool
    ensures { result ≡ is_select_value ci address }
{
    ci == frame::CI_SELECT && address == frame::ADDR_SELECTED
}

// The primary address that a telegram sets: its data are 01 7A and the address.
pub(crate) fn new_primary(ci: u8, data: &[u8]) -> Option<u8>
    ensures { SomeIff result (sets_primary_value ci «data».now ≡ true) (at «data».now 2) }
{
    match data {
        [0x01, 0x7A, primary] if ci == frame::CI_DATA_SEND => Some(*primary),
        _ => None,
    }
}

// The rate that a telegram sets: B8 to BF, with no data.
#[tactic(auto, unfolding(meter::specs::Meter::rates))]
pub(crate) fn new_rate(ci: u8, data: &[u8]) -> Option<u32>
    ensures { SomeIff result (sets_baud_value ci «data».now ≡ true) (get_or rates (ci - ci_first_baud) 0) }
{
    match ci {
        frame::CI_FIRST_BAUD..=frame::CI_LAST_BAUD if data.is_empty() => {
            meter::rate_of(ci - frame::CI_FIRST_BAUD)
        }
        _ => None,
    }
}

// Addresses FE and FF reach every meter.
fn reaches_all(address: u8) -> bool
    ensures { result ≡ (eqb address addr_broadcast_reply || eqb address addr_broadcast) }
{
    address == frame::ADDR_BROADCAST_REPLY || address == frame::ADDR_BROADCAST
}

// FE and FF reach all, FD the selected, any other the meter with this primary address.
fn reaches(address: u8, primary: u8, selected: bool) -> bool
    ensures { result ≡ reaches address primary selected }
{
    if reaches_all(address) {
        true
    } else if address == frame::ADDR_SELECTED {
        selected
    } else {
        primary == address
    }
}

#[tactic(auto, unfolding(crate::specs::Hear::target))]
pub(crate) fn is_target(m: Meter, address: u8) -> bool
    ensures { result ≡ target address (plain_meter m) }
{
    reaches(address, m.state.primary, m.state.selected)
}

// Addresses FD and FF, to which an NKE deselects.
pub(crate) fn deselects(to: u8) -> bool
    ensures { result ≡ (eqb to addr_selected || eqb to addr_broadcast) }
{
    to == frame::ADDR_SELECTED || to == frame::ADDR_BROADCAST
}
