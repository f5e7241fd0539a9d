// A record against the rules of `SimMeter::check`, in its order.
ghost use Rattle.std.specs.Prelude.{◌≡◌, true, ◌≤◌};
ghost use Rattle.std.specs.List.{list_all};
ghost use Rattle.laws.specs.Words.{within};
ghost use Rattle.list_check.specs.Check.{good_id_value, good_manufacturer_value, text_digits};
ghost use Rattle.list.specs.ProgramReading.{listed_of};
ghost use Rattle.meter_identity.specs.Identity.{in_base};
ghost use Rattle.list_check.specs.Checked.{CheckGives};
ghost use Rattle.list_check.specs.ProgramChecked.{own_baud_checked};

use super::tables::{find_fault, find_medium, is_rate};
use super::{Failing, Values};
use list::Listed;
use meter_identity::manufacturer_code;

fn all_digits(text: &[u8]) -> bool
    ensures { result ≡ list_all (λ c. within 0x30 0x39 c) text.now }
{
    text.iter().all(|c| c.is_ascii_digit())
}

fn all_capitals(text: &[u8]) -> bool
    ensures { result ≡ list_all (λ c. within 0x41 0x5A c) text.now }
{
    text.iter().all(|c| c.is_ascii_uppercase())
}

// Eight digits.
fn good_id(text: &[u8]) -> bool
    ensures { result ≡ good_id_value text.now }
{
    text.len() == 8 && all_digits(text)
}

// Three capital letters. An empty one passes only for heat_old.
fn good_manufacturer(text: &[u8], medium: &[u8]) -> bool
    ensures { result ≡ good_manufacturer_value text.now medium.now }
{
    if text.is_empty() {
        b"heat_old".as_slice() == medium
    } else {
        text.len() == 3 && all_capitals(text)
    }
}

// 0 is the bus's at opening; else one of the rates.
#[tactic(auto, unfolding(crate::specs::ProgramChecked::own_baud_checked))]
fn own_baud(baud: u32) -> Result<Option<u32>, Failing>
    ensures { result ≡ own_baud_checked baud }
{
    if baud == 0 {
        Ok(None)
    } else if is_rate(baud) {
        Ok(Some(baud))
    } else {
        Err(Failing::BadBaud)
    }
}

// Eight digits as a number in a base: as nibbles with 16, as a decimal number with 10. Not by `u32::from_str_radix`, which
// takes a `&str` and answers a `Result`: these are bytes, and checked.
fn digits_in(base: u32, text: &[u8]) -> u32
    requires { (base ≤ 16) × (good_id_value text.now ≡ true) }
    ensures { result ≡ in_base base (text_digits text.now) }
{
    let mut n: u32 = 0;
    for c in text {
        n = n * base + u32::from(*c - b'0');
    }
    n
}

// The first rule that the record fails, or its values.
pub fn check(listed: Listed) -> Result<Values, Failing>
    ensures { CheckGives (listed_of listed.entry) result }
{
    if 250 < listed.primary {
        return Err(Failing::BadPrimary);
    }
    if !good_id(listed.id) {
        return Err(Failing::BadId);
    }
    if !good_manufacturer(listed.manufacturer, listed.medium) {
        return Err(Failing::BadManufacturer);
    }
    let medium = find_medium(listed.medium).ok_or(Failing::BadMedium)?;
    let baud = own_baud(listed.baud)?;
    let fault = find_fault(listed.fault).ok_or(Failing::BadFault)?;
    Ok(Values {
        primary: listed.primary,
        version: listed.version,
        baud,
        id: digits_in(16, listed.id),
        number: digits_in(10, listed.id),
        manufacturer: manufacturer_code(listed.manufacturer),
        medium: medium.value,
        fault: fault.value,
    })
}
