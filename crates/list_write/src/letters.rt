// The letters of a manufacturer.
ghost use Rattle.std.specs.Prelude.{◌≡◌, ◌+◌, ◌≤◌, ◌<◌, length};
ghost use Rattle.list_write.specs.Record.{capitals, manufacturer_text};

use list_check::tables::Medium;
use meter::Model;

const HEAT_OLD: Medium = Medium {
    code: 0x04,
    model: Model::Fixed,
};

// A letter by its five bits, A is 1.
fn letter(n: u16) -> u8
    requires { n < 32 }
    ensures { result ≡ 0x40 + n }
{
    b'@' + (n as u8)
}

// The three letters of a code.
#[tactic(auto, unfolding(crate::specs::Record::capitals))]
pub(crate) fn capitals_of(code: u16) -> [u8; 3]
    ensures { result ≡ capitals code }
{
    [
        letter(code / 1024 % 32),
        letter(code / 32 % 32),
        letter(code % 32),
    ]
}

// How many letters are written: none for a heat_old with the code 0. It is a length, and no `Option` of the letters: a
// text of no letters is written too.
pub(crate) fn letters(code: u16, medium: Medium) -> usize
    ensures { (result ≡ length (manufacturer_text code medium.code medium.model)) × (result ≤ 3) }
{
    if code == 0 && HEAT_OLD == medium {
        0
    } else {
        3
    }
}
