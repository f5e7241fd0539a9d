// Models and faults by their numbers, and the numbers. Any byte means one of each, so that no conversion fails. Each is a
// match of its own: a table for one generic function would have the same rows.
ghost use Rattle.std.specs.Prelude.{◌≡◌};
ghost use Rattle.meter.specs.Kinds.{model_by, fault_by, model_byte_value, fault_byte_value};

use super::{Fault, Model};

impl From<u8> for Model {
    ghost from_gives = { λ b m. m ≡ model_by b };

    fn from(b: u8) -> Model {
        match b {
            0 => Model::Heat,
            1 => Model::Electricity,
            2 => Model::Water,
            _ => Model::Fixed,
        }
    }
}

impl From<u8> for Fault {
    ghost from_gives = { λ b f. f ≡ fault_by b };

    fn from(b: u8) -> Fault {
        match b {
            0 => Fault::None,
            1 => Fault::Checksum,
            2 => Fault::Truncated,
            3 => Fault::Busy,
            4 => Fault::WrongAddress,
            5 => Fault::Flaky,
            _ => Fault::TooMany,
        }
    }
}

impl From<Model> for u8 {
    ghost from_gives = { λ m b. b ≡ model_byte_value m };

    fn from(model: Model) -> u8 {
        model as u8
    }
}

impl From<Fault> for u8 {
    ghost from_gives = { λ f b. b ≡ fault_byte_value f };

    fn from(fault: Fault) -> u8 {
        fault as u8
    }
}
