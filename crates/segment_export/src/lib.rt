// The segment as a list.
#![tactic(auto)]

ghost use Rattle.std.specs.Prelude.{◌≡◌, [], ◌∷◌, ◌++◌, ◌+◌, ◌/◌, ◌%◌, ◌≤◌, ◌<◌, length, drop};
ghost use Rattle.meter.specs.View.{plain_meter};
ghost use Rattle.list_write.specs.Record.{record_for};
ghost use Rattle.list_write.specs.View.{held};
ghost use Rattle.segment_image.specs.Image.{decode_image};
ghost use Rattle.segment_export.specs.Export.{any_above250, export_into_value};
ghost use Rattle.segment_export.specs.ProgramExport.{AppendsRecord, RecordsWritten};
ghost use Rattle.segment_export.specs.View.{export_error_number, exporting_number_value, exporting_count_value, exported_by};

use laws::answer::Numbered;
use laws::refused;
use list_write::{REST, Written};
use meter::Meter;
use segment::METERS;
use segment_image::IMAGE;
use segment_places::{head, meters};

// As many bytes as the records of a segment have at the most, each after its length byte.
const RECORDS: usize = (REST + 1) * METERS;

// Why an export is refused: a primary above 250, or lent bytes too few.
#[derive(Clone, Copy, PartialEq, Eq, Debug)]
pub enum ExportError {
    HighPrimary,
    NoRoom,
}

impl Numbered for ExportError {
    ghost number_of = { export_error_number };

    fn number(self) -> u32 {
        match self {
            ExportError::HighPrimary => refused::HIGH_PRIMARY,
            ExportError::NoRoom => refused::ROOM,
        }
    }
}

// Whether a meter has a primary that an opening refuses.
fn any_above_250(image: &[u8; IMAGE]) -> bool
    ensures { result ≡ any_above250 (decode_image image.now).meters }
{
    (0..head::count_of(image)).any(|i| 250 < meters::meter_at(image, i).state.primary)
}

// The record of a meter, whatever its baud, behind those before it.
fn append_meter(records: &mut Written<RECORDS>, bus: u32, m: Meter)
    ensures { AppendsRecord (record_for bus (plain_meter m)) (held records.old) (held records.new) }
{
    let rest = list_write::rest_of(bus, m);
    records.push_record(rest.as_slice());
}

// The records of the meters, in segment order: an image is read by place.
fn write_records(image: &[u8; IMAGE]) -> Written<RECORDS>
    ensures { RecordsWritten (decode_image image.now) (held result) }
{
    let bus = head::baud_of(image);
    let mut records = Written::new();
    for i in 0..head::count_of(image) {
        append_meter(&mut records, bus, meters::meter_at(image, i));
    }
    records
}

// The list's first three bytes: its version, and how many bytes follow, the high byte first.
fn head_bytes(n: usize) -> [u8; 3]
    requires { n < 65536 }
    ensures { result ≡ 1 ∷ n / 256 ∷ n % 256 ∷ [] }
{
    let [high, low] = (n as u16).to_be_bytes();
    [1, high, low]
}

// The whole list over the first of the lent bytes.
fn write_list(lent: &mut [u8], records: &[u8])
    requires { (length records.now < 65536) × (3 + length records.now ≤ length lent.old) }
    ensures { lent.new ≡ (1 ∷ length records.now / 256 ∷ length records.now % 256 ∷ records.now) ++ drop (3 + length records.now) lent.old }
{
    let head = head_bytes(records.len());
    laws::copy(&head, lent);
    laws::copy(records, &mut lent[3..]);
}

// Writes the present meters, in segment order, as a list to be opened at the bus baud.
// 18: a primary above 250; 12: lent bytes too few.
pub fn export(image: &[u8; IMAGE], lent: &mut [u8]) -> Result<u16, ExportError>
    ensures { exported_by (exporting_number_value result) (exporting_count_value result) lent.new ≡ export_into_value lent.old (decode_image image.now) }
{
    if any_above_250(image) {
        return Err(ExportError::HighPrimary);
    }
    let written = write_records(image);
    let records = written.as_slice();
    let n = records.len() + 3;
    if lent.len() < n {
        return Err(ExportError::NoRoom);
    }
    write_list(lent, records);
    Ok(n as u16)
}
