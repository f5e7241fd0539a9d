// The byte layout: a record, and the whole list.
ghost use Rattle.std.specs.Prelude.{◌≡◌, length};
ghost use Rattle.list.specs.ProgramReading.{split_text_value, split_texts, record_value, record_given, split_record_value, split_records, count_of, layout_value};
ghost use Rattle.list.specs.Layout.{read_records};

use super::{LayoutError, Listed, Reader};

// A text after its length byte, and the bytes behind it, if it fits.
fn split_text(bytes: &[u8]) -> Option<(&[u8], &[u8])>
    ensures { split_texts result ≡ split_text_value bytes.now }
{
    let (len, rest) = bytes.split_first()?;
    rest.split_at_checked(usize::from(*len))
}

// A record without its length byte: primary; version; own baud; four texts, which fill it exactly.
fn record_in(bytes: &[u8]) -> Option<Listed<'_>>
    ensures { record_given result ≡ record_value bytes.now }
{
    let [primary, version, b0, b1, b2, b3, texts @ ..] = bytes else {
        return None;
    };
    let (id, texts) = split_text(texts)?;
    let (manufacturer, texts) = split_text(texts)?;
    let (medium, texts) = split_text(texts)?;
    let (fault, texts) = split_text(texts)?;
    if !texts.is_empty() {
        return None;
    }
    Some(Listed {
        primary: *primary,
        version: *version,
        baud: u32::from_be_bytes([*b0, *b1, *b2, *b3]),
        id,
        manufacturer,
        medium,
        fault,
    })
}

// One record, its first byte the length of its rest, and the bytes behind it, if it fits.
pub(crate) fn split_record(bytes: &[u8]) -> Option<(Listed<'_>, &[u8])>
    ensures { split_records result ≡ split_record_value bytes.now }
{
    let (record, rest) = split_text(bytes)?;
    Some((record_in(record)?, rest))
}

// The number of records. By `while let`, since the reader is no `Iterator`.
fn count(records: &[u8]) -> Result<usize, LayoutError>
    ensures { result ≡ count_of (read_records (length records.now) records.now) }
{
    let mut reader = Reader { rest: records };
    let mut count: usize = 0;
    while let Some(_) = reader.next()? {
        count += 1;
    }
    Ok(count)
}

// The whole list: byte 0 is version 01; two bytes, big-endian, count all that follows; then records.
pub fn layout(list: &[u8]) -> Result<usize, LayoutError>
    ensures { result ≡ layout_value list.now }
{
    let [version, high, low, records @ ..] = list else {
        return Err(LayoutError::Unversioned);
    };
    if *version != 1 {
        return Err(LayoutError::Unversioned);
    }
    if usize::from(u16::from_be_bytes([*high, *low])) != records.len() {
        return Err(LayoutError::Unfit);
    }
    count(records)
}
