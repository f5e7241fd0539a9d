// The entries of a search and its summary, as bytes.
ghost use Rattle.std.specs.Prelude.{◌≡◌, ◌++◌, ◌*◌, ◌≤◌, length, take, drop};
ghost use Rattle.list_open.specs.Opening.{most_meters};
ghost use Rattle.c_search.specs.Searches.{entry_bytes_value, summary_of_value};
ghost use Rattle.laws.specs.Words.{each};

use search::EntryRecord;
use segment::METERS;

// Kind, eight digits, count, three bytes 0.
fn entry_bytes(e: EntryRecord) -> [u8; 16]
    ensures { result ≡ entry_bytes_value e }
{
    let d = e.digits;
    let n = e.count.to_le_bytes();
    [
        e.kind as u8,
        d[0],
        d[1],
        d[2],
        d[3],
        d[4],
        d[5],
        d[6],
        d[7],
        n[0],
        n[1],
        n[2],
        n[3],
        0,
        0,
        0,
    ]
}

// The first count entries, 16 bytes each, of the array that the search was lent; the bytes past them stay. By index, since an
// entry's bytes go to 16 times its place.
pub(crate) fn write_entries(found: &[EntryRecord; METERS], count: usize, lent: &mut [u8])
    requires { (count ≤ most_meters) × (16 * count ≤ length lent.old) }
    ensures { lent.new ≡ each (take count found.now) entry_bytes_value ++ drop (16 * count) lent.old }
{
    for i in 0..count {
        lent[16 * i..16 * i + 16].copy_from_slice(&entry_bytes(found[i]));
    }
}

pub(crate) fn summary_of(count: usize, probes: u32, spent: bool) -> [u8; 12]
    ensures { result ≡ summary_of_value count probes spent }
{
    let c = count.to_le_bytes();
    let p = probes.to_le_bytes();
    let s = u32::from(spent).to_le_bytes();
    [
        c[0], c[1], c[2], c[3], p[0], p[1], p[2], p[3], s[0], s[1], s[2], s[3],
    ]
}
