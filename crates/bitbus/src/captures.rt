// The C surface's functions of captures: one record, and the listing.
ghost use Rattle.std.specs.Prelude.{◌≡◌, length};
ghost use Rattle.listing.specs.Listing.{list_bytes, list_of};
ghost use Rattle.capture.specs.Record.{record_at};
ghost use Rattle.bitbus.specs.Call.{after, number};
ghost use Rattle.bitbus.specs.Captures.{list_values, record_values};

use crate::call;
use capture::records;

// What stands at a place of a capture: 18, 8, 9, 10, 12.
pub fn bitbus_record(capture: &[u8], at: usize, values: &mut [usize; 5]) -> u32
    ensures number { result ≡ number (record_at capture.now at) }
    ensures values { values.new ≡ after record_values (record_at capture.now at) values.old }
{
    call::finish(records::read(capture, at), values)
}

// Writes the listing of a capture and gives its size: 11.
pub fn bitbus_list(capture: &[u8], out: &mut [u8], values: &mut [usize; 1]) -> u32
    ensures number { result ≡ number (list_of capture.now (length out.old)) }
    ensures out { out.new ≡ list_bytes capture.now out.old }
    ensures values { values.new ≡ after list_values (list_of capture.now (length out.old)) values.old }
{
    call::finish(listing::list(capture, out), values)
}
