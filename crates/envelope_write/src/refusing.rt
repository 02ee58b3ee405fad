// Whether an envelope that is given as values can be written: refusals 4 to 10.
ghost use Rattle.std.specs.Prelude.{◌≡◌, ◌≤◌};
ghost use Rattle.lists.specs.Places.{any_below, element_at, row};
ghost use Rattle.address.specs.Address.{zero_address};
ghost use Rattle.envelope.specs.Refusal.{most_destinations, stray_at, out_of_range};
ghost use Rattle.envelope.specs.Private.{key_at};
ghost use Rattle.refusal.specs.Numbers.{number_in};
ghost use Rattle.envelope_write.specs.Refusal.{frame_write_refusal};

use address::{Address, LARGEST_SEQ};
use address_bytes::PACKED_SIZE;
use envelope::{Fixed, MOST_DESTINATIONS, SMALLEST_FRAME};
use refusal::Refusal;

// Whether one of the first n addresses is out of range.
fn any_stray(addresses: [Address; 63], n: usize) -> bool
    requires { n ≤ most_destinations }
    ensures { result ≡ any_below (stray_at (element_at zero_address addresses)) n }
{
    for a in &addresses[..n] {
        if !address::in_range(*a) {
            return true;
        }
    }
    false
}

// Whether the source, the sequence number or a destination is out of range.
fn out_of_range(e: Fixed, addresses: [Address; 63]) -> bool
    requires { e.count ≤ most_destinations }
    ensures { result ≡ out_of_range e (element_at zero_address addresses) }
{
    !address::in_range(e.source) | (LARGEST_SEQ < e.seq.0) | any_stray(addresses, e.count as usize)
}

// The keys of the first n addresses.
fn keys_of(addresses: [Address; 63], n: usize) -> [u32; 63]
    requires { n ≤ most_destinations }
    ensures { result ≡ row most_destinations 0 (key_at (element_at zero_address addresses)) n }
{
    let mut keys = [0u32; 63];
    for i in 0..n {
        keys[i] = address_bytes::address_key(addresses[i]);
    }
    keys
}

// Refusals 4 to 10 of an envelope with n bytes of contents.
pub fn frame_write_refusal(
    e: Fixed,
    addresses: [Address; 63],
    n: usize,
    room: usize,
) -> Result<(), Refusal>
    ensures { number_in result ≡ frame_write_refusal e (element_at zero_address addresses) n room }
{
    if MOST_DESTINATIONS < e.count {
        return Err(Refusal::FrameCount);
    }
    let count = e.count as usize;
    let stray = out_of_range(e, addresses);
    let keys = keys_of(addresses, count);
    envelope::judged_by(e, n, stray, &keys)?;
    let size = SMALLEST_FRAME + PACKED_SIZE * count + n;
    if room < size {
        return Err(Refusal::NoRoom);
    }
    Ok(())
}
