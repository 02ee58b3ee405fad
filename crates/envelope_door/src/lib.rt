// What C calls to read and to write a frame (include/poztecameh.h; poztecameh exports them): through the image of its envelope, 267 bytes.
#![tactic(auto)]

ghost use Rattle.std.specs.Prelude.{◌≡◌, length};
ghost use Rattle.refusal.specs.Numbers.{number};
ghost use Rattle.envelope_door.specs.Calls.{pz_read_refusal, pz_read_place, pz_read_image, stray_ack, pz_write_refusal, pz_write_count, pz_write_frame};

use envelope::{DESTINATIONS_OFFSET, LONGEST_CONTENTS, MOST_DESTINATIONS};
use envelope_image::ENVELOPE_SIZE;
use refusal::Refusal;

// Reads a frame, and writes its image; `place` is where a refused frame is at fault, else 0.
pub fn pz_read(frame: &[u8], image: &mut [u8], place: &mut u16) -> u8
    ensures { (result ≡ pz_read_refusal frame.now (length image.old)) × (place.new ≡ pz_read_place frame.now) × (image.new ≡ pz_read_image frame.now image.old) }
{
    *place = 0;
    match envelope_read::read_frame(frame) {
        Err(fault) => {
            *place = fault.place as u16;
            fault.refusal.number()
        }
        Ok(e) => {
            if image.len() < ENVELOPE_SIZE {
                return 10;
            }
            envelope_image::put_envelope(image, e, &frame[DESTINATIONS_OFFSET..]);
            0
        }
    }
}

// Why an image is refused whose ack byte is above 1: 6, unless 4 or 5 comes first.
fn stray_ack(count: u8, n: usize) -> Refusal
    ensures { number result ≡ stray_ack count n }
{
    if (count == 0) | (MOST_DESTINATIONS < count) {
        return Refusal::FrameCount;
    }
    if LONGEST_CONTENTS < n {
        return Refusal::FrameContents;
    }
    Refusal::FrameRange
}

// Writes the frame of an image and some contents; `written` is how many bytes.
pub fn pz_write(image: &[u8], contents: &[u8], frame: &mut [u8], written: &mut u16) -> u8
    ensures { (result ≡ pz_write_refusal image.now (length contents.now) (length frame.old)) × (written.new ≡ pz_write_count image.now (length contents.now) (length frame.old)) × (frame.new ≡ pz_write_frame image.now contents.now frame.old) }
{
    *written = 0;
    if image.len() < ENVELOPE_SIZE {
        return 10;
    }
    let e = envelope_image::fields_in(image);
    if 1 < image[9] {
        return stray_ack(e.count, contents.len()).number();
    }
    let addresses = envelope_image::addresses_in(image);
    match envelope_write::write_frame(e, addresses, contents, frame) {
        Err(refusal) => refusal.number(),
        Ok(n) => {
            *written = n as u16;
            0
        }
    }
}
