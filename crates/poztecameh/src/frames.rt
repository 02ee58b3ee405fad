// What C calls to read and to write a frame.

ghost use Rattle.std.specs.Prelude.{◌≡◌, length};
ghost use Rattle.envelope_door.specs.Calls.{pz_read_refusal, pz_read_place, pz_read_image, pz_write_refusal, pz_write_count, pz_write_frame};

// Reads a frame, and writes its image; `place` is where a refused frame is at fault, else 0.
#[unsafe(no_mangle)]
pub extern "C" fn pz_read(frame: &[u8], image: &mut [u8], place: &mut u16) -> u8
    ensures { (result ≡ pz_read_refusal frame.now (length image.old)) × (place.new ≡ pz_read_place frame.now) × (image.new ≡ pz_read_image frame.now image.old) }
{
    envelope_door::pz_read(frame, image, place)
}

// Writes the frame of an image and some contents; `written` is how many bytes.
#[unsafe(no_mangle)]
pub extern "C" fn pz_write(image: &[u8], contents: &[u8], frame: &mut [u8], written: &mut u16) -> u8
    ensures { (result ≡ pz_write_refusal image.now (length contents.now) (length frame.old)) × (written.new ≡ pz_write_count image.now (length contents.now) (length frame.old)) × (frame.new ≡ pz_write_frame image.now contents.now frame.old) }
{
    envelope_door::pz_write(image, contents, frame, written)
}
