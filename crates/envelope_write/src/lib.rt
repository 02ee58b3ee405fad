// The envelope written (3.3, appendix A): its frame is put into a lent buffer, or a refusal is given and the buffer is left as it was.
#![tactic(auto)]

ghost use Rattle.std.specs.Prelude.{◌≡◌, length};
ghost use Rattle.lists.specs.Places.{element_at};
ghost use Rattle.address.specs.Address.{zero_address};
ghost use Rattle.lists.specs.Refusals.{unless_refused};
ghost use Rattle.refusal.specs.Numbers.{Answers};
ghost use Rattle.buffer.specs.Writing.{written, written_refusal, written_count};
ghost use Rattle.envelope_write.specs.Refusal.{size_for, frame_write_refusal};
ghost use Rattle.envelope_write.specs.Write.{write_frame_of, after_of};

use address::Address;
use envelope::Fixed;
use refusal::Refusal;
use refusing::frame_write_refusal;
use storing::put_frame;

mod refusing;
mod storing;

// Writes an envelope into out, and gives the number of bytes written, or the refusal. Places past the count, and the fields' length, are not looked at.
pub fn write_frame(
    e: Fixed,
    addresses: [Address; 63],
    contents: &[u8],
    out: &mut [u8],
) -> Result<usize, Refusal>
    ensures value { Answers result (frame_write_refusal e (element_at zero_address addresses) (length contents.now) (length out.old)) (size_for e (length contents.now)) }
    ensures buffer { out.new ≡ after_of e (element_at zero_address addresses) contents.now out.old }
    ensures answer { written result ≡ write_frame_of e (element_at zero_address addresses) (length contents.now) (length out.old) }
    ensures refusal { written_refusal (written result) ≡ frame_write_refusal e (element_at zero_address addresses) (length contents.now) (length out.old) }
    ensures count { written_count (written result) ≡ unless_refused (frame_write_refusal e (element_at zero_address addresses) (length contents.now) (length out.old)) (size_for e (length contents.now)) 0 }
{
    frame_write_refusal(e, addresses, contents.len(), out.len())?;
    Ok(put_frame(e, addresses, contents, out))
}
