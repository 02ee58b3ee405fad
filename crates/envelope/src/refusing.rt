// The refusals of an envelope's values, 4 to 9.
ghost use Rattle.std.specs.Prelude.{◌≡◌};
ghost use Rattle.lists.specs.Places.{element_at};
ghost use Rattle.envelope.specs.Refusal.{outside, wrong_version};
ghost use Rattle.envelope.specs.Private.{judged_by};
ghost use Rattle.refusal.specs.Numbers.{AnswersAt};

use crate::Fixed;
use crate::keys::first_seen;
use refusal::{Fault, Refusal};

pub const MOST_DESTINATIONS: u8 = 63;

pub const LONGEST_CONTENTS: usize = 1023;

pub const LOWEST_PRIORITY: u8 = 9;

pub const PAGE_OFFICER: u8 = 3;

// Whether n is not 1 to top.
fn is_outside(top: u8, n: u8) -> bool
    ensures { result ≡ outside top n }
{
    (n == 0) | (top < n)
}

// Whether a message of a type has another version than its own (3.3.2).
fn wrong_version(version: u8, kind: u8) -> bool
    ensures { result ≡ wrong_version version kind }
{
    if kind == PAGE_OFFICER {
        version != 2
    } else {
        version != 1
    }
}

// Refusals 4 to 9 of the fields, n bytes of contents and the destinations' keys; stray says whether anything is out of range. The place
// beside 8 is that of the first destination that equals an earlier one, else 0.
pub fn judged_by(e: Fixed, n: usize, stray: bool, keys: &[u32; 63]) -> Result<(), Fault>
    ensures { AnswersAt result (judged_by e n stray (element_at 0 keys.now)).refusal (judged_by e n stray (element_at 0 keys.now)).twin tt }
{
    if is_outside(MOST_DESTINATIONS, e.count) {
        return Err(Refusal::FrameCount.at(0));
    }
    if LONGEST_CONTENTS < n {
        return Err(Refusal::FrameContents.at(0));
    }
    if stray {
        return Err(Refusal::FrameRange.at(0));
    }
    if is_outside(LOWEST_PRIORITY, e.priority) {
        return Err(Refusal::FramePriority.at(0));
    }
    let twin = first_seen(keys, e.count);
    if twin < e.count {
        return Err(Refusal::FrameRepeated.at(twin as usize));
    }
    if wrong_version(e.version, e.kind) {
        return Err(Refusal::FrameVersion.at(0));
    }
    Ok(())
}
