// A job's editions, for a host: the label, sealing and opening under it, and the question whether a file opens under it, which makes
// no text.
ghost use Rattle.std.specs.Prelude.{◌≡◌};
ghost use Rattle.label.specs.Label.{label_of};
ghost use Rattle.luossavin.specs.Host.{head_in, reported, host_mode_call};
ghost use Rattle.luossavin.specs.Edition.{host_edition_opens};

use crate::key::LuossavinKey;
use crate::which::report_found;
use crate::{LuossavinAnswer, mode_call};
use cipher_mode::answer::Refusal;
use cipher_mode::{Direction, answer};

// The six bytes of a label.
#[repr(C)]
#[derive(Clone, Copy)]
pub struct LuossavinLabel {
    pub bytes: [u8; 6],
}

// The mode that seals, by its number in the header: what is promised of an edition is the answer of the exported call of this mode.
const GCM: u32 = 4;

#[unsafe(no_mangle)]
pub extern "C" fn luossavin_label(job: u32, edition: u16) -> LuossavinLabel
    ensures { result.bytes ≡ label_of job edition }
{
    LuossavinLabel {
        bytes: label::label(job, edition),
    }
}

#[unsafe(no_mangle)]
pub extern "C" fn luossavin_edition_opens(
    key: LuossavinKey,
    job: u32,
    edition: u16,
    sealed: &[u8],
    iv: &[u8],
) -> LuossavinAnswer
    ensures { head_in result ≡ host_edition_opens key job edition sealed.now iv.now }
{
    let label = label::label(job, edition);
    let lengths = [6usize];
    let found = editions::which(key.into(), sealed, iv, &label, &lengths);
    report_found(found, answer::number(Refusal::InvalidTag))
}

#[unsafe(no_mangle)]
pub extern "C" fn luossavin_edition_seal(
    key: LuossavinKey,
    job: u32,
    edition: u16,
    text: &[u8],
    iv: &[u8],
    out: &mut [u8],
) -> LuossavinAnswer
    ensures { reported result out.new ≡ host_mode_call Direction.Encrypt 4 key (label_of job edition) text.now iv.now out.old }
{
    let label = label::label(job, edition);
    mode_call(Direction::Encrypt, GCM, key, &label, text, iv, out)
}

#[unsafe(no_mangle)]
pub extern "C" fn luossavin_edition_open(
    key: LuossavinKey,
    job: u32,
    edition: u16,
    sealed: &[u8],
    iv: &[u8],
    out: &mut [u8],
) -> LuossavinAnswer
    ensures { reported result out.new ≡ host_mode_call Direction.Decrypt 4 key (label_of job edition) sealed.now iv.now out.old }
{
    let label = label::label(job, edition);
    mode_call(Direction::Decrypt, GCM, key, &label, sealed, iv, out)
}
