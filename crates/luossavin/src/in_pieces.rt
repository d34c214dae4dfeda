// Messages in pieces, for a host: the calls of the crate `pieces`, which a start takes the key's record for. A state goes in
// and comes back by value, beside the answer, and each of its values has an answer.
ghost use Rattle.std.specs.Prelude.{◌≡◌, []};
ghost use Rattle.cipher_mode.specs.Answer.{head_of};
ghost use Rattle.pieces.specs.Calls.{ctr_piece, ctr_end, seal_piece, seal_end, opens_piece, opens_end};
ghost use Rattle.luossavin.specs.Host.{head_in};
ghost use Rattle.luossavin.specs.InPieces.{ctr_reported, seal_reported, opens_reported, direction_of, host_ctr_start, host_seal_start, host_opens_start};

use crate::LuossavinAnswer;
use crate::key::LuossavinKey;
use cipher_mode::Direction;
use pieces::ctr::Ctr;
use pieces::opens::Opens;
use pieces::seal::Seal;
use pieces::{Step, ctr, opens, seal};

// A struct for each state, and not one generic `Step`: the signature of an exported call takes no type arguments.
#[repr(C)]
#[derive(Clone, Copy)]
pub struct LuossavinCtrStep {
    pub answer: LuossavinAnswer,
    pub state: Ctr,
}

#[repr(C)]
#[derive(Clone, Copy)]
pub struct LuossavinSealStep {
    pub answer: LuossavinAnswer,
    pub state: Seal,
}

#[repr(C)]
#[derive(Clone, Copy)]
pub struct LuossavinOpensStep {
    pub answer: LuossavinAnswer,
    pub state: Opens,
}

impl From<Step<Ctr>> for LuossavinCtrStep {
    ghost from_gives = { λ step told. (head_in told.answer ≡ head_of step.answer) × (told.state ≡ step.state) };

    fn from(step: Step<Ctr>) -> LuossavinCtrStep {
        LuossavinCtrStep {
            answer: step.answer.into(),
            state: step.state,
        }
    }
}

impl From<Step<Seal>> for LuossavinSealStep {
    ghost from_gives = { λ step told. (head_in told.answer ≡ head_of step.answer) × (told.state ≡ step.state) };

    fn from(step: Step<Seal>) -> LuossavinSealStep {
        LuossavinSealStep {
            answer: step.answer.into(),
            state: step.state,
        }
    }
}

impl From<Step<Opens>> for LuossavinOpensStep {
    ghost from_gives = { λ step told. (head_in told.answer ≡ head_of step.answer) × (told.state ≡ step.state) };

    fn from(step: Step<Opens>) -> LuossavinOpensStep {
        LuossavinOpensStep {
            answer: step.answer.into(),
            state: step.state,
        }
    }
}

// A flag of the header. Both types are of other crates, so this is no `From`.
pub(crate) fn direction_of(decrypt: bool) -> Direction
    ensures { result ≡ direction_of decrypt }
{
    if decrypt {
        Direction::Decrypt
    } else {
        Direction::Encrypt
    }
}

#[tactic(auto, unfolding(crate::specs::InPieces::host_ctr_start))]
#[unsafe(no_mangle)]
pub extern "C" fn luossavin_ctr_start(
    key: LuossavinKey,
    decrypt: bool,
    iv: &[u8],
) -> LuossavinCtrStep
    ensures { ctr_reported result [] ≡ host_ctr_start key decrypt iv.now }
{
    ctr::start(direction_of(decrypt), key.into(), iv).into()
}

#[unsafe(no_mangle)]
pub extern "C" fn luossavin_ctr_piece(state: Ctr, data: &[u8], out: &mut [u8]) -> LuossavinCtrStep
    ensures { ctr_reported result out.new ≡ ctr_piece state «data».now out.old }
{
    state.piece(data, out).into()
}

#[unsafe(no_mangle)]
pub extern "C" fn luossavin_ctr_end(state: Ctr) -> LuossavinCtrStep
    ensures { ctr_reported result [] ≡ ctr_end state }
{
    state.end().into()
}

#[tactic(auto, unfolding(crate::specs::InPieces::host_seal_start))]
#[unsafe(no_mangle)]
pub extern "C" fn luossavin_seal_start(
    key: LuossavinKey,
    aad: &[u8],
    iv: &[u8],
) -> LuossavinSealStep
    ensures { seal_reported result [] ≡ host_seal_start key aad.now iv.now }
{
    seal::start(key.into(), aad, iv).into()
}

#[unsafe(no_mangle)]
pub extern "C" fn luossavin_seal_piece(
    state: Seal,
    data: &[u8],
    out: &mut [u8],
) -> LuossavinSealStep
    ensures { seal_reported result out.new ≡ seal_piece state «data».now out.old }
{
    state.piece(data, out).into()
}

#[unsafe(no_mangle)]
pub extern "C" fn luossavin_seal_end(state: Seal, out: &mut [u8]) -> LuossavinSealStep
    ensures { seal_reported result out.new ≡ seal_end state out.old }
{
    state.end(out).into()
}

#[tactic(auto, unfolding(crate::specs::InPieces::host_opens_start))]
#[unsafe(no_mangle)]
pub extern "C" fn luossavin_opens_start(
    key: LuossavinKey,
    aad: &[u8],
    iv: &[u8],
) -> LuossavinOpensStep
    ensures { opens_reported result [] ≡ host_opens_start key aad.now iv.now }
{
    opens::start(key.into(), aad, iv).into()
}

#[unsafe(no_mangle)]
pub extern "C" fn luossavin_opens_piece(state: Opens, data: &[u8]) -> LuossavinOpensStep
    ensures { opens_reported result [] ≡ opens_piece state «data».now }
{
    state.piece(data).into()
}

#[unsafe(no_mangle)]
pub extern "C" fn luossavin_opens_end(state: Opens, tag: &[u8]) -> LuossavinOpensStep
    ensures { opens_reported result [] ≡ opens_end state tag.now }
{
    state.end(tag).into()
}
