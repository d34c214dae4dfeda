// What is done once nothing stands against it: bytes to bytes.
ghost use Rattle.std.specs.Prelude.{◌≡◌, false, ◌++◌, ◌-◌, ◌≤◌, length, drop};
ghost use Rattle.block.specs.Words.{unwords};
ghost use Rattle.counter.specs.CameRound.{blocks_of, ctr_came_round};
ghost use Rattle.walk.specs.Walk.{chain};
ghost use Rattle.stream.specs.Stream.{stream_mode};
ghost use Rattle.cipher_mode.specs.Outcome.{leaving, reporting, done};
ghost use Rattle.cipher_mode.specs.Tables.{room_of};
ghost use Rattle.cipher_mode.specs.Answer.{done_head, ended};
ghost use Rattle.cipher_mode.specs.Checks.{wrong_iv, label_check, data_check};
ghost use Rattle.cipher_mode.specs.Calls.{keys_for, block_of, cfb_kind, cbc_result, gcm_result, mode_result};

use crate::answer::Refusal;
use crate::{CipherMode, Direction, Done, checks};
use cipher::Engine;
use stream::Kind;

// The round keys in the order that a direction takes them.
fn keys_for(rk: [u32; 32], direction: Direction) -> [u32; 32]
    ensures { result ≡ keys_for direction rk }
{
    match direction {
        Direction::Encrypt => rk,
        Direction::Decrypt => cipher::reversed(rk),
    }
}

// A single block, which has none beside it.
pub(crate) fn block(mark: u8, rk: [u32; 32], direction: Direction, block_in: &[u8], out: &mut [u8])
    requires block_in_len { length block_in.now ≡ 16 }
    requires in_bounds { 16 ≤ length out.old }
    ensures { out.new ≡ block_of direction rk block_in.now ++ drop 16 out.old }
{
    let keys = keys_for(rk, direction);
    let engine = cipher::engine_of(mark, true);
    block::put_block(
        cipher::encrypt(engine, keys, block::split_block(block_in)),
        out,
    );
}

// Cfb has a kind for each direction; Ofb and Ctr are their own opposite. No From: it is of one mode alone.
fn cfb_kind(direction: Direction) -> Kind
    ensures { result ≡ cfb_kind direction }
{
    match direction {
        Direction::Encrypt => Kind::CfbEncrypt,
        Direction::Decrypt => Kind::CfbDecrypt,
    }
}

// The block of an IV that is one.
fn iv_block(iv: &[u8]) -> [u32; 4]
    requires { length iv.now ≡ 16 }
    ensures { unwords result ≡ iv.now }
{
    block::split_block(iv)
}

// A message to be worked on: the engine and the round keys that it goes by, the direction, and what was lent to be read. How long
// the IV is and that the data are in order stand in the contracts: they hang on the mode, which comes beside it.
#[derive(Clone, Copy)]
pub(crate) struct Message<'a> {
    pub engine: Engine,
    pub rk: [u32; 32],
    pub direction: Direction,
    pub aad: &'a [u8],
    pub data: &'a [u8],
    pub iv: &'a [u8],
}

impl Message<'_> {
    // Cfb, Ofb and Ctr, either way.
    fn by_stream(&self, kind: Kind, out: &mut [u8]) -> Done
        requires iv_len { length self.now.iv.now ≡ 16 }
        requires data_in_bounds { length self.now.data.now ≤ length out.old }
        ensures { leaving (done_head result) out.new ≡ done (chain (stream_mode kind self.now.rk) self.now.iv.now self.now.data.now) out.old }
    {
        let start = iv_block(self.iv);
        stream::stream(self.engine, self.rk, kind, start, false, self.data, out);
        Done {
            length: self.data.len(),
            came_round: false,
        }
    }

    // Ctr, either way, which tells of its counter.
    fn by_ctr(&self, out: &mut [u8]) -> Done
        requires iv_len { length self.now.iv.now ≡ 16 }
        requires data_in_bounds { length self.now.data.now ≤ length out.old }
        ensures { leaving (done_head result) out.new ≡ reporting (ctr_came_round self.now.iv.now (blocks_of (length self.now.data.now))) (done (chain (stream_mode Kind.Ctr self.now.rk) self.now.iv.now self.now.data.now) out.old) }
    {
        let done = self.by_stream(Kind::Ctr, out);
        Done {
            came_round: counter::ctr_came_round(iv_block(self.iv), self.data.len()),
            ..done
        }
    }

    fn by_cbc(&self, out: &mut [u8]) -> Result<Done, Refusal>
        requires iv_len { length self.now.iv.now ≡ 16 }
        requires data_value { data_check self.now.direction CipherMode.Cbc (length self.now.data.now) ≡ Ok tt }
        requires data_in_bounds { room_of CipherMode.Cbc self.now.direction (length self.now.data.now) ≤ length out.old }
        ensures { ended result out.new ≡ cbc_result self.now.direction self.now.rk self.now.data.now self.now.iv.now out.old }
    {
        let start = iv_block(self.iv);
        let length = match self.direction {
            Direction::Encrypt => {
                cbc::encrypt(self.engine, self.rk, start, self.data, out);
                checks::encrypted_length(CipherMode::Cbc, self.data.len())
            }
            Direction::Decrypt => cbc::decrypt(self.engine, self.rk, start, self.data, out)?,
        };
        Ok(Done {
            length,
            came_round: false,
        })
    }

    // How many bytes of a Gcm message are its text: a sealed one has its tag behind it.
    fn text_length(&self) -> usize
        requires { self.now.direction ≡ Direction.Decrypt → 16 ≤ length self.now.data.now }
        ensures { (self.now.direction ≡ Direction.Encrypt → result ≡ length self.now.data.now) × (self.now.direction ≡ Direction.Decrypt → result ≡ length self.now.data.now - 16) }
    {
        match self.direction {
            Direction::Encrypt => self.data.len(),
            Direction::Decrypt => self.data.len() - 16,
        }
    }

    fn by_gcm(&self, out: &mut [u8]) -> Result<Done, Refusal>
        requires iv_value { wrong_iv CipherMode.Gcm (length self.now.iv.now) ≡ false }
        requires aad_value { label_check CipherMode.Gcm (length self.now.aad.now) ≡ Ok tt }
        requires data_value { data_check self.now.direction CipherMode.Gcm (length self.now.data.now) ≡ Ok tt }
        requires data_in_bounds { room_of CipherMode.Gcm self.now.direction (length self.now.data.now) ≤ length out.old }
        ensures { ended result out.new ≡ gcm_result self.now.direction self.now.rk self.now.aad.now self.now.data.now self.now.iv.now out.old }
    {
        let n = self.text_length();
        let begun = gcm::start(self.engine, self.rk, self.iv, n);
        let came_round = counter::gcm_came_round(begun.j0[3], n);
        let pads = begun.pads.as_ref().map(<[u8; 512]>::as_slice);
        match self.direction {
            Direction::Encrypt => {
                gcm::encrypt(
                    self.engine,
                    self.rk,
                    begun.h,
                    begun.j0,
                    pads,
                    self.aad,
                    self.data,
                    out,
                );
                Ok(Done {
                    length: checks::encrypted_length(CipherMode::Gcm, self.data.len()),
                    came_round,
                })
            }
            Direction::Decrypt => {
                if gcm::decrypt(
                    self.engine,
                    self.rk,
                    begun.h,
                    begun.j0,
                    pads,
                    self.aad,
                    self.data,
                    out,
                ) {
                    Ok(Done {
                        length: n,
                        came_round,
                    })
                } else {
                    Err(Refusal::InvalidTag)
                }
            }
        }
    }

    // By its mode. Only Gcm looks at the label.
    pub(crate) fn by_mode(&self, mode: CipherMode, out: &mut [u8]) -> Result<Done, Refusal>
        requires iv_value { wrong_iv mode (length self.now.iv.now) ≡ false }
        requires aad_value { label_check mode (length self.now.aad.now) ≡ Ok tt }
        requires data_value { data_check self.now.direction mode (length self.now.data.now) ≡ Ok tt }
        requires data_in_bounds { room_of mode self.now.direction (length self.now.data.now) ≤ length out.old }
        ensures { ended result out.new ≡ mode_result mode self.now.direction self.now.rk self.now.aad.now self.now.data.now self.now.iv.now out.old }
    {
        match mode {
            CipherMode::Cfb => Ok(self.by_stream(cfb_kind(self.direction), out)),
            CipherMode::Ofb => Ok(self.by_stream(Kind::Ofb, out)),
            CipherMode::Ctr => Ok(self.by_ctr(out)),
            CipherMode::Cbc => self.by_cbc(out),
            CipherMode::Gcm => self.by_gcm(out),
        }
    }
}
