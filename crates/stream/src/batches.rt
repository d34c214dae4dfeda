// Batches: many blocks of a message side by side by the gates, where no block waits for the one before it.
ghost use Rattle.std.specs.Prelude.{◌≡◌, ◌≤◌, length};
ghost use Rattle.block.specs.Words.{unwords};
ghost use Rattle.counter.specs.Counter.{jumped};
ghost use Rattle.walk.specs.Reached.{Reached};
ghost use Rattle.stream.specs.Stream.{stream_mode, counting, kind_of};

use crate::few::block_at;
use crate::{Kind, KnownAhead, step};
use cipher::Engine;
use sliced::LEAST;

// How far a walk has come: the state, and how many bytes are done.
#[derive(Clone, Copy)]
pub(crate) struct Place {
    pub state: [u32; 4],
    pub at: usize,
}

// The counter `m` blocks on. (`wide` is the Bool of `jumped`, the definition in `counter`, and of `sliced`.)
pub(crate) fn counter_after(wide: bool, s: [u32; 4], m: usize) -> [u32; 4]
    requires { m ≤ 512 }
    ensures { unwords result ≡ jumped wide (unwords s) m }
{
    if wide {
        counter::jump(s, m as u64)
    } else {
        counter::gcm_jump(s, m as u32)
    }
}

// As many batches of a message as there are, in a mode whose states are counters: Ctr's are wide, Gctr's are not. (`sliced::next_batch`
// says only that a batch fits, and not how long it is, as docs/PROMISES.md has it: a `for` knows no step.) It is called, and not put in
// place, so that the room of its batches is not on the stack beside that of `feedback`.
#[inline(never)]
fn counters(rk: [u32; 32], wide: bool, iv: [u32; 4], data: &[u8], out: &mut [u8]) -> Place
    requires { length «data».now ≤ length out.old }
    ensures { Reached (stream_mode (counting wide) rk) (unwords iv) «data».now out.old (unwords result.state) out.new result.at }
{
    let mut s = iv;
    let mut at: usize = 0;
    while LEAST <= data.len() - at {
        let m = sliced::next_batch(data.len() - at);
        sliced::counters::encrypt_counters(rk, wide, s, m, &data[at..], &mut out[at..]);
        // by a local of its own: the check takes no call's result right into an array that is handed on whole at the end
        let next = counter_after(wide, s, m);
        s = next;
        at += 16 * m;
    }
    Place { state: s, at }
}

// The same in Cfb decryption, where the state of a block is the block before it. That of the first is no block of the message, so the
// first goes by itself. (A `while`, as in `counters`.)
fn feedback(rk: [u32; 32], iv: [u32; 4], data: &[u8], out: &mut [u8]) -> Place
    requires { length «data».now ≤ length out.old }
    ensures { Reached (stream_mode Kind.CfbDecrypt rk) (unwords iv) «data».now out.old (unwords result.state) out.new result.at }
{
    if data.len() < LEAST {
        return Place { state: iv, at: 0 };
    }
    step(Engine::Gates, rk, Kind::CfbDecrypt, iv, data, out);
    let mut at: usize = 16;
    while LEAST <= data.len() - at {
        let m = sliced::next_batch(data.len() - at);
        sliced::encrypt_xored(rk, m, &data[at - 16..], &data[at..], &mut out[at..]);
        at += 16 * m;
    }
    Place {
        state: block_at(data, at - 16),
        at,
    }
}

// As many batches as there are, by the gates.
pub(crate) fn run(
    rk: [u32; 32],
    kind: KnownAhead,
    iv: [u32; 4],
    data: &[u8],
    out: &mut [u8],
) -> Place
    requires { length «data».now ≤ length out.old }
    ensures { Reached (stream_mode (kind_of kind) rk) (unwords iv) «data».now out.old (unwords result.state) out.new result.at }
{
    match kind {
        KnownAhead::Feedback => feedback(rk, iv, data, out),
        KnownAhead::Counter { wide } => counters(rk, wide, iv, data, out),
    }
}
