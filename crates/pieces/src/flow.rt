// Key stream on its way through a message: counters, each with its cipher, that a text is xored with from any place on.
ghost use Rattle.std.specs.Prelude.{◌≡◌, ◌<◌, ◌≤◌, length};
ghost use Rattle.block.specs.Words.{unwords};
ghost use Rattle.cipher.specs.Sm4.{encrypt_block};
ghost use Rattle.block.specs.Over.{over};
ghost use Rattle.walk.specs.Walk.{chain};
ghost use Rattle.pieces.specs.Flow.{kind_of, next_counter, flow_mode, flow_at, flow_after, flow_text, flow_next};

use cipher::Engine;
use stream::Kind;

// Whose counters: all sixteen bytes count, or the last four.
#[derive(Clone, Copy, PartialEq, Eq, Debug)]
pub enum Counting {
    Ctr,
    Gcm,
}

// The counter of the block that is begun, and its cipher, at a block's edge too: so no block is ciphered twice, and however a
// message is cut it has as many ciphers as the single call. The place in the block is the caller's to know.
#[repr(C)]
#[derive(Clone, Copy, Default)]
pub struct Flow {
    pub counter: [u8; 16],
    pub pad: [u8; 16],
}

impl From<Counting> for Kind {
    ghost from_gives = { λ counting kind. kind ≡ kind_of counting };

    fn from(counting: Counting) -> Kind {
        match counting {
            Counting::Ctr => Kind::Ctr,
            Counting::Gcm => Kind::Gctr,
        }
    }
}

fn next_counter(counting: Counting, s: [u32; 4]) -> [u32; 4]
    ensures { unwords result ≡ next_counter counting (unwords s) }
{
    match counting {
        Counting::Ctr => counter::block_add_one(s).counter,
        Counting::Gcm => counter::gcm_block_add_one(s).counter,
    }
}

// The cipher of a block, in bytes.
pub(crate) fn ciphered(engine: Engine, rk: [u32; 32], s: [u32; 4]) -> [u8; 16]
    ensures { result ≡ encrypt_block rk (unwords s) }
{
    block::combine_block(cipher::encrypt(engine, rk, s))
}

// The flow at a counter.
pub fn begin(engine: Engine, rk: [u32; 32], s: [u32; 4]) -> Flow
    ensures { result ≡ flow_at rk (unwords s) }
{
    Flow {
        counter: block::combine_block(s),
        pad: ciphered(engine, rk, s),
    }
}

// Whole `data`, from the counter after `counter` on.
fn onward(
    engine: Engine,
    rk: [u32; 32],
    counting: Counting,
    counter: [u8; 16],
    data: &[u8],
    out: &mut [u8],
) -> Flow
    requires { length «data».now ≤ length out.old }
    ensures value { result ≡ flow_after counting rk (next_counter counting counter) «data».now }
    ensures out_after { out.new ≡ over (chain (flow_mode counting rk) (next_counter counting counter) «data».now) out.old }
{
    let next = next_counter(counting, block::split_block(&counter));
    let end = stream::stream(engine, rk, Kind::from(counting), next, true, data, out);
    // A variable, since the borrow checker takes no array out of a field right into a literal.
    let pad = end.pad;
    Flow {
        counter: block::combine_block(end.state),
        pad,
    }
}

// `data` from place p of the begun block on: this ends with its pad, and what follows goes through the stream. Engine and keys come apart,
// as `stream::stream` takes them. A place below 16 and the room for `data` stay clauses, here and in the calls around: docs/PROMISES.md has
// `run` by name.
pub fn run(
    engine: Engine,
    rk: [u32; 32],
    counting: Counting,
    flow: Flow,
    p: usize,
    data: &[u8],
    out: &mut [u8],
) -> Flow
    requires p_bound { p < 16 }
    requires data_in_bounds { length «data».now ≤ length out.old }
    ensures value { result ≡ flow_next counting rk flow p «data».now }
    ensures out_after { out.new ≡ over (flow_text counting rk flow p «data».now) out.old }
{
    let m = 16 - p;
    sixteen::xor_bytes(&flow.pad[p..], &data[..m.min(data.len())], out);
    if data.len() < m {
        return flow;
    }
    onward(
        engine,
        rk,
        counting,
        flow.counter,
        &data[m..],
        &mut out[m..],
    )
}
