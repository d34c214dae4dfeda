// The two counter steps: `block_add_one` of libsm's `cipher_mode.rs`, `gcm_block_add_one` of its `gcm.rs`; and whether a
// counter came round: over one step, and over a whole message.

#![tactic(auto)]

ghost use Rattle.std.specs.Prelude.{◌≡◌, ◌+◌, ◌%◌, ◌^◌};
ghost use Rattle.block.specs.Wide.{value};
ghost use Rattle.block.specs.Words.{unwords};
ghost use Rattle.counter.specs.Counter.{ctr_jump, ctr_next, ctr_passes, gcm_jump, gcm_next, gcm_passes};
ghost use Rattle.counter.specs.CameRound.{blocks_of, ctr_came_round, gcm_came_round};

// The next counter, and whether the step to it passed from all ones to zero. As with `overflowing_add`, a counter is there either way, so
// this is no `Option`.
#[derive(Clone, Copy, PartialEq, Eq, Debug)]
pub struct Next {
    pub counter: [u32; 4],
    pub came_round: bool,
}

// So many more, with a carry from the low half to the high one.
fn u128_add(n: block::U128, k: u64) -> block::U128
    ensures { value result ≡ (value n + k) % 2 ^ 128 }
{
    let (low, carried) = n.low.overflowing_add(k);
    let high = if carried {
        n.high.wrapping_add(1)
    } else {
        n.high
    };
    block::U128 { high, low }
}

// Ctr's next counter: the sixteen bytes count as one number. It is zero exactly where it came round.
pub fn block_add_one(a: [u32; 4]) -> Next
    ensures counter_value { unwords result.counter ≡ ctr_next (unwords a) }
    ensures came_round_value { result.came_round ≡ ctr_passes (unwords a) }
{
    let sum = u128_add(block::to_u128(a), 1);
    Next {
        counter: block::from_u128(sum),
        came_round: sum.high | sum.low == 0,
    }
}

// Ctr's counter so many blocks on, without a step for each.
pub fn jump(a: [u32; 4], blocks: u64) -> [u32; 4]
    ensures { unwords result ≡ ctr_jump (unwords a) blocks }
{
    block::from_u128(u128_add(block::to_u128(a), blocks))
}

// GCM's next counter: the last four bytes count, the first twelve are kept. The four are zero exactly where they came round.
pub fn gcm_block_add_one(a: [u32; 4]) -> Next
    ensures counter_value { unwords result.counter ≡ gcm_next (unwords a) }
    ensures came_round_value { result.came_round ≡ gcm_passes (unwords a) }
{
    let low = a[3].wrapping_add(1);
    Next {
        counter: [a[0], a[1], a[2], low],
        came_round: low == 0,
    }
}

// GCM's counter so many blocks on.
pub fn gcm_jump(a: [u32; 4], blocks: u32) -> [u32; 4]
    ensures { unwords result ≡ gcm_jump (unwords a) blocks }
{
    [a[0], a[1], a[2], a[3].wrapping_add(blocks)]
}

// Whether Ctr's counter came round over a message of n bytes: the step after its last block does not count.
pub fn ctr_came_round(iv: [u32; 4], n: usize) -> bool
    ensures { result ≡ ctr_came_round (unwords iv) (blocks_of n) }
{
    let b = n.div_ceil(16);
    if b == 0 {
        return false;
    }
    let first = block::to_u128(iv);
    first.high == u64::MAX && (b - 1) as u64 > u64::MAX - first.low
}

// Whether GCM's counter came round over a message of n bytes, where `low` is J0's last word: J0 itself is no block's.
pub fn gcm_came_round(low: u32, n: usize) -> bool
    ensures { result ≡ gcm_came_round low (blocks_of n) }
{
    n.div_ceil(16) > (u32::MAX - low) as usize
}
