// Hashes of halves, for a host: blocks are hashed by themselves, and two hashes are joined. Nothing is refused. A hash is the
// big-endian number of its 16 bytes.
ghost use Rattle.std.specs.Prelude.{◌≡◌};
ghost use Rattle.luossavin.specs.Halves.{host_hash_blocks, host_hash_join};

use block::U128;
use ghash::halves;

#[tactic(auto, using(crate::proofs::Values::of_value), unfolding(crate::specs::Halves::host_hash_blocks))]
#[unsafe(no_mangle)]
pub extern "C" fn luossavin_hash_blocks(h: U128, bytes: &[u8]) -> U128
    ensures { result ≡ host_hash_blocks h bytes.now }
{
    halves::hash_blocks(h, bytes)
}

#[tactic(auto, using(crate::proofs::Values::of_value), unfolding(crate::specs::Halves::host_hash_join))]
#[unsafe(no_mangle)]
pub extern "C" fn luossavin_hash_join(
    h: U128,
    first: U128,
    second: U128,
    second_blocks: u64,
) -> U128
    ensures { result ≡ host_hash_join h first second second_blocks }
{
    halves::join(h, first, second, second_blocks)
}
