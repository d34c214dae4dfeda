// A plan: which worker does which stretch of a message.
ghost use Rattle.std.specs.Prelude.{◌≡◌, ◌*◌, ◌≤◌};
ghost use Rattle.cipher_mode.specs.Tables.{limit};
ghost use Rattle.ranges.specs.Plan.{accepts, is_piece, piece_size, plan_in, no_pieces, planned};

use cipher_mode::checks::LIMIT;

// The most pieces of a plan.
pub const MOST: usize = 64;

// Where each piece starts and how long it is; what is past `count` is not looked at. The arrays stand side by side, with the count
// beside them, since a plan crosses to C as it is.
#[repr(C)]
#[derive(Clone, Copy)]
pub struct Plan {
    pub count: usize,
    pub starts: [usize; MOST],
    pub lengths: [usize; MOST],
}

// Why no plan is made. Bad workers are fewer than 1 or more than 64, number 17; too long is number 5.
#[derive(Clone, Copy, PartialEq, Eq, Debug)]
pub enum NotMade {
    BadWorkers,
    TooLong,
}

// Whether a piece starts at `at`, is not empty, is no longer than what is `left`, and divides by 16 if it is not the last.
fn is_piece(start: usize, length: usize, at: usize, left: usize, last: bool) -> bool
    ensures { result ≡ is_piece start length at left last }
{
    start == at && length != 0 && length <= left && (last || length % 16 == 0)
}

// Whether the pieces are at most 64, follow one another from 0 to `n`, none is empty, and each length but the last divides by
// 16. No sum passes `n`, so none wraps.
pub fn accepts(plan: Plan, n: usize) -> bool
    ensures { result ≡ accepts plan n }
{
    if plan.count > MOST {
        return false;
    }
    let mut at = 0;
    for (start, length) in plan.starts.iter().zip(&plan.lengths).take(plan.count) {
        if !is_piece(*start, *length, at, n - at, *length == n - at) {
            return false;
        }
        at += *length;
    }
    at == n
}

// A plan of no pieces, with only zeros.
pub fn no_pieces() -> Plan
    ensures { result ≡ no_pieces }
{
    Plan {
        count: 0,
        starts: [0; MOST],
        lengths: [0; MOST],
    }
}

// The plan of `n` bytes in pieces of `size`, as many of 64 as begin before `n`.
fn plan_in(n: usize, size: usize) -> Plan
    requires { size ≤ 2 * limit }
    ensures { result ≡ plan_in n size }
{
    let mut plan = no_pieces();
    for i in 0..MOST {
        let at = i * size;
        if at >= n {
            break;
        }
        plan.starts[i] = at;
        plan.lengths[i] = size.min(n - at);
        plan.count += 1;
    }
    plan
}

// The blocks of `n` bytes shared among the workers, rounded up, in bytes.
fn piece_size(n: usize, workers: usize) -> usize
    requires n_le_limit { n ≤ limit }
    requires le_workers { 1 ≤ workers }
    requires workers_bound { workers ≤ 64 }
    ensures { result ≡ piece_size n workers }
{
    16 * n.div_ceil(16).div_ceil(workers)
}

// The plan of `n` bytes for 1 to 64 workers.
pub fn make(n: usize, workers: usize) -> Result<Plan, NotMade>
    ensures { result ≡ planned n workers }
{
    if workers == 0 || workers > MOST {
        return Err(NotMade::BadWorkers);
    }
    if n > LIMIT {
        return Err(NotMade::TooLong);
    }
    Ok(plan_in(n, piece_size(n, workers)))
}
