// Counts in a slice.

ghost use Rattle.std.specs.Prelude.{◌≡◌, ◌+◌, ◌==◌, ℕ, replicate, IfOk, if◌then◌else◌, count_by};
ghost use Rattle.bc_tally.specs.Counts.{Tells};

use std::alloc::{AllocError, Global};

/// This many zeros.
pub fn zeros(alloc: Global, n: u32) -> Result<Vec<u32>, AllocError>
    ensures { IfOk result (λ counts. counts.items ≡ replicate n 0) }
{
    let mut counts = Vec::new(alloc);
    counts.resize(n as usize, 0)?;
    Ok(counts)
}

/// Raises a count, unless it has come to its end.
fn raise(counts: &mut [u32], id: u32)
    ensures { (f : ℕ → ℕ) → Tells counts.old f → Tells counts.new (λ other. f other + (if id == other then 1 else 0)) }
{
    let at = id as usize;
    if at < counts.len() && counts[at] < u32::MAX {
        counts[at] += 1;
    }
}

/// Lowers a count, unless it has come to its end.
fn lower(counts: &mut [u32], id: u32)
    ensures { (f : ℕ → ℕ) → Tells counts.old (λ other. f other + (if id == other then 1 else 0)) → Tells counts.new f }
{
    let at = id as usize;
    if at < counts.len() && counts[at] < u32::MAX && counts[at] > 0 {
        counts[at] -= 1;
    }
}

/// Raises the count of each.
pub fn raise_all(counts: &mut [u32], ids: &[u32])
    ensures { (f : ℕ → ℕ) → Tells counts.old f → Tells counts.new (λ id. f id + count_by (λ other. other == id) ids.now) }
{
    for id in ids {
        raise(counts, *id);
    }
}

/// Lowers the count of each.
pub fn lower_all(counts: &mut [u32], ids: &[u32])
    ensures { (f : ℕ → ℕ) → Tells counts.old (λ id. f id + count_by (λ other. other == id) ids.now) → Tells counts.new f }
{
    for id in ids {
        lower(counts, *id);
    }
}
