//! Lists of pairs, made of two lists and taken apart.
ghost use Rattle.std.specs.Prelude.{◌≡◌, ◌≤◌, [], IfOk, OnOk, map, vec_capacity, vec_len};

use std::alloc::Global;
use wh_events::OutOfMemory;

/// Pairs each element of the first list with the element of the second in its place. Leaves the
/// first list empty, with the capacity that it had. Returns `OutOfMemory` if there was no memory
/// for the pairs.
pub(crate) fn zip_lists<A: Drop, B: Drop>(
    alloc: Global,
    firsts: &mut Vec<A>,
    mut seconds: Vec<B>,
) -> Result<Vec<(A, B)>, OutOfMemory>
    requires { vec_len seconds ≡ vec_len firsts.old }
    ensures count { IfOk result (λ pairs. vec_len pairs ≡ vec_len firsts.old) }
    ensures firsts { IfOk result (λ pairs. map (λ pair. pair.0) pairs.items ≡ firsts.old.items) }
    ensures seconds { IfOk result (λ pairs. map (λ pair. pair.1) pairs.items ≡ seconds.items) }
    ensures empty { OnOk result (firsts.new.items ≡ []) }
    ensures room { vec_capacity firsts.new ≡ vec_capacity firsts.old }
{
    let mut pairs = Vec::new(alloc);
    pairs.reserve(firsts.len())?;
    while let Some(first) = firsts.pop() {
        let Some(second) = seconds.pop() else {
            unreachable!()
        };
        pairs.push_reserved((first, second));
    }
    pairs.reverse();
    Ok(pairs)
}

/// Takes pairs apart, into two empty lists with room for the elements.
pub(crate) fn unzip_pairs<A: Drop, B: Drop>(
    mut pairs: Vec<(A, B)>,
    room: (Vec<A>, Vec<B>),
) -> (Vec<A>, Vec<B>)
    requires firsts { (room.0.items ≡ []) × (vec_len pairs ≤ vec_capacity room.0) }
    requires seconds { (room.1.items ≡ []) × (vec_len pairs ≤ vec_capacity room.1) }
    ensures firsts { result.0.items ≡ map (λ pair. pair.0) pairs.items }
    ensures seconds { result.1.items ≡ map (λ pair. pair.1) pairs.items }
    ensures room { vec_capacity result.0 ≡ vec_capacity room.0 }
{
    let (mut firsts, mut seconds) = room;
    while let Some((first, second)) = pairs.pop() {
        firsts.push_reserved(first);
        seconds.push_reserved(second);
    }
    firsts.reverse();
    seconds.reverse();
    (firsts, seconds)
}
