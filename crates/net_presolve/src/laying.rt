//! Parts laid behind one another.
use crate::parts::Parts;
use crate::unused::Unused;
use loose_places::{at, put};
use std::alloc::{AllocError, Global};

// The price of each party, by those that the nodes have inside their parts. Each part is raised so far that no half that leads into it
// from another gains.
pub(crate) fn lay_parts(
    alloc: Global,
    net: &Unused,
    parts: &Parts,
    own: &[i64],
) -> Result<Vec<i64>, AllocError> {
    let mut bases = vec![in alloc; 0i64; parts.count()]?;
    for &node in parts.order.iter().rev() {
        raise_before(net, parts, own, &mut bases, node as usize);
    }
    let ground = price_at(parts, own, &bases, net.ground());
    let mut prices = Vec::with_capacity(alloc, net.ground())?;
    for party in 0..net.ground() {
        let price = price_at(parts, own, &bases, party);
        prices.push(price.wrapping_sub(ground))?;
    }
    Ok(prices)
}

// Raises the parts that the halves of a node lead to. Its own part has its place.
fn raise_before(net: &Unused, parts: &Parts, own: &[i64], bases: &mut [i64], node: usize) {
    let price = price_at(parts, own, bases, node);
    for half in net.halves.around(node) {
        let far = half.far() as usize;
        let part = parts.part(far);
        if part != parts.part(node) && net.passes(*half) {
            // (nothing is set off, so no claim is moved back over, and a window counts nothing)
            let least = price.wrapping_add(i64::from(half.reward()));
            let base = least.wrapping_sub(at(own, far, 0));
            put(bases, part as usize, base.max(at(bases, part as usize, 0)));
        }
    }
}

// The price of a node, where its part stands.
fn price_at(parts: &Parts, own: &[i64], bases: &[i64], node: usize) -> i64 {
    at(own, node, 0).wrapping_add(at(bases, parts.part(node) as usize, 0))
}
