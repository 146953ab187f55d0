//! A pool of one node.

use crate::finding::{Finding, all_hold};
use node_pool::Pool;
use std::alloc::Global;

/// A value comes and goes, and then another one comes.
pub(crate) fn of_one_node(alloc: Global) -> Option<Finding> {
    let Ok(mut pool) = Pool::<u32>::with_room(alloc, 1) else {
        return None;
    };
    Some(come_and_go(&mut pool).and(come_again(&mut pool)))
}

/// The first value comes, is linked, and goes.
fn come_and_go(pool: &mut Pool<u32>) -> Finding {
    let free = pool.free();
    let Ok(at) = pool.take(5) else {
        return Finding::Not("the node is free");
    };
    let left = pool.free();
    let link = pool.link(at);
    let Err(back) = pool.take(6) else {
        return Finding::Not("no second node is free");
    };
    pool.set_link(at, Some(at));
    all_hold(&[
        ("one node is free", free == 1),
        ("none is free behind it", left == 0),
        ("a node has no link at first", link.is_none()),
        ("what finds no node comes back", back == 6),
        ("a link is kept", pool.link(at) == Some(at)),
        ("a value is given back", pool.give(at) == 5),
        ("the node is free behind it", pool.free() == 1),
    ])
}

/// The second value comes.
fn come_again(pool: &mut Pool<u32>) -> Finding {
    let Ok(again) = pool.take(7) else {
        return Finding::Not("the node is free again");
    };
    all_hold(&[
        ("a link is forgotten", pool.link(again).is_none()),
        ("the second value is kept", *pool.get(again) == 7),
    ])
}
