//! How the links of a line change where a node comes to it or leaves it.

ghost use Rattle.std.specs.Prelude.{◌≡◌};
ghost use Rattle.std.specs.Option.{ForSome};
ghost use Rattle.node_pool.specs.Nodes.{IsTaken};
ghost use Rattle.run_queue.specs.Code.Lines.{first_after, last_after as end_after, relinked};

use node_pool::{Index, Pool};
use sched_base::Task;

/// Links the node before a place to the next one, and says where the line begins then.
pub(crate) fn relink(
    pool: &mut Pool<Task>,
    first: Option<Index>,
    before: Option<Index>,
    next: Option<Index>,
) -> Option<Index>
    requires { ForSome before (IsTaken pool.old) }
    ensures pool { pool.new ≡ relinked pool.old before next }
    ensures first { result ≡ first_after first before next }
{
    match before {
        None => next,
        Some(node) => {
            pool.set_link(node, next);
            first
        }
    }
}

/// Where the line ends, once the node between these two is gone.
pub(crate) fn last_after(
    last: Option<Index>,
    before: Option<Index>,
    next: Option<Index>,
) -> Option<Index>
    ensures { result ≡ end_after last before next }
{
    match next {
        None => before,
        Some(_) => last,
    }
}
