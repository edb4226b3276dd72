//! The order in which a flush takes what the roots don't lead to, by ranks: what has the greatest time comes first.
ghost use Rattle.std.specs.Prelude.{◌≡◌, ◌^◌, ◌<◌, ◌≤◌, length, All, vec_capacity};
ghost use Rattle.et_graph.specs.Order.{IsOrder};
ghost use Rattle.et_flush.specs.Searches.{AreSources, IsLeftRank};

use crate::times::NOW;
use et_base::{ObjectId, within};
use et_graph::Death;

/// Lists the ranks of what wasn't reached as sources.
fn list_sources(times: &[u64], reached: &[bool], order: &mut Vec<Death>)
    requires long { length reached.now ≡ length times.now }
    requires small { length times.now < 2 ^ 32 }
    requires room { length times.now ≤ vec_capacity order.old }
    ensures sources { AreSources times.now reached.now order.new.items }
    ensures room { vec_capacity order.old ≤ vec_capacity order.new }
{
    order.clear();
    for (i, time) in times.iter().enumerate() {
        if !reached[i] {
            let source = Death {
                object: ObjectId::new(i as u32 + 1),
                time: *time,
            };
            within::push(order, source);
        }
    }
}

/// Lists the ranks of what wasn't reached as sources, those with the greatest time first.
pub(crate) fn order_sources(times: &[u64], reached: &[bool], order: &mut Vec<Death>)
    requires below { All (λ t. t ≤ NOW) times.now }
    requires long { length reached.now ≡ length times.now }
    requires small { length times.now < 2 ^ 32 }
    requires room { length times.now ≤ vec_capacity order.old }
    ensures order { IsOrder (IsLeftRank (length times.now) reached.now) times.now order.new.items }
    ensures room { vec_capacity order.old ≤ vec_capacity order.new }
{
    list_sources(times, reached, order);
    order.sort_unstable_by_key(|source| u64::MAX - source.time);
}
