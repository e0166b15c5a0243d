// An order in four words. Its kind is a number, since the layout is that of the C interface.
ghost use Rattle.std.specs.Prelude.{◌≡◌};
ghost use Rattle.layout.specs.Layout.{order_of};

use machine::Order;

// Reads a kind, and the order's fields after it; an opening's last two words are 0.
#[tactic(auto, unfolding(crate::specs::Layout::order_of, crate::specs::Layout::order_from))]
pub fn read_order(words: &[u64]) -> Option<Order>
    ensures { result ≡ order_of words.now }
{
    match words {
        [9, x, 0, 0] => Some(Order::Open { x: *x }),
        [9, _, _, _] => None,
        [kind, a, b, c] => Order::of_kind(*kind, *a, *b, *c),
        _ => None,
    }
}
