// In which item of an order each element stands.

ghost use Rattle.std.specs.Prelude.{◌≢◌, ◌≡◌, ◌^◌, ◌<◌, All, AllPairs, IfOk};
ghost use Rattle.pk_plan.specs.Linear.{elements_of};
ghost use Rattle.pk_peak.specs.Items.{AreNumbered, depth_then};

use pk_plan::{Order, Role};
use std::alloc::{AllocError, Global};

/// The item of each element, and how many items there are.
#[derive(Drop)]
pub struct Items {
    pub of: Vec<usize>,
    pub count: usize,
}

// How many brackets are open behind a place.
fn depth_behind(depth: usize, role: Role) -> usize
    requires { depth < 2 ^ 63 }
    ensures { result ≡ depth_then depth role }
{
    match role {
        Role::Vertex => depth,
        Role::Head => depth + 1,
        Role::Exit { .. } => depth.saturating_sub(1),
    }
}

/// The items of an order: one begins at each place where no bracket is open.
pub fn numbered(alloc: Global, order: &Order) -> Result<Items, AllocError>
    requires within { All (λ e. e < order.now.elements) (elements_of order.now.order) }
    requires once { AllPairs (λ a b. a ≢ b) (elements_of order.now.order) }
    ensures { IfOk result (λ items. AreNumbered order.now.order order.now.elements items.of.items items.count) }
{
    let mut of = vec![in alloc; 0; order.elements() as usize]?;
    let mut item = 0;
    let mut count = 0;
    let mut depth = 0;
    for place in order.places() {
        if depth == 0 {
            item = count;
            count += 1;
        }
        of[place.element as usize] = item;
        depth = depth_behind(depth, place.role);
    }
    Ok(Items { of, count })
}
