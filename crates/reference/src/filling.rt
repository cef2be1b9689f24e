// An order meets those that stand.
ghost use Rattle.reference.specs.Means.{order_of, world_of};
ghost use Rattle.reference.specs.Conditions.{Filling};
ghost use Rattle.reference.specs.Does.{HasRoom, Tells};
ghost use Rattle.reference.specs.Parts.{filled};

use crate::market::{Order, Told};
use wire::Report;

impl Told {
    // The order trades with those that stand, one after the other; what is left of it stands, behind all.
    pub(crate) fn fill(&mut self, order: Order)
        requires filling { Filling self.old.market.limits (world_of self.old.market) (order_of order) }
        requires room { HasRoom self.old (λ w. filled w (order_of order)) }
        ensures { Tells self.old self.new (λ w. filled w (order_of order)) }
    {
        let mut o = order;
        // The label says which of the two loops is left.
        'filling: while o.left != 0 {
            // From the back, so that of equal prices the one that came first is met.
            // Their places are kept: the order that is met is taken from its place.
            let mut best = None;
            for i in (0..self.market.orders.len()).rev() {
                if o.comes_before(&self.market.orders, i, best) {
                    best = Some(i);
                }
            }
            // Nothing meets it any more.
            let Some(at) = best else {
                self.market.stand(o);
                break 'filling;
            };
            let r = self.market.orders[at];
            let x = o.left.min(r.left);
            self.market.trade(&o, &r, at, x);
            self.reports.push_reserved(Report::Trade {
                newer: o.number,
                older: r.number,
                item: o.item,
                price: r.price,
                quantity: x,
            });
            o.left -= x;
        }
    }
}
