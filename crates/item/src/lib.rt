// The item in hand.
#![tactic(auto)]

ghost use Rattle.std.specs.Prelude.{◌≡◌, true};
ghost use Rattle.weight.specs.Weight.{is_weight};
ghost use Rattle.item.specs.Item.{in_hand, item_fit, new_item, ticked, weighed};

use event::Setup;
use time::is_time;
use weight::{LARGEST, is_weight, mean_of, size};

// None, waiting with ticks left, or averaging with ticks left and a sum (divisions). An enum of its own: an Option of the
// other two would put one enum in another, and say `Some` before each.
#[derive(Clone, Copy)]
pub enum Item {
    None,
    Waiting(u64),
    Averaging(u64, i64),
}

// What a running tick makes of the item in hand: an item still, or the rounded mean (divisions). An enum of its own, since
// neither side of a Result would be the error.
#[derive(Clone, Copy)]
pub enum Weighed {
    Still(Item),
    Mean(i64),
}

// An item as it is detected.
#[tactic(auto, unfolding(crate::specs::Item::new_item))]
pub fn new_item(setup: Setup) -> Item
    ensures { result ≡ new_item setup }
{
    if setup.tw == 0 {
        return Item::Averaging(setup.ta, 0);
    }
    Item::Waiting(setup.tw)
}

impl Item {
    pub fn in_hand(self) -> bool
        ensures { result ≡ in_hand self }
    {
        !matches!(self, Item::None)
    }

    // Ticks left from 1 to tw or ta, and a sum that so many ticks can have.
    #[tactic(auto, unfolding(crate::specs::Item::item_fit))]
    pub fn fit(self, setup: Setup) -> bool
        ensures { result ≡ item_fit self setup }
    {
        match self {
            Item::None => true,
            Item::Waiting(k) => (1..=setup.tw).contains(&k),
            Item::Averaging(k, sum) => {
                (1..=setup.ta).contains(&k)
                    && is_time(setup.ta)
                    && size(sum) <= LARGEST * (setup.ta - k)
            }
        }
    }

    // One running tick: the wait falls, or the gross is added; on the last tick the mean is taken.
    #[tactic(auto, unfolding(crate::specs::Item::ticked))]
    fn ticked(self, setup: Setup, gross: i64) -> Weighed
        requires { (item_fit self setup ≡ true) × (is_weight gross ≡ true) }
        ensures { result ≡ ticked self setup.ta gross }
    {
        match self {
            Item::None => Weighed::Still(Item::None),
            Item::Waiting(k) => {
                if 1 < k {
                    return Weighed::Still(Item::Waiting(k - 1));
                }
                Weighed::Still(Item::Averaging(setup.ta, 0))
            }
            Item::Averaging(k, sum) => {
                let total = sum + gross;
                if 1 < k {
                    return Weighed::Still(Item::Averaging(k - 1, total));
                }
                match mean_of(total, setup.ta) {
                    Some(mean) => Weighed::Mean(mean),
                    None => Weighed::Still(Item::None),
                }
            }
        }
    }

    // A tick of a fit item with a weight. Of any other nothing is left: to hand it on would cost a copy on every tick.
    #[tactic(auto, unfolding(crate::specs::Item::weighed))]
    pub fn weighed(self, setup: Setup, gross: i64) -> Weighed
        ensures { result ≡ weighed self setup gross }
    {
        if self.fit(setup) & is_weight(gross) {
            return self.ticked(setup, gross);
        }
        Weighed::Still(Item::None)
    }
}
