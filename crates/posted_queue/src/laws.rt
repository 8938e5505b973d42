//! Laws of landing, each the contract of a function that does nothing.
ghost use Rattle.std.specs.Prelude.{◌≡◌, ℕ, Bool, false, List, ◌∷◌, ◌++◌, ◌↔◌, All, IsTrue, length, map, filter, remove};
ghost use Rattle.order_rules.specs.Order.{Order, may_land};
ghost use Rattle.posted_queue.specs.Laws.{IsRelaxedOrFirstOfClass, LandsAmongKept, lands_by_kind};

use crate::Ordered;

/// A write may land if and only if it is relaxed or no write before it has its traffic class.
pub fn relaxed_or_first_of_class_lands()
    ensures { (before after : List Order) (write : Order)
        → IsTrue (may_land (before ++ write ∷ after) (length before)) ↔ IsRelaxedOrFirstOfClass before write }
{}

/// Writes that all have one traffic class land by their kinds alone: the relaxed ones anywhere, the strict ones where
/// they are first.
pub fn one_class_lands_by_kind()
    ensures { (orders : List Order) (class place : ℕ) → All (λ order. order.class ≡ class) orders
        → may_land orders place ≡ lands_by_kind (map (λ order. order.kind) orders) place }
{}

/// A write that may land among all those in flight may land among some of them, as among those of its own lane. If
/// others are left out, it still may land at the place that it then has. What stays in flight is the same, whether they
/// are left out before it lands or after.
pub fn lands_among_kept<W: Ordered>()
    ensures { (kept : W → Bool) (before after : List W) (write : W) → IsTrue (kept write)
        → IsTrue (may_land (map W.order (before ++ write ∷ after)) (length before))
        → LandsAmongKept W.order kept before write after }
{}

/// A write that is left out leaves those that are looked at alone when it lands.
pub fn landing_leaves_others<W: Ordered>()
    ensures { (kept : W → Bool) (before after : List W) (write : W) → kept write ≡ false
        → filter kept (remove (before ++ write ∷ after) (length before)) ≡ filter kept (before ++ write ∷ after) }
{}
