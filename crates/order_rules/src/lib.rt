//! Which transactions may overtake which, as a table that is looked up in place of being worked out at each landing.
//!
//! PCI Express Base 4.0, section 2.4, gives its ordering rules as a table. It has a row for the kind of the later
//! transaction and a column for the kind of the earlier one, and an entry says whether the later may pass. One table
//! here is over the kinds of posted writes alone, relaxed and strict; the other has read requests and completions too.
//! Between transactions of different traffic classes no order holds.
#![tactic(auto)]

ghost use Rattle.std.specs.Prelude.{◌≡◌, ℕ, ◌<◌, ◌==◌, ◌||◌, not};
ghost use Rattle.order_rules.specs.Order.{may_pass};
ghost use Rattle.order_rules.specs.Table.{answer_at};
ghost use Rattle.order_rules.specs.Transactions.{may_overtake};

use std::marker::Model;

#[cfg(test)]
mod tests;

/// The kind of a relaxed posted write, which may pass any posted write.
pub const RELAXED: usize = 0;

/// The kind of a strict posted write, which passes no posted write of its own traffic class.
pub const STRICT: usize = 1;

/// The kind of a read request.
pub const READ_REQUEST: usize = 2;

/// The kind of a completion, which brings what a read request asked for.
pub const COMPLETION: usize = 3;

/// A table of order over `K` kinds of transactions, within one traffic class. It has `K` rows for the kind of the later
/// one, each with `K` columns for the kind of the earlier one.
///
/// A contract sees it as the list of its rows, each a list of answers.
#[derive(Debug, Drop)]
pub struct OrderTable<const K: usize> {
    rows: [[bool; K]; K],
}

impl<const K: usize> OrderTable<K> {
    /// Returns whether a later transaction of the first kind may pass an earlier one of the second, of the same traffic
    /// class: the table's entry in row `later` and column `earlier`. Both are kinds of the table, below `K`.
    pub fn may_pass(&self, later: usize, earlier: usize) -> bool
        requires later_in_table { later < K }
        requires earlier_in_table { earlier < K }
        ensures { result ≡ answer_at self.now later earlier }
    {
        self.rows[later][earlier]
    }

    /// Returns whether a later transaction of one kind and traffic class may pass an earlier one of another. It may if
    /// and only if the table says so of the kinds, or where the classes differ, since between different traffic classes
    /// no order holds (PCI Express Base 4.0, section 2.4). Both kinds are below `K`.
    pub fn passes(&self, later: usize, later_class: u32, earlier: usize, earlier_class: u32) -> bool
        requires later_in_table { later < K }
        requires earlier_in_table { earlier < K }
        ensures { result ≡ (answer_at self.now later earlier || not (later_class == earlier_class)) }
    {
        later_class != earlier_class || self.may_pass(later, earlier)
    }
}

impl<const K: usize> Model for OrderTable<K> {
    ghost use Rattle.std.specs.Prelude.{List, Bool};

    ghost Value = { List (List Bool) };

    ghost view = { λ table. table.rows };
}

/// Writes the rows of a table of order, one for each kind of a later transaction, in the order of the kinds. Each row
/// says for each kind of an earlier one, in the same order, whether the later one `passes` or `waits`.
macro_rules! order_rows {
    ($($later:ident: $($answer:ident)*;)*) => { [$([$(answer!($answer)),*]),*] };
}

/// One answer of a table of order.
macro_rules! answer {
    (passes) => { true };
    (waits) => { false };
}

/// The table of posted writes, after PCI Express Base 4.0, section 2.4, over the kinds [`RELAXED`] and [`STRICT`]. A
/// relaxed write may pass each other write, and a strict one passes none of its own traffic class.
pub fn posted_table() -> OrderTable<2>
    ensures { (later earlier : ℕ) → later < 2 → earlier < 2 → answer_at result later earlier ≡ may_pass later earlier }
{
    OrderTable {
        rows: order_rows! {
            relaxed: passes passes;
            strict: waits waits;
        },
    }
}

/// The table of posted writes, read requests and completions, over the kinds [`RELAXED`], [`STRICT`],
/// [`READ_REQUEST`] and [`COMPLETION`], none of them with relaxed ordering but the relaxed writes.
///
/// A posted write is passed by relaxed posted writes alone: a strict write, a read request and a completion wait for it
/// (PCI Express Base 4.0, section 2.4). Everything passes a read request. Everything passes a completion but another
/// completion. If the standard leaves a choice, this is the choice that is made here.
pub fn full_table() -> OrderTable<4>
    ensures { (later earlier : ℕ) → later < 4 → earlier < 4 → answer_at result later earlier ≡ may_overtake later earlier }
{
    OrderTable {
        rows: order_rows! {
            relaxed: passes passes passes passes;
            strict: waits waits passes passes;
            read_request: waits waits passes passes;
            completion: waits waits passes waits;
        },
    }
}
