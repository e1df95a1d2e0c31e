// The table over which the benches of a round are handed to workers: its slots, its rule and its steps.
use crate::bench::Bench;
use atomic_table::{Join, Play, Seat, Shared, Split, Table, TableRule};
use oe_plan::Plan;
use std::alloc::Global;
use std::collections::LinkedList;
use std::snapshot::Snapshot;

/// A bench in a slot, and the plan that it is evaluated by, which contracts alone see.
#[derive(Drop)]
pub struct Lent {
    pub bench: Bench,
    pub plan: Snapshot<Plan>,
}

/// What the table is told when it is made.
#[derive(Drop)]
pub struct Task {
    /// How many slots it has.
    pub slots: u64,
}

/// What the coordinator knows: the first chunk of the round, how many workers were made in it and how many of them have
/// ended, how many slots it holds, and what it laid into the others. No value of it is made.
pub struct Lead {
    pub task: Task,
    pub first: u64,
    pub made: u64,
    pub ended: u64,
    pub held: u64,
    pub laid: LinkedList<Option<Lent>>,
}

/// What a worker knows: the first chunk of the round, the slot in its hand (one more than its number, or 0), whether it
/// drew past the slots (1, or 0), and what was laid into them. No value of it is made.
pub struct Worker {
    pub task: Task,
    pub first: u64,
    pub hand: u64,
    pub past: u64,
    pub laid: LinkedList<Option<Lent>>,
}

/// What a seat knows. No value of it is made.
pub enum View {
    /// That of the coordinator.
    Leads(Lead),
    /// That of a worker.
    Works(Worker),
    /// That of a worker that was taken in again.
    Spent,
}

/// The rule of the table.
pub struct Rule;

impl TableRule<Option<Lent>, View, Task> for Rule {
    ghost use Rattle.oe_engine.specs.Views.{IsOrderly, first_lead};
    ghost use Rattle.oe_engine.specs.declared.table.View.TheVariants.{Leads};

    ghost holds = { IsOrderly };

    ghost first = { λ task. Leads (first_lead task) };
}

/// A worker draws the number of a slot.
pub struct Draw;

impl Play<Option<Lent>, View> for Draw {
    ghost use Rattle.oe_engine.specs.Views.{draws};

    ghost then = { λ _ me found after. draws me found after };
}

/// A worker puts a bench back.
pub struct Put;

impl Play<Option<Lent>, View> for Put {
    ghost use Rattle.oe_engine.specs.Views.{puts};

    ghost then = { λ _ me found after. puts me found after };
}

/// The coordinator opens a round.
pub struct Start;

impl Play<Option<Lent>, View> for Start {
    ghost use Rattle.oe_engine.specs.Views.{starts};

    ghost then = { λ _ me stored after. starts me stored after };
}

/// The coordinator gives a slot up.
pub struct Give;

impl Play<Option<Lent>, View> for Give {
    ghost use Rattle.oe_engine.specs.Views.{gives_up};

    ghost then = { λ _ me found after. gives_up me found after };
}

/// The coordinator takes a slot back.
pub struct Take;

impl Play<Option<Lent>, View> for Take {
    ghost use Rattle.oe_engine.specs.Views.{takes_back};

    ghost then = { λ _ me found after. takes_back me found after };
}

/// The coordinator makes a worker.
pub struct Fork;

impl Split<View> for Fork {
    ghost use Rattle.oe_engine.specs.Views.{split_left, split_right};

    ghost left = { split_left };

    ghost right = { split_right };
}

/// The coordinator takes a worker in.
pub struct Merge;

impl Join<View> for Merge {
    ghost use Rattle.oe_engine.specs.Views.{joined};
    ghost use Rattle.oe_engine.specs.declared.table.View.TheVariants.{Spent};

    ghost both = { joined };

    ghost spent = { Spent };
}

/// The table as all threads see it.
pub type Shelf = Shared<Option<Lent>, View, Task, Rule>;

/// The table with its memory.
pub type Board = Table<Option<Lent>, View, Task, Rule, Global>;

/// A seat at the table.
pub type Place = Seat<Option<Lent>, View>;

/// The seat of a worker, and which worker of the round it is.
#[derive(Drop)]
pub struct Hand {
    pub seat: Place,
    pub number: u64,
}
