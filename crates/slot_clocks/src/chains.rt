//! Applies a change to the groups on its chains. A chain is a slot and its ancestors. A change has
//! four chains: two for the counts and two for the running tasks before and after the change.

ghost use Rattle.std.specs.Prelude.{◌≡◌, ◌&&◌, ◌⊎◌, ◌+◌, ◌==◌, ◌<◌, ◌≤◌, length, true, false, if◌then◌else◌, None, IfSome};
ghost use Rattle.psi_base.specs.declared.event.State.{State};
ghost use Rattle.psi_counts.specs.Clock.{ClockFollows};
ghost use Rattle.psi_counts.specs.Counts.{mask_holds, shows};
ghost use Rattle.psi_spec.specs.Within.{last_moment};
ghost use Rattle.psi_counts.specs.Touch.{Follows, no_counts};
ghost use Rattle.slot_clocks.specs.Clocks.{CanFollow, IsUpTo, StaysByMask, parent_numbers};
ghost use Rattle.slot_clocks.specs.Walk.{AreOnWith, AreParts, AreTogether, AreTurned, CanClimb, MayStart, all_passed, chains_of, height, passed, top};

use crate::cell::Cell;
use crate::packed::PackedChange;
use crate::part::Part;
use crate::running::Running;
use psi_base::{Ns, Slot};

/// The height that a walk has reached on each of the four chains of a change. The height of a slot
/// is its number plus one, and the height after the root is 0. So one comparison of heights tests
/// both that a chain hasn't ended and that the walk has reached a certain slot on it.
#[derive(Clone, Copy)]
pub(crate) struct Chains {
    /// The height (slot number plus one) that the walk has reached on the chain of the subtracted
    /// counts.
    minus: u64,
    /// The height (slot number plus one) that the walk has reached on the chain of the added
    /// counts.
    plus: u64,
    /// The height (slot number plus one) that the walk has reached on the chain of the task that
    /// ran before the change.
    before: u64,
    /// The height (slot number plus one) that the walk has reached on the chain of the task that
    /// runs after the change.
    after: u64,
}

/// The parts of a change that can affect a group. Which parts affect a group depends on which of
/// the four chains contain it.
#[derive(Drop)]
pub(crate) struct Parts {
    /// The time (ns) of the change.
    at: Ns,
    /// The counts that the change subtracts.
    minus: Part,
    /// The counts that the change adds.
    plus: Part,
    /// Whether the task that runs after the change is in a memory stall.
    stalled: bool,
    /// True only if the change doesn't affect the running task's slot and stall, or if no task runs
    /// before and after the change.
    stays: bool,
}

fn height(slot: Option<Slot>) -> u64
    ensures { result ≡ height slot }
{
    match slot {
        Some(slot) => u64::from(slot.0) + 1,
        None => 0,
    }
}

// Returns the height of a walk after it passes the height `here`. If the walk was at `here`, the
// result is `parent`, the height of the parent. If not, the result is its old height `place`.
fn pass(place: u64, here: u64, parent: u64) -> u64
    ensures { result ≡ passed here parent place }
{
    if place == here { parent } else { place }
}

// Returns whether a chain at height `place` can be merged with a chain at height `other`: the
// heights are equal, or the first chain is empty.
fn fits(place: u64, other: u64) -> bool
    ensures { result ≡ true → (place ≡ 0) ⊎ (place ≡ other) }
{
    (place == 0) | (place == other)
}

impl Chains {
    /// Returns the heights at which the four chains of a change start. `current` is the task that
    /// ran before the change. A change that turns accounting on or off subtracts no counts, so its
    /// chain `minus` starts at that group's slot, which the walk must visit.
    fn of(current: &Running, change: &PackedChange) -> Chains
        ensures { result ≡ chains_of current.now change.now }
    {
        let account = change.account().map(|(slot, _)| slot);
        Chains {
            minus: height(account.or(change.minus().map(|(slot, _)| slot))),
            plus: height(change.plus().map(|(slot, _)| slot)),
            before: current.height(),
            after: change.running().height(),
        }
    }

    /// Returns the greatest height of the four chains.
    pub(crate) fn top(&self) -> u64
        ensures { result ≡ top self.now }
    {
        let counted = self.minus.max(self.plus);
        let running = self.before.max(self.after);
        counted.max(running)
    }

    // Moves each walk at height `here` to `parent`, the height of the parent. If `together` is
    // true, the walks for the counts and for the task that ran before are at the same height and
    // are moved together.
    fn pass(&mut self, here: u64, parent: u64, together: bool)
        requires together { together ≡ true → AreTogether self.old }
        ensures { self.new ≡ all_passed here parent self.old }
    {
        self.minus = pass(self.minus, here, parent);
        self.after = pass(self.after, here, parent);
        if together {
            self.plus = self.minus;
            self.before = self.minus;
        } else {
            self.plus = pass(self.plus, here, parent);
            self.before = pass(self.before, here, parent);
        }
    }

    // Returns the start heights of the chains of a change of a task if three of them can start at
    // the same slot: the two chains of the counts, and the chain of the task that ran before.
    // Returns `None` if they can't. An empty chain can start anywhere. If the change doesn't affect
    // the running task and its stall, the chain of the task that ran before can also start
    // anywhere, because nothing changes on it.
    #[tactic(auto, using(crate::proofs::StartLaws::start_together))]
    #[inline(always)]
    fn together(current: &Running, change: &PackedChange, stays: bool) -> Option<Chains>
        requires stays { stays ≡ true → current.now ≡ change.now.current }
        ensures start { IfSome result (MayStart current.now change.now) }
        ensures together { IfSome result AreTogether }
        ensures low { IfSome result (λ starts.
            top starts ≤ top (chains_of current.now change.now)) }
    {
        let (minus, plus) = change.heights()?;
        let before = if stays { 0 } else { current.height() };
        let highest = minus.max(plus).max(before);
        if !(fits(minus, highest) & fits(plus, highest) & fits(before, highest)) {
            return None;
        }
        let after = change.running().height();
        Some(Chains {
            minus: highest,
            plus: highest,
            before: highest,
            after,
        })
    }
}

impl Parts {
    #[inline(always)]
    fn of(current: &Running, change: &PackedChange) -> Parts
        ensures { AreParts current.now change.now result }
    {
        Parts {
            at: change.at(),
            minus: change.taken(),
            plus: change.added(),
            stalled: change.running().is_stalled(),
            stays: current.is_same(change.running()),
        }
    }
}

// Applies a change to the group at height `here`. Does nothing if the change affects neither the
// group's counts nor the running task and its stall.
#[inline(always)]
fn turn_at(cell: &mut Cell, parts: &Parts, chains: &Chains, here: u64)
    requires fits { CanFollow cell.old.counts
        (if chains.now.minus == here then parts.now.minus else no_counts)
        (if chains.now.plus == here then parts.now.plus else no_counts) }
    requires up_to { IsUpTo parts.now.at cell.old.clock }
    requires early { parts.now.at ≤ last_moment }
    requires known { parts.now.stays ≡ true →
        (chains.now.minus == here) ≡ false → (state : State) →
        mask_holds cell.old.clock.mask state
        ≡ (cell.old.on
        && shows state cell.old.counts (chains.now.after == here) parts.now.stalled) }
    ensures counts { Follows cell.old.counts
        (if chains.now.minus == here then parts.now.minus else no_counts)
        (if chains.now.plus == here then parts.now.plus else no_counts) cell.new.counts }
    ensures on { cell.new.on ≡ cell.old.on }
    ensures clock { ClockFollows cell.old.clock parts.now.at cell.new.clock }
    ensures unchanged { StaysByMask cell.old.clock cell.new.clock }
    ensures up_to { IsUpTo parts.now.at cell.new.clock }
    ensures known { (state : State) →
        mask_holds cell.new.clock.mask state
        ≡ (cell.new.on
        && shows state cell.new.counts (chains.now.after == here) parts.now.stalled) }
{
    let takes = chains.minus == here;
    let adds = chains.plus == here;
    if parts.stays & !takes & !adds {
        return;
    }
    cell.turn(
        parts.at,
        &parts.minus.at(takes),
        &parts.plus.at(adds),
        chains.after == here,
        parts.stalled,
    );
}

// Applies a change to the groups on its chains, which start at the heights in `starts`. A parent
// has a smaller slot than its child. So the walk always continues at the greatest slot of the four
// chains, and it visits each group once. If `together` is known at compile time, the compiler
// merges three of the four chains.
#[inline(always)]
fn climb(
    cells: &mut [Cell],
    parents: &[Option<Slot>],
    current: &Running,
    change: &PackedChange,
    parts: &Parts,
    starts: Chains,
    together: bool,
)
    requires can { CanClimb parents.now current.now change.now starts cells.old }
    requires parts { AreParts current.now change.now parts.now }
    requires together { together ≡ true → AreTogether starts }
    ensures turned { AreTurned (parent_numbers parents.now) change.now cells.old cells.new }
    ensures room { length cells.new ≡ length cells.old }
{
    let mut chains = starts;
    'up: loop {
        let here = chains.top();
        if here == 0 {
            return;
        }
        let place = here as usize - 1;
        turn_at(&mut cells[place], parts, &chains, here);
        chains.pass(here, height(parents[place]), together);
    }
}

// Applies a change to a slot and its ancestors on each of the four chains, without merging chains.
// The function isn't inlined, because this case is rare.
#[inline(never)]
fn climb_each(
    cells: &mut [Cell],
    parents: &[Option<Slot>],
    current: &Running,
    change: &PackedChange,
)
    requires { CanClimb parents.now current.now change.now
        (chains_of current.now change.now) cells.old }
    ensures turned { AreTurned (parent_numbers parents.now) change.now cells.old cells.new }
    ensures room { length cells.new ≡ length cells.old }
{
    let parts = Parts::of(current, change);
    let starts = Chains::of(current, change);
    climb(cells, parents, current, change, &parts, starts, false);
}

/// Turns a group's accounting on or off. Does nothing for `None`. The counts and the clock of the
/// group are updated later, when the walk visits the group.
pub(crate) fn switch(cells: &mut [Cell], account: Option<(Slot, bool)>)
    requires made { IfSome account (λ g. g.0.0 < length cells.old) }
    ensures on_with { AreOnWith account cells.old cells.new }
    ensures room { length cells.new ≡ length cells.old }
{
    if let Some((slot, on)) = account {
        cells[slot.0 as usize].on = on;
    }
}

/// Applies a change to the groups on its chains (a slot and its ancestors). Most changes need two
/// chains instead of four: one for the task that runs after the change, and one for the counts and
/// the task that ran before.
#[inline(always)]
pub(crate) fn walk(
    cells: &mut [Cell],
    parents: &[Option<Slot>],
    current: &Running,
    change: &PackedChange,
)
    requires can { CanClimb parents.now current.now change.now
        (chains_of current.now change.now) cells.old }
    ensures turned { AreTurned (parent_numbers parents.now) change.now cells.old cells.new }
    ensures room { length cells.new ≡ length cells.old }
{
    let parts = Parts::of(current, change);
    match Chains::together(current, change, parts.stays) {
        Some(starts) => climb(cells, parents, current, change, &parts, starts, true),
        None => climb_each(cells, parents, current, change),
    }
}
