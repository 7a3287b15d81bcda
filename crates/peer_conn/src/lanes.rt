//! Whose the calls and the streams are, and what a lane's numbers name.
ghost use Rattle.std.specs.Prelude.{◌≡◌, ℕ, [], ◌∷◌, ◌++◌, if◌then◌else◌, length, replicate, None, OnOk, OnErr};
ghost use Rattle.peer_route.specs.Replay as replays;
ghost use Rattle.peer_conn.specs.Invariant.{is_of, places, kept_for};

use std::alloc::{AllocError, Global};
use std::collections::BTreeMap;
use std::marker::Model;

/// Whose the calls, or the streams, are: for each, by its number among all, its lane, or none. For each lane the numbers
/// of its own are kept too, in order, so that a lane's number is looked up and not counted.
pub(crate) struct Lanes {
    owners: Vec<Option<u32>>,
    lanes: BTreeMap<u32, Vec<u64>>,
}

impl Drop for Lanes {
    fn drop(self) {
        let Lanes {
            owners: _,
            lanes: _,
        } = self;
    }
}

impl Model for Lanes {
    ghost use Rattle.std.specs.Prelude.{◌≡◌, ℕ};
    ghost use Rattle.peer_route.specs.Replay.{Owners};
    ghost use Rattle.peer_conn.specs.Invariant.{places, kept_for};

    ghost Value = { Owners };

    ghost view = { λ l. l.owners.items };

    ghost invariant = { λ l. (lane : ℕ) → kept_for l.lanes lane ≡ places 0 lane l.owners.items };
}

/// Keeps one number more for its owner, if it has one.
fn keep(
    lanes: &mut BTreeMap<u32, Vec<u64>>,
    owner: Option<u32>,
    number: u64,
) -> Result<(), AllocError>
    ensures ok { OnOk result ((lane : ℕ) → kept_for lanes.new lane ≡ kept_for lanes.old lane ++ (if is_of owner lane then number ∷ [] else [])) }
    ensures err { OnErr result ((lane : ℕ) → kept_for lanes.new lane ≡ kept_for lanes.old lane) }
{
    let Some(lane) = owner else {
        return Ok(());
    };
    lanes.entry(lane)?.or_default().push(number)?;
    Ok(())
}

impl Lanes {
    /// Nothing belongs to any lane.
    pub(crate) fn new(alloc: Global) -> Lanes
        ensures { result ≡ [] }
    {
        Lanes {
            owners: Vec::new(alloc),
            lanes: BTreeMap::new(alloc),
        }
    }

    /// How many there are, of all lanes and of none.
    pub(crate) fn len(&self) -> u64
        ensures { result ≡ length self.now }
    {
        self.owners.len() as u64
    }

    /// The numbers among all of what belongs to the lane, in order.
    fn places(&self, lane: u32) -> &[u64]
        ensures { result.now ≡ places 0 lane self.now }
    {
        match self.lanes.get(&lane) {
            Some(places) => places.as_slice(),
            None => &[],
        }
    }

    /// How many of the calls, or of the streams, belong to the lane.
    pub(crate) fn count(&self, lane: u32) -> u64
        ensures { result ≡ replays.count lane self.now }
    {
        self.places(lane).len() as u64
    }

    /// The call, or the stream, that the lane's number names, by its number among all.
    pub(crate) fn handle_index(&self, lane: u32, number: u64) -> Option<u64>
        ensures { result ≡ replays.handle_index 0 lane number self.now }
    {
        self.places(lane).get(number as usize).copied()
    }

    /// One more, of that lane or of none. Without memory for it, all is as it was.
    pub(crate) fn push(&mut self, owner: Option<u32>) -> Result<(), AllocError>
        ensures ok { OnOk result (self.new ≡ self.old ++ owner ∷ []) }
        ensures err { OnErr result (self.new ≡ self.old) }
    {
        self.owners.reserve(1)?;
        keep(&mut self.lanes, owner, self.owners.len() as u64)?;
        match self.owners.push(owner) {
            Ok(()) => Ok(()),
            // There is room: it was made first.
            Err(_) => unreachable!(),
        }
    }

    /// So many more, that are nobody's.
    pub(crate) fn push_nobodys(&mut self, count: u64) -> Result<(), AllocError>
        ensures { OnOk result (self.new ≡ self.old ++ replicate count None) }
    {
        for _ in 0..count {
            self.push(None)?;
        }
        Ok(())
    }
}
