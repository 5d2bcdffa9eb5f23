// The calls on a history and its shares.
ghost use Rattle.std.specs.Prelude.{◌≡◌, ◌≢◌, ℕ, ◌+◌, ◌-◌, ◌^◌, ◌<◌, ◌≤◌, List, [], ◌∷◌, ◌++◌, length, map, Some, IfOk};
ghost use Rattle.std.specs.Prelude.{IsTrue, vec_capacity};
ghost use Rattle.index_sets.specs.Indices.{contains, all_but, numbers_from};
ghost use Rattle.index_sets.specs.Prefixes.{longer};
ghost use Rattle.chronicle.specs.History.{whole_share, caller_share, GoesOn, IsShare};
ghost use Rattle.chronicle.specs.Kept.{first_view};
ghost use Rattle.chronicle.specs.Settled.{named, IsDealing};

use crate::history::{Chronicle, Share};
use crate::table::{
    About, Adds, Begins, CutsCaller, CutsPart, Glues, Known, Learns, Told, Top, View, Which, Words,
};
use atomic_table::{Seat, Table};
use index_sets::Entry;
use mcp_outside::NoMemory;
use std::alloc::Global;
use std::marker::Brand;
use std::snapshot::Snapshot;

// Hands out the callers, each in a share of its own.
fn deal_callers<T: Entry>(
    top: &Top<T>,
    mut seat: Seat<(), View<T>>,
    callers: u32,
    mut shares: Vec<Share<T>>,
) -> (Share<T>, Vec<Share<T>>)
    requires table { (top.now.table_id.words ≡ 1) × (seat.table_id ≡ top.now.table_id) }
    requires callers { top.now.key.callers ≡ callers }
    requires view { IsDealing top.now.key seat.me.0.first 0 seat.me }
    requires room { (shares.items ≡ []) × (callers ≤ vec_capacity shares) }
    ensures whole { result.0 ≡ whole_share (named top.now.table_id top.now.key seat.me.0.first) }
    ensures shares { result.1.items
        ≡ map (caller_share T.caller (named top.now.table_id top.now.key seat.me.0.first)) (numbers_from 1 callers) }
{
    for given in 0..callers {
        let own = top.split_seat::<CutsCaller>(&mut seat);
        let Ok(()) = shares.push(Share { seat: own }) else {
            unreachable!()
        };
        let _ = given;
    }
    (Share { seat }, shares)
}

// The first seat is told the first entries, and deals.
fn open<T: Entry, B: Known<T>>(
    table: Words<T>,
    mut seat: Seat<(), View<T>>,
    first: &[T],
    callers: u32,
    shares: Vec<Share<T>>,
) -> (Chronicle<T>, Share<T>, Vec<Share<T>>)
    requires told { first.now ≡ B.entries }
    requires table { (table.shared.table_id.words ≡ 1) × (seat.table_id ≡ table.shared.table_id) }
    requires callers { table.shared.key.callers ≡ callers }
    requires view { (seat.me ≡ (first_view table.shared.key, [])) × (table.shared.key.size ≡ length first.now) }
    requires room { (shares.items ≡ []) × (callers ≤ vec_capacity shares) }
    ensures chronicle { result.0 ≡ named table.shared.table_id table.shared.key first.now }
    ensures whole { result.1 ≡ whole_share result.0 }
    ensures shares { result.2.items ≡ map (caller_share T.caller result.0) (numbers_from 1 callers) }
{
    table.shared.load::<Begins<B>>(&mut seat, 0);
    let opened = Snapshot::of(&seat);
    let (whole, shares) = deal_callers(&table.shared, seat, callers, shares);
    (Chronicle { table, opened }, whole, shares)
}

impl<T: Entry> Chronicle<T> {
    /// A history that begins with these entries, the share that owns all parts, and a share for each caller, in order.
    pub fn make(
        alloc: Global,
        parts: u32,
        callers: u32,
        first: &[T],
    ) -> Result<(Chronicle<T>, Share<T>, Vec<Share<T>>), NoMemory>
        requires parts { 1 ≤ parts }
        requires callers { 1 ≤ callers }
        ensures chronicle { IfOk result (λ r.
            (r.0.last + 1 ≡ parts) × (r.0.callers ≡ callers) × (r.0.first ≡ first.now)) }
        ensures whole { IfOk result (λ r. r.1 ≡ whole_share r.0) }
        ensures shares { IfOk result (λ r. r.2.items ≡ map (caller_share T.caller r.0) (numbers_from 1 callers)) }
    {
        let size = first.len() as u64;
        let about = About {
            last: parts - 1,
            callers,
            size,
        };
        let Ok((table, seat)) = Table::of_words(alloc, &[size], &about) else {
            return Err(NoMemory);
        };
        let Ok(shares) = Vec::with_capacity(alloc, callers as usize) else {
            return Err(NoMemory);
        };
        Ok(open::<T, Brand>(table, seat, first, callers, shares))
    }

    fn split_at<B: Which>(&self, from: &mut Share<T>, place: u32) -> Share<T>
        requires told { place ≡ B.part }
        requires of { from.old.of ≡ self.now }
        requires owns { IsTrue (contains from.old.parts place) }
        ensures left { from.new ≡ record from.old { parts = all_but from.old.parts place } }
        ensures latest { (others : List ℕ) → from.old.parts ≡ others ++ place ∷ [] → from.new.parts ≡ others }
        ensures right { result ≡ record from.old { caller = 0; mine = []; parts = place ∷ [] } }
        ensures valid { IsShare T.caller from.new × IsShare T.caller result }
    {
        let seat = self.table.shared.split_seat::<CutsPart<B>>(&mut from.seat);
        Share { seat }
    }

    /// Cuts a part off. The new share has seen the same, and has no caller.
    pub fn split_parts(&self, from: &mut Share<T>, place: u32) -> Share<T>
        requires of { from.old.of ≡ self.now }
        requires owns { IsTrue (contains from.old.parts place) }
        ensures left { from.new ≡ record from.old { parts = all_but from.old.parts place } }
        ensures latest { (others : List ℕ) → from.old.parts ≡ others ++ place ∷ [] → from.new.parts ≡ others }
        ensures right { result ≡ record from.old { caller = 0; mine = []; parts = place ∷ [] } }
        ensures valid { IsShare T.caller from.new × IsShare T.caller result }
    {
        self.split_at::<Brand>(from, place)
    }

    /// Takes in the parts of another share, and what it has seen.
    pub fn join_parts(&self, into: &mut Share<T>, from: Share<T>)
        requires of { (into.old.of ≡ self.now) × (from.of ≡ self.now) }
        requires nobody { from.caller ≡ 0 }
        ensures both { into.new ≡ record into.old
            { seen = longer into.old.seen from.seen; parts = into.old.parts ++ from.parts } }
        ensures into { GoesOn T.caller T.touches into.old into.new.seen }
        ensures from { GoesOn T.caller T.touches from into.new.seen }
        ensures valid { IsShare T.caller into.new }
    {
        let Share { seat } = from;
        let shared = &self.table.shared;
        shared.join_seat::<Glues>(&mut into.seat, seat);
        shared.load::<Learns>(&mut into.seat, 0);
    }

    fn append_told<B: Told<T>>(&self, share: &mut Share<T>, entry: &T) -> u64
        requires told { B.entry ≡ Some entry.now }
        requires of { share.old.of ≡ self.now }
        requires caller { (T.caller entry.now ≡ share.old.caller) × (share.old.caller ≢ 0) }
        requires last { IsTrue (contains share.old.parts self.now.last) }
        requires parts { (p : ℕ) → IsTrue (T.touches entry.now p) → IsTrue (contains share.old.parts p) }
        requires room { length share.old.seen < 2 ^ 64 - 1 }
        ensures grown { share.new ≡ record share.old
            { seen = share.old.seen ++ entry.now ∷ []; mine = share.old.mine ++ entry.now ∷ [] } }
        ensures number { result ≡ length share.new.seen }
        ensures valid { IsShare T.caller share.new }
    {
        self.table
            .shared
            .fetch_add::<Adds<B>>(&mut share.seat, 0, 1)
            + 1
    }

    /// Makes the entry the last of the history, and answers its number, from 1.
    pub fn append(&self, share: &mut Share<T>, entry: &T) -> u64
        requires of { share.old.of ≡ self.now }
        requires caller { (T.caller entry.now ≡ share.old.caller) × (share.old.caller ≢ 0) }
        requires last { IsTrue (contains share.old.parts self.now.last) }
        requires parts { (p : ℕ) → IsTrue (T.touches entry.now p) → IsTrue (contains share.old.parts p) }
        requires room { length share.old.seen < 2 ^ 64 - 1 }
        ensures grown { share.new ≡ record share.old
            { seen = share.old.seen ++ entry.now ∷ []; mine = share.old.mine ++ entry.now ∷ [] } }
        ensures number { result ≡ length share.new.seen }
        ensures valid { IsShare T.caller share.new }
    {
        self.append_told::<Brand>(share, entry)
    }

    /// A length that the history has had. It may be longer by now.
    pub fn look_count(&self, share: &mut Share<T>) -> u64
        requires of { share.old.of ≡ self.now }
        ensures same { share.new ≡ share.old }
        ensures least { length share.old.seen ≤ result }
        ensures whole { IsTrue (contains share.old.parts self.now.last) → result ≡ length share.old.seen }
        ensures valid { IsShare T.caller share.new }
    {
        self.table.shared.load::<Learns>(&mut share.seat, 0)
    }
}
