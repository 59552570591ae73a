//! Pairs of places in a list that wait, in their order.
ghost use Rattle.std.specs.Prelude.{◌≡◌, ◌<◌, ◌≤◌, ◌+◌, ◌++◌, ◌∷◌, [], List, ℕ, false, true, length, map, take, drop, All, OnOk};
ghost use Rattle.std.specs.Ordering.{is_lt};
ghost use Rattle.machines.specs.Pairs.{mixes_degrees, is_covered, skip_covered};
ghost use Rattle.complete.specs.Pairs.{pair_of, keys, Stands, AllStand, InOrder, enter, enters, covers_pair, HaveVariables, rows_of, waiting_pairs, HasRoom, IsQueue, IsTold, IsWithNew};
ghost use Rattle.complete.specs.Table.{Tells, Once};
ghost use Rattle.complete.specs.Limits.{place_limit};

use crate::pair::Pair;
use crate::table::Table;
use monos::{Mono, Order};
use std::alloc::{AllocError, Global};
use std::cmp::Ordering;

/// The pairs that wait, in their order behind the first `taken`, with a table of them. `mixed` says whether sugars come before degrees.
#[derive(Drop)]
pub(crate) struct Queue {
    pub(crate) mixed: bool,
    pub(crate) pairs: Vec<Pair>,
    pub(crate) taken: usize,
    pub(crate) table: Table,
}

/// Before how many pairs of the list, which are in their order, none is above this one.
fn place_of<O: Order>(order: O, mixed: bool, pair: &Pair, list: &[Pair]) -> usize
    requires long { All
        (λ b. length b.parts.value.multiple ≡ length pair.now.parts.value.multiple) list.now }
    requires in_order { InOrder (keys (O.order order) mixed) list.now }
    ensures bound { result ≤ length list.now }
    ensures below { All (λ b. is_lt (keys (O.order order) mixed pair.now b) ≡ false)
        (take result list.now) }
    ensures above { All (λ b. is_lt (keys (O.order order) mixed pair.now b) ≡ true)
        (drop result list.now) }
{
    let mut low = 0;
    let mut high = list.len();
    while low < high {
        let middle = low + (high - low) / 2;
        let other = &list[middle];
        if let Ordering::Less = pair.compare(order, mixed, other) {
            high = middle;
        } else {
            low = middle + 1;
        }
    }
    low
}

/// Whether the lead at a place divides the pair's multiple, is none of the pair's two, and waits with neither.
fn covers(pair: &Pair, table: &Table, place: u32, lead: &Mono) -> bool
    requires same { length lead.now ≡ length pair.now.parts.value.multiple }
    requires inside { place < length (rows_of table.now) }
    requires apart { pair.now.parts.value.left < pair.now.parts.value.right }
    requires right_in { pair.now.parts.value.right < length (rows_of table.now) }
    ensures { result ≡ covers_pair pair.now (rows_of table.now) place lead.now }
{
    if place == pair.parts.left {
        return false;
    }
    if place == pair.parts.right {
        return false;
    }
    if !lead.divides(&pair.parts.multiple) {
        return false;
    }
    if table.waits(pair.parts.left, place) {
        return false;
    }
    !table.waits(pair.parts.right, place)
}

/// Whether some lead covers the pair.
fn is_covered(pair: &Pair, table: &Table, leads: &[Mono]) -> bool
    requires few { length leads.now ≤ place_limit }
    requires long { All (λ e. length e ≡ length pair.now.parts.value.multiple) leads.now }
    requires stands { Stands leads.now pair.now }
    requires count { length (rows_of table.now) ≡ length leads.now }
    ensures { (w : List (ℕ × ℕ)) → Tells (rows_of table.now) w
        → result ≡ is_covered leads.now w (pair_of pair.now) }
{
    for (k, lead) in leads.iter().enumerate() {
        if covers(pair, table, k as u32, lead) {
            return true;
        }
    }
    false
}

/// How many pairs at the front are covered, up to the first that isn't. These, and it, wait no longer.
pub(crate) fn covered_count(list: &[Pair], leads: &[Mono], table: &mut Table) -> usize
    requires few { length leads.now ≤ place_limit }
    requires stand { AllStand leads.now list.now }
    requires long { All (λ a. All (λ e. length e ≡ length a.parts.value.multiple) leads.now)
        list.now }
    requires count { length (rows_of table.old) ≡ length leads.now }
    requires told { Tells (rows_of table.old) (map pair_of list.now) }
    requires once { Once (map pair_of list.now) }
    ensures bound { result ≤ length list.now }
    ensures settled { skip_covered leads.now (map pair_of list.now)
        ≡ map pair_of (drop result list.now) }
    ensures count { length (rows_of table.new) ≡ length (rows_of table.old) }
    ensures told { result < length list.now
        → Tells (rows_of table.new) (map pair_of (drop (result + 1) list.now)) }
{
    for (i, pair) in list.iter().enumerate() {
        table.take(pair.parts.left, pair.parts.right);
        if !is_covered(pair, table, leads) {
            return i;
        }
    }
    list.len()
}

/// Puts the pairs of a new lead with all earlier ones among those that wait, but for those with coprime leads.
pub(crate) fn add_pairs<O: Order>(
    alloc: Global,
    order: O,
    leads: &[Mono],
    sugars: &[u64],
    lead: &Mono,
    sugar: u64,
    queue: &mut Queue,
) -> Result<(), AllocError>
    requires few { length leads.now < place_limit }
    requires long { All (λ e. length e ≡ length lead.now) leads.now }
    requires count { length sugars.now ≡ length leads.now }
    requires room { All HasRoom (sugars.now ++ sugar ∷ []) }
    requires mixed { queue.old.mixed ≡ mixes_degrees (O.order order) (length lead.now) }
    requires queue { IsQueue (O.order order) leads.now sugars.now queue.old }
    requires told { IsTold queue.old }
    ensures pairs { OnOk result
        (IsWithNew (O.order order) leads.now sugars.now lead.now sugar queue.old queue.new) }
    ensures queue { OnOk result (IsQueue (O.order order)
        (leads.now ++ lead.now ∷ []) (sugars.now ++ sugar ∷ []) queue.new) }
    ensures told { OnOk result (IsTold queue.new) }
    ensures mixed { queue.new.mixed ≡ queue.old.mixed }
{
    let right = leads.len() as u32;
    let mut row = Vec::new(alloc);
    let mut news = Vec::new(alloc);
    for (k, first) in leads.iter().enumerate() {
        let waits = !first.is_coprime(lead);
        row.push(waits)?;
        if waits {
            let pair = Pair::new(alloc, k as u32, first, sugars[k], right, lead, sugar)?;
            put_pair(order, queue.mixed, &mut news, pair)?;
        }
    }
    put_pairs(alloc, order, queue, news)?;
    queue.table.push(row)
}

/// Puts a pair where it belongs in a list, which is in its order.
fn put_pair<O: Order>(
    order: O,
    mixed: bool,
    list: &mut Vec<Pair>,
    pair: Pair,
) -> Result<(), AllocError>
    requires long { All (λ b. length b.parts.value.multiple ≡ length pair.parts.value.multiple)
        list.old.items }
    requires in_order { InOrder (keys (O.order order) mixed) list.old.items }
    ensures list { OnOk result
        (list.new.items ≡ enter (keys (O.order order) mixed) pair list.old.items) }
{
    let place = place_of(order, mixed, &pair, list);
    list.insert(place, pair)?;
    Ok(())
}

/// Puts pairs, which are in their order, among those that wait. From the last on, what is behind the place of each is set aside, so it is moved twice,
/// however many are put in.
fn put_pairs<O: Order>(
    alloc: Global,
    order: O,
    queue: &mut Queue,
    news: Vec<Pair>,
) -> Result<(), AllocError>
    requires long { HaveVariables (waiting_pairs queue.old ++ news.items) }
    requires news { InOrder (keys (O.order order) queue.old.mixed) news.items }
    requires in_order { InOrder (keys (O.order order) queue.old.mixed) (waiting_pairs queue.old) }
    requires taken { queue.old.taken ≤ length queue.old.pairs.items }
    ensures pairs { OnOk result (waiting_pairs queue.new
        ≡ enters (keys (O.order order) queue.old.mixed) news.items (waiting_pairs queue.old)) }
    ensures taken { OnOk result (queue.new.taken ≤ length queue.new.pairs.items) }
    ensures mixed { queue.new.mixed ≡ queue.old.mixed }
    ensures table { queue.new.table ≡ queue.old.table }
{
    let mut news = news;
    // what is behind, last first
    let mut later = Vec::new(alloc);
    while let Some(pair) = news.pop() {
        let place = place_of(order, queue.mixed, &pair, &queue.pairs[queue.taken..]);
        let mut tail = queue.pairs.split_off(queue.taken + place)?;
        tail.reverse();
        later.append(&mut tail)?;
        queue.pairs.push(pair)?;
    }
    later.reverse();
    queue.pairs.append(&mut later)?;
    Ok(())
}
