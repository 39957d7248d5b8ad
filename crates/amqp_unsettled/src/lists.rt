//! The numbers of unsettled deliveries, in a row for each link.

ghost use Rattle.std.specs.Prelude.{◌≡◌, ◌<◌, ◌≤◌, ◌^◌, true, OnOk, OnErr, length, max};
ghost use Rattle.std.specs.Prelude.{slice_get, vec_len, vec_capacity};
ghost use Rattle.amqp_memory.specs.Refusal.{SomeRefused};
ghost use Rattle.amqp_unsettled.specs.Inner.Lists.{AsBefore, Gains, Loses, LosesFirst, list_of, numbers_of};
ghost use Rattle.amqp_unsettled.specs.Inner.Rows.{comes_next};

use crate::row::Row;
use amqp_memory::more_in_vector;
use std::alloc::{AllocError, Global};

/// Makes rows without numbers, up to so many.
fn fill_up(lists: &mut Vec<Row<u32>>, alloc: Global, count: usize)
    requires room { count ≤ vec_capacity lists.old }
    ensures same { AsBefore lists.old.items lists.new.items }
    ensures len { vec_len lists.new ≡ max (vec_len lists.old) count }
{
    while lists.len() < count {
        lists.push_reserved(Row::new(alloc));
    }
}

/// Makes the row of a link, where there is none. It is at the place that the link's number is.
fn make_list(lists: &mut Vec<Row<u32>>, alloc: Global, link: u32) -> Result<(), AllocError>
    ensures same { AsBefore lists.old.items lists.new.items }
    ensures ok { OnOk result (link < vec_len lists.new) }
    ensures refused { OnErr result SomeRefused }
{
    let count = link as usize + 1;
    if count <= lists.len() {
        return Ok(());
    }
    more_in_vector(lists, count - lists.len())?;
    fill_up(lists, alloc, count);
    Ok(())
}

/// Whether there is room for a number more in the row of a link.
#[inline(always)]
pub(crate) fn has_room(lists: &Vec<Row<u32>>, link: u32) -> bool
    ensures { result ≡ true → 0 < (list_of lists.now.items link).room }
{
    match lists.get(link as usize) {
        Some(list) => list.has_room(),
        None => false,
    }
}

/// Makes room for a number more in the row of a link. No number changes, whether memory is refused or not.
pub(crate) fn make_room(
    lists: &mut Vec<Row<u32>>,
    alloc: Global,
    link: u32,
) -> Result<(), AllocError>
    ensures same { AsBefore lists.old.items lists.new.items }
    ensures ok { OnOk result (0 < (list_of lists.new.items link).room) }
    ensures refused { OnErr result SomeRefused }
{
    make_list(lists, alloc, link)?;
    lists[link as usize].reserve()
}

/// Puts a number after the others of its link.
#[inline(always)]
pub(crate) fn put(lists: &mut Vec<Row<u32>>, link: u32, number: u32)
    requires room { 0 < (list_of lists.old.items link).room }
    requires next { comes_next (λ n. n) number (numbers_of lists.old.items link) ≡ true }
    ensures { Gains number link lists.old.items lists.new.items }
{
    lists[link as usize].push(number);
}

/// Whether nothing is to be done beside, where the first number of a link goes.
#[inline(always)]
pub(crate) fn is_plain(lists: &Vec<Row<u32>>, link: u32) -> bool
    ensures { result ≡ true → (list_of lists.now.items link).gone ≡ 0 }
{
    match lists.get(link as usize) {
        Some(list) => list.is_plain(),
        None => false,
    }
}

/// The first number of a link goes, where nothing is to be done beside.
#[inline(always)]
pub(crate) fn drop_first(lists: &mut Vec<Row<u32>>, link: u32)
    requires plain { (list_of lists.old.items link).gone ≡ 0 }
    requires some { 0 < length (numbers_of lists.old.items link) }
    ensures { LosesFirst link lists.old.items lists.new.items }
{
    lists[link as usize].drop_first();
}

/// Takes out a number that its link has.
pub(crate) fn forget(lists: &mut Vec<Row<u32>>, link: u32, number: u32)
    requires some { 0 < length (numbers_of lists.old.items link) }
    ensures { Loses number link lists.old.items lists.new.items }
{
    let _number = lists[link as usize].take(number);
}

/// Lets the memory of a link's row go, where it has no number.
pub(crate) fn let_go(lists: &mut Vec<Row<u32>>, alloc: Global, link: u32)
    ensures { AsBefore lists.old.items lists.new.items }
{
    if let Some(list) = lists.get_mut(link as usize) {
        empty(list, alloc);
    }
}

/// Lets the memory of a row go, where it has no number.
fn empty(list: &mut Row<u32>, alloc: Global)
    ensures { list.new.items ≡ list.old.items }
{
    if list.is_empty() {
        *list = Row::new(alloc);
    }
}

/// The first number of a link.
#[inline(always)]
pub(crate) fn first_of(lists: &Vec<Row<u32>>, link: u32) -> Option<u32>
    ensures { result ≡ slice_get (numbers_of lists.now.items link) 0 }
{
    match lists.get(link as usize) {
        Some(list) => list.first(),
        None => None,
    }
}

/// How many numbers a link has.
#[inline(always)]
pub(crate) fn count_of(lists: &Vec<Row<u32>>, link: u32) -> usize
    ensures { result ≡ length (numbers_of lists.now.items link) }
{
    match lists.get(link as usize) {
        Some(list) => list.len(),
        None => 0,
    }
}
