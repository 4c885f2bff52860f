//! An order of chromosomes that fits each input, as the text of a genome file.

ghost use Rattle.std.specs.Prelude.{◌≡◌, ◌++◌, ◌-◌, ◌≤◌, IfOk, OnOk, take, drop, length, is_some, option_copied, option_map};
ghost use Rattle.bt_bed.specs.model.Order.{rank_of};
ghost use Rattle.bt_front.specs.model.Extents.{names_in};
ghost use Rattle.bt_front.specs.calls.Orders.{names_among};
ghost use Rattle.bt_front.specs.model.Fitting.{common_names, entry_text, order_text};

use crate::survey::chromosomes::Chromosomes;
use std::alloc::{AllocError, Global};

// What follows a name on its line: a length that no end is past.
const LENGTH: &[u8] = b"\t999999999999\n";

/// A genome file of all chromosomes of one input or two, in an order that fits each of them: before each of the first
/// input those of the second that come there and aren't in the first. It's `None` if no order fits.
pub fn common_order(
    alloc: Global,
    first: &Chromosomes,
    second: Option<&Chromosomes>,
) -> Result<Option<Vec<u8>>, AllocError>
    ensures { IfOk result (λ found. option_map (λ text. text.items) found
        ≡ option_map order_text (common_names (names_in first.now) (names_among (option_copied second.entry)))) }
{
    let count = count_among(second);
    let mut text = Vec::new(alloc);
    // How many of the second are in the text.
    let mut next = 0;
    for at in 0..first.count() {
        let name = first.name(at);
        if let Some(place) = place_among(second, name) {
            if place < next {
                return Ok(None);
            }
            prove!(place < count);
            put_names(&mut text, second, next, place)?;
            next = place + 1;
        }
        put_entry(&mut text, name)?;
    }
    put_names(&mut text, second, next, count)?;
    Ok(Some(text))
}

/// Whether there is an order that fits both inputs.
pub(crate) fn has_common_order(first: &Chromosomes, second: Option<&Chromosomes>) -> bool
    ensures { result ≡ is_some (common_names (names_in first.now) (names_among (option_copied second.entry))) }
{
    let count = count_among(second);
    let mut next = 0;
    for at in 0..first.count() {
        if let Some(place) = place_among(second, first.name(at)) {
            if place < next {
                return false;
            }
            prove!(place < count);
            next = place + 1;
        }
    }
    true
}

// How many chromosomes the second input has, if there is one.
fn count_among(second: Option<&Chromosomes>) -> usize
    ensures { result ≡ length (names_among (option_copied second.entry)) }
{
    match second {
        Some(chromosomes) => chromosomes.count(),
        None => 0,
    }
}

// The place of a name among those of the second input, if there is one.
fn place_among(second: Option<&Chromosomes>, name: &[u8]) -> Option<usize>
    ensures { result ≡ rank_of (names_among (option_copied second.entry)) name.now }
{
    match second {
        Some(chromosomes) => chromosomes.place(name),
        None => None,
    }
}

// Puts the lines of the second input's chromosomes from one place up to another.
fn put_names(
    text: &mut Vec<u8>,
    second: Option<&Chromosomes>,
    from: usize,
    to: usize,
) -> Result<(), AllocError>
    requires from { from ≤ to }
    requires to { to ≤ length (names_among (option_copied second)) }
    ensures { OnOk result (text.new.items ≡ text.old.items
        ++ order_text (take (to - from) (drop from (names_among (option_copied second.entry))))) }
{
    if let Some(chromosomes) = second {
        for at in from..to {
            put_entry(text, chromosomes.name(at))?;
        }
    }
    Ok(())
}

// Puts the line of a chromosome.
fn put_entry(text: &mut Vec<u8>, name: &[u8]) -> Result<(), AllocError>
    ensures { OnOk result (text.new.items ≡ text.old.items ++ entry_text name.now) }
{
    text.extend_from_slice(name)?;
    text.extend_from_slice(LENGTH)
}
