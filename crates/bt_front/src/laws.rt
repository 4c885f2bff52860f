//! Laws of the verdict: small functions whose contracts are the laws.

ghost use Rattle.bt_front.specs.calls.Orders.{found_order_fits, order_is_found};
ghost use Rattle.bt_front.specs.calls.OrderText.{order_is_read};
ghost use Rattle.bt_front.specs.calls.Survey.{surveys_tell_the_text};
ghost use Rattle.bt_front.specs.calls.Verdicts.{found_order_is_used, taken_is_finished};

use bt_lines::Source;

/// The order that [`common_order`](crate::common_order) finds has each chromosome of the inputs once, and no others, and those
/// of each input in their order. It is found if there is one. Its genome file is read as these chromosomes.
#[tactic(auto, using(crate::proofs::lemmas::order::OrderLaws::found_if_any))]
pub fn common_orders_fit()
    ensures fits { found_order_fits }
    ensures found { order_is_found }
    ensures read { order_is_read }
{}

/// A survey of a source that tells its text is of that text: of all of it, or of its start up to what leaves it to
/// bedtools.
pub fn surveys_tell_the_text<S: Source>()
    ensures { surveys_tell_the_text S.Source }
{}

/// What the verdict takes is finished: the report on the texts that were surveyed has no fault. A limit on what is held,
/// which bedtools doesn't have, may still end it. The genome file of an order that was found gives the run that order.
pub fn what_is_taken_is_finished()
    ensures finished { taken_is_finished }
    ensures used { found_order_is_used }
{}
