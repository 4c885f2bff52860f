//! Calls whose hits have to be put in order: both texts are kept in memory for that.

ghost use Rattle.std.specs.Prelude.{◌≡◌, ◌<◌, ◌+◌, ◌-◌, IfErr, IfNone, IfOk, IfSome, None, false, true};
ghost use Rattle.bt_bed.specs.calls.Orders.{ArePlaced};
ghost use Rattle.bt_bed.specs.model.Feature.{intervals_of};
ghost use Rattle.bt_front.specs.model.Verdict.{lists_hits};
ghost use Rattle.bt_hits.specs.calls.Listing.{AreRecordsOf};
ghost use Rattle.bt_tool.specs.calls.Plan.{plan_seen};
ghost use Rattle.drop_in.specs.calls.Call.{stream_among};
ghost use Rattle.drop_in.specs.calls.Hits.{AreKept, AreUnkept, IsKept, IsListing, IsUnkept, IsWhyOfHits, IsWhyOfKept, ListsBy, ListsInputs, kept_stream, kept_text, stream_kept, stream_read, text_len, unkept_why};

use crate::answering::{Inputs, stream_among};
use crate::genome_file::{Unfinished, genome_in, read_text};
use crate::looks::{Left, ReadStream, Reading};
use crate::why::Why;
use bt_bed::{ByteOrder, ChromOrder, Rec};
use bt_files::{Files, Message, end_of};
use bt_hits::{BothRecords, Listing, Unread, list_hits, records_of};
use bt_lines::{Input, Source};
use bt_tool::{Command, Outcome, Plan};
use std::alloc::Global;
use std::collections::VecDeque;

/// A call whose hits were listed.
#[derive(Drop)]
pub struct Listed<O> {
    pub message: Message,
    pub output: O,
}

/// The text of an input, in memory.
#[derive(Drop)]
pub enum Kept<I> {
    /// Of a file, which was read to its end.
    File(Vec<u8>),
    /// Of a stream.
    Stream(ReadStream<I>),
}

/// The texts of both inputs.
#[derive(Drop)]
pub struct KeptTexts<I> {
    pub first: Kept<I>,
    pub second: Kept<I>,
}

/// Lists the hits of a call that the verdict takes, in the order of bedtools. It is left, and no output is made, if one of its
/// texts is longer than there is room for, or can't be read.
pub fn list_inputs<I: Source + Drop, F: Files<Input = I>>(
    alloc: Global,
    files: &mut F,
    plan: &Plan,
    inputs: Inputs<I>,
    room: usize,
) -> Result<Listed<F::Output>, Left<I>>
    requires { lists_hits plan.now.command ≡ true }
    ensures lists { IfOk result (λ listed. ListsInputs F.Files F.Output.Sink I.Source files.old (plan_seen plan.now) inputs listed
        files.new) }
    ensures stream { IfErr result (λ left. left.stream ≡ stream_among inputs.first inputs.second) }
    ensures why { IfErr result (λ left. IsWhyOfHits I.Source inputs room left.why) }
    ensures unopened { IfErr result (λ left. files.new ≡ files.old) }
{
    let Inputs {
        genome,
        first,
        second,
    } = inputs;
    let texts = match keep_both(alloc, first, second, room) {
        Ok(texts) => texts,
        Err(left) => return Err(left),
    };
    match genome {
        None => list_by(alloc, files, plan, &ByteOrder, texts),
        Some(text) => match genome_in(alloc, text.as_slice()) {
            Ok(genome) => list_by(alloc, files, plan, &genome, texts),
            Err(_) => Err(Left {
                why: Why::NoMemory,
                stream: stream_kept(texts),
            }),
        },
    }
}

// Keeps the texts of both inputs.
fn keep_both<I: Source + Drop>(
    alloc: Global,
    first: Reading<I>,
    second: Option<Reading<I>>,
    room: usize,
) -> Result<KeptTexts<I>, Left<I>>
    ensures keeps { IfOk result (AreKept I.Source first second) }
    ensures stream { IfErr result (λ left. left.stream ≡ stream_among first second) }
    ensures why { IfErr result (λ left. AreUnkept I.Source first second room left.why) }
{
    let Some(second) = second else {
        return Err(Left {
            why: Why::HitsRoom,
            stream: stream_among(first, None),
        });
    };
    let Some(room) = room_beside(&first, &second, room) else {
        return Err(Left {
            why: Why::HitsRoom,
            stream: stream_among(first, Some(second)),
        });
    };
    let first = match keep(alloc, first, Input::First, room) {
        Ok(first) => first,
        Err(why) => return Err(Left {
            why,
            stream: stream_of(second),
        }),
    };
    match keep(alloc, second, Input::Second, room) {
        Ok(second) => Ok(KeptTexts { first, second }),
        Err(why) => Err(Left {
            why,
            stream: kept_stream(first),
        }),
    }
}

// How many bytes there is room for beside the texts of gzip files, which are kept; none if they don't fit.
fn room_beside<I>(first: &Reading<I>, second: &Reading<I>, room: usize) -> Option<usize>
    ensures left { IfSome result (λ left. left ≡ room - text_len first.now - text_len second.now) }
    ensures full { IfNone result (room < text_len first.now + text_len second.now) }
{
    room.checked_sub(text_len(first))?
        .checked_sub(text_len(second))
}

// How many bytes of an input are in memory since it was surveyed.
fn text_len<I>(reading: &Reading<I>) -> usize
    ensures { result ≡ text_len reading.now }
{
    match reading {
        Reading::Text(text) => text.len(),
        Reading::File(_) | Reading::Stream(_) => 0,
    }
}

// Keeps the text of an input: a file is read now.
fn keep<I: Source + Drop>(
    alloc: Global,
    reading: Reading<I>,
    input: Input,
    room: usize,
) -> Result<Kept<I>, Why>
    ensures keeps { IfOk result (IsKept I.Source reading) }
    ensures file { IfErr result (λ why. stream_read reading ≡ None) }
    ensures why { IfErr result (IsUnkept I.Source reading input room) }
{
    match reading {
        Reading::File(source) => match read_text(alloc, source, room) {
            Ok(text) => Ok(Kept::File(text)),
            Err(cause) => Err(unkept_why(input, cause)),
        },
        Reading::Stream(stream) => Ok(Kept::Stream(stream)),
        Reading::Text(text) => Ok(Kept::File(text)),
    }
}

// Why a file isn't kept.
fn unkept_why(input: Input, cause: Unfinished) -> Why
    ensures { result ≡ unkept_why input cause }
{
    match cause {
        Unfinished::Failed => Why::Unopened(input),
        Unfinished::Long => Why::HitsRoom,
        Unfinished::NoMemory => Why::NoMemory,
    }
}

// The stream that is read of an input, if it is one.
fn stream_of<I: Drop>(reading: Reading<I>) -> Option<ReadStream<I>>
    ensures { result ≡ stream_read reading }
{
    match reading {
        Reading::Stream(stream) => Some(stream),
        Reading::File(_file) => None,
        Reading::Text(_text) => None,
    }
}

// The stream that was kept of an input, if it is one.
fn kept_stream<I: Drop>(kept: Kept<I>) -> Option<ReadStream<I>>
    ensures { result ≡ kept_stream kept }
{
    match kept {
        Kept::Stream(stream) => Some(stream),
        Kept::File(_text) => None,
    }
}

// The stream among both texts.
fn stream_kept<I: Drop>(texts: KeptTexts<I>) -> Option<ReadStream<I>>
    ensures { result ≡ stream_kept texts }
{
    let KeptTexts { first, second } = texts;
    match first {
        Kept::Stream(stream) => Some(stream),
        Kept::File(_text) => kept_stream(second),
    }
}

// Lists the hits of both texts, in an order of their chromosomes.
fn list_by<I: Source + Drop, F: Files<Input = I>, O: ChromOrder>(
    alloc: Global,
    files: &mut F,
    plan: &Plan,
    order: &O,
    texts: KeptTexts<I>,
) -> Result<Listed<F::Output>, Left<I>>
    requires { lists_hits plan.now.command ≡ true }
    ensures lists { IfOk result (λ listed. ListsBy F.Files F.Output.Sink files.old (plan_seen plan.now) (O.order order.now) texts
        listed files.new) }
    ensures stream { IfErr result (λ left. left.stream ≡ stream_kept texts) }
    ensures why { IfErr result (λ left. IsWhyOfKept left.why) }
    ensures unopened { IfErr result (λ left. files.new ≡ files.old) }
{
    let Some(listing) = listing_of(plan.command) else {
        return Err(Left {
            why: Why::Changed,
            stream: stream_kept(texts),
        });
    };
    let records = match records_in(alloc, order, &texts) {
        Ok(records) => records,
        Err(why) => {
            return Err(Left {
                why,
                stream: stream_kept(texts),
            });
        }
    };
    let output = files.standard_output();
    let (fault, output) = list_hits(alloc, order, listing, records, output);
    let message = end_of(alloc, plan, &Outcome { fault });
    Ok(Listed { message, output })
}

// What a command lists of each hit.
fn listing_of(command: Command) -> Option<Listing>
    ensures some { IfSome result (IsListing command) }
    ensures none { IfNone result (lists_hits command ≡ false) }
{
    match command {
        Command::Intersect { shape, rule, .. } => Some(Listing { shape, rule }),
        _ => None,
    }
}

// The records of both texts.
fn records_in<I, O: ChromOrder>(
    alloc: Global,
    order: &O,
    texts: &KeptTexts<I>,
) -> Result<BothRecords, Why>
    ensures first { IfOk result (λ records. AreRecordsOf (O.order order.now) (kept_text texts.now.first) records.first.items) }
    ensures second { IfOk result (λ records. AreRecordsOf (O.order order.now) (kept_text texts.now.second) records.second.items) }
    ensures first_placed { IfOk result (λ records. ArePlaced (O.order order.now) (intervals_of records.first.items)) }
    ensures second_placed { IfOk result (λ records. ArePlaced (O.order order.now) (intervals_of records.second.items)) }
    ensures why { IfErr result IsWhyOfKept }
{
    let first = match records_of_kept(alloc, order, &texts.first) {
        Ok(first) => first,
        Err(why) => return Err(why),
    };
    match records_of_kept(alloc, order, &texts.second) {
        Ok(second) => Ok(BothRecords { first, second }),
        Err(why) => Err(why),
    }
}

// The records of a text.
fn records_of_kept<I, O: ChromOrder>(
    alloc: Global,
    order: &O,
    kept: &Kept<I>,
) -> Result<VecDeque<Rec>, Why>
    ensures records { IfOk result (λ records. AreRecordsOf (O.order order.now) (kept_text kept.now) records.items) }
    ensures placed { IfOk result (λ records. ArePlaced (O.order order.now) (intervals_of records.items)) }
    ensures why { IfErr result IsWhyOfKept }
{
    let text = match kept {
        Kept::File(text) => text.as_slice(),
        Kept::Stream(stream) => stream.kept.as_slice(),
    };
    match records_of(alloc, order, text) {
        Ok(records) => Ok(records),
        Err(Unread::NoMemory) => Err(Why::NoMemory),
        Err(Unread::Fault) => Err(Why::Changed),
    }
}
