//! The rules by which engines take records, and the loop that all of them share.

ghost use Rattle.std.specs.Prelude.{◌≡◌, None, Option, Result, Some, OnOk};
ghost use Rattle.bt_runs.specs.inside.Walk.{Does, EnterAnswers, FitsPast, FollowsCursor, PutsRestAtEnd, RuleDef};

use crate::engine::failure::Failure;
use bt_bed::{Cursor, Record};
use bt_lines::{Fault, Out, Sink};

// The rule by which an engine takes records, one chromosome after another.
pub(crate) trait Rule {
    // What it keeps of the chromosome that it is on, in a local while it takes a batch.
    type OnChrom;

    // What it does with all records, and with one more.
    ghost definition: { RuleDef Self };

    // What it becomes when it keeps what was in the local.
    ghost with_on: { Self → Self.OnChrom → Self };

    // Goes on to the chromosome of this name, which may be the one that it is on, and writes the lines that this settles.
    // No clause says when the buffer of a name can't grow: `test_sizes.py` tries that memory runs out only if a growth
    // was refused.
    fn enter<K: Sink>(&mut self, chrom: &[u8], out: &mut Out<K>) -> Result<(), Fault>
        ensures on { OnOk result (definition.is_on self.new chrom.now) }
        ensures enters { EnterAnswers definition self.old chrom.now out.old.output result self.new out.new.output };

    // What it keeps of the chromosome that it is on.
    fn on_chrom(&self) -> Self::OnChrom
        ensures { with_on self.now result ≡ self.now };

    // Takes the next record, which lies on that chromosome, and writes the lines that it settles.
    fn step<R: Record, K: Sink>(
        &mut self,
        on: &mut Self::OnChrom,
        record: &R,
        out: &mut Out<K>,
    ) -> Result<(), Fault>
        requires { definition.is_on (with_on self.old on.old) (R.feature «record».now).chrom }
        ensures on { OnOk result (definition.is_on (with_on self.new on.new) (R.feature «record».now).chrom) }
        ensures does { Does definition (with_on self.old on.old) (R.feature «record».now) out.old.output result
            (with_on self.new on.new) out.new.output }
        ensures fits { FitsPast definition (with_on self.old on.old) (R.feature «record».now) };

    // Keeps what was in the local.
    fn leave(&mut self, on: Self::OnChrom)
        ensures { self.new ≡ with_on self.old on };

    // Writes the lines that are still unsettled, after the last record.
    fn finish<K: Sink>(self, out: &mut Out<K>) -> Result<(), Fault>
        ensures { PutsRestAtEnd definition self out.old.output result out.new.output };
}

// A rule, and the failure that ended it, if there was one.
#[derive(Drop, Debug)]
pub(crate) struct Ruled<E> {
    rule: E,
    // It is returned from then on.
    failure: Option<Failure>,
}

impl<E: Rule + Drop> Ruled<E> {
    ghost use Rattle.bt_runs.specs.calls.Engine.{FeedsBatch, Finishes, ruled};

    // A rule that has taken no record.
    pub(crate) fn new(rule: E) -> Ruled<E>
        ensures { result ≡ record { rule = rule; failure = None } }
    {
        Ruled {
            rule,
            failure: None,
        }
    }

    // The rule. Each field is named: with one more, in which a list could be kept, this wouldn't compile.
    pub(crate) fn rule(&self) -> &E
        ensures { result.now ≡ self.now.rule }
    {
        let Ruled { rule, failure: _ } = self;
        rule
    }

    // Takes the records that a cursor gives, unless it has failed. It is out of line, so that the hot loop stays small.
    #[inline(never)]
    pub(crate) fn feed_batch<C: Cursor, K: Sink>(
        &mut self,
        records: &mut C,
        out: &mut Out<K>,
    ) -> Result<(), Fault>
        ensures { FeedsBatch (ruled E.definition.engine) C.Cursor self.old records.old out.old.output result self.new records.new
            out.new.output }
    {
        if let Some(failure) = self.failure {
            return Err(failure.fault());
        }
        let fed = follow(&mut self.rule, records, out);
        if let Err(fault) = &fed {
            self.failure = Some(Failure::of(fault));
        }
        fed
    }

    // Writes the lines that are still unsettled, unless it has failed.
    #[tactic(auto, using(crate::proofs::lemmas::Engine::ruled_finishes))]
    pub(crate) fn finish<K: Sink>(self, out: &mut Out<K>) -> Result<(), Fault>
        ensures { Finishes (ruled E.definition.engine) self out.old.output result out.new.output }
    {
        let Ruled { rule, failure } = self;
        match failure {
            Some(failure) => Err(failure.fault()),
            None => rule.finish(out),
        }
    }
}

// Takes the records that a cursor gives, one after another. The chromosome is entered once.
#[inline(always)]
fn follow<E: Rule, C: Cursor, K: Sink>(
    rule: &mut E,
    records: &mut C,
    out: &mut Out<K>,
) -> Result<(), Fault>
    ensures { FollowsCursor E.definition C.Cursor rule.old records.old out.old.output result rule.new records.new out.new.output }
{
    let mut ahead = *records;
    let Some(mut record) = ahead.next() else {
        return Ok(());
    };
    if let Err(fault) = rule.enter(records.chrom(), out) {
        *records = ahead;
        return Err(fault);
    }
    let mut on = rule.on_chrom();
    loop {
        if let Err(fault) = rule.step(&mut on, &record, out) {
            *records = ahead;
            rule.leave(on);
            return Err(fault);
        }
        match ahead.next() {
            Some(next) => record = next,
            None => break,
        }
    }
    *records = ahead;
    rule.leave(on);
    Ok(())
}
