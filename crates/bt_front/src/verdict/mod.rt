//! Who takes a command line: Dunekettle, if it finishes and writes what bedtools writes.

pub(crate) mod counts;
pub(crate) mod exact;
pub(crate) mod naming;
pub(crate) mod reason;
#[cfg(test)]
mod tests;

ghost use Rattle.std.specs.Prelude.{◌≡◌, option_copied, option_map};
ghost use Rattle.std.specs.List.{list_all, list_any};
ghost use Rattle.bt_bed.specs.calls.GenomeTable.{entries};
ghost use Rattle.bt_front.specs.model.Verdict.{are_all_named, are_by_bytes, are_long_for, are_named_alike, genome_rows, have_common_order, is_by_genome, is_long_for, lacks_strand, longest_chromosome, longest_name, open_rows, order_of, text_rows, texts_of, verdict_of};
ghost use Rattle.bt_front.specs.model.Words.{first_of};

use crate::order::common_order::has_common_order;
use crate::order::fitting::{
    are_first_of, fits_lengths, has_longer, has_longer_name, is_in_order_of,
};
use crate::survey::Survey;
use crate::verdict::counts::{
    has_survey, is_coverage, needs_genome, needs_strand, rule_of, writes_gaps, writes_zeros,
};
use crate::verdict::exact::exact_below;
use crate::verdict::naming::{Naming, are_named};
use crate::verdict::reason::{InOrderOf, Reason};
use crate::words::Asked;
use bt_bed::Genome;
use bt_sweep::HitRule;
use bt_tool::Command;

// From this many records on a depth may have seven digits.
const MANY_RECORDS: u64 = 1_000_000;

// The longest name of a chromosome whose gaps bedtools always writes whole.
const LONGEST_NAME: usize = 900;

// The longest chromosome of which bedtools counts depths.
const LONGEST_CHROMOSOME: u64 = 2_147_483_647;

impl Asked {
    /// The order by which Dunekettle takes what is asked of these texts, or why bedtools takes it. Of a genome file the
    /// chromosomes alone are known. Whether several records hit one isn't known yet: if [`lists_hits`](crate::lists_hits)
    /// holds, and `-sorted` isn't given, the hits have to be looked at too.
    pub fn verdict(
        &self,
        first: &Survey,
        second: Option<&Survey>,
        genome: Option<&Genome>,
    ) -> Result<InOrderOf, Reason>
        ensures { result ≡ verdict_of self.now first.now (option_copied second.entry)
            (option_map entries (option_copied genome.entry)) }
    {
        if let Some(reason) = text_reason(self.command, first, second) {
            return Err(reason);
        }
        match genome {
            Some(genome) => match genome_reason(self.command, first, second, genome) {
                Some(reason) => Err(reason),
                None => Ok(InOrderOf::GenomeFile),
            },
            None => match open_reason(self, first, second) {
                Some(reason) => Err(reason),
                None if are_by_bytes(first, second) => Ok(InOrderOf::Bytes),
                None => Ok(InOrderOf::Found),
            },
        }
    }
}

// What in the texts makes it bedtools' own, whatever the order.
fn text_reason(command: Command, first: &Survey, second: Option<&Survey>) -> Option<Reason>
    ensures { result ≡ first_of (text_rows command first.now (option_copied second.entry)) }
{
    if !has_survey(command) {
        Some(Reason::NoSurvey)
    } else if needs_strand(command) && lack_strand(first, second) {
        Some(Reason::NoStrand)
    } else if rule_of(command).is_some() && !are_named_alike(first, second) {
        Some(Reason::MixedNames)
    } else if are_long_for(rule_of(command), first, second) {
        Some(Reason::LongForFraction)
    } else if is_coverage(command) && first.records.count >= MANY_RECORDS {
        Some(Reason::ManyRecords)
    } else {
        None
    }
}

// Whether a record has no strand.
fn lack_strand(first: &Survey, second: Option<&Survey>) -> bool
    ensures { result ≡ list_any lacks_strand (texts_of first.now (option_copied second.entry)) }
{
    match second {
        Some(second) => first.records.lacks_strand || second.records.lacks_strand,
        None => first.records.lacks_strand,
    }
}

// Whether the names of all chromosomes are written one way.
fn are_named_alike(first: &Survey, second: Option<&Survey>) -> bool
    ensures { result ≡ are_named_alike (texts_of first.now (option_copied second.entry)) }
{
    are_all_named(first, second, Naming::Bare)
        || are_all_named(first, second, Naming::Prefixed)
        || are_all_named(first, second, Naming::PrefixedZero)
}

// Whether they are all written this way.
fn are_all_named(first: &Survey, second: Option<&Survey>, way: Naming) -> bool
    ensures { result ≡ are_all_named (texts_of first.now (option_copied second.entry)) way }
{
    match second {
        Some(second) => are_named(&first.chromosomes, way) && are_named(&second.chromosomes, way),
        None => are_named(&first.chromosomes, way),
    }
}

// Whether a fraction is given, and a record of which it is may be too long for it.
fn are_long_for(rule: Option<HitRule>, first: &Survey, second: Option<&Survey>) -> bool
    ensures { result ≡ are_long_for rule first.now (option_copied second.entry) }
{
    match rule {
        Some(rule) if rule.billionths != 0 => match second {
            Some(second) if rule.both => is_long_for(rule, first) || is_long_for(rule, second),
            _ => is_long_for(rule, first),
        },
        _ => false,
    }
}

// Whether a record may be too long for the fraction of this rule.
fn is_long_for(rule: HitRule, text: &Survey) -> bool
    ensures { result ≡ is_long_for rule text.now }
{
    exact_below(rule.billionths) <= text.records.longest
}

// What makes it bedtools' own with this genome file.
fn genome_reason(
    command: Command,
    first: &Survey,
    second: Option<&Survey>,
    genome: &Genome,
) -> Option<Reason>
    ensures { result ≡ first_of (genome_rows command first.now (option_copied second.entry) (entries genome.now)) }
{
    if !are_by_genome(first, second, genome) {
        Some(Reason::NotByGenome)
    } else if needs_genome(command) && !fits_lengths(&first.chromosomes, genome) {
        Some(Reason::PastLength)
    } else if is_coverage(command) && has_longer(genome, LONGEST_CHROMOSOME) {
        Some(Reason::LongChromosome)
    } else if writes_gaps(command) && has_longer_name(genome, LONGEST_NAME) {
        Some(Reason::LongName)
    } else if writes_zeros(command) && !are_first_of(&first.chromosomes, genome) {
        Some(Reason::EmptyNotLast)
    } else {
        None
    }
}

// Whether the texts are in the order of the genome file.
fn are_by_genome(first: &Survey, second: Option<&Survey>, genome: &Genome) -> bool
    ensures { result ≡ list_all (is_by_genome (entries genome.now)) (texts_of first.now (option_copied second.entry)) }
{
    match second {
        Some(second) => {
            is_in_order_of(&first.chromosomes, genome)
                && is_in_order_of(&second.chromosomes, genome)
        }
        None => is_in_order_of(&first.chromosomes, genome),
    }
}

// What makes it bedtools' own without a genome file.
fn open_reason(asked: &Asked, first: &Survey, second: Option<&Survey>) -> Option<Reason>
    ensures { result ≡ first_of (open_rows asked.now first.now (option_copied second.entry)) }
{
    if needs_genome(asked.command) {
        Some(Reason::NoGenome)
    } else if are_by_bytes(first, second) {
        None
    } else if asked.is_sorted {
        Some(Reason::NotByBytes)
    } else if !have_common_order(first, second) {
        Some(Reason::NoCommonOrder)
    } else {
        None
    }
}

// Whether the texts are in the order of the names' bytes.
fn are_by_bytes(first: &Survey, second: Option<&Survey>) -> bool
    ensures { result ≡ are_by_bytes first.now (option_copied second.entry) }
{
    match second {
        Some(second) => first.chromosomes.are_by_bytes() && second.chromosomes.are_by_bytes(),
        None => first.chromosomes.are_by_bytes(),
    }
}

// Whether an order fits the texts.
fn have_common_order(first: &Survey, second: Option<&Survey>) -> bool
    ensures { result ≡ have_common_order first.now (option_copied second.entry) }
{
    match second {
        Some(second) => has_common_order(&first.chromosomes, Some(&second.chromosomes)),
        None => has_common_order(&first.chromosomes, None),
    }
}
