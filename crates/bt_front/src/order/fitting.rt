//! Whether the chromosomes of an input fit those of a genome file.

ghost use Rattle.std.specs.Prelude.{◌≡◌, length, nat_lt};
ghost use Rattle.std.specs.List.{list_any};
ghost use Rattle.bt_bed.specs.model.Order.{rank_order};
ghost use Rattle.bt_bed.specs.calls.GenomeTable.{entries, names_of};
ghost use Rattle.bt_front.specs.model.Extents.{extents_in, names_in};
ghost use Rattle.bt_front.specs.model.Fitting.{are_first, are_in_order, ends_fit};

use crate::survey::chromosomes::Chromosomes;
use bt_bed::{Genome, is_same_name};

/// Whether the genome file has all of the chromosomes, and has them in their order.
pub(crate) fn is_in_order_of(chromosomes: &Chromosomes, genome: &Genome) -> bool
    ensures { result ≡ are_in_order (rank_order (names_of genome.now)) (names_in chromosomes.now) }
{
    let ranks = genome.count();
    // The least rank that the next one may have.
    let mut least = 0;
    for at in 0..chromosomes.count() {
        let Some(rank) = genome.rank(chromosomes.name(at)) else {
            return false;
        };
        if rank < least {
            return false;
        }
        prove!(rank < ranks);
        least = rank + 1;
    }
    true
}

/// Whether the genome file has all of the chromosomes, and the records of each end within its length.
pub(crate) fn fits_lengths(chromosomes: &Chromosomes, genome: &Genome) -> bool
    ensures { result ≡ ends_fit (entries genome.now) (extents_in chromosomes.now) }
{
    for at in 0..chromosomes.count() {
        let Some(rank) = genome.rank(chromosomes.name(at)) else {
            return false;
        };
        if genome.length(rank) < chromosomes.extent(at).stop {
            return false;
        }
    }
    true
}

/// Whether the genome file begins with the chromosomes, so that those without records come last in it.
pub(crate) fn are_first_of(chromosomes: &Chromosomes, genome: &Genome) -> bool
    ensures { result ≡ are_first (names_of genome.now) (names_in chromosomes.now) }
{
    let count = genome.count();
    for at in 0..chromosomes.count() {
        let name = chromosomes.name(at);
        if count <= at {
            return false;
        }
        if !is_same_name(genome.name(at), name) {
            return false;
        }
    }
    true
}

/// Whether the genome file has a chromosome longer than this.
pub(crate) fn has_longer(genome: &Genome, length: u64) -> bool
    ensures { result ≡ list_any (λ entry. nat_lt length entry.length) (entries genome.now) }
{
    for rank in 0..genome.count() {
        if length < genome.length(rank) {
            return true;
        }
    }
    false
}

/// Whether the genome file has a name of more bytes than this.
pub(crate) fn has_longer_name(genome: &Genome, most: usize) -> bool
    ensures { result ≡ list_any (λ name. nat_lt most (length name)) (names_of genome.now) }
{
    for rank in 0..genome.count() {
        if most < genome.name(rank).len() {
            return true;
        }
    }
    false
}
