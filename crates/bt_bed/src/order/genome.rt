//! The chromosomes of a genome file.

ghost use Rattle.std.specs.Prelude.{◌<◌, All};

use crate::order::genome_line::entry;
use crate::parse::faults::at_line;
use crate::parse::names::is_same_name;
use bt_lines::{Fault, Kind, LineReader, Place, Source, no_memory};
use indexmap::IndexMap;
use std::alloc::Global;

/// The chromosomes of a genome file, each with its length in bases. They are in the file's order,
/// and a chromosome's rank is its index there, from 0 (bedtools manual, genome file format). A look-up
/// by name is hashed.
#[derive(Drop, Debug)]
pub struct Genome {
    // Always valid: each length is above 0, and the names are distinct.
    lengths: IndexMap<Vec<u8>, u64>,
    ghost non_empty: { All (λ chromosome. 0 < chromosome.1) lengths.entries },
}

#[tactic(auto, unfolding(crate::specs::calls::GenomeTable::entries))]
impl Genome {
    ghost use Rattle.std.specs.Prelude.{◌≡◌, false, [], ◌∷◌, ◌++◌, length, slice_get, Some, IsTrue, IfErr, OnOk, option_map};
    ghost use Rattle.bt_lines.specs.calls.Faults.{no_memory};
    ghost use Rattle.bt_lines.specs.calls.Names.{fault_value};
    ghost use Rattle.bt_bed.specs.model.Genome.{entry_of, new_entry};
    ghost use Rattle.bt_bed.specs.calls.Reading.{IsLost};
    ghost use Rattle.bt_bed.specs.model.Order.{is_among, rank_of};
    ghost use Rattle.bt_bed.specs.calls.GenomeTable.{LineAdded, ReadsGenome, entries, entry_lent, entry_said, names_of};

    /// A genome without chromosomes, as that of a run that has no genome file.
    pub fn new(alloc: Global) -> Genome
        ensures { entries result ≡ [] }
    {
        Genome {
            lengths: IndexMap::new(alloc),
        }
    }

    /// Reads a genome file to its end. Each line has a name, a tab and a length, and other columns
    /// are ignored, so that an index of `samtools faidx` serves too. Blank lines and lines that begin
    /// with `#` are skipped (bedtools manual, genome file format).
    ///
    /// The first line at fault is reported, and nothing after it is read. The fault is `TooFewColumns` if it
    /// has no second column, else `EmptyName`, else `BadLength` if the length is 0 or no number, else
    /// `RepeatedChrom` if a line before it has the name. Running out of memory for the table comes after
    /// these, and the reader's own faults, `ReadFailed` and `NoMemory`, before. A fault that the reader
    /// had already is returned again.
    pub fn read<S: Source>(alloc: Global, reader: &mut LineReader<S>) -> Result<Genome, Fault>
        ensures { ReadsGenome S.Source reader.old result reader.new }
    {
        let input = reader.input();
        let mut genome = Genome::new(alloc);
        while let Some(line) = reader.next()? {
            let place = Place {
                input,
                line: line.number,
            };
            genome.add_line(alloc, place, line.text)?;
        }
        Ok(genome)
    }

    /// The rank of a chromosome, from 0, if the genome file has it. Names are compared byte for byte.
    pub fn rank(&self, name: &[u8]) -> Option<usize>
        ensures { result ≡ rank_of (names_of self.now) name.now }
    {
        self.lengths.get_index_of(name)
    }

    /// How many chromosomes there are.
    pub fn count(&self) -> usize
        ensures { result ≡ length (entries self.now) }
    {
        self.lengths.len()
    }

    /// The name of the chromosome of this rank, which is below [`Genome::count`].
    #[tactic(auto, using(crate::proofs::lemmas::order::TableLemmas::name_at), unfolding(crate::specs::calls::GenomeTable::entries))]
    pub fn name(&self, rank: usize) -> &[u8]
        requires { rank < length (entries self.now) }
        ensures { slice_get (names_of self.now) rank ≡ Some result.now }
    {
        let (name, _) = self.lengths.get_index(rank).unwrap();
        name.as_slice()
    }

    /// The length in bases, at least 1, of the chromosome of this rank, which is below [`Genome::count`].
    #[tactic(auto, using(crate::proofs::lemmas::order::TableLemmas::length_at, crate::proofs::lemmas::order::TableLemmas::some_length), unfolding(crate::specs::calls::GenomeTable::entries))]
    pub fn length(&self, rank: usize) -> u64
        requires { rank < length (entries self.now) }
        ensures is { option_map (λ entry. entry.length) (slice_get (entries self.now) rank) ≡ Some result }
        ensures some { 0 < result }
    {
        self.lengths[rank]
    }

    // Whether the chromosome of this name has this rank.
    pub(crate) fn has_rank(&self, name: &[u8], rank: usize) -> bool
        ensures { IsTrue result → rank_of (names_of self.now) name.now ≡ Some rank }
    {
        rank < self.lengths.len() && is_same_name(self.name(rank), name)
    }

    // Adds what a line says. The contracts of std don't say when a list or a map can't grow, so `test_sizes.py` tries that
    // memory runs out only if a growth was refused.
    fn add_line(&mut self, alloc: Global, place: Place, text: &[u8]) -> Result<(), Fault>
        ensures added { OnOk result (LineAdded text.now self.old self.new) }
        ensures refused { IfErr result (λ fault.
            IsLost place (new_entry (names_of self.old) (entry_of text.now)) (fault_value fault)) }
    {
        let entry = match entry(text) {
            Ok(Some(entry)) => entry,
            Ok(None) => return Ok(()),
            Err(kind) => return Err(at_line(kind, place)),
        };
        if self.rank(entry.name).is_some() {
            return Err(at_line(Kind::RepeatedChrom, place));
        }
        let Ok(name) = Vec::from_slice(alloc, entry.name) else {
            return Err(no_memory());
        };
        match self.lengths.insert(name, entry.length) {
            Ok(_new) => Ok(()),
            Err(_failed) => Err(no_memory()),
        }
    }
}

#[cfg(test)]
mod tests {
    use super::*;
    use crate::tests::{compared, fault_at, genome_of, holds};
    use bt_lines::Input;
    use std::alloc::AllocError;
    use std::cmp::Ordering;
    use std::process::Abort;
    use std::test::Fail;

    // How many chromosomes a text has, or what is wrong with it at which line.
    type Count = Result<usize, (Kind, u64)>;

    // A genome file, how many of its bytes can be read, and its count or fault.
    type Row<'a> = (&'a [u8], usize, Count);

    const COUNTS: [Row; 10] = [
        (b"", 99, Ok(0)),
        (b"chr1\t10\t52\t60\t61\n", 99, Ok(1)),
        (b"# all\n\nchr1\t10\n\r\n#\t\t\nchr2\t20", 99, Ok(2)),
        (b"\n\t10\n", 99, Err((Kind::EmptyName, 2))),
        (b"chr1\tx\n", 99, Err((Kind::BadLength, 1))),
        (b"chr1\t10\nchr2\t0\n", 99, Err((Kind::BadLength, 2))),
        (b"chr1\t10\nchr1\t20\n", 99, Err((Kind::RepeatedChrom, 2))),
        (
            b"chr1\t10\nchr2\nchr1\t10\n",
            99,
            Err((Kind::TooFewColumns, 2)),
        ),
        (b"chr1\t10\nchr2\t5\n", 8, Err((Kind::ReadFailed, 2))),
        (b"chr1\t10\nchr2\t5\n", 15, Err((Kind::ReadFailed, 3))),
    ];

    fn check_counts(rt: &impl Abort, alloc: Global, rows: &[Row]) {
        for (text, good, want) in rows {
            let count: Count = match genome_of(alloc, text, 7, Some(*good)) {
                Ok(genome) => Ok(genome.count()),
                Err(fault) => Err(fault_at(fault, Input::Genome)),
            };
            assert_eq!(rt; count, *want, "{text:?}");
        }
    }

    #[test]
    fn counts_chromosomes(rt: HostRuntime) {
        check_counts(&rt, rt.alloc(), &COUNTS);
    }

    // Whether the second of two chromosomes is found by its name and by its rank.
    fn is_found(genome: &Genome) -> bool {
        if genome.count() != 2
            || genome.rank(b"chr2") != Some(1)
            || genome.rank(b"chr3").is_some()
        {
            return false;
        }
        genome.name(1) == b"chr2".as_slice() && genome.length(1) == 7
    }

    // Whether chromosomes are ordered by their lines, and others are unknown.
    fn orders(genome: &Genome) -> bool {
        compared(genome, b"chr10", b"chr2") == Some(Ordering::Less)
            && compared(genome, b"chr2", b"chr2") == Some(Ordering::Equal)
            && compared(genome, b"chr2", b"chr3").is_none()
            && compared(genome, b"chr3", b"chr2").is_none()
    }

    #[test]
    fn finds_and_orders_chromosomes(rt: HostRuntime) -> Result<(), Fail> {
        let genome = genome_of(rt.alloc(), b"chr10\t5\nchr2\t7\n", 1, None)?;
        holds(&rt, is_found(&genome), "found");
        holds(&rt, orders(&genome), "in order");
        Ok(())
    }

    // A genome file of the names c0, c1 and so on.
    fn numbered(alloc: Global, count: u64) -> Result<Vec<u8>, AllocError> {
        let mut text = Vec::new(alloc);
        for n in 0..count {
            text.extend_from_slice(format!(in alloc; "c{n}\t5\n")?.as_bytes())?;
        }
        Ok(text)
    }

    #[test]
    fn finds_the_last_of_many(rt: HostRuntime) -> Result<(), Fail> {
        let text = numbered(rt.alloc(), 2000)?;
        let genome = genome_of(rt.alloc(), text.as_slice(), 512, None)?;
        let is_last = genome.count() == 2000 && genome.rank(b"c1999") == Some(1999);
        holds(&rt, is_last, "the last");
        Ok(())
    }
}
