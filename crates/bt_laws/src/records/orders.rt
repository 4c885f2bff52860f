//! Laws of orders: of chromosomes, and of sorted records.

ghost use Rattle.std.specs.Prelude.{◌≡◌, [], ◌∷◌, ◌++◌, codes};
ghost use Rattle.std.specs.declared.cmp.Ordering.TheVariants.{Less};
ghost use Rattle.bt_bed.specs.model.Order.{byte_order};
ghost use Rattle.bt_bed.specs.calls.Orders.{bytes_are_total, ranks_are_total, good_are_non_empty, good_are_placed, good_are_in_blocks, prefixes_are_placed, placed_grows, sorted_by_places, prefixes_are_contiguous, placed_are_contiguous};
ghost use Rattle.bt_laws.specs.Records.{bytes_know_each_chromosome, first_difference_decides, prefixes_come_first, contiguous_grows, first_lines_make_entries, genome_names_are_distinct, blocks_know_each_chromosome, good_in_blocks_are_non_empty, good_in_blocks_stand_on_lines};

/// Records in order stay so with a next one that isn't below the last, and so do the first of them. In a total order
/// of the chromosomes the records of each are contiguous, and records are sorted by their places.
#[tactic(auto, using(bt_bed::proofs::lemmas::order::OrderLemmas::grows_placed, crate::proofs::lemmas::single::Records::grows_contiguous, bt_bed::proofs::lemmas::order::OrderLemmas::placed_prefix, bt_bed::proofs::lemmas::order::OrderLemmas::contiguous_prefix, bt_bed::proofs::lemmas::order::OrderLemmas::placed_contiguous, bt_bed::proofs::lemmas::order::OrderLemmas::places_sorted))]
pub fn records_are_ordered()
    ensures placed { placed_grows }
    ensures contiguous { contiguous_grows }
    ensures placed_prefix { prefixes_are_placed }
    ensures contiguous_prefix { prefixes_are_contiguous }
    ensures gathered { placed_are_contiguous }
    ensures sorted { sorted_by_places }
{}

/// The good records of an input are in order, and each has a base. Those of an input in blocks are in order in each
/// of them, each has a base, and they are on the lines of the text. In blocks every name is a chromosome, so no line
/// is at fault for it.
pub fn good_records_are_in_order()
    ensures placed { good_are_placed }
    ensures non_empty { good_are_non_empty }
    ensures in_blocks { good_are_in_blocks }
    ensures non_empty_in_blocks { good_in_blocks_are_non_empty }
    ensures lines_of_blocks { good_in_blocks_stand_on_lines }
    ensures known_in_blocks { blocks_know_each_chromosome }
{}

/// A genome file without a fault has each chromosome once. The lines before the first fault of one have none.
#[tactic(auto, using(crate::proofs::lemmas::single::Records::distinct_genome, crate::proofs::lemmas::single::Records::first_make_entries))]
pub fn chromosomes_come_once()
    ensures distinct { genome_names_are_distinct }
    ensures first { first_lines_make_entries }
{}

/// The ranks of names give a total order of them, in which only equal names compare as equal, and so do the bytes of
/// all names. By bytes a name comes before the longer ones that it begins, and else the first byte that differs decides. No
/// chromosome is unknown to it.
#[tactic(auto, using(bt_bed::specs::calls::Orders::bytes_total, crate::proofs::lemmas::single::Records::prefix_first, crate::proofs::lemmas::single::Records::difference_decides, crate::proofs::lemmas::single::Records::know_each, bt_bed::specs::inside::RankTotal::ranks_total))]
pub fn names_are_ordered()
    ensures ranks { ranks_are_total }
    ensures total { bytes_are_total }
    ensures prefix { prefixes_come_first }
    ensures difference { first_difference_decides }
    ensures known { bytes_know_each_chromosome }
    ensures prefix_of_a_name { byte_order.compare (codes "chr") (codes "chr1") ≡ Less }
    ensures prefix_of_a_number { byte_order.compare (codes "chr1") (codes "chr10") ≡ Less }
    ensures no_number { byte_order.compare (codes "chr10") (codes "chr2") ≡ Less }
    ensures capital { byte_order.compare (codes "chrX") (codes "chra") ≡ Less }
{}
