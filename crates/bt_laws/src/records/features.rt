//! Laws of records and of what inputs give.

ghost use Rattle.std.specs.Prelude.{◌≡◌, [], ◌∷◌, ◌++◌, Some, None, Ok, Err, codes};
ghost use Rattle.bt_laws.specs.Records.{shared_are_common, read_are_rewritten, written_are_read, stretches_are_one, first_lines_have_the_first, good_stand_on_lines, EarlyLinesBegin};
ghost use Rattle.bt_bed.specs.calls.Features.{wrong_lines_are_of_bed, said_are_features};
ghost use Rattle.bt_bed.specs.calls.Stretches.{scan_finds_stretches};
ghost use Rattle.bt_bed.specs.model.BedLine.{record_of};

use bt_bed::Strand;
use bt_lines::Kind;

/// The bases that two intervals share are those that both have. A set of positions is made up by one list of
/// intervals, which a scan finds.
pub fn intervals_are_sets_of_bases()
    ensures shared { shared_are_common }
    ensures one { stretches_are_one }
    ensures found { scan_finds_stretches }
{}

/// The good records of a text are on its lines, and those of its first lines are the first of them.
pub fn first_lines_have_the_first_records()
    ensures lines { good_stand_on_lines }
    ensures first { first_lines_have_the_first }
{}

/// What is wrong with a line of a BED input is of a kind that its order of the chromosomes allows.
pub fn wrong_lines_are_of_bed()
    ensures { wrong_lines_are_of_bed }
{}

/// What a line says is a feature: its name is one column, it has a base, and its numbers have at most
/// twelve digits. A feature's bytes, unless they are a header line, say the feature again; and so do those
/// of each feature that was read.
pub fn written_records_are_read_back()
    ensures said { said_are_features }
    ensures read_back { written_are_read }
    ensures rewritten { read_are_rewritten }
{}

/// When two inputs meet, what is written early begins what is written in the end, whichever fault is
/// reported.
pub fn early_lines_begin_the_whole<A>()
    ensures { EarlyLinesBegin A }
{}

/// What small texts say.
#[tactic(auto, unfolding(bt_bed::specs::model::BedLine::record_of, bt_lines::specs::model::Lines::value_of))]
pub fn records_of_small_texts()
    ensures blank { record_of [] ≡ Ok None }
    ensures comment { record_of (codes "#chr1\t1\t2") ≡ Ok None }
    ensures track { record_of (codes "track name=x") ≡ Ok None }
    ensures browser { record_of (codes "browser\tposition") ≡ Ok None }
    ensures no_track { record_of (codes "tracks\t1\t2")
        ≡ Ok (Some (record { chrom = codes "tracks"; start = 1; stop = 2; strand = Strand.Dot; rest = [] })) }
    ensures six_columns { record_of (codes "chr1\t007\t9\tn\t0\t+")
        ≡ Ok (Some (record { chrom = codes "chr1"; start = 7; stop = 9; strand = Strand.Plus; rest = codes "\tn\t0\t+" })) }
    ensures two_pluses { record_of (codes "chr1\t5\t9\tn\t0\t++")
        ≡ Ok (Some (record { chrom = codes "chr1"; start = 5; stop = 9; strand = Strand.Dot; rest = codes "\tn\t0\t++" })) }
    ensures trailing_tab { record_of (codes "chr1\t5\t9\t")
        ≡ Ok (Some (record { chrom = codes "chr1"; start = 5; stop = 9; strand = Strand.Dot; rest = codes "\t" })) }
    ensures few_columns { record_of (codes "chr1\t5") ≡ Err Kind.TooFewColumns }
    ensures no_name { record_of (codes "\tx\t1") ≡ Err Kind.EmptyName }
    ensures bad_start { record_of (codes "chr1\t-1\tx") ≡ Err Kind.BadStart }
    ensures bad_stop { record_of (codes "chr1\t1\tx") ≡ Err Kind.BadStop }
    ensures no_base { record_of (codes "chr1\t5\t5") ≡ Err Kind.EmptyFeature }
{}
