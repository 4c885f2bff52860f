//! What a user sees, from words and texts, by the definitions that the contracts of `plan`,
//! `usage_line`, `run` and `Outcome` cite. The functions do nothing: each carries a fact on which its callers may rely.

ghost use Rattle.std.specs.Prelude.{List, ◌≡◌, Err};
ghost use Rattle.bt_tool.specs.calls.Run.{ShowsReport};
ghost use Rattle.bt_tool.specs.calls.CommandLine.{ReportsAnswer};
ghost use Rattle.bt_tool.specs.calls.Inputs.{reads_tell_the_text};
ghost use Rattle.bt_tool.specs.model.Table.{Word};
ghost use Rattle.bt_tool.specs.model.Options.{options};
ghost use Rattle.bt_tool.specs.declared.options.usage.Usage.{Usage};

use bt_lines::{Sink, Source};

/// What a run gives, for every list of words and all bytes of the inputs. If the words can't be used, it is the
/// line and the status 2 of `report`. Else, over devices that work and with memory, it is the bytes, the line and the
/// status that `report` gives from the words and the whole texts.
pub fn runs_show_the_report<G: Source, A: Source, B: Source, K: Sink>()
    ensures usage { (words : List Word) (usage : Usage) → options words ≡ Err usage
        → ReportsAnswer words (Err usage) }
    ensures run { ShowsReport G.Source A.Source B.Source K.Sink }
{}

/// What a run read of an input that tells its text: the bytes that its reads handed over begin the text, also if one
/// failed, and are all of it if one reported the end. Laws of bt_lines say which sources tell theirs.
pub fn reads_tell_the_text<S: Source>()
    ensures { reads_tell_the_text S.Source }
{}
